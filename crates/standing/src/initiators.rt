// The initiators: each TransportID by itself, each two, and the AccessID of each enrolment.
ghost use Rattle.std.specs.Prelude.{◌≡◌, not, ◌<◌, ◌/◌, ◌≤◌, length, take};
ghost use Rattle.lists.specs.Lists.{all, pairs, parts};
ghost use Rattle.lists.specs.Bytes.{same_bytes};
ghost use Rattle.paper.specs.Identifiers.{valid_transport};
ghost use Rattle.paper.specs.Tables.{enrolments_of, enrolment_in};
ghost use Rattle.paper.specs.Standing.{enrolment_refers};

use paper::state::{Coordinator, ENROLMENT_SIZE, ID_SIZE, IdType, Initiators};
use tables::enrolments::Enrolment;
use tables::{aces, identifiers};

// The first n parts of bytes that hold one of N bytes for each initiator.
#[tactic(auto, using(crate::proofs::Chunks::chunks_parts))]
fn parts<const N: usize>(bytes: &[u8], n: usize) -> &[[u8; N]]
    requires { 0 < N }
    ensures { result.now ≡ take n (parts N (length bytes.now / N) bytes.now) }
{
    let (all, _) = bytes.as_chunks();
    lists::first(all, n)
}

// The TransportIDs, by initiator number.
#[tactic(auto, using(crate::proofs::Chunks::transports_lem))]
fn transports(t: &Initiators) -> &[[u8; ID_SIZE]]
    requires { t.now.count ≤ 16 }
    ensures { result.now ≡ parts 24 t.now.count t.now.ids }
{
    parts(&t.ids, t.count)
}

// "the initiators' 24-byte TransportIDs, all different and valid"
pub fn transports_valid(t: &Initiators) -> bool
    requires { t.now.count ≤ 16 }
    ensures { result ≡ all valid_transport (parts 24 t.now.count t.now.ids) }
{
    transports(t)
        .iter()
        .all(|id| identifiers::valid_transport(id))
}

pub fn transports_once(t: &Initiators) -> bool
    requires { t.now.count ≤ 16 }
    ensures { result ≡ not (pairs (same_bytes 24) (parts 24 t.now.count t.now.ids)) }
{
    !lists::some_pair(transports(t), |a, b| wire::same(a, b, ID_SIZE))
}

// Whether an enrolment, read from its bytes, is under an AccessID that has an ACE, if it is under any.
fn enrolment_refers(c: &Coordinator, e: &[u8]) -> bool
    ensures { result ≡ enrolment_refers c.now (enrolment_in e.now) }
{
    match Enrolment::from_bytes(e) {
        Enrolment::NotEnrolled => true,
        Enrolment::Enrolled(id) | Enrolment::Pending(id) => {
            aces::has_ace(c.acl.in_use(), IdType::AccessId, id)
        }
    }
}

// Each initiator that is enrolled or pending is so under an AccessID that has an ACE.
pub fn enrolments_refer(c: &Coordinator) -> bool
    ensures { result ≡ all (enrolment_refers c.now) (enrolments_of c.now) }
{
    for e in parts::<ENROLMENT_SIZE>(&c.initiators.enrolments, c.initiators.count) {
        if !enrolment_refers(c, e) {
            return false;
        }
    }
    true
}
