// Enrolments, and the TransportIDs beside them: read from their bytes, and rebuilt after a change.
ghost use Rattle.std.specs.Prelude.{◌≡◌, [], ◌∷◌, map, ◌*◌, ◌≤◌, take, drop};
ghost use Rattle.lists.specs.Lists.{parts};
ghost use Rattle.paper.specs.Identifiers.{kept};
ghost use Rattle.paper.specs.Tables.{enrolment_in, enrolment_bytes, enrolment_table};
ghost use Rattle.paper.specs.Effects.{suspended, ended_under};
ghost use Rattle.paper.specs.declared.state.IdType.TheVariants.{AccessId};
ghost use Rattle.tables.specs.Changes.{changed, changed_at, meant};

use crate::identifiers;
use paper::state::{ENROLMENT_SIZE, ENROLMENTS_SIZE, ID_SIZE, IDS_SIZE, IdType, Initiators};

// What happens to enrolments: an initiator joins, leaves or loses its link; FLUSH; or those under an AccessID end.
#[derive(Clone, Copy)]
pub enum Change {
    Joined(usize),
    Left(usize),
    LinkEvent(usize),
    Flushed,
    EndedUnder,
}

// "States: not-enrolled, enrolled, pending.", the latter two under an AccessID.
#[derive(Clone, Copy)]
pub enum Enrolment<'a> {
    NotEnrolled,
    Enrolled(&'a [u8]),
    Pending(&'a [u8]),
}

impl<'a> Enrolment<'a> {
    // Read from its bytes: the stage, 1 enrolled and 2 pending, then the AccessID.
    pub fn from_bytes(bytes: &'a [u8]) -> Self
        ensures { meant result ≡ enrolment_in bytes.now }
    {
        match bytes {
            [1, id @ ..] => Enrolment::Enrolled(id),
            [2, id @ ..] => Enrolment::Pending(id),
            _ => Enrolment::NotEnrolled,
        }
    }

    // The bytes that hold it.
    pub fn to_bytes(self) -> [u8; ENROLMENT_SIZE]
        ensures { result ≡ enrolment_bytes (meant self.entry) }
    {
        match self {
            Enrolment::NotEnrolled => [0; ENROLMENT_SIZE],
            Enrolment::Enrolled(id) => staged(1, id),
            Enrolment::Pending(id) => staged(2, id),
        }
    }

    // Pending, if it was enrolled.
    fn suspended(self) -> Self
        ensures { meant result ≡ suspended (meant self.entry) }
    {
        match self {
            Enrolment::Enrolled(id) => Enrolment::Pending(id),
            _ => self,
        }
    }

    // Not enrolled, if it was under this AccessID.
    fn ended_under(self, id: &[u8]) -> Self
        ensures { meant result ≡ ended_under id.now (meant self.entry) }
    {
        match self {
            Enrolment::Enrolled(a) | Enrolment::Pending(a)
                if identifiers::same_id(IdType::AccessId, a, IdType::AccessId, id) => {
                Enrolment::NotEnrolled
            }
            _ => self,
        }
    }

    // That of initiator i after a change.
    fn changed(self, change: Change, i: usize, id: &'a [u8]) -> Self
        ensures { meant result ≡ changed_at change id.now i (meant self.entry) }
    {
        match change {
            Change::Joined(j) if i == j => Enrolment::Enrolled(id),
            Change::Left(j) if i == j => Enrolment::NotEnrolled,
            Change::LinkEvent(j) if i == j => self.suspended(),
            Change::Flushed => self.suspended(),
            Change::EndedUnder => self.ended_under(id),
            _ => self,
        }
    }
}

// A stage, and the AccessID as it is kept.
fn staged(stage: u8, id: &[u8]) -> [u8; ENROLMENT_SIZE]
    ensures { result ≡ stage ∷ kept AccessId id.now }
{
    let mut bytes = [stage; ENROLMENT_SIZE];
    bytes[1..].copy_from_slice(&identifiers::kept_id(IdType::AccessId, id));
    bytes
}

// The part of an initiator, in bytes that hold one of this size for each; nothing past their end.
fn part(bytes: &[u8], size: usize, i: usize) -> &[u8]
    ensures { result.now ≡ take size (drop (size * i) bytes.now) }
{
    lists::first(lists::behind(bytes, size.saturating_mul(i)), size)
}

// The TransportID of an initiator, in the bytes that hold them all; nothing past the last initiator that there is room for.
pub fn transport_part(ids: &[u8; IDS_SIZE], i: usize) -> &[u8]
    ensures { result.now ≡ take 24 (drop (24 * i) ids.now) }
{
    part(ids, ID_SIZE, i)
}

// The enrolment of an initiator, in the same way: its stage, then the AccessID.
pub fn enrolment_part(enrolments: &[u8; ENROLMENTS_SIZE], i: usize) -> &[u8]
    ensures { result.now ≡ take 25 (drop (25 * i) enrolments.now) }
{
    part(enrolments, ENROLMENT_SIZE, i)
}

// The initiators with their enrolments after a change.
pub fn enrolments_after(t: Initiators, change: Change, id: &[u8]) -> Initiators
    requires { t.count ≤ 16 }
    ensures { result ≡ record { count = t.count; ids = t.ids; enrolments = enrolment_table (changed change id.now (map enrolment_in (parts 25 t.count t.enrolments))) } }
{
    let Initiators {
        count,
        enrolments,
        ..
    } = t;
    let mut after = [0; ENROLMENTS_SIZE];
    for i in 0..count {
        let at = ENROLMENT_SIZE * i;
        let end = at + ENROLMENT_SIZE;
        let new = Enrolment::from_bytes(&enrolments[at..end]).changed(change, i, id);
        after[at..end].copy_from_slice(&new.to_bytes());
    }
    Initiators {
        enrolments: after,
        ..t
    }
}

// The initiators with nobody enrolled.
pub fn nobody_enrolled(t: Initiators) -> Initiators
    ensures { result ≡ record { count = t.count; ids = t.ids; enrolments = enrolment_table [] } }
{
    Initiators {
        enrolments: [0; ENROLMENTS_SIZE],
        ..t
    }
}
