// The initiators, by number.
ghost use Rattle.std.specs.Prelude.{map, ◌+◌, ◌≤◌};
ghost use Rattle.lists.specs.Lists.{parts};
ghost use Rattle.wire.specs.Write.{Wrote};
ghost use Rattle.paper.specs.Tables.{enrolment_in};
ghost use Rattle.tables.specs.Changes.{meant};
ghost use Rattle.acl.specs.State.{enrolment_text, initiator_line, initiator_lines, initiators_text};

use crate::naming;
use paper::state::{IdType, Initiators};
use tables::enrolments;
use tables::enrolments::Enrolment;

// "An initiator is `not enrolled`, `enrolled under AccessID ID` or `pending under AccessID ID`."
fn put_enrolment(text: &mut [u8], at: usize, limit: usize, e: Enrolment) -> usize
    requires { at + 72 ≤ 4294967296 }
    ensures wrote { Wrote limit at (enrolment_text (meant e.entry)) text.old result text.new }
    ensures fits { result ≤ at + 72 }
{
    match e {
        Enrolment::NotEnrolled => wire::put_bytes(text, at, limit, b"not enrolled"),
        Enrolment::Enrolled(id) => {
            let a = wire::put_bytes(text, at, limit, b"enrolled under AccessID ");
            naming::put_id(text, a, limit, IdType::AccessId, id)
        }
        Enrolment::Pending(id) => {
            let b = wire::put_bytes(text, at, limit, b"pending under AccessID ");
            naming::put_id(text, b, limit, IdType::AccessId, id)
        }
    }
}

// The line of an initiator: its number, its TransportID, and its enrolment.
fn put_line(text: &mut [u8], at: usize, limit: usize, i: usize, id: &[u8], e: Enrolment) -> usize
    requires { at + 157 ≤ 4294967296 }
    ensures wrote { Wrote limit at (initiator_line i id.now (meant e.entry)) text.old result text.new }
    ensures fits { result ≤ at + 157 }
{
    let number = naming::put_decimal(text, at, limit, i as u64);
    let transport = wire::put_bytes(text, number, limit, b", TransportID ");
    let bytes = naming::put_id(text, transport, limit, IdType::TransportId, id);
    let colon = wire::put_bytes(text, bytes, limit, b": ");
    let enrolled = put_enrolment(text, colon, limit, e);
    wire::put(text, enrolled, limit, b'\n')
}

// A line for each, by number.
fn put_lines(text: &mut [u8], at: usize, limit: usize, t: &Initiators) -> usize
    requires { (t.now.count ≤ 16) × (at + 2512 ≤ 4294967296) }
    ensures wrote { Wrote limit at (initiator_lines t.now.count (parts 24 t.now.count t.now.ids) (map enrolment_in (parts 25 t.now.count t.now.enrolments))) text.old result text.new }
    ensures fits { result ≤ at + 2512 }
{
    let mut to = at;
    for i in 0..t.count {
        let id = enrolments::transport_part(&t.ids, i);
        let e = Enrolment::from_bytes(enrolments::enrolment_part(&t.enrolments, i));
        to = put_line(text, to, limit, i, id, e);
    }
    to
}

// The part of the initiators.
pub fn put_initiators(text: &mut [u8], at: usize, limit: usize, t: &Initiators) -> usize
    requires { (t.now.count ≤ 16) × (at + 2546 ≤ 4294967296) }
    ensures wrote { Wrote limit at (initiators_text (parts 24 t.now.count t.now.ids) (map enrolment_in (parts 25 t.now.count t.now.enrolments))) text.old result text.new }
    ensures fits { result ≤ at + 2546 }
{
    let next = naming::put_head(text, at, limit, b"Initiators: ", t.count);
    put_lines(text, next, limit, t)
}
