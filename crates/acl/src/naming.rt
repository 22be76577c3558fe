// What lines name: LUNs, units, initiators, tokens and identifiers; and the head of a part.
// `fits` says of a writer how many bytes it writes at most, so that the next one has its room.
ghost use Rattle.std.specs.Prelude.{◌+◌, ◌≤◌, length};
ghost use Rattle.wire.specs.Write.{Wrote};
ghost use Rattle.journal.specs.Texts.{decimal_text};
ghost use Rattle.acl.specs.State.{lun_text, unit_text, initiator_text, number_text, id_text, head_text};

use journal::printing;
use paper::state::IdType;
use tables::identifiers;

// A number in decimal: twenty digits hold it.
pub fn put_decimal(text: &mut [u8], at: usize, limit: usize, n: u64) -> usize
    requires { at + 20 ≤ 4294967296 }
    ensures wrote { Wrote limit at (decimal_text n) text.old result text.new }
    ensures fits { result ≤ at + 20 }
{
    printing::put_decimal(text, at, limit, n)
}

// "LUNs are nn, two hex digits"
pub fn put_lun(text: &mut [u8], at: usize, limit: usize, lun: u16) -> usize
    requires { at + 6 ≤ 4294967296 }
    ensures wrote { Wrote limit at (lun_text lun) text.old result text.new }
    ensures fits { result ≤ at + 6 }
{
    let next = wire::put_bytes(text, at, limit, b"LUN ");
    printing::put_pair(text, next, limit, (lun % 256) as u8)
}

// A unit by its number.
pub fn put_unit(text: &mut [u8], at: usize, limit: usize, unit: u8) -> usize
    requires { at + 25 ≤ 4294967296 }
    ensures wrote { Wrote limit at (unit_text unit) text.old result text.new }
    ensures fits { result ≤ at + 25 }
{
    let next = wire::put_bytes(text, at, limit, b"unit ");
    put_decimal(text, next, limit, unit as u64)
}

// An initiator by its number.
pub fn put_initiator(text: &mut [u8], at: usize, limit: usize, initiator: u8) -> usize
    requires { at + 30 ≤ 4294967296 }
    ensures wrote { Wrote limit at (initiator_text initiator) text.old result text.new }
    ensures fits { result ≤ at + 30 }
{
    let next = wire::put_bytes(text, at, limit, b"initiator ");
    put_decimal(text, next, limit, initiator as u64)
}

// "a token's number is 16 hex digits"
pub fn put_number(text: &mut [u8], at: usize, limit: usize, number: u64) -> usize
    requires { at + 16 ≤ 4294967296 }
    ensures wrote { Wrote limit at (number_text number) text.old result text.new }
    ensures fits { result ≤ at + 16 }
{
    let mut bytes = [0; 8];
    wire::put_be64(&mut bytes, 0, 8, number);
    printing::put_hex(text, at, limit, &bytes)
}

// "Identifiers are 24 bytes, in hex; the AccessID as it is kept (16 bytes, then zeros)."
pub fn put_id(text: &mut [u8], at: usize, limit: usize, kind: IdType, id: &[u8]) -> usize
    requires { at + 48 ≤ 4294967296 }
    ensures wrote { Wrote limit at (id_text kind id.now) text.old result text.new }
    ensures fits { result ≤ at + 48 }
{
    let bytes = identifiers::kept_id(kind, id);
    printing::put_hex(text, at, limit, &bytes)
}

// "each after an empty line: its name and how many there are"
pub fn put_head(text: &mut [u8], at: usize, limit: usize, name: &[u8], n: usize) -> usize
    requires { (length name.now ≤ 12) × (at + 34 ≤ 4294967296) }
    ensures wrote { Wrote limit at (head_text name.now n) text.old result text.new }
    ensures fits { result ≤ at + 34 }
{
    let empty = wire::put(text, at, limit, b'\n');
    let named = wire::put_bytes(text, empty, limit, name);
    let many = put_decimal(text, named, limit, n as u64);
    wire::put(text, many, limit, b'\n')
}
