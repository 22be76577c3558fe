// The units, by number.
ghost use Rattle.std.specs.Prelude.{◌+◌, ◌≤◌, length};
ghost use Rattle.wire.specs.Write.{Wrote};
ghost use Rattle.acl.specs.State.{unit_line, unit_lines, units_text};

use crate::naming;

// The line of a unit: its number and its default LUN.
fn put_line(text: &mut [u8], at: usize, limit: usize, unit: usize, lun: u16) -> usize
    requires { at + 37 ≤ 4294967296 }
    ensures wrote { Wrote limit at (unit_line unit lun) text.old result text.new }
    ensures fits { result ≤ at + 37 }
{
    let number = naming::put_decimal(text, at, limit, unit as u64);
    let default = wire::put_bytes(text, number, limit, b", default ");
    let placed = naming::put_lun(text, default, limit, lun);
    wire::put(text, placed, limit, b'\n')
}

// A line for each, by number.
fn put_lines(text: &mut [u8], at: usize, limit: usize, luns: &[u16]) -> usize
    requires { (length luns.now ≤ 32) × (at + 1184 ≤ 4294967296) }
    ensures wrote { Wrote limit at (unit_lines (length luns.now) luns.now) text.old result text.new }
    ensures fits { result ≤ at + 1184 }
{
    let mut to = at;
    for (unit, lun) in luns.iter().enumerate() {
        to = put_line(text, to, limit, unit, *lun);
    }
    to
}

// The part of the units.
pub fn put_units(text: &mut [u8], at: usize, limit: usize, luns: &[u16]) -> usize
    requires { (length luns.now ≤ 32) × (at + 1218 ≤ 4294967296) }
    ensures wrote { Wrote limit at (units_text luns.now) text.old result text.new }
    ensures fits { result ≤ at + 1218 }
{
    let next = naming::put_head(text, at, limit, b"Units: ", luns.len());
    put_lines(text, next, limit, luns)
}
