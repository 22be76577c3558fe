// The grounds of a unit, followed from statement to statement. What stands after a line is the reach list after that line.
ghost use Rattle.std.specs.Prelude.{◌≡◌, ◌+◌, ◌≤◌, length, take, drop, option_map};
ghost use Rattle.lists.specs.Lists.{any, find};
ghost use Rattle.wire.specs.Write.{Wrote};
ghost use Rattle.paper.specs.Outcomes.{decide_reach, buffer_after};
ghost use Rattle.audit.specs.Ledger.{deed_bytes, runs_of, same_row, held_over, stands_by, stands_after, ends_by, ends_after, rows_after, forgotten};

use crate::following::Inquiry;
use coordinator::questions;
use paper::state::Coordinator;

// What began or ended a ground: which statement (FFh a setup, FEh a link event, else a command's service action), by whom, at which line.
#[derive(Clone, Copy)]
pub struct Deed {
    pub what: u8,
    pub by: u8,
    pub line: u64,
}

// How many bytes the grounds that stand and those that ended take.
#[derive(Clone, Copy)]
pub struct Grounds {
    pub standing: usize,
    pub ended: usize,
}

fn put_deed(buf: &mut [u8], at: usize, limit: usize, deed: Deed) -> usize
    requires { at + 10 ≤ 4294967296 }
    ensures { Wrote limit at (deed_bytes deed) buf.old result buf.new }
{
    let what = wire::put(buf, at, limit, deed.what);
    let by = wire::put(buf, what, limit, deed.by);
    wire::put_be64(buf, by, limit, deed.line)
}

// Whether a ground or a row begins with a row.
fn same_row(row: &[u8], e: &[u8]) -> bool
    ensures { result ≡ same_row row.now e.now }
{
    wire::same(e, row, 4)
}

// The first ground that begins with a row.
fn held<'a>(standing: &'a [u8], row: &[u8]) -> Option<&'a [u8]>
    ensures { option_map (λ e. e.now) result ≡ find (same_row row.now) (runs_of 14 standing.now) }
{
    standing.chunks_exact(14).find(|e| same_row(row, e))
}

// Whether a ground is among the rows.
fn is_among(rows: &[u8], e: &[u8]) -> bool
    ensures { result ≡ any (same_row e.now) (runs_of 4 rows.now) }
{
    rows.chunks_exact(4).any(|row| same_row(e, row))
}

// "what stood before keeps what it began with"
fn put_held_over(
    next: &mut [u8],
    at: usize,
    limit: usize,
    standing: &[u8],
    row: &[u8],
    deed: Deed,
) -> usize
    requires { (length row.now ≡ 4) × (at + 14 ≤ 4294967296) }
    ensures { Wrote limit at (held_over (runs_of 14 standing.now) (deed_bytes deed) row.now) next.old result next.new }
{
    match held(standing, row) {
        Some(e) => wire::put_bytes(next, at, limit, e),
        None => {
            let begun = wire::put_bytes(next, at, limit, row);
            put_deed(next, begun, limit, deed)
        }
    }
}

// The same for a row of any unit: nothing, if it is not of the unit.
#[tactic(auto, using(wire::proofs::Writing::wrote_none), unfolding(crate::specs::Ledger::stands_by))]
fn put_stand(
    next: &mut [u8],
    at: usize,
    limit: usize,
    unit: u8,
    standing: &[u8],
    row: &[u8],
    deed: Deed,
) -> usize
    requires { (length row.now ≡ 4) × (at + 14 ≤ 4294967296) }
    ensures { Wrote limit at (stands_by unit (runs_of 14 standing.now) (deed_bytes deed) row.now) next.old result next.new }
{
    if row[2] == unit {
        put_held_over(next, at, limit, standing, row, deed)
    } else {
        at
    }
}

// The grounds of the unit that stand after a line.
fn put_stands(next: &mut [u8], unit: u8, standing: &[u8], rows: &[u8], deed: Deed) -> usize
    requires { length rows.now ≤ 65536 }
    ensures { Wrote (length next.old) 0 (stands_after unit standing.now rows.now (deed_bytes deed)) next.old result next.new }
{
    let limit = next.len();
    let mut at = 0;
    for row in rows.chunks_exact(4) {
        at = put_stand(next, at, limit, unit, standing, row, deed);
    }
    at
}

// "It ends at a later line if it does not stand after that line"
#[tactic(auto, using(wire::proofs::Writing::wrote_none), unfolding(crate::specs::Ledger::ends_by))]
fn put_end(
    ended: &mut [u8],
    at: usize,
    limit: usize,
    e: &[u8],
    rows: &[u8],
    deed: Deed,
    to: u64,
) -> usize
    requires { (length e.now ≡ 14) × (at + 24 ≤ 4294967296) }
    ensures { Wrote limit at (ends_by (runs_of 4 rows.now) (deed_bytes deed) to e.now) ended.old result ended.new }
{
    if is_among(rows, e) || to < wire::be64(e, 6) {
        return at;
    }
    let begun = wire::put_bytes(ended, at, limit, e);
    put_deed(ended, begun, limit, deed)
}

fn put_ends(
    ended: &mut [u8],
    used: usize,
    standing: &[u8],
    rows: &[u8],
    deed: Deed,
    to: u64,
) -> usize
    requires { (used ≤ 1048576) × (length standing.now ≤ 1048576) }
    ensures { Wrote (length ended.old) used (ends_after standing.now rows.now (deed_bytes deed) to) ended.old result ended.new }
{
    let limit = ended.len();
    let mut at = used;
    for e in standing.chunks_exact(14) {
        at = put_end(ended, at, limit, e, rows, deed, to);
    }
    at
}

// The rows of a reach list, behind its header.
fn rows_in(reply: &[u8], delivered: usize) -> &[u8]
    requires { delivered ≤ length reply.now }
    ensures { result.now ≡ drop 8 (take delivered reply.now) }
{
    if delivered < 8 {
        &[]
    } else {
        &reply[8..delivered]
    }
}

// "All before it is forgotten", if the line is a setup.
fn unless_setup(what: u8, bytes: &[u8]) -> &[u8]
    ensures { result.now ≡ forgotten what bytes.now }
{
    if what == 0xFF { &[] } else { bytes }
}

// The grounds after a line, whose statement made the coordinator what it is: those of the unit that stand, and those that ended behind the others. "All before a setup is forgotten": then every ground ends, and what stands begins with it.
pub fn track(
    c: Coordinator,
    q: Inquiry,
    deed: Deed,
    reply: &mut [u8; 65536],
    standing: &[u8],
    next: &mut [u8],
    ended: &mut [u8],
    used: usize,
) -> Grounds
    requires { (length standing.now ≤ 1048576) × (used ≤ 1048576) }
    ensures stands { Wrote (length next.old) 0 (stands_after q.unit (forgotten deed.what standing.now) (rows_after c) (deed_bytes deed)) next.old result.standing next.new }
    ensures ends { Wrote (length ended.old) used (ends_after standing.now (forgotten deed.what (rows_after c)) (deed_bytes deed) q.to) ended.old result.ended ended.new }
    ensures reply { reply.new ≡ buffer_after (decide_reach c 65536) reply.old }
{
    let outcome = questions::reach(c, reply);
    let rows = rows_in(reply, outcome.delivered);
    let before = unless_setup(deed.what, standing);
    let after = unless_setup(deed.what, rows);
    Grounds {
        standing: put_stands(next, q.unit, before, rows, deed),
        ended: put_ends(ended, used, standing, after, deed, q.to),
    }
}
