// The first line of an audit, and its answer.
ghost use Rattle.std.specs.Prelude.{◌≡◌, ◌+◌, ◌<◌, ◌≤◌, length};
ghost use Rattle.lists.specs.Lists.{any, keep, below};
ghost use Rattle.lists.specs.Tables.{filled};
ghost use Rattle.wire.specs.Write.{Wrote};
ghost use Rattle.audit.specs.Ledger.{runs_of};
ghost use Rattle.audit.specs.Sentence.{is_of, grounds_of, belongs, before, joined, named, openers, could_part, pending_text, wait_part, answer_text, place_text, past_text, unit_part, lines_part, first_text};

use crate::cells::{Asked, Audited};
use journal::printing;
use lists::Table;

// Initiators, in ascending order.
pub type Names = Table<u8, 16>;

// All that there can be.
fn initiators() -> [u8; 16]
    ensures { result ≡ below 16 }
{
    [0, 1, 2, 3, 4, 5, 6, 7, 8, 9, 10, 11, 12, 13, 14, 15]
}

// Whether a ground shown is an initiator's, pending or not.
#[tactic(auto, unfolding(crate::specs::Sentence::is_of))]
fn is_of(a: Asked, i: u8, waits: bool, e: &[u8]) -> bool
    ensures { result ≡ is_of a i waits e.now }
{
    a.is_shown(e) && wire::byte(e, 0) == i && (wire::byte(e, 3) == b'W') == waits
}

fn some_of(a: Asked, i: u8, waits: bool, runs: &[u8], size: usize) -> bool
    requires { 1 ≤ size }
    ensures { result ≡ any (is_of a i waits) (runs_of size runs.now) }
{
    runs.chunks_exact(size).any(|e| is_of(a, i, waits, e))
}

impl Audited<'_> {
    // Whether the initiator has a ground shown, pending or not.
    fn has_ground(&self, i: u8, waits: bool) -> bool
        ensures { result ≡ any (is_of self.now.asked i waits) (grounds_of self.now.ended.now self.now.standing.now) }
    {
        some_of(self.asked, i, waits, self.ended, 24)
            || some_of(self.asked, i, waits, self.standing, 14)
    }

    // Whether the initiator is named: as one that could open the unit, or as one that was pending and could not.
    #[tactic(auto, unfolding(crate::specs::Sentence::belongs))]
    fn belongs(&self, i: u8, waits: bool) -> bool
        ensures { result ≡ belongs self.now.asked (grounds_of self.now.ended.now self.now.standing.now) waits i }
    {
        let could = self.has_ground(i, false);
        if waits {
            !could && self.has_ground(i, true)
        } else {
            could
        }
    }

    fn names(&self, waits: bool) -> Names
        ensures { result ≡ filled 0 16 (keep (belongs self.now.asked (grounds_of self.now.ended.now self.now.standing.now) waits) (below 16)) }
    {
        lists::kept(0, &initiators(), |i| self.belongs(*i, waits))
    }
}

// What comes before a name: nothing before the first, "and" before the last.
#[tactic(auto, using(wire::proofs::Writing::wrote_none), unfolding(crate::specs::Sentence::before))]
fn put_before(text: &mut [u8], at: usize, limit: usize, k: usize, n: usize) -> usize
    requires { (at + 5 ≤ 4294967296) × (k ≤ 16) }
    ensures { Wrote limit at (before k n) text.old result text.new }
{
    if k == 0 {
        at
    } else if k + 1 == n {
        wire::put_bytes(text, at, limit, b" and ")
    } else {
        wire::put_bytes(text, at, limit, b", ")
    }
}

// "Initiators 0, 1 and 3"
#[tactic(auto, using(crate::proofs::Sentences::sizes))]
fn put_joined(text: &mut [u8], at: usize, limit: usize, names: &[u8]) -> usize
    requires { (at + 400 ≤ 4294967296) × (length names.now ≤ 16) }
    ensures { Wrote limit at (joined names.now) text.old result text.new }
{
    let n = names.len();
    let mut to = at;
    for (k, name) in names.iter().enumerate() {
        let next = put_before(text, to, limit, k, n);
        to = printing::put_decimal(text, next, limit, *name as u64);
    }
    to
}

fn put_named(text: &mut [u8], at: usize, limit: usize, names: &[u8]) -> usize
    requires { (at + 411 ≤ 4294967296) × (length names.now ≤ 16) }
    ensures { Wrote limit at (named names.now) text.old result text.new }
{
    if names.len() == 1 {
        let one = wire::put_bytes(text, at, limit, b"Initiator ");
        return put_joined(text, one, limit, names);
    }
    let many = wire::put_bytes(text, at, limit, b"Initiators ");
    put_joined(text, many, limit, names)
}

// Those that could open the unit, or nobody.
#[tactic(auto, unfolding(crate::specs::Sentence::openers))]
fn put_openers(text: &mut [u8], at: usize, limit: usize, names: &[u8]) -> usize
    requires { (at + 411 ≤ 4294967296) × (length names.now ≤ 16) }
    ensures { Wrote limit at (openers names.now) text.old result text.new }
{
    if names.is_empty() {
        wire::put_bytes(text, at, limit, b"No initiator")
    } else {
        put_named(text, at, limit, names)
    }
}

#[tactic(auto, using(crate::proofs::Sentences::sizes))]
fn put_could(text: &mut [u8], at: usize, limit: usize, unit: u8, names: &[u8]) -> usize
    requires { (at + 500 ≤ 4294967296) × (length names.now ≤ 16) }
    ensures { Wrote limit at (could_part unit names.now) text.old result text.new }
{
    let who = put_openers(text, at, limit, names);
    let open = wire::put_bytes(text, who, limit, b" could open unit ");
    let told = printing::put_decimal(text, open, limit, unit as u64);
    wire::put_bytes(text, told, limit, b" in these lines.")
}

// That so many were pending.
#[tactic(auto, unfolding(crate::specs::Sentence::pending_text))]
fn put_pending(text: &mut [u8], at: usize, limit: usize, n: usize) -> usize
    requires { at + 30 ≤ 4294967296 }
    ensures { Wrote limit at (pending_text n) text.old result text.new }
{
    if n == 1 {
        wire::put_bytes(text, at, limit, b" was pending: it could not.")
    } else {
        wire::put_bytes(text, at, limit, b" were pending: they could not.")
    }
}

// Those that were pending and could not open the unit, if there are any.
#[tactic(auto, using(crate::proofs::Sentences::sizes))]
fn put_waits(text: &mut [u8], at: usize, limit: usize, names: &[u8]) -> usize
    requires { (at + 500 ≤ 4294967296) × (length names.now ≤ 16) }
    ensures { Wrote limit at (wait_part names.now) text.old result text.new }
{
    if names.is_empty() {
        return at;
    }
    let space = wire::put(text, at, limit, b' ');
    let who = put_named(text, space, limit, names);
    put_pending(text, who, limit, names.len())
}

// The answer in one sentence, or two.
#[tactic(auto, using(crate::proofs::Sentences::sizes))]
pub fn put_answer(text: &mut [u8], unit: u8, audited: &Audited) -> usize
    ensures text { Wrote (length text.old) 0 (answer_text audited.now.asked unit (grounds_of audited.now.ended.now audited.now.standing.now)) text.old result text.new }
    ensures size { result ≤ 907 }
{
    let limit = text.len();
    let could = audited.names(false);
    let first = put_could(text, 0, limit, unit, could.in_use());
    let waited = audited.names(true);
    let told = put_waits(text, first, limit, waited.in_use());
    wire::put(text, told, limit, b'\n')
}

// "its default LUN on the shelf as it is after the last line"
#[tactic(auto, unfolding(crate::specs::Sentence::place_text))]
fn put_place(text: &mut [u8], at: usize, limit: usize, place: Option<u8>) -> usize
    requires { at + 29 ≤ 4294967296 }
    ensures { Wrote limit at (place_text place) text.old result text.new }
{
    match place {
        Some(nn) => {
            let told = wire::put_bytes(text, at, limit, b" (default LUN ");
            printing::put_pair(text, told, limit, nn)
        }
        None => wire::put_bytes(text, at, limit, b" (not on the shelf at the end"),
    }
}

// Where the journal ends, if that is before the last line asked for.
#[tactic(auto, using(crate::proofs::Sentences::sizes))]
fn put_past(text: &mut [u8], at: usize, limit: usize, a: Asked) -> usize
    requires { at + 48 ≤ 4294967296 }
    ensures { Wrote limit at (past_text a) text.old result text.new }
{
    if a.to <= a.last {
        return at;
    }
    let told = wire::put_bytes(text, at, limit, b" (the journal ends at line ");
    let last = printing::put_decimal(text, told, limit, a.last);
    wire::put(text, last, limit, b')')
}

// The unit, and its place.
#[tactic(auto, using(crate::proofs::Sentences::sizes))]
fn put_unit(text: &mut [u8], at: usize, limit: usize, unit: u8, place: Option<u8>) -> usize
    requires { at + 54 ≤ 4294967296 }
    ensures { Wrote limit at (unit_part unit place) text.old result text.new }
{
    let word = wire::put_bytes(text, at, limit, b"unit ");
    let number = printing::put_decimal(text, word, limit, unit as u64);
    put_place(text, number, limit, place)
}

// The lines asked for.
#[tactic(auto, using(crate::proofs::Sentences::sizes))]
fn put_lines(text: &mut [u8], at: usize, limit: usize, a: Asked) -> usize
    requires { at + 109 ≤ 4294967296 }
    ensures { Wrote limit at (lines_part a) text.old result text.new }
{
    let lines = wire::put_bytes(text, at, limit, b"), journal lines ");
    let from = printing::put_decimal(text, lines, limit, a.from);
    let to = wire::put_bytes(text, from, limit, b" to ");
    let told = printing::put_decimal(text, to, limit, a.to);
    put_past(text, told, limit, a)
}

// The unit, its place, and the lines asked for.
#[tactic(auto, using(crate::proofs::Sentences::sizes))]
pub fn put_first(text: &mut [u8], a: Asked, unit: u8, place: Option<u8>) -> usize
    ensures text { Wrote (length text.old) 0 (first_text a unit place) text.old result text.new }
    ensures size { result ≤ 164 }
{
    let limit = text.len();
    let named = put_unit(text, 0, limit, unit, place);
    let told = put_lines(text, named, limit, a);
    wire::put(text, told, limit, b'\n')
}
