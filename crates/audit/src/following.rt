// The grounds of a unit, followed through a journal line by line.
ghost use Rattle.std.specs.Prelude.{◌≡◌, cond, ◌&&◌, ◌≤◌, length, ltb, leb, IfSome, is_some};
ghost use Rattle.journal.specs.Statements.{read_line};
ghost use Rattle.audit.specs.Following.{kept_in, fits, changed_by, followed};
ghost use Rattle.audit.specs.Room.{Within};

use crate::ledger::Deed;
pub use crate::ledger::Grounds;
use crate::{deeds, ledger};
use paper::state::Coordinator;

// What an auditor asks: of which unit, and from which line to which.
#[derive(Clone, Copy)]
pub struct Inquiry {
    pub unit: u8,
    pub from: u64,
    pub to: u64,
}

impl Grounds {
    // Whether there is room for them.
    fn fits(self) -> bool
        ensures { result ≡ (leb self.standing 65536 && leb self.ended 393216) }
    {
        self.standing <= 65536 && self.ended <= 393216
    }
}

// "not counting any that ended before FROM"
fn counted_from(from: u64, line: u64, before: usize, after: usize) -> usize
    ensures { result ≡ cond (ltb line from) before after }
{
    if line < from { before } else { after }
}

// The grounds after a line that may have begun or ended some, if there is room for them.
fn changed(
    q: Inquiry,
    deed: Deed,
    state: Coordinator,
    before: Grounds,
    reply: &mut [u8; 65536],
    standing: &mut [u8; 65536],
    next: &mut [u8],
    ended: &mut [u8; 393216],
) -> Option<Grounds>
    requires room { 65536 ≤ length next.old }
    requires within_2 { Within before }
    ensures within { IfSome result (λ g. Within g) }
    ensures fits { is_some result ≡ fits (changed_by q deed state (kept_in before standing.old ended.old)) }
    ensures kept { IfSome result (λ g. kept_in g standing.new ended.new ≡ changed_by q deed state (kept_in before standing.old ended.old)) }
{
    let tracked = ledger::track(
        state,
        q,
        deed,
        reply,
        &standing[..before.standing],
        next,
        ended,
        before.ended,
    );
    let after = Grounds {
        ended: counted_from(q.from, deed.line, before.ended, tracked.ended),
        ..tracked
    };
    if !after.fits() {
        return None;
    }
    standing[..after.standing].copy_from_slice(&next[..after.standing]);
    Some(after)
}

// The grounds after a line, if there is room for them. What is no setup, command or link event begins and ends none.
pub fn follow(
    q: Inquiry,
    number: u64,
    line: &[u8],
    state: Coordinator,
    before: Grounds,
    first: &mut [u8],
    second: &mut [u8],
    reply: &mut [u8; 65536],
    standing: &mut [u8; 65536],
    next: &mut [u8],
    ended: &mut [u8; 393216],
) -> Option<Grounds>
    requires in_bounds { (131072 ≤ length first.old) × (131072 ≤ length second.old) }
    requires room { 65536 ≤ length next.old }
    requires within_2 { Within before }
    ensures within { IfSome result (λ g. Within g) }
    ensures fits { is_some result ≡ fits (followed q number (read_line line.now) state (kept_in before standing.old ended.old)) }
    ensures kept { IfSome result (λ g. kept_in g standing.new ended.new ≡ followed q number (read_line line.now) state (kept_in before standing.old ended.old)) }
{
    match deeds::done_by(number, line, first, second) {
        Some(deed) => changed(q, deed, state, before, reply, standing, next, ended),
        None => Some(before),
    }
}
