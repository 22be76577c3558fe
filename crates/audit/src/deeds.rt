// What a line of a journal did that may begin or end a ground.
ghost use Rattle.std.specs.Prelude.{◌≡◌, List, ℕ, ◌≤◌, length};
ghost use Rattle.journal.specs.Statements.{read_line};
ghost use Rattle.journal.specs.Parsed.{line_of};
ghost use Rattle.audit.specs.Deeds.{did, done_by};

use crate::ledger::Deed;
use journal::reading;
use journal::statement::Parsed;

// A statement that may, by an initiator: FFh a setup, FEh a link event, else a command's service action.
fn did(number: u64, statement: u8, i: u64) -> Deed
    ensures { result ≡ did number statement i }
{
    Deed {
        what: statement,
        by: (i % 256) as u8,
        line: number,
    }
}

#[tactic(auto, unfolding(crate::specs::Deeds::done_by))]
fn done_by_read(number: u64, parsed: Parsed, cdb: &[u8]) -> Option<Deed>
    ensures { (list : List ℕ) → result ≡ done_by number (line_of parsed cdb.now list) }
{
    match parsed {
        Parsed::Setup => Some(did(number, 0xFF, 0)),
        Parsed::Command(i, ..) => Some(did(number, wire::byte(cdb, 1) % 32, i)),
        Parsed::Link(i) => Some(did(number, 0xFE, i)),
        _ => None,
    }
}

// What a line did, if it may change what stands. The buffers are lent for the byte strings that it holds.
pub fn done_by(number: u64, line: &[u8], first: &mut [u8], second: &mut [u8]) -> Option<Deed>
    requires { (131072 ≤ length first.old) × (131072 ≤ length second.old) }
    ensures { result ≡ done_by number (read_line line.now) }
{
    let read = reading::read_line(line, first, second);
    done_by_read(number, read.parsed, &first[..read.first])
}
