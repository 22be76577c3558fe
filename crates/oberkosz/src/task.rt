// What the words of the program ask for.
ghost use Rattle.std.specs.Prelude.{◌≡◌};
ghost use Rattle.oberkosz.specs.Places.{inquiry_in, asked_in};

use audit::cells::Asked;
use audit::following::Inquiry;

// The first and the last of the lines that are named.
#[derive(Clone, Copy)]
pub struct Lines {
    pub from: u64,
    pub to: u64,
}

// Of an audit the unit, the lines if any are named, and whether it is for spreadsheets.
#[derive(Clone, Copy)]
pub struct Audit {
    pub unit: u8,
    pub lines: Option<Lines>,
    pub tsv: bool,
}

// What is told of a journal: the answers, the audit of a unit, or the state in words.
#[derive(Clone, Copy)]
pub enum Task {
    Replay,
    Audit(Audit),
    Acl,
}

impl Audit {
    // What the auditor asks of each line: of all lines, where none are named.
    pub fn inquiry(self) -> Inquiry
        ensures { result ≡ inquiry_in self }
    {
        let lines = self.lines.unwrap_or(Lines {
            from: 1,
            to: 18446744073709551615,
        });
        Inquiry {
            unit: self.unit,
            from: lines.from,
            to: lines.to,
        }
    }

    // The lines asked for, where the next line would have a number: all of the journal, where none are named.
    pub fn asked(self, next: u64) -> Asked
        ensures { result ≡ asked_in self next }
    {
        let last = next.saturating_sub(1);
        let lines = self.lines.unwrap_or(Lines { from: 1, to: last });
        Asked {
            from: lines.from,
            to: lines.to,
            last,
        }
    }
}
