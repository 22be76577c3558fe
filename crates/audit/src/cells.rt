// The cells of the audit's table.
ghost use Rattle.std.specs.Prelude.{◌≡◌, ◌+◌, ◌≤◌};
ghost use Rattle.wire.specs.Write.{Wrote};
ghost use Rattle.audit.specs.Cells.{ground_text, what_text, sender_text, deed_text, from_line, end_line, to_line, is_shown, ended_text, cell_text, head_text, line_cell};

use journal::printing;

// The lines asked for, and the last line of the journal.
#[derive(Clone, Copy)]
pub struct Asked {
    pub from: u64,
    pub to: u64,
    pub last: u64,
}

// What an audit tells of: the lines asked for, the grounds that ended, and those that stand.
#[derive(Clone, Copy)]
pub struct Audited<'a> {
    pub asked: Asked,
    pub ended: &'a [u8],
    pub standing: &'a [u8],
}

impl Asked {
    // The first line at which a ground stood, of the lines asked for.
    fn from_line(self, e: &[u8]) -> u64
        ensures { result ≡ from_line self e.now }
    {
        wire::be64(e, 6).max(self.from)
    }

    // The last line at which a ground stood.
    #[tactic(auto, unfolding(crate::specs::Cells::end_line))]
    fn end_line(self, e: &[u8]) -> u64
        ensures { result ≡ end_line self e.now }
    {
        if e.len() == 24 {
            wire::be64(e, 16)
        } else {
            self.last
        }
    }

    // The last one of the lines asked for.
    fn to_line(self, e: &[u8]) -> u64
        ensures { result ≡ to_line self e.now }
    {
        self.end_line(e).min(self.to)
    }

    // "Shown is each ground that stood at one of them"
    #[tactic(auto, unfolding(crate::specs::Cells::is_shown))]
    pub fn is_shown(self, e: &[u8]) -> bool
        ensures { result ≡ is_shown self e.now }
    {
        wire::be64(e, 6) <= self.to && self.from <= self.end_line(e)
    }
}

// "ground in words"
// Stays: the letter is a byte of the reach list's row, as the ledger keeps it.
#[tactic(auto, unfolding(crate::specs::Cells::ground_text))]
fn put_ground(text: &mut [u8], at: usize, limit: usize, letter: u8) -> usize
    requires { at + 19 ≤ 4294967296 }
    ensures { Wrote limit at (ground_text letter) text.old result text.new }
{
    match letter {
        b'T' => wire::put_bytes(text, at, limit, b"TransportID"),
        b'A' => wire::put_bytes(text, at, limit, b"enrolment"),
        b'W' => wire::put_bytes(text, at, limit, b"pending enrolment"),
        b'X' => wire::put_bytes(text, at, limit, b"proxy token"),
        _ => wire::put_bytes(text, at, limit, b"access controls off"),
    }
}

// "WHAT is `setup`, `link event`, or the name of the command"
// Stays: the statement's code is a byte of the ledger, and a command's is its service action.
#[tactic(auto, using(wire::proofs::Writing::wrote_none), unfolding(crate::specs::Cells::what_text))]
fn put_what(text: &mut [u8], at: usize, limit: usize, what: u8) -> usize
    requires { at + 23 ≤ 4294967296 }
    ensures { Wrote limit at (what_text what) text.old result text.new }
{
    match what {
        0x00 => wire::put_bytes(text, at, limit, b"MANAGE ACL"),
        0x01 => wire::put_bytes(text, at, limit, b"DISABLE ACCESS CONTROLS"),
        0x02 => wire::put_bytes(text, at, limit, b"ACCESS ID ENROLL"),
        0x03 => wire::put_bytes(text, at, limit, b"CANCEL ENROLLMENT"),
        0x07 => wire::put_bytes(text, at, limit, b"REVOKE PROXY TOKEN"),
        0x08 => wire::put_bytes(text, at, limit, b"REVOKE ALL PROXY TOKENS"),
        0x09 => wire::put_bytes(text, at, limit, b"ASSIGN PROXY LUN"),
        0x0A => wire::put_bytes(text, at, limit, b"RELEASE PROXY LUN"),
        0xFE => wire::put_bytes(text, at, limit, b"link event"),
        0xFF => wire::put_bytes(text, at, limit, b"setup"),
        _ => at,
    }
}

// "followed by ` by I` if initiator I sent it and the ground is another initiator's"
#[tactic(auto, using(wire::proofs::Writing::wrote_none), unfolding(crate::specs::Cells::sender_text))]
fn put_sender(text: &mut [u8], at: usize, limit: usize, what: u8, by: u8, own: u8) -> usize
    requires { at + 24 ≤ 4294967296 }
    ensures { Wrote limit at (sender_text what by own) text.old result text.new }
{
    if 0xFE <= what || by == own {
        return at;
    }
    let told = wire::put_bytes(text, at, limit, b" by ");
    printing::put_decimal(text, told, limit, by as u64)
}

// "`WHAT, line N`", for the deed at a place of a ground
#[tactic(auto, using(crate::proofs::CellSizes::sizes))]
fn put_deed(text: &mut [u8], at: usize, limit: usize, e: &[u8], place: usize) -> usize
    requires { (at + 74 ≤ 4294967296) × (place ≤ 14) }
    ensures { Wrote limit at (deed_text e.now place) text.old result text.new }
{
    let what = wire::byte(e, place);
    let by = wire::byte(e, place + 1);
    let own = wire::byte(e, 0);
    let named = put_what(text, at, limit, what);
    let sent = put_sender(text, named, limit, what, by, own);
    let told = wire::put_bytes(text, sent, limit, b", line ");
    printing::put_decimal(text, told, limit, wire::be64(e, place + 2))
}

#[tactic(auto, unfolding(crate::specs::Cells::ended_text))]
fn put_ended(text: &mut [u8], at: usize, limit: usize, e: &[u8]) -> usize
    requires { at + 74 ≤ 4294967296 }
    ensures { Wrote limit at (ended_text e.now) text.old result text.new }
{
    if e.len() == 24 {
        put_deed(text, at, limit, e, 14)
    } else {
        wire::put_bytes(text, at, limit, b"still stands")
    }
}

// A cell, by the number of its column.
// Stays: a line's columns are counted, and its definitions number them; names for the seven would say no more.
#[tactic(auto, unfolding(crate::specs::Cells::cell_text))]
pub fn put_cell(
    text: &mut [u8],
    at: usize,
    limit: usize,
    a: Asked,
    column: usize,
    e: &[u8],
) -> usize
    requires { at + 74 ≤ 4294967296 }
    ensures { Wrote limit at (cell_text a column e.now) text.old result text.new }
{
    match column {
        0 => printing::put_decimal(text, at, limit, wire::byte(e, 0) as u64),
        1 => printing::put_pair(text, at, limit, wire::byte(e, 1)),
        2 => put_ground(text, at, limit, wire::byte(e, 3)),
        3 => printing::put_decimal(text, at, limit, a.from_line(e)),
        4 => printing::put_decimal(text, at, limit, a.to_line(e)),
        5 => put_deed(text, at, limit, e, 4),
        _ => put_ended(text, at, limit, e),
    }
}

// A heading.
#[tactic(auto, unfolding(crate::specs::Cells::head_text))]
pub fn put_head(text: &mut [u8], at: usize, limit: usize, column: usize) -> usize
    requires { at + 9 ≤ 4294967296 }
    ensures { Wrote limit at (head_text column) text.old result text.new }
{
    match column {
        0 => wire::put_bytes(text, at, limit, b"initiator"),
        1 => wire::put_bytes(text, at, limit, b"LUN"),
        2 => wire::put_bytes(text, at, limit, b"ground"),
        3 => wire::put_bytes(text, at, limit, b"from"),
        4 => wire::put_bytes(text, at, limit, b"to"),
        5 => wire::put_bytes(text, at, limit, b"begun by"),
        _ => wire::put_bytes(text, at, limit, b"ended by"),
    }
}

// A cell of a line: of the headings, where the line has no ground.
#[tactic(auto, unfolding(crate::specs::Cells::line_cell))]
pub fn put_line_cell(
    text: &mut [u8],
    at: usize,
    limit: usize,
    a: Asked,
    column: usize,
    e: &[u8],
) -> usize
    requires { at + 74 ≤ 4294967296 }
    ensures { Wrote limit at (line_cell a e.now column) text.old result text.new }
{
    if e.is_empty() {
        put_head(text, at, limit, column)
    } else {
        put_cell(text, at, limit, a, column, e)
    }
}
