// What is shown of a journal once it is read: the audit of a unit, or the state in words.
ghost use Rattle.std.specs.Prelude.{◌≤◌, length};

use crate::out;
use acl::telling;
use audit::cells::{Asked, Audited};
use audit::{sentence, table};
use paper::state::{Coordinator, Units};
use std::io;
use std::io::Write;

// Stays: that a text has 140,000 bytes is required of a slice; an array's type would narrow what a caller may lend.

// A table: the lines asked for, whether it is for spreadsheets, and how wide its columns are.
#[derive(Clone, Copy)]
struct Table {
    asked: Asked,
    tsv: bool,
    widths: [u8; 6],
}

impl Table {
    fn show_row<W: Write>(&self, to: &mut W, e: &[u8], text: &mut [u8]) -> io::Result<()>
        requires { 140000 ≤ length text.old }
    {
        let size = table::put_row(text, self.asked, self.tsv, &self.widths, e);
        out::write_text(to, text, size)
    }

    // The lines of the grounds of an initiator that are shown.
    fn show_of<W: Write>(
        &self,
        to: &mut W,
        i: u8,
        runs: &[u8],
        size: usize,
        text: &mut [u8],
    ) -> io::Result<()>
        requires { (1 ≤ size) × (140000 ≤ length text.old) }
    {
        for e in runs.chunks_exact(size) {
            if self.asked.is_shown(e) && wire::byte(e, 0) == i {
                self.show_row(to, e, text)?;
            }
        }
        Ok(())
    }

    // "by initiator; of one initiator first those that ended .., then those that did not"
    fn show_all<W: Write>(&self, to: &mut W, audited: &Audited, text: &mut [u8]) -> io::Result<()>
        requires { 140000 ≤ length text.old }
    {
        for i in 0..16 {
            self.show_of(to, i, audited.ended, 24, text)?;
            self.show_of(to, i, audited.standing, 14, text)?;
        }
        Ok(())
    }
}

// The table, with its headings.
pub fn show_table<W: Write>(
    to: &mut W,
    tsv: bool,
    audited: &Audited,
    text: &mut [u8],
) -> io::Result<()>
    requires { 140000 ≤ length text.old }
{
    let mut widths = [0u8; 6];
    table::put_widths(&mut widths, text, audited);
    let table = Table {
        asked: audited.asked,
        tsv,
        widths,
    };
    table.show_row(to, b"", text)?;
    table.show_all(to, audited, text)
}

// The default LUN of a unit, if it is there.
fn place_of(units: &Units, unit: u8) -> Option<u8> {
    let lun = *units.in_use().get(unit as usize)?;
    Some((lun % 256) as u8)
}

// The unit, its default LUN if it is there, and the lines.
fn show_first<W: Write>(
    to: &mut W,
    a: Asked,
    unit: u8,
    c: Coordinator,
    text: &mut [u8],
) -> io::Result<()>
    requires { 140000 ≤ length text.old }
{
    let size = sentence::put_first(text, a, unit, place_of(&c.units, unit));
    out::write_text(to, text, size)?;
    out::write(to, b"\n")
}

// "a table that lines up, one line a ground, then the answer in one sentence"
pub fn show_audit<W: Write>(
    to: &mut W,
    unit: u8,
    c: Coordinator,
    audited: &Audited,
    text: &mut [u8],
) -> io::Result<()>
    requires { 140000 ≤ length text.old }
{
    show_first(to, audited.asked, unit, c, text)?;
    show_table(to, false, audited, text)?;
    out::write(to, b"\n")?;
    let size = sentence::put_answer(text, unit, audited);
    out::write_text(to, text, size)
}

// The state in words.
#[tactic(auto, using(acl::proofs::Most::state_most))]
pub fn show_state<W: Write>(to: &mut W, c: Coordinator, text: &mut [u8]) -> io::Result<()>
    requires { 140000 ≤ length text.old }
{
    let size = telling::put_state(c, text);
    out::write_text(to, text, size)
}
