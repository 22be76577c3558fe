// A line of a journal, whatever its bytes: read, and answered.
ghost use Rattle.std.specs.Prelude.{◌≡◌, ◌≤◌, length, take};
ghost use Rattle.journal.specs.Statements.{lent_by, read_line};
ghost use Rattle.journal.specs.Parsed.{line_of};
ghost use Rattle.journal.specs.Replay.{step_line};

use crate::answering::Answered;
use crate::statement::Parsed;
use crate::{answering, reading};
use paper::state::Coordinator;

// What was read of a line, with the byte strings of its statement: the next state, and the answer line at the start of the text buffer.
fn answer_read(
    c: Coordinator,
    number: u64,
    parsed: Parsed,
    first: &[u8],
    second: &[u8],
    reply: &mut [u8],
    text: &mut [u8],
) -> Answered
    requires { (lent_by (line_of parsed first.now second.now) ≤ 65536) × (65536 ≤ length reply.old) × (140000 ≤ length text.old) }
    ensures state { result.state ≡ (step_line c number (line_of parsed first.now second.now)).state }
    ensures text { take result.size text.new ≡ (step_line c number (line_of parsed first.now second.now)).text }
    ensures room { result.size ≤ 140000 }
{
    match parsed {
        Parsed::Skipped => Answered { state: c, size: 0 },
        Parsed::TooLong => answering::answer_too_long(c, number, text),
        Parsed::Expected(k, kind) => answering::answer_fault(c, number, k, kind, text),
        Parsed::Setup => answering::answer_setup(first, second, text),
        Parsed::Command(i, random, n) => {
            answering::answer_command(c, i, first, second, random, &mut reply[..n], text)
        }
        Parsed::Link(i) => answering::answer_link(c, i, text),
        Parsed::Route(i, l) => answering::answer_route(c, i, l, text),
        Parsed::Reach(n) => answering::answer_reach(c, &mut reply[..n], text),
    }
}

// A line without its LF: the next state, and the answer line at the start of the text buffer. The other buffers are lent for what the line says.
pub fn answer_line(
    c: Coordinator,
    number: u64,
    line: &[u8],
    first: &mut [u8],
    second: &mut [u8],
    reply: &mut [u8],
    text: &mut [u8],
) -> Answered
    requires { (131072 ≤ length first.old) × (131072 ≤ length second.old) × (65536 ≤ length reply.old) × (140000 ≤ length text.old) }
    ensures state { result.state ≡ (step_line c number (read_line line.now)).state }
    ensures text { take result.size text.new ≡ (step_line c number (read_line line.now)).text }
    ensures room { result.size ≤ 140000 }
{
    let read = reading::read_line(line, first, second);
    answer_read(
        c,
        number,
        read.parsed,
        &first[..read.first],
        &second[..read.second],
        reply,
        text,
    )
}
