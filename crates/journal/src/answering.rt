// Lines answered: the next state, and the answer line in a lent text buffer that has room for the longest.
ghost use Rattle.std.specs.Prelude.{◌≡◌, ◌++◌, ◌≤◌, length, take};
ghost use Rattle.paper.specs.declared.state.Coordinator.{Coordinator};
ghost use Rattle.journal.specs.Statements.{setup, command, link, route, reach, too_long, expected};
ghost use Rattle.journal.specs.Texts.{end_text};
ghost use Rattle.journal.specs.Replay.{step_said, step_line};

use crate::lending::Lent;
use crate::statement::Kind;
use crate::telling::Told;
use crate::{lending, telling};
use coordinator::{commanding, questions, setup};
use paper::state::Coordinator;

// The next state, and how many bytes of the text buffer the answer line takes.
#[derive(Clone, Copy)]
pub struct Answered {
    pub state: Coordinator,
    pub size: usize,
}

// A statement's word, what is told behind it, and the end of the line.
fn line<T: Told>(text: &mut [u8], word: &[u8], told: T) -> usize
    requires { (length word.now ≤ 7) × T.Fits told × (length (T.told told) ≤ T.most) × (T.most ≤ 131129) × (140000 ≤ length text.old) }
    ensures text { take result text.new ≡ (word.now ++ T.told told) ++ end_text }
    ensures room { result ≤ 140000 }
{
    let limit = text.len();
    let at = wire::put_bytes(text, 0, limit, word);
    let end = told.put(text, at, limit);
    wire::put(text, end, limit, b'\n')
}

// "A new coordinator; all before it is forgotten."
pub fn answer_setup(ids: &[u8], luns: &[u8], text: &mut [u8]) -> Answered
    requires { 140000 ≤ length text.old }
    ensures state { (c : Coordinator) → result.state ≡ (step_said c (setup ids.now luns.now)).state }
    ensures text { (c : Coordinator) → take result.size text.new ≡ (step_said c (setup ids.now luns.now)).text }
    ensures room { result.size ≤ 140000 }
{
    let begun = setup::setup(ids, luns);
    let size = line(text, b"setup", begun.answer);
    Answered {
        state: begun.state,
        size,
    }
}

// A command, with the reply buffer as long as the journal says.
pub fn answer_command(
    c: Coordinator,
    i: u64,
    cdb: &[u8],
    list: &[u8],
    random: u64,
    reply: &mut [u8],
    text: &mut [u8],
) -> Answered
    requires { (length reply.old ≤ 65536) × (140000 ≤ length text.old) }
    ensures state { result.state ≡ (step_said c (command i cdb.now list.now random (length reply.old))).state }
    ensures text { take result.size text.new ≡ (step_said c (command i cdb.now list.now random (length reply.old))).text }
    ensures room { result.size ≤ 140000 }
{
    lending::fill(reply);
    let outcome = commanding::command(c, i as usize, cdb, list, random, reply);
    let lent = Lent {
        answer: outcome.answer,
        n: outcome.delivered,
        reply,
    };
    let size = line(text, b"command", lent);
    Answered {
        state: outcome.state,
        size,
    }
}

pub fn answer_link(c: Coordinator, i: u64, text: &mut [u8]) -> Answered
    requires { 140000 ≤ length text.old }
    ensures state { result.state ≡ (step_said c (link i)).state }
    ensures text { take result.size text.new ≡ (step_said c (link i)).text }
    ensures room { result.size ≤ 140000 }
{
    let outcome = questions::link_event(c, i as usize);
    let size = line(text, b"link", outcome.answer);
    Answered {
        state: outcome.state,
        size,
    }
}

pub fn answer_route(c: Coordinator, i: u64, lun: u64, text: &mut [u8]) -> Answered
    requires { 140000 ≤ length text.old }
    ensures state { result.state ≡ (step_said c (route i lun)).state }
    ensures text { take result.size text.new ≡ (step_said c (route i lun)).text }
    ensures room { result.size ≤ 140000 }
{
    let opening = questions::route(c, i as usize, lun);
    let size = line(text, b"route", opening.opened);
    Answered { state: c, size }
}

// The reach list, with the reply buffer as long as the journal says.
pub fn answer_reach(c: Coordinator, reply: &mut [u8], text: &mut [u8]) -> Answered
    requires { (length reply.old ≤ 65536) × (140000 ≤ length text.old) }
    ensures state { result.state ≡ (step_said c (reach (length reply.old))).state }
    ensures text { take result.size text.new ≡ (step_said c (reach (length reply.old))).text }
    ensures room { result.size ≤ 140000 }
{
    lending::fill(reply);
    let outcome = questions::reach(c, reply);
    let lent = Lent {
        answer: outcome.answer,
        n: outcome.delivered,
        reply,
    };
    let size = line(text, b"reach", lent);
    Answered {
        state: outcome.state,
        size,
    }
}

// "expected at most 262144 bytes"
pub fn answer_too_long(c: Coordinator, number: u64, text: &mut [u8]) -> Answered
    requires { 140000 ≤ length text.old }
    ensures state { result.state ≡ (step_line c number too_long).state }
    ensures text { take result.size text.new ≡ (step_line c number too_long).text }
    ensures room { result.size ≤ 140000 }
{
    let limit = text.len();
    let at = telling::put_line(text, 0, limit, number);
    let told = wire::put_bytes(text, at, limit, b": expected at most 262144 bytes");
    let size = wire::put(text, told, limit, b'\n');
    Answered { state: c, size }
}

// "There is one message a line, for the first fault found"
pub fn answer_fault(c: Coordinator, number: u64, which: u8, kind: Kind, text: &mut [u8]) -> Answered
    requires { 140000 ≤ length text.old }
    ensures state { result.state ≡ (step_line c number (expected which kind)).state }
    ensures text { take result.size text.new ≡ (step_line c number (expected which kind)).text }
    ensures room { result.size ≤ 140000 }
{
    let limit = text.len();
    let at = telling::put_line(text, 0, limit, number);
    let told = telling::put_expected(text, at, limit, which, kind);
    let size = wire::put(text, told, limit, b'\n');
    Answered { state: c, size }
}
