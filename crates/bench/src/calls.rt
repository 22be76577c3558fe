// The calls that are measured, each made so many times, behind one test whether the state stands.
ghost use Rattle.std.specs.Prelude.{◌≡◌, true};
ghost use Rattle.paper.specs.Standing.{standing};

use coordinator::{commanding, questions};
use paper::answers;
use paper::answers::{Answer, Refusal};
use paper::outcomes::{Opening, Outcome};
use paper::state::Coordinator;
use standing::rules;

// What a call is about, beside the CDB and the parameter bytes, and how many times it is made.
#[derive(Clone, Copy)]
pub struct Operands {
    pub times: usize,
    pub initiator: usize,
    pub random: u64,
    pub lun: u64,
}

fn of_opening(o: Opening) -> Answer {
    answers::answer_of(o.opened)
}

fn of_outcome(o: Outcome) -> Answer {
    o.answer
}

// A call for a state that stands.
fn called_standing(
    c: &Coordinator,
    letter: u8,
    x: Operands,
    cdb: &[u8],
    list: &[u8],
    reply: &mut [u8],
) -> Answer
    requires { standing c.now ≡ true }
{
    match letter {
        b'D' => of_outcome(commanding::command_standing(
            *c,
            x.initiator,
            cdb,
            list,
            x.random,
            reply,
        )),
        b'U' => of_outcome(questions::link_event_standing(*c, x.initiator)),
        b'X' => of_outcome(questions::reach_standing(*c, reply)),
        _ => Answer::Good,
    }
}

// The call that a letter names, where it is known whether the state stands; a call that tests it itself does not look at that.
// The route question is put here in both forms: it copies no state, and beside calls that do it would be charged with their copies.
fn called(
    c: &Coordinator,
    stands: bool,
    letter: u8,
    x: Operands,
    cdb: &[u8],
    list: &[u8],
    reply: &mut [u8],
) -> Answer
    requires { stands ≡ standing c.now }
{
    match letter {
        b'C' => of_outcome(commanding::command(*c, x.initiator, cdb, list, x.random, reply)),
        b'R' => of_opening(questions::route(*c, x.initiator, x.lun)),
        b'V' => of_outcome(questions::link_event(*c, x.initiator)),
        b'W' => of_outcome(questions::reach(*c, reply)),
        b'S' if stands => of_opening(questions::route_standing(*c, x.initiator, x.lun)),
        _ if stands => called_standing(c, letter, x, cdb, list, reply),
        _ => Answer::Refused(Refusal::BadState),
    }
}

// The call so many times: the last answer.
pub fn repeated(
    c: &Coordinator,
    letter: u8,
    x: Operands,
    cdb: &[u8],
    list: &[u8],
    reply: &mut [u8],
) -> Answer {
    let stands = rules::standing(c);
    let mut answer = Answer::Good;
    for _ in 0..x.times {
        answer = called(c, stands, letter, x, cdb, list, reply);
    }
    answer
}
