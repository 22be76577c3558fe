// The route question, link events and the reach list. An initiator's number may be any number.
#![tactic(auto, using(crate::proofs::Asking::few_initiators), unfolding(paper::specs::Outcomes::decide_link, paper::specs::Outcomes::decide_reach, paper::specs::Outcomes::routed))]

ghost use Rattle.std.specs.Prelude.{◌≡◌, true, length};
ghost use Rattle.paper.specs.Standing.{standing};
ghost use Rattle.paper.specs.Outcomes.{decide_link, decide_reach, outcome_of, buffer_after, routed, opening_of};

use commands::{enrolling, switching};
use paper::answers::{Answer, Opened, Refusal};
use paper::outcomes;
use paper::outcomes::{Opening, Outcome};
use paper::state::Coordinator;
use report::reaching;
use rows::{building, opening};
use standing::rules;

// What a LUN opens to an initiator, where the state stands.
fn opened_to(c: &Coordinator, initiator: usize, lun: u64) -> Opened
    requires { standing c.now ≡ true }
    ensures { result ≡ routed c.now initiator lun }
{
    if c.initiators.count <= initiator {
        return Opened::Barred(Refusal::NoInitiator);
    }
    opening::opened(building::rows_of(c, initiator).in_use(), lun)
}

// The same, with its values.
pub fn route_standing(c: Coordinator, initiator: usize, lun: u64) -> Opening
    requires { standing c ≡ true }
    ensures { result ≡ opening_of (routed c initiator lun) }
{
    outcomes::opening_of(opened_to(&c, initiator, lun))
}

// What a LUN opens to an initiator.
pub fn route(c: Coordinator, initiator: usize, lun: u64) -> Opening
    ensures { result ≡ opening_of (routed c initiator lun) }
{
    if !rules::standing(&c) {
        return outcomes::opening_of(Opened::Barred(Refusal::BadState));
    }
    outcomes::opening_of(opened_to(&c, initiator, lun))
}

// A link event of an initiator, where the state stands; while disabled it changes nothing.
pub fn link_event_standing(c: Coordinator, initiator: usize) -> Outcome
    requires { standing c ≡ true }
    ensures { result ≡ outcome_of c (decide_link c initiator) }
{
    if c.initiators.count <= initiator {
        return outcomes::handed_back(c, Answer::Refused(Refusal::NoInitiator), 0);
    }
    if c.enabled {
        enrolling::link_event(c, initiator)
    } else {
        switching::no_action(c)
    }
}

// A link event of an initiator.
pub fn link_event(c: Coordinator, initiator: usize) -> Outcome
    ensures { result ≡ outcome_of c (decide_link c initiator) }
{
    if !rules::standing(&c) {
        return outcomes::handed_back(c, Answer::Refused(Refusal::BadState), 0);
    }
    link_event_standing(c, initiator)
}

// The reach list, where the state stands, in the lent buffer if that has room for all of it.
pub fn reach_standing(c: Coordinator, reply: &mut [u8]) -> Outcome
    requires { standing c ≡ true }
    ensures outcome { result ≡ outcome_of c (decide_reach c (length reply.old)) }
    ensures bytes { reply.new ≡ buffer_after (decide_reach c (length reply.old)) reply.old }
{
    reaching::reach(c, reply)
}

// The reach list.
pub fn reach(c: Coordinator, reply: &mut [u8]) -> Outcome
    ensures outcome { result ≡ outcome_of c (decide_reach c (length reply.old)) }
    ensures bytes { reply.new ≡ buffer_after (decide_reach c (length reply.old)) reply.old }
{
    if !rules::standing(&c) {
        return outcomes::handed_back(c, Answer::Refused(Refusal::BadState), 0);
    }
    reach_standing(c, reply)
}
