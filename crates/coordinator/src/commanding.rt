// A command, whatever its bytes: the refusals in their order, then its operation code and service action.
#![tactic(auto, using(crate::proofs::Asking::few_initiators, lists::proofs::Deliver::deliver_none), unfolding(paper::specs::Outcomes::decide_command, paper::specs::Outcomes::decide_reading, paper::specs::Outcomes::decide_order, paper::specs::Outcomes::reply_to, paper::specs::Commands::tests, paper::specs::InForce::effects))]

ghost use Rattle.std.specs.Prelude.{◌≡◌, true, [], length, take};
ghost use Rattle.lists.specs.Bytes.{be};
ghost use Rattle.paper.specs.Standing.{standing};
ghost use Rattle.paper.specs.Commands.{key_tests};
ghost use Rattle.paper.specs.Orders.{length_field};
ghost use Rattle.paper.specs.Reports.{report_bytes};
ghost use Rattle.paper.specs.Outcomes.{owed, good, judged, in_room, decide_command, outcome_of, buffer_after};

use crate::reading;
use crate::reading::{Command, OutOrder};
use commands::{enrolling, proxying, switching, tokening};
use manage::command;
use paper::answers::{Answer, Condition, Refusal};
use paper::outcomes;
use paper::outcomes::Outcome;
use paper::state::Coordinator;
use report::reporting;
use standing::rules;
use tables::keys;

// REPORT ACL: the key is tested before a byte is written.
#[tactic(auto, unfolding(paper::specs::Commands::key_tests))]
fn report_acl(c: Coordinator, cdb: &[u8], reply: &mut [u8]) -> Outcome
    requires { standing c ≡ true }
    ensures outcome { result ≡ outcome_of c (in_room (length reply.old) (judged (key_tests c (be 8 cdb.now 2)) (good [] (take (length_field cdb.now) (report_bytes c))))) }
    ensures bytes { reply.new ≡ buffer_after (in_room (length reply.old) (judged (key_tests c (be 8 cdb.now 2)) (good [] (take (length_field cdb.now) (report_bytes c))))) reply.old }
{
    if keys::wrong_key(c.enabled, c.key, wire::be64(cdb, 2)) {
        return outcomes::checked(c, Condition::WrongKey);
    }
    reporting::report(c, wire::be32(cdb, 10) as usize, reply)
}

// How many parameter bytes a command comes with.
fn owed(cdb: &[u8]) -> usize
    ensures { result ≡ owed cdb.now }
{
    if wire::byte(cdb, 0) == 0x87 {
        wire::be32(cdb, 10) as usize
    } else {
        0
    }
}

// A command of an initiator, where the state stands. Each order has its command; all of them stand in this one function, since a function that hands the state on copies it.
pub fn command_standing(
    c: Coordinator,
    initiator: usize,
    cdb: &[u8],
    list: &[u8],
    random: u64,
    reply: &mut [u8],
) -> Outcome
    requires { standing c ≡ true }
    ensures outcome { result ≡ outcome_of c (decide_command c initiator cdb.now list.now random (length reply.old)) }
    ensures bytes { reply.new ≡ buffer_after (decide_command c initiator cdb.now list.now random (length reply.old)) reply.old }
{
    if c.initiators.count <= initiator {
        return outcomes::handed_back(c, Answer::Refused(Refusal::NoInitiator), 0);
    }
    if cdb.len() != 16 {
        return outcomes::handed_back(c, Answer::Refused(Refusal::BadCdb), 0);
    }
    if list.len() != owed(cdb) {
        return outcomes::handed_back(c, Answer::Refused(Refusal::BadParameters), 0);
    }
    let order = match reading::command_of(c.enabled, cdb, list) {
        Err(k) => return outcomes::checked(c, k),
        Ok(Command::Report) => return report_acl(c, cdb, reply),
        Ok(Command::Request(l)) => return tokening::request_token(c, initiator, l, random, reply),
        Ok(Command::Out(order)) => order,
    };
    match order {
        OutOrder::Manage => command::manage_acl(c, list),
        OutOrder::Disable(key) => switching::disable(c, key),
        OutOrder::Enroll => enrolling::enroll(c, initiator, list),
        OutOrder::Cancel => enrolling::cancel(c, initiator),
        OutOrder::Revoke(n) => tokening::revoke(c, initiator, n),
        OutOrder::RevokeAll(l) => tokening::revoke_all(c, initiator, l),
        OutOrder::Assign(n, l) => proxying::assign(c, initiator, n, l),
        OutOrder::Release(l) => proxying::release(c, initiator, l),
        OutOrder::NoAction => switching::no_action(c),
    }
}

// A command of an initiator.
pub fn command(
    c: Coordinator,
    initiator: usize,
    cdb: &[u8],
    list: &[u8],
    random: u64,
    reply: &mut [u8],
) -> Outcome
    ensures outcome { result ≡ outcome_of c (decide_command c initiator cdb.now list.now random (length reply.old)) }
    ensures bytes { reply.new ≡ buffer_after (decide_command c initiator cdb.now list.now random (length reply.old)) reply.old }
{
    if !rules::standing(&c) {
        return outcomes::handed_back(c, Answer::Refused(Refusal::BadState), 0);
    }
    command_standing(c, initiator, cdb, list, random, reply)
}
