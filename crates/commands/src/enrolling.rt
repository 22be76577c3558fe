// ENROLL, CANCEL ENROLLMENT and link events.
ghost use Rattle.std.specs.Prelude.{◌≡◌, [], ◌∷◌};
ghost use Rattle.paper.specs.Identifiers.{kept};
ghost use Rattle.paper.specs.Tables.{enrolment_of};
ghost use Rattle.paper.specs.Effects.{joined, left, link_event, enrolling};
ghost use Rattle.paper.specs.Applied.{applied};
ghost use Rattle.paper.specs.Commands.{elsewhere, enroll_tests, passes};
ghost use Rattle.paper.specs.declared.state.IdType.TheVariants.{AccessId};
ghost use Rattle.rows.specs.Initiator.{InSetup};
ghost use Rattle.tables.specs.Changes.{meant};
ghost use Rattle.commands.specs.Answered.{answered};

use paper::answers::{Answer, Condition};
use paper::outcomes;
use paper::outcomes::Outcome;
use paper::state::{Coordinator, IdType};
use rows::{building, clashes};
use tables::enrolments::{Change, Enrolment};
use tables::{aces, effects, enrolments, identifiers};

// Whether an enrolment is under another AccessID.
fn elsewhere(e: Enrolment, id: &[u8]) -> bool
    ensures { result ≡ elsewhere id.now (meant e.entry) }
{
    match e {
        Enrolment::NotEnrolled => false,
        Enrolment::Enrolled(a) | Enrolment::Pending(a) => {
            !identifiers::same_id(IdType::AccessId, a, IdType::AccessId, id)
        }
    }
}

// "already enrolled or pending under another AccessID"
fn is_elsewhere(c: &Coordinator, i: usize, id: &[u8]) -> bool
    requires { InSetup c.now i }
    ensures { result ≡ elsewhere id.now (enrolment_of c.now i) }
{
    let part = enrolments::enrolment_part(&c.initiators.enrolments, i);
    elsewhere(Enrolment::from_bytes(part), id)
}

// ENROLL "checks 20h/08h, 20h/02h, 20h/0Bh, then enrols".
pub fn enroll(c: Coordinator, i: usize, id: &[u8]) -> Outcome
    requires { InSetup c i }
    ensures { result ≡ answered c (enroll_tests c i id.now) (enrolling (joined i (kept AccessId id.now)) ∷ []) }
{
    if is_elsewhere(&c, i, id) {
        return outcomes::checked(c, Condition::EnrolledElsewhere);
    }
    if !aces::has_ace(c.acl.in_use(), IdType::AccessId, id) {
        return outcomes::checked(c, Condition::NoAce);
    }
    let access = identifiers::kept_id(IdType::AccessId, id);
    let next = effects::enrolled_change(c, Change::Joined(i), &access);
    if clashes::clash_in(building::rows_of(&next, i).in_use()) {
        return outcomes::checked(c, Condition::Clash);
    }
    outcomes::handed_back(next, Answer::Good, 0)
}

// "CANCEL ends an enrolment; without one it is GOOD."
pub fn cancel(c: Coordinator, i: usize) -> Outcome
    requires { InSetup c i }
    ensures { result ≡ answered c passes (enrolling (left i) ∷ []) }
{
    let next = effects::enrolled_change(c, Change::Left(i), b"");
    outcomes::handed_back(next, Answer::Good, 0)
}

// "A link event told by the host turns that initiator from enrolled to pending."
pub fn link_event(c: Coordinator, i: usize) -> Outcome
    requires { InSetup c i }
    ensures { result ≡ answered c passes (enrolling (link_event i) ∷ []) }
{
    let next = effects::enrolled_change(c, Change::LinkEvent(i), b"");
    outcomes::handed_back(next, Answer::Good, 0)
}
