// MANAGE ACL: the six phases over the whole list, the first that fails answering, and the end state.
ghost use Rattle.std.specs.Prelude.{◌≡◌, [], true, ◌≤◌};
ghost use Rattle.paper.specs.Tables.{units_of};
ghost use Rattle.paper.specs.Standing.{standing};
ghost use Rattle.paper.specs.Pages.{manage_effects};
ghost use Rattle.paper.specs.Commands.{managed, manage_tests};
ghost use Rattle.paper.specs.Outcomes.{good, judged, outcome_of};
ghost use Rattle.manage.specs.EndState.{granted_with, revoked_by};
ghost use Rattle.manage.specs.Phases.{Passed, passed};

use crate::live::Live;
use crate::{aces, enrolments};
use pages::{form, header, places, whole};
use paper::answers::{Answer, Condition};
use paper::outcomes::Outcome;
use paper::state::{Acl, Coordinator};
use paper::{outcomes, setters};
use rows::clashes;
use tables::keys;

// "The new key is then taken, access controls are on, FLUSH turns every enrolled initiator pending", and the grant pages have applied.
#[tactic(auto, unfolding(crate::specs::EndState::granted_with))]
fn granted_with(c: &Coordinator, list: &[u8], acl: Acl) -> Coordinator
    requires { c.now.initiators.count ≤ 16 }
    ensures { result ≡ granted_with c.now list.now acl }
{
    let initiators = enrolments::initiators_after(c.initiators, list);
    let on = setters::with_switch(*c, true, 1, header::new_key_in(list));
    setters::with_acl(setters::with_initiators(on, initiators), acl)
}

// Pages 02h and 03h have applied too. They change no table that a grant page changes, so they may come after all of those.
#[tactic(auto, unfolding(crate::specs::EndState::revoked_by, crate::specs::EndState::live_after, paper::specs::Pages::ace_pages))]
fn revoked_by(c: &Coordinator, list: &[u8]) -> Coordinator
    ensures { result ≡ revoked_by list.now c.now }
{
    let mut live = Live {
        tokens: c.tokens,
        proxies: c.proxies,
    };
    live.revoke_by_pages(header::pages_in(list));
    setters::with_proxies(setters::with_tokens(*c, live.tokens), live.proxies)
}

// Phases 5 and 6, which are asked of the end state alone. It is put into effect if it passes both.
fn put_into_effect(c: &Coordinator, list: &[u8]) -> Result<Coordinator, Condition>
    requires { Passed c.now list.now }
    ensures { result ≡ passed (manage_tests c.now list.now) (managed c.now list.now) }
{
    let acl = aces::aces_after(&c.acl, c.units.in_use(), header::pages_in(list))?;
    let granted = granted_with(c, list, acl);
    let end = revoked_by(&granted, list);
    if clashes::some_clash(&end) {
        return Err(Condition::Clash);
    }
    Ok(end)
}

// The end state, or the condition of the first phase that fails.
#[tactic(auto, unfolding(paper::specs::Commands::manage_tests, paper::specs::Commands::malformed))]
fn end_state(c: &Coordinator, list: &[u8]) -> Result<Coordinator, Condition>
    requires { standing c.now ≡ true }
    ensures { result ≡ passed (manage_tests c.now list.now) (managed c.now list.now) }
{
    if !whole::all_whole(list) {
        return Err(Condition::WrongLength);
    }
    // "enabled, and the key differs. Disabled: key ignored."
    if keys::wrong_key(c.enabled, c.key, header::key_in(list)) {
        return Err(Condition::WrongKey);
    }
    if form::malformed(c.generation, list) {
        return Err(Condition::BadList);
    }
    if places::some_bad_place(&c.units, list) {
        return Err(Condition::BadLun);
    }
    put_into_effect(c, list)
}

// MANAGE ACL: the first phase that fails answers.
pub fn manage_acl(c: Coordinator, list: &[u8]) -> Outcome
    requires { standing c ≡ true }
    ensures { result ≡ outcome_of c (judged (manage_tests c list.now) (good (manage_effects (units_of c) c.enabled list.now) [])) }
{
    match end_state(&c, list) {
        Ok(end) => outcomes::handed_back(end, Answer::Good, 0),
        Err(k) => outcomes::checked(c, k),
    }
}
