// Refusal 2, one function a rule, in the order and words of document 01.
ghost use Rattle.std.specs.Prelude.{◌≡◌, ◌≤◌};
ghost use Rattle.paper.specs.Standing.{setup_kept, within_sizes, identifiers_once, present_once, luacds_once, lists_filled, well_formed, tokens_nonzero, references_there, no_clash, generation_right, empty_while_off, standing};

use crate::{aces, initiators, luacds, proxies, tokens, units};
use paper::state::Coordinator;
use rows::clashes;
use tables::lookups;

// "a setup rule"
#[tactic(auto, using(crate::proofs::Setup::setup_by))]
pub fn setup_kept(c: &Coordinator) -> bool
    ensures { result ≡ setup_kept c.now }
{
    let luns = c.units.in_use();
    c.initiators.count <= 16
        && initiators::transports_valid(&c.initiators)
        && initiators::transports_once(&c.initiators)
        && units::defaults_formed(luns)
        && units::defaults_once(luns)
}

// "a count over its size"
#[tactic(auto, unfolding(paper::specs::Standing::within_sizes))]
pub fn within_sizes(c: &Coordinator) -> bool
    ensures { result ≡ within_sizes c.now }
{
    c.initiators.count <= 16
        && c.units.count <= 32
        && c.acl.count <= 32
        && aces::few_luacds(c.acl.in_use())
        && c.tokens.count <= 32
        && c.proxies.count <= 32
}

// "an identifier in two ACEs of its type"
#[tactic(auto, unfolding(paper::specs::Standing::identifiers_once))]
pub fn identifiers_once(c: &Coordinator) -> bool
    ensures { result ≡ identifiers_once c.now }
{
    !lists::some_pair(c.acl.in_use(), |a, b| lookups::is_for(a, b.kind, &b.id))
}

// "a token or one initiator's proxy LUN present twice"
#[tactic(auto, unfolding(paper::specs::Standing::present_once))]
pub fn present_once(c: &Coordinator) -> bool
    ensures { result ≡ present_once c.now }
{
    tokens::tokens_once(c.tokens.in_use()) && proxies::proxies_once(c.proxies.in_use())
}

// "a LUN or unit twice in one ACE"
#[tactic(auto, unfolding(paper::specs::Standing::luacds_once))]
pub fn luacds_once(c: &Coordinator) -> bool
    ensures { result ≡ luacds_once c.now }
{
    c.acl.in_use().iter().all(luacds::once_listed)
}

// "a list without LUACDs"
#[tactic(auto, unfolding(paper::specs::Standing::lists_filled))]
pub fn lists_filled(c: &Coordinator) -> bool
    ensures { result ≡ lists_filled c.now }
{
    c.acl.in_use().iter().all(aces::holds_some)
}

// "a malformed LUN or identifier"
#[tactic(auto, unfolding(paper::specs::Standing::well_formed))]
pub fn well_formed(c: &Coordinator) -> bool
    ensures { result ≡ well_formed c.now }
{
    aces::aces_formed(c.acl.in_use())
        && tokens::tokens_formed(c.tokens.in_use())
        && proxies::proxies_formed(c.proxies.in_use())
}

// "a zero token"
#[tactic(auto, unfolding(paper::specs::Standing::tokens_nonzero))]
pub fn tokens_nonzero(c: &Coordinator) -> bool
    ensures { result ≡ tokens_nonzero c.now }
{
    c.tokens.in_use().iter().all(|t| t.number != 0)
}

// "a reference to an absent unit, initiator, token or enrolled AccessID"
#[tactic(auto, unfolding(paper::specs::Standing::references_there))]
pub fn references_there(c: &Coordinator) -> bool
    ensures { result ≡ references_there c.now }
{
    aces::aces_refer(c)
        && tokens::tokens_refer(c)
        && proxies::proxies_refer(c)
        && initiators::enrolments_refer(c)
}

// "a clash", among initiators that are there
#[tactic(auto, unfolding(paper::specs::Standing::no_clash))]
pub fn no_clash(c: &Coordinator) -> bool
    requires { c.now.initiators.count ≤ 16 }
    ensures { result ≡ no_clash c.now }
{
    !clashes::some_clash(c)
}

// "DLgeneration not 0 disabled or 1 enabled"
#[tactic(auto, unfolding(paper::specs::Standing::generation_right))]
pub fn generation_right(c: &Coordinator) -> bool
    ensures { result ≡ generation_right c.now }
{
    c.generation == if c.enabled { 1 } else { 0 }
}

// "an ACE, token or nonzero key while disabled"
#[tactic(auto, unfolding(paper::specs::Standing::empty_while_off))]
pub fn empty_while_off(c: &Coordinator) -> bool
    ensures { result ≡ empty_while_off c.now }
{
    c.enabled || (c.acl.count == 0 && c.tokens.count == 0 && c.key == 0)
}

// A state that breaks no standing rule.
#[tactic(auto, using(crate::proofs::Setup::few_initiators), unfolding(paper::specs::Standing::standing))]
pub fn standing(c: &Coordinator) -> bool
    ensures { result ≡ standing c.now }
{
    setup_kept(c)
        && within_sizes(c)
        && identifiers_once(c)
        && present_once(c)
        && luacds_once(c)
        && lists_filled(c)
        && well_formed(c)
        && tokens_nonzero(c)
        && references_there(c)
        && no_clash(c)
        && generation_right(c)
        && empty_while_off(c)
}
