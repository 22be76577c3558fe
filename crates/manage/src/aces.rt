// The ACEs after a list: those that no page names, and then those that the pages put, in their order. No two grant pages of a list
// name one identifier, so that the ACEs may be taken out first and added then; the list may pass 32 in between, and does not here.
ghost use Rattle.std.specs.Prelude.{◌≡◌, ◌++◌, ◌≤◌, length, take};
ghost use Rattle.lists.specs.Lists.{any, keep, gather};
ghost use Rattle.lists.specs.Pages.{pages_of};
ghost use Rattle.paper.specs.Tables.{acl_of};
ghost use Rattle.paper.specs.Pages.{is_grant};
ghost use Rattle.manage.specs.EndState.{names_id, unnamed, new_aces};
ghost use Rattle.manage.specs.Aces.{Uncrowded, Sized, put_listed, put_of, fitted, fitted_after};

use crate::{luacds, room};
use pages::{page, walks};
use paper::answers::Condition;
use paper::state;
use paper::state::{Ace, Acl, ID_SIZE, IdType, Luacd};
use tables::{aces, identifiers};

// The ACE of a list, which is none without LUACDs.
#[tactic(auto, unfolding(crate::specs::Aces::put_listed))]
fn put_listed(k: IdType, id: [u8; ID_SIZE], luacds: &[Luacd]) -> Option<Ace>
    requires { length luacds.now ≤ 16 }
    ensures { result ≡ put_listed k id luacds.now }
{
    if luacds.is_empty() {
        return None;
    }
    Some(aces::listed_ace(k, id, luacds))
}

// "Page 00h replaces the ACE by the page's LUACDs", "Page 01h replaces it by all units".
// Stays: pages by their codes, as the paper names them.
fn put_by(luns: &[u16], page: &[u8]) -> Result<Option<Ace>, Condition>
    requires { length luns.now ≤ 32 }
    ensures { result ≡ put_of (new_aces luns.now page.now) }
{
    let k = page::page_type(page);
    let id = identifiers::kept_id(k, page::page_id(page));
    match page::page_code(page) {
        0x00 => {
            let listed = luacds::listed_luacds(luns, page::descriptors(page))?;
            Ok(put_listed(k, id, listed.in_use()))
        }
        0x01 => Ok(Some(aces::all_units_ace(k, id))),
        _ => Ok(None),
    }
}

// A grant page for an identifier.
#[tactic(auto, unfolding(crate::specs::EndState::names_id))]
fn names(page: &[u8], k: IdType, id: &[u8]) -> bool
    ensures { result ≡ names_id k id.now page.now }
{
    page::is_grant(page) && identifiers::same_id(k, id, page::page_type(page), page::page_id(page))
}

// Whether one of the pages is a grant page for the identifier of an ACE.
fn is_named(a: &Ace, pages: &[u8]) -> bool
    ensures { result ≡ any (names_id a.now.kind a.now.id) (pages_of pages.now) }
{
    walks::pages_of(pages).any(|page| names(page, a.kind, &a.id))
}

// Whether one of the pages is a grant page.
fn some_grant(pages: &[u8]) -> bool
    ensures { result ≡ any is_grant (pages_of pages.now) }
{
    walks::pages_of(pages).any(|page| page::is_grant(page))
}

// The ACEs that no page names.
fn unnamed_aces(acl: &Acl, pages: &[u8]) -> Acl
    ensures { result ≡ acl_of (keep (unnamed (pages_of pages.now)) (take acl.now.count acl.now.items)) }
{
    lists::kept(state::no_ace(), acl.in_use(), |a| !is_named(a, pages))
}

// The ACEs, and behind them those that the pages put, in their order.
#[tactic(auto, using(crate::proofs::Put::puts))]
fn with_new(acl: Acl, luns: &[u16], pages: &[u8]) -> Result<Acl, Condition>
    requires { (Uncrowded acl) × (length luns.now ≤ 32) }
    ensures { result ≡ fitted (take acl.count acl.items ++ gather (new_aces luns.now) (pages_of pages.now)) }
{
    let mut next = acl;
    for page in walks::pages_of(pages) {
        if let Some(ace) = put_by(luns, page)? {
            room::push(&mut next, ace)?;
        }
    }
    Ok(next)
}

// The ACL after the pages, if it has room for it. Without a grant page it is as it was, to the last byte.
#[tactic(auto, using(crate::proofs::Fits::fits_after))]
pub fn aces_after(acl: &Acl, luns: &[u16], pages: &[u8]) -> Result<Acl, Condition>
    requires { (Sized acl.now) × (length luns.now ≤ 32) }
    ensures { result ≡ fitted_after luns.now (pages_of pages.now) acl.now }
{
    if !some_grant(pages) {
        return Ok(*acl);
    }
    with_new(unnamed_aces(acl, pages), luns, pages)
}
