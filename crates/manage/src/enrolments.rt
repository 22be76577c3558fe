// The enrolments after a list: FLUSH first, and then the pages in their order.
ghost use Rattle.std.specs.Prelude.{◌≡◌, ◌≤◌};
ghost use Rattle.lists.specs.Pages.{pages_of};
ghost use Rattle.paper.specs.Effects.{ended_under};
ghost use Rattle.paper.specs.Pages.{kept_id};
ghost use Rattle.manage.specs.EndState.{in_order, enrolled_by, removes, ends_under, initiators_by, initiators_after};

use pages::{header, page, walks};
use paper::state::Initiators;
use tables::enrolments::Change;
use tables::{enrolments, identifiers};

// "with no LUACD it removes it (H)": of the descriptors of a page the last one always stands.
#[tactic(auto, unfolding(crate::specs::EndState::removes))]
fn removes(page: &[u8]) -> bool
    ensures { result ≡ removes page.now }
{
    page::page_code(page) == 0x00 && page::descriptors(page).len() < 20
}

// "A page that removes an AccessID's ACE, or replaces it with NOCNCL 0, ends every enrolment under it."
#[tactic(auto, unfolding(crate::specs::EndState::ends_under))]
fn ends_under(page: &[u8]) -> bool
    ensures { result ≡ ends_under page.now }
{
    page::is_grant(page) && page::type_in(page) == 0 && (removes(page) || !page::nocncl_of(page))
}

// Those under the page's AccessID end.
// Stays: each function asks for the count, since the struct is C's and can hold any, and `enrolments_after` of tables asks for it.
fn ended_under(t: Initiators, page: &[u8]) -> Initiators
    requires { t.count ≤ 16 }
    ensures { result ≡ enrolled_by (ended_under (kept_id page.now)) t }
{
    let id = identifiers::kept_id(page::page_type(page), page::page_id(page));
    enrolments::enrolments_after(t, Change::EndedUnder, &id)
}

// The enrolments after the pages, in their order.
#[tactic(auto, unfolding(crate::specs::EndState::in_order, crate::specs::EndState::initiators_by))]
fn initiators_by_pages(t: Initiators, pages: &[u8]) -> Initiators
    requires { t.count ≤ 16 }
    ensures { result ≡ in_order initiators_by (pages_of pages.now) t }
{
    let mut next = t;
    for page in walks::pages_of(pages) {
        if ends_under(page) {
            next = ended_under(next, page);
        }
    }
    next
}

// "FLUSH turns every enrolled initiator pending, and pages apply in order".
#[tactic(auto, unfolding(crate::specs::EndState::initiators_after, paper::specs::Pages::ace_pages))]
pub fn initiators_after(t: Initiators, list: &[u8]) -> Initiators
    requires { t.count ≤ 16 }
    ensures { result ≡ initiators_after list.now t }
{
    let begun = if header::flush_in(list) {
        enrolments::enrolments_after(t, Change::Flushed, list)
    } else {
        t
    };
    initiators_by_pages(begun, header::pages_in(list))
}
