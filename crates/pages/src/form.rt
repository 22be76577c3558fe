// Phase 3: whether the list is malformed.
ghost use Rattle.std.specs.Prelude.{◌≡◌, not, ◌||◌, eqb};
ghost use Rattle.lists.specs.Lists.{any, pairs};
ghost use Rattle.paper.specs.Sizes.{id_size};
ghost use Rattle.paper.specs.Pages.{generation_in, ace_pages, descriptors_in, bad_transport, bad_identifier, bad_mode, bad_list_length, bad_list_page, bad_all_page, bad_page, same_grant};

use crate::walks::Pages;
use crate::{header, page, walks};
use paper::state::ID_SIZE;
use tables::identifiers;

fn bad_transport(page: &[u8]) -> bool
    ensures { result ≡ bad_transport page.now }
{
    page::type_in(page) == 1 && !identifiers::valid_transport(page::page_id(page))
}

// "identifier type not 00h (AccessID) or 01h; identifier length not 24; bad TransportID"
#[tactic(auto, unfolding(paper::specs::Pages::bad_identifier))]
fn bad_identifier(page: &[u8]) -> bool
    ensures { result ≡ bad_identifier page.now }
{
    page::type_in(page) >= 2 || page::id_length(page) as usize != ID_SIZE || bad_transport(page)
}

// "a page length other than 28 + 20k"
fn bad_list_length(length: u16) -> bool
    ensures { result ≡ bad_list_length id_size length }
{
    let size = length as usize;
    let least = 4 + ID_SIZE;
    size < least || (size - least) % 20 != 0
}

// "an access mode not 00h": of any descriptor of a run.
fn some_bad_mode(run: &[u8]) -> bool
    ensures { result ≡ any bad_mode (descriptors_in run.now) }
{
    walks::descriptors_in(run).any(|d| d.mode != 0)
}

#[tactic(auto, unfolding(paper::specs::Pages::bad_list_page))]
fn bad_list_page(page: &[u8]) -> bool
    ensures { result ≡ bad_list_page page.now }
{
    bad_list_length(page::page_length(page))
        || bad_identifier(page)
        || some_bad_mode(page::descriptors(page))
}

#[tactic(auto, unfolding(paper::specs::Pages::bad_all_page))]
fn bad_all_page(page: &[u8]) -> bool
    ensures { result ≡ bad_all_page page.now }
{
    page::page_length(page) as usize != 4 + ID_SIZE || bad_identifier(page)
}

// Stays: the paper names pages by their codes ("page 00h"), so an enum of the codes would only put a second name beside each.
#[tactic(auto, unfolding(paper::specs::Pages::bad_page))]
fn bad_page(page: &[u8]) -> bool
    ensures { result ≡ bad_page page.now }
{
    match page::page_code(page) {
        0x00 => bad_list_page(page),
        0x01 => bad_all_page(page),
        0x02 => page::page_length(page) % 8 != 0,
        0x03 => page::page_length(page) != 0,
        _ => true,
    }
}

fn some_bad_page(list: &[u8]) -> bool
    ensures { result ≡ any bad_page (ace_pages list.now) }
{
    header::pages(list).any(|page| bad_page(page))
}

// Two grant pages with one type and identifier.
#[tactic(auto, unfolding(paper::specs::Pages::same_grant))]
fn same_grant(p: &[u8], q: &[u8]) -> bool
    ensures { result ≡ same_grant p.now q.now }
{
    page::is_grant(p)
        && page::is_grant(q)
        && identifiers::same_id(
            page::page_type(p),
            page::page_id(p),
            page::page_type(q),
            page::page_id(q),
        )
}

// Whether one of the pages behind a page grants to its identifier again. A page that grants nothing is not held against each of them.
fn granted_later(page: &[u8], mut behind: Pages<'_>) -> bool
    ensures { result ≡ any (same_grant page.now) behind.entry }
{
    page::is_grant(page) && behind.any(|later| same_grant(page, later))
}

#[tactic(auto, unfolding(lists::specs::Lists::pairs))]
fn two_grants(list: &[u8]) -> bool
    ensures { result ≡ pairs same_grant (ace_pages list.now) }
{
    let mut pages = header::pages(list);
    while let Some(page) = pages.next() {
        if granted_later(page, pages.left()) {
            return true;
        }
    }
    false
}

// A list is malformed if its DLgeneration is not the current one, a page is bad, or two pages grant to one identifier.
pub fn malformed(generation: u32, list: &[u8]) -> bool
    ensures { result ≡ not (eqb (generation_in list.now) generation) || (any bad_page (ace_pages list.now) || pairs same_grant (ace_pages list.now)) }
{
    header::generation_in(list) != generation || some_bad_page(list) || two_grants(list)
}
