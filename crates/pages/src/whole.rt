// Phase 1: "a page, its 4-byte head included, runs past the end".
ghost use Rattle.std.specs.Prelude.{◌≡◌};
ghost use Rattle.lists.specs.Lists.{all};
ghost use Rattle.lists.specs.Pages.{whole_page};
ghost use Rattle.paper.specs.Pages.{ace_pages};

use crate::{header, page};

#[tactic(auto, unfolding(lists::specs::Pages::whole_page))]
fn whole_page(page: &[u8]) -> bool
    ensures { result ≡ whole_page page.now }
{
    page::page_size(page) <= page.len()
}

pub fn all_whole(list: &[u8]) -> bool
    ensures { result ≡ all whole_page (ace_pages list.now) }
{
    header::pages(list).all(|page| whole_page(page))
}
