// Phase 4: "a LUN of another form, or a default LUN no unit has".
ghost use Rattle.std.specs.Prelude.{◌≡◌, take};
ghost use Rattle.lists.specs.Lists.{any};
ghost use Rattle.paper.specs.Pages.{ace_pages, descriptors_in, is_default, bad_place, bad_places};

use crate::{header, page, walks};
use paper::state::{Descriptor, Units};

// Whether one of some units has that default LUN.
fn has_default(luns: &[u16], default: u64) -> bool
    ensures { result ≡ any (is_default default) luns.now }
{
    luns.iter().any(|lun| wire::lun_of(*lun) == default)
}

fn bad_place(luns: &[u16], d: &Descriptor) -> bool
    ensures { result ≡ bad_place luns.now d.now }
{
    !wire::lun_form(d.lun) || !has_default(luns, d.default)
}

fn bad_place_in(luns: &[u16], run: &[u8]) -> bool
    ensures { result ≡ any (bad_place luns.now) (descriptors_in run.now) }
{
    walks::descriptors_in(run).any(|d| bad_place(luns, &d))
}

#[tactic(auto, unfolding(paper::specs::Pages::bad_places))]
fn bad_places(luns: &[u16], page: &[u8]) -> bool
    ensures { result ≡ bad_places luns.now page.now }
{
    page::page_code(page) == 0x00 && bad_place_in(luns, page::descriptors(page))
}

fn bad_places_in(luns: &[u16], list: &[u8]) -> bool
    ensures { result ≡ any (bad_places luns.now) (ace_pages list.now) }
{
    header::pages(list).any(|page| bad_places(luns, page))
}

pub fn some_bad_place(units: &Units, list: &[u8]) -> bool
    ensures { result ≡ any (bad_places (take units.now.count units.now.luns)) (ace_pages list.now) }
{
    bad_places_in(units.in_use(), list)
}
