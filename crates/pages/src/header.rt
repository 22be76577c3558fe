// The header of a MANAGE ACL list, and the pages behind it.
ghost use Rattle.std.specs.Prelude.{◌≡◌, drop};
ghost use Rattle.paper.specs.Pages.{key_in, new_key_in, flush_in, generation_in, list_head, ace_pages};

use crate::page;
use crate::walks::{self, Pages};

pub fn key_in(list: &[u8]) -> u64
    ensures { result ≡ key_in list.now }
{
    wire::be64(list, 4)
}

pub fn new_key_in(list: &[u8]) -> u64
    ensures { result ≡ new_key_in list.now }
{
    wire::be64(list, 12)
}

pub fn flush_in(list: &[u8]) -> bool
    ensures { result ≡ flush_in list.now }
{
    page::top_bit(wire::byte(list, 21))
}

pub fn generation_in(list: &[u8]) -> u32
    ensures { result ≡ generation_in list.now }
{
    wire::be32(list, 24)
}

// The pages, as the part of the list behind the header.
pub fn pages_in(list: &[u8]) -> &[u8]
    ensures { result.now ≡ drop list_head list.now }
{
    lists::behind(list, 28)
}

#[tactic(auto, unfolding(paper::specs::Pages::ace_pages))]
pub fn pages(list: &[u8]) -> Pages<'_>
    ensures { result ≡ ace_pages list.now }
{
    walks::pages_of(pages_in(list))
}
