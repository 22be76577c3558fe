// One page: where it ends, what stands at each place of it, and its run of descriptors.
ghost use Rattle.std.specs.Prelude.{◌≡◌, take, drop};
ghost use Rattle.lists.specs.Pages.{page_size};
ghost use Rattle.paper.specs.Sizes.{id_size};
ghost use Rattle.paper.specs.Pages.{page_code, page_length, top_bit, nocncl_of, type_in, page_type, id_length_in, page_id, descriptor_run, descriptor_in, is_grant};

use paper::state::{Descriptor, ID_SIZE, IdType};

// The size of the page at the start of some bytes, its head included, as its head has it.
#[tactic(auto, unfolding(lists::specs::Pages::page_size))]
pub fn page_size(rest: &[u8]) -> usize
    ensures { result ≡ page_size rest.now }
{
    4 + wire::be16(rest, 2) as usize
}

// The page at the start of some bytes, as much of it as is there.
pub fn first_page(rest: &[u8]) -> &[u8]
    ensures { result.now ≡ take (page_size rest.now) rest.now }
{
    lists::first(rest, page_size(rest))
}

// What comes behind that page.
pub fn after_page(rest: &[u8]) -> &[u8]
    ensures { result.now ≡ drop (page_size rest.now) rest.now }
{
    lists::behind(rest, page_size(rest))
}

pub fn page_code(page: &[u8]) -> u8
    ensures { result ≡ page_code page.now }
{
    wire::byte(page, 0)
}

// The page length, which does not count the head.
pub fn page_length(page: &[u8]) -> u16
    ensures { result ≡ page_length page.now }
{
    wire::be16(page, 2)
}

// Bit 7 of a byte.
pub fn top_bit(byte: u8) -> bool
    ensures { result ≡ top_bit byte }
{
    byte & 0x80 != 0
}

pub fn nocncl_of(page: &[u8]) -> bool
    ensures { result ≡ nocncl_of page.now }
{
    top_bit(wire::byte(page, 4))
}

pub fn type_in(page: &[u8]) -> u8
    ensures { result ≡ type_in page.now }
{
    wire::byte(page, 5)
}

pub fn page_type(page: &[u8]) -> IdType
    ensures { result ≡ page_type page.now }
{
    match type_in(page) {
        0 => IdType::AccessId,
        _ => IdType::TransportId,
    }
}

pub fn id_length(page: &[u8]) -> u16
    ensures { result ≡ id_length_in page.now }
{
    wire::be16(page, 6)
}

pub fn page_id(page: &[u8]) -> &[u8]
    ensures { result.now ≡ page_id id_size page.now }
{
    lists::first(lists::behind(page, 8), ID_SIZE)
}

// The run of descriptors of a page for an identifier, as part of the caller's list.
pub fn descriptors(page: &[u8]) -> &[u8]
    ensures { result.now ≡ descriptor_run id_size page.now }
{
    lists::behind(page, 8 + ID_SIZE)
}

// Page 00h or 01h.
pub fn is_grant(page: &[u8]) -> bool
    ensures { result ≡ is_grant page.now }
{
    page_code(page) < 2
}

// The descriptor that some bytes make.
#[tactic(auto, unfolding(paper::specs::Pages::descriptor_in))]
pub fn descriptor(bytes: &[u8]) -> Descriptor
    ensures { result ≡ descriptor_in bytes.now }
{
    Descriptor {
        mode: wire::byte(bytes, 0),
        lun: wire::be64(bytes, 4),
        default: wire::be64(bytes, 12),
    }
}
