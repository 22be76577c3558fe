// Identifiers: compared over a length that their type gives, type first.
ghost use Rattle.std.specs.Prelude.{◌≡◌};
ghost use Rattle.paper.specs.Identifiers.{valid_transport, compared_bytes, same_id, kept};

use paper::state::{ID_SIZE, IdType};

// "a TransportID is 24 bytes and starts with 00h (Fibre Channel) or 01h (parallel SCSI)"
#[tactic(auto, unfolding(paper::specs::Identifiers::valid_transport))]
pub fn valid_transport(id: &[u8]) -> bool
    ensures { result ≡ valid_transport id.now }
{
    id.len() == ID_SIZE && id[0] < 2
}

pub fn compared_bytes(k: IdType) -> usize
    ensures { result ≡ compared_bytes k }
{
    match k {
        IdType::AccessId => 16,
        IdType::TransportId => ID_SIZE,
    }
}

// One type and identifier.
#[tactic(auto, unfolding(paper::specs::Identifiers::same_id))]
pub fn same_id(k: IdType, a: &[u8], l: IdType, b: &[u8]) -> bool
    ensures { result ≡ same_id k a.now l b.now }
{
    k == l && wire::same(a, b, compared_bytes(k))
}

// An identifier as it is kept: the bytes that are compared, and zeros after them.
pub fn kept_id(k: IdType, id: &[u8]) -> [u8; ID_SIZE]
    ensures { result ≡ kept k id.now }
{
    let compared = lists::first(id, compared_bytes(k));
    let mut bytes = [0; ID_SIZE];
    bytes[..compared.len()].copy_from_slice(compared);
    bytes
}
