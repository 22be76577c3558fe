// The ACEs: each by itself, and each two.
ghost use Rattle.std.specs.Prelude.{◌≡◌};
ghost use Rattle.lists.specs.Lists.{all};
ghost use Rattle.paper.specs.Tables.{aces_of};
ghost use Rattle.paper.specs.Standing.{few_luacds, valid_id, holds_some, ace_formed, ace_refers};

use crate::luacds;
use paper::state::{Ace, Coordinator, Extent, IdType};
use tables::identifiers;

// Whether no ACE lists more LUACDs than it has room for.
pub fn few_luacds(aces: &[Ace]) -> bool
    ensures { result ≡ all few_luacds aces.now }
{
    aces.iter().all(|a| a.count <= 16)
}

pub fn holds_some(a: &Ace) -> bool
    ensures { result ≡ holds_some a.now }
{
    match a.extent {
        Extent::Listed => !a.in_use().is_empty(),
        Extent::Everything => true,
    }
}

fn valid_id(a: &Ace) -> bool
    ensures { result ≡ valid_id a.now.kind a.now.id }
{
    match a.kind {
        IdType::AccessId => true,
        IdType::TransportId => identifiers::valid_transport(&a.id),
    }
}

fn ace_formed(a: &Ace) -> bool
    ensures { result ≡ ace_formed a.now }
{
    valid_id(a) && luacds::luacds_formed(a)
}

pub fn aces_formed(aces: &[Ace]) -> bool
    ensures { result ≡ all ace_formed aces.now }
{
    aces.iter().all(ace_formed)
}

// Whether there is each unit that an ACE names.
pub fn aces_refer(c: &Coordinator) -> bool
    ensures { result ≡ all (ace_refers c.now) (aces_of c.now) }
{
    c.acl.in_use().iter().all(|a| luacds::ace_refers(c, a))
}
