// ACEs made, and looked for.
ghost use Rattle.std.specs.Prelude.{◌≡◌, take};
ghost use Rattle.lists.specs.Lists.{is_some};
ghost use Rattle.paper.specs.Contents.{these, everything};
ghost use Rattle.paper.specs.Tables.{ace_of};
ghost use Rattle.paper.specs.Rows.{ace_for};

use crate::lookups;
use lists::Table;
use paper::state;
use paper::state::{Ace, Extent, ID_SIZE, IdType, Luacd};

pub fn has_ace(aces: &[Ace], k: IdType, id: &[u8]) -> bool
    ensures { result ≡ is_some (ace_for aces.now k id.now) }
{
    lookups::ace_for(aces, k, id).is_some()
}

// An ACE that lists LUACDs, of which it takes the first 16.
pub fn listed_ace(k: IdType, id: [u8; ID_SIZE], luacds: &[Luacd]) -> Ace
    ensures { result ≡ ace_of k id (these (take 16 luacds.now)) }
{
    let Table { count, items } = lists::copied(state::no_luacd(), lists::first(luacds, 16));
    Ace {
        kind: k,
        extent: Extent::Listed,
        id,
        count,
        luacds: items,
    }
}

// An ACE that holds all units, each at its default LUN.
pub fn all_units_ace(k: IdType, id: [u8; ID_SIZE]) -> Ace
    ensures { result ≡ ace_of k id everything }
{
    Ace {
        kind: k,
        extent: Extent::Everything,
        id,
        count: 0,
        luacds: [state::no_luacd(); 16],
    }
}
