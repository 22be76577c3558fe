// The LUACDs that an ACE lists: each by itself, and each two.
ghost use Rattle.std.specs.Prelude.{◌≡◌, ltb};
ghost use Rattle.lists.specs.Lists.{all};
ghost use Rattle.paper.specs.Standing.{luacds_of, once_listed, luacd_formed, ace_refers};

use crate::units::lun_formed;
use paper::state::{Ace, Coordinator, Extent, Luacd};

// Whether a number is one of the first n, from 0.
pub fn is_among(x: u8, n: usize) -> bool
    ensures { result ≡ ltb x n }
{
    (x as usize) < n
}

// The LUACDs that an ACE lists; an ACE of everything lists none.
fn luacds_of(a: &Ace) -> &[Luacd]
    ensures { result.now ≡ luacds_of a.now }
{
    match a.extent {
        Extent::Listed => a.in_use(),
        Extent::Everything => &[],
    }
}

pub fn luacds_formed(a: &Ace) -> bool
    ensures { result ≡ all luacd_formed (luacds_of a.now) }
{
    luacds_of(a).iter().all(|p| lun_formed(p.lun))
}

// Whether there is the unit of each LUACD that an ACE lists.
pub fn ace_refers(c: &Coordinator, a: &Ace) -> bool
    ensures { result ≡ ace_refers c.now a.now }
{
    luacds_of(a).iter().all(|p| is_among(p.unit, c.units.count))
}

// "a LUN or unit twice in one ACE"
pub fn once_listed(a: &Ace) -> bool
    ensures { result ≡ once_listed a.now }
{
    !lists::some_pair(luacds_of(a), |p, q| p.lun == q.lun || p.unit == q.unit)
}
