// The LUACDs of a page that stand. "A LUACD stands if no later one in its page has its LUN or its default LUN."
ghost use Rattle.std.specs.Prelude.{◌≡◌, ◌+◌, ◌<◌, ◌≤◌, ◌^◌, length};
ghost use Rattle.lists.specs.Lists.{any, place_of};
ghost use Rattle.paper.specs.Pages.{overrules, is_default, luacd_of};
ghost use Rattle.manage.specs.Luacds.{luacds_in, filled_with, joined_to, listed_in};

use lists::Table;
use pages::walks;
use pages::walks::Descriptors;
use paper::answers::Condition;
use paper::state;
use paper::state::{Descriptor, Luacd};

// LUACDs by value: the first 16, and how many there are.
#[derive(Clone, Copy)]
pub struct Filled {
    pub luacds: [Luacd; 16],
    pub count: usize,
}

impl Filled {
    // One LUACD more; behind the 16th it is counted alone.
    #[tactic(auto, unfolding(crate::specs::Luacds::joined_to))]
    fn join(&mut self, luacd: Luacd)
        requires { self.old.count + 1 < 2 ^ 64 }
        ensures { self.new ≡ joined_to self.old luacd }
    {
        if self.count < 16 {
            self.luacds[self.count] = luacd;
        }
        self.count += 1;
    }
}

// Whether a later descriptor of the run has its LUN or its default LUN. A list that has passed phase 4 names at most 32 default LUNs,
// and each walk ends at the next descriptor with the same one: all walks of a page together take at most 32 steps a descriptor.
fn overruled(d: &Descriptor, mut behind: Descriptors<'_>) -> bool
    ensures { result ≡ any (overrules d.now) behind.entry }
{
    behind.any(|later| later.lun == d.lun || later.default == d.default)
}

// The unit that has a default LUN, or the number of units.
fn unit_with(luns: &[u16], l: u64) -> u8
    requires { length luns.now ≤ 32 }
    ensures { result ≡ place_of (is_default l) luns.now }
{
    let unit = luns.iter().position(|lun| wire::lun_of(*lun) == l);
    unit.unwrap_or(luns.len()) as u8
}

// The place that a descriptor gives to the unit with its default LUN.
fn luacd_of(luns: &[u16], d: &Descriptor) -> Luacd
    requires { length luns.now ≤ 32 }
    ensures { result ≡ luacd_of luns.now d.now }
{
    Luacd {
        lun: wire::lun_head(d.lun),
        unit: unit_with(luns, d.default),
    }
}

// The LUACDs that stand, by value.
#[tactic(auto, using(crate::proofs::Standing::stand))]
pub fn standing_luacds(luns: &[u16], run: &[u8]) -> Filled
    requires { length luns.now ≤ 32 }
    ensures { result ≡ filled_with (luacds_in luns.now run.now) }
{
    let mut filled = Filled {
        luacds: [state::no_luacd(); 16],
        count: 0,
    };
    let mut descriptors = walks::descriptors_in(run);
    while let Some(d) = descriptors.next() {
        if !overruled(&d, descriptors.left()) {
            filled.join(luacd_of(luns, &d));
        }
    }
    filled
}

// The LUACDs that stand, if an ACE has room for them.
#[tactic(auto, using(crate::proofs::Standing::listed))]
pub fn listed_luacds(luns: &[u16], run: &[u8]) -> Result<Table<Luacd, 16>, Condition>
    requires { length luns.now ≤ 32 }
    ensures { result ≡ listed_in (luacds_in luns.now run.now) }
{
    let Filled { luacds, count } = standing_luacds(luns, run);
    if count > 16 {
        return Err(Condition::NoRoom);
    }
    Ok(Table {
        count,
        items: luacds,
    })
}
