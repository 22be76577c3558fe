// The page of an ACE in REPORT ACL.
ghost use Rattle.std.specs.Prelude.{◌≡◌, ◌+◌, ◌≤◌, take};
ghost use Rattle.lists.specs.Lists.{gather};
ghost use Rattle.lists.specs.Order.{sort};
ghost use Rattle.wire.specs.Write.{Wrote};
ghost use Rattle.paper.specs.Reports.{luacd_before, luacd_bytes, ace_bytes};

use crate::{each, ordering, paged};
use lists::Table;
use paper::state::{Ace, Extent, Luacd};

// The LUACDs of an ACE, by LUN.
pub fn by_lun(a: &Ace) -> Table<Luacd, 16>
    ensures { take result.count result.items ≡ sort luacd_before (take a.now.count a.now.luacds) }
{
    ordering::sorted(&a.luacds, a.count, |p, q| p.lun < q.lun)
}

// Writes the LUACDs of an ACE, by LUN.
fn put_luacds(buf: &mut [u8], at: usize, limit: usize, luns: &[u16], a: &Ace) -> usize
    requires { at + 320 ≤ 4294967296 }
    ensures { Wrote limit at (gather (luacd_bytes luns.now) (sort luacd_before (take a.now.count a.now.luacds))) buf.old result buf.new }
{
    let sorted = by_lun(a);
    each::put_each(buf, at, sorted.in_use(), |buf, to, p| {
        paged::put_luacd(buf, to, limit, luns, p)
    })
}

// "A Granted page has 32 + 20k bytes; an ACE of everything is a Granted All page (01h) of 32."
pub fn put_ace(buf: &mut [u8], at: usize, limit: usize, luns: &[u16], a: &Ace) -> usize
    requires { at + 352 ≤ 4294967296 }
    ensures fits { result ≤ at + 352 }
    ensures wrote { Wrote limit at (ace_bytes luns.now a.now) buf.old result buf.new }
{
    match a.extent {
        Extent::Listed => {
            let n = 28 + 20 * a.in_use().len();
            let b = paged::put_page_head(buf, at, limit, 0x00, n as u16);
            let c = paged::put_identifier(buf, b, limit, a);
            put_luacds(buf, c, limit, luns, a)
        }
        Extent::Everything => {
            let d = paged::put_page_head(buf, at, limit, 0x01, 28);
            paged::put_identifier(buf, d, limit, a)
        }
    }
}
