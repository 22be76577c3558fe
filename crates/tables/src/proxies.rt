// Proxy LUNs: a token's end ends its proxy LUNs for everybody.
ghost use Rattle.std.specs.Prelude.{◌≡◌, [], ◌∷◌, ◌++◌, ◌<◌, take};
ghost use Rattle.lists.specs.Lists.{any, keep};
ghost use Rattle.paper.specs.Tables.{proxy_table};
ghost use Rattle.paper.specs.Applied.{rests_on_ended, kept_by, is_proxy, other_proxy};
ghost use Rattle.tables.specs.Endings.{ending_of};

use crate::tokens::EndKind;
use crate::{lookups, tokens};
use paper::state;
use paper::state::{ProxyLun, ProxyLuns, Token};

// Whether the token that a proxy LUN stands on ends.
pub fn rests_on_ended(live: &[Token], e: EndKind, page: &[u8], p: ProxyLun) -> bool
    ensures { result ≡ rests_on_ended (ending_of e page.now) live.now p }
{
    let Some(t) = lookups::token_for(live, p.token) else {
        return false;
    };
    tokens::ends_token(e, page, t)
}

// The proxy LUNs whose tokens live on.
pub fn proxies_after(ps: &ProxyLuns, live: &[Token], e: EndKind, page: &[u8]) -> ProxyLuns
    ensures { result ≡ proxy_table (keep (kept_by (ending_of e page.now) live.now) (take ps.now.count ps.now.items)) }
{
    let left = lists::kept(state::no_proxy(), ps.in_use(), |p| {
        !rests_on_ended(live, e, page, *p)
    });
    ProxyLuns::from(left)
}

// Whether a proxy LUN is that of an initiator at a LUN.
pub fn is_proxy(p: ProxyLun, i: u8, l: u64) -> bool
    ensures { result ≡ is_proxy i l p }
{
    p.initiator == i && wire::lun_of(p.lun) == l
}

pub fn has_proxy(ps: &[ProxyLun], i: u8, l: u64) -> bool
    ensures { result ≡ any (is_proxy i l) ps.now }
{
    ps.iter().any(|p| is_proxy(*p, i, l))
}

// The table with one proxy LUN more, behind the others.
pub fn proxy_added(ps: &ProxyLuns, p: ProxyLun) -> ProxyLuns
    requires { ps.now.count < 32 }
    ensures { result ≡ proxy_table (take ps.now.count ps.now.items ++ (p ∷ [])) }
{
    ProxyLuns::from(lists::added(state::no_proxy(), ps.in_use(), p))
}

// The proxy LUNs without an initiator's at a LUN.
pub fn proxy_released(ps: &ProxyLuns, i: u8, l: u64) -> ProxyLuns
    ensures { result ≡ proxy_table (keep (other_proxy i l) (take ps.now.count ps.now.items)) }
{
    let left = lists::kept(state::no_proxy(), ps.in_use(), |p| !is_proxy(*p, i, l));
    ProxyLuns::from(left)
}
