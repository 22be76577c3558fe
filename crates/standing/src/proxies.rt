// The proxy LUNs: each by itself, each with the live tokens, and each two.
ghost use Rattle.std.specs.Prelude.{◌≡◌, not};
ghost use Rattle.lists.specs.Lists.{all, pairs};
ghost use Rattle.paper.specs.Tables.{proxies_of};
ghost use Rattle.paper.specs.Standing.{same_proxy, proxy_formed, proxy_refers};

use crate::luacds::is_among;
use crate::units::lun_formed;
use paper::state::{Coordinator, ProxyLun};
use tables::lookups;

pub fn proxies_formed(proxies: &[ProxyLun]) -> bool
    ensures { result ≡ all proxy_formed proxies.now }
{
    proxies.iter().all(|p| lun_formed(p.lun))
}

fn proxy_refers(c: &Coordinator, p: &ProxyLun) -> bool
    ensures { result ≡ proxy_refers c.now p.now }
{
    is_among(p.initiator, c.initiators.count)
        && lookups::token_for(c.tokens.in_use(), p.token).is_some()
}

// Each proxy LUN is of an initiator that there is, and stands on a live token.
pub fn proxies_refer(c: &Coordinator) -> bool
    ensures { result ≡ all (proxy_refers c.now) (proxies_of c.now) }
{
    c.proxies.in_use().iter().all(|p| proxy_refers(c, p))
}

// "one initiator's proxy LUN present twice"
pub fn proxies_once(proxies: &[ProxyLun]) -> bool
    ensures { result ≡ not (pairs same_proxy proxies.now) }
{
    !lists::some_pair(proxies, |p, q| p.initiator == q.initiator && p.lun == q.lun)
}
