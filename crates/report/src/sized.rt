// How long the pages of REPORT ACL are: their length stands before them.
ghost use Rattle.std.specs.Prelude.{◌≡◌, List, true, ℕ, ◌+◌, ◌*◌, ◌≤◌, length};
ghost use Rattle.lists.specs.Lists.{gather};
ghost use Rattle.paper.specs.Standing.{luacds_of, standing};
ghost use Rattle.paper.specs.Reports.{ace_bytes, proxy_page, report_pages};

use paper::state::{Ace, Coordinator, Extent, Token};

// "A Granted page has 32 + 20k bytes; an ACE of everything is a Granted All page (01h) of 32."
fn page_size(a: &Ace) -> usize
    ensures { (result ≡ 32 + 20 * length (luacds_of a.now)) × (result ≤ 352) }
{
    match a.extent {
        Extent::Listed => 32 + 20 * a.in_use().len(),
        Extent::Everything => 32,
    }
}

// The length of all ACEs' pages. No default LUN changes it.
fn aces_size(aces: &[Ace]) -> usize
    requires { length aces.now ≤ 32 }
    ensures { (luns : List ℕ) → result ≡ length (gather (ace_bytes luns) aces.now) }
{
    let mut total = 0;
    for a in aces {
        total += page_size(a);
    }
    total
}

// The length of the proxy page, "left out if empty".
fn proxy_size(live: &[Token]) -> usize
    requires { length live.now ≤ 32 }
    ensures { (luns : List ℕ) → result ≡ length (proxy_page luns live.now) }
{
    if live.is_empty() {
        0
    } else {
        4 + 20 * live.len()
    }
}

// The length of all pages.
pub fn pages_size(c: &Coordinator) -> usize
    requires { standing c.now ≡ true }
    ensures { (result ≡ length (report_pages c.now)) × (result ≤ 11908) }
{
    aces_size(c.acl.in_use()) + proxy_size(c.tokens.in_use())
}
