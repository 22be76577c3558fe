// The proxy page of REPORT ACL.
ghost use Rattle.std.specs.Prelude.{◌≡◌, ◌+◌, ◌≤◌, take};
ghost use Rattle.lists.specs.Lists.{gather};
ghost use Rattle.lists.specs.Order.{sort};
ghost use Rattle.wire.specs.Write.{Wrote};
ghost use Rattle.paper.specs.Reports.{token_before, token_bytes, proxy_page};

use crate::{each, ordering, paged};
use lists::Table;
use paper::state::{Token, Tokens};

// The tokens, ascending.
pub fn by_number(tokens: &Tokens) -> Table<Token, 32>
    ensures { take result.count result.items ≡ sort token_before (take tokens.now.count tokens.now.items) }
{
    ordering::sorted(&tokens.items, tokens.count, |t, s| t.number < s.number)
}

// Writes the tokens, ascending.
fn put_tokens(buf: &mut [u8], at: usize, limit: usize, luns: &[u16], tokens: &Tokens) -> usize
    requires { at + 640 ≤ 4294967296 }
    ensures { Wrote limit at (gather (token_bytes luns.now) (sort token_before (take tokens.now.count tokens.now.items))) buf.old result buf.new }
{
    let sorted = by_number(tokens);
    each::put_each(buf, at, sorted.in_use(), |buf, to, t| {
        paged::put_token(buf, to, limit, luns, t)
    })
}

// "proxy page last with tokens ascending, left out if empty (H)"
pub fn put_proxy_page(
    buf: &mut [u8],
    at: usize,
    limit: usize,
    luns: &[u16],
    tokens: &Tokens,
) -> usize
    requires { at + 644 ≤ 4294967296 }
    ensures { Wrote limit at (proxy_page luns.now (take tokens.now.count tokens.now.items)) buf.old result buf.new }
{
    let n = tokens.in_use().len();
    if n == 0 {
        return at;
    }
    let a = paged::put_page_head(buf, at, limit, 0x02, (20 * n) as u16);
    put_tokens(buf, a, limit, luns, tokens)
}
