// Tokens ended and added.
ghost use Rattle.std.specs.Prelude.{◌≡◌, [], ◌∷◌, ◌++◌, ◌<◌, take, eqb};
ghost use Rattle.lists.specs.Lists.{any, keep};
ghost use Rattle.paper.specs.Tables.{token_table};
ghost use Rattle.paper.specs.Effects.{ends, outlives};
ghost use Rattle.paper.specs.Pages.{tokens_in};
ghost use Rattle.tables.specs.Endings.{ending_of};

use paper::state;
use paper::state::{Token, Tokens};

// Which tokens end: an initiator's own of a number, an initiator's by naming a LUN, those that a page 02h lists, or all.
#[derive(Clone, Copy)]
pub enum EndKind {
    Own(u8, u64),
    Named(u8, u64),
    Listed,
    AllTokens,
}

// Whether a page 02h lists a number.
pub fn lists_token(page: &[u8], n: u64) -> bool
    ensures { result ≡ any (λ m. eqb m n) (tokens_in page.now) }
{
    let count = (wire::be16(page, 2) / 8) as usize;
    for k in 0..count {
        if wire::be64(page, 4 + 8 * k) == n {
            return true;
        }
    }
    false
}

// Whether a token ends. The page is looked at for its list alone.
pub fn ends_token(e: EndKind, page: &[u8], t: Token) -> bool
    ensures { result ≡ ends (ending_of e page.now) t }
{
    match e {
        EndKind::Own(i, n) => t.requester == i && t.number == n,
        EndKind::Named(i, l) => t.requester == i && wire::lun_of(t.lun) == l,
        EndKind::Listed => lists_token(page, t.number),
        EndKind::AllTokens => true,
    }
}

// The tokens that live on.
pub fn tokens_after(ts: &Tokens, e: EndKind, page: &[u8]) -> Tokens
    ensures { result ≡ token_table (keep (outlives (ending_of e page.now)) (take ts.now.count ts.now.items)) }
{
    let left = lists::kept(state::no_token(), ts.in_use(), |t| !ends_token(e, page, *t));
    Tokens::from(left)
}

// The table with one token more, behind the others.
pub fn token_added(ts: &Tokens, t: Token) -> Tokens
    requires { ts.now.count < 32 }
    ensures { result ≡ token_table (take ts.now.count ts.now.items ++ (t ∷ [])) }
{
    Tokens::from(lists::added(state::no_token(), ts.in_use(), t))
}
