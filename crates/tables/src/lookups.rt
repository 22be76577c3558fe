// Entries looked up.
ghost use Rattle.std.specs.Prelude.{◌≡◌, option_copied};
ghost use Rattle.paper.specs.Rows.{is_for, ace_for, token_for};

use crate::identifiers;
use paper::state::{Ace, IdType, Token};

// The live token of a number.
#[tactic(auto, unfolding(paper::specs::Rows::token_for))]
pub fn token_for(live: &[Token], n: u64) -> Option<Token>
    ensures { result ≡ token_for live.now n }
{
    live.iter().copied().find(|t| t.number == n)
}

// Whether an ACE is that of an identifier.
pub fn is_for(a: &Ace, k: IdType, id: &[u8]) -> bool
    ensures { result ≡ is_for k id.now a.now }
{
    identifiers::same_id(a.kind, &a.id, k, id)
}

// The ACE of an identifier.
#[tactic(auto, unfolding(paper::specs::Rows::ace_for))]
pub fn ace_for<'a>(aces: &'a [Ace], k: IdType, id: &[u8]) -> Option<&'a Ace>
    ensures { option_copied result ≡ ace_for aces.now k id.now }
{
    aces.iter().find(|a| is_for(a, k, id))
}
