// The live tokens: each by itself, and each two.
ghost use Rattle.std.specs.Prelude.{◌≡◌, not};
ghost use Rattle.lists.specs.Lists.{all, pairs};
ghost use Rattle.paper.specs.Tables.{tokens_of};
ghost use Rattle.paper.specs.Standing.{same_token, token_formed, token_refers};

use crate::luacds::is_among;
use crate::units::lun_formed;
use paper::state::{Coordinator, Token};

pub fn tokens_formed(live: &[Token]) -> bool
    ensures { result ≡ all token_formed live.now }
{
    live.iter().all(|t| lun_formed(t.lun))
}

fn token_refers(c: &Coordinator, t: &Token) -> bool
    ensures { result ≡ token_refers c.now t.now }
{
    is_among(t.unit, c.units.count) && is_among(t.requester, c.initiators.count)
}

// Each live token is for a unit and of an initiator that there are.
pub fn tokens_refer(c: &Coordinator) -> bool
    ensures { result ≡ all (token_refers c.now) (tokens_of c.now) }
{
    c.tokens.in_use().iter().all(|t| token_refers(c, t))
}

// "a token .. present twice"
pub fn tokens_once(live: &[Token]) -> bool
    ensures { result ≡ not (pairs same_token live.now) }
{
    !lists::some_pair(live, |a, b| a.number == b.number)
}
