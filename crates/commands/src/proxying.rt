// ASSIGN PROXY LUN and RELEASE PROXY LUN.
ghost use Rattle.std.specs.Prelude.{◌≡◌, [], ◌∷◌, not, ◌||◌};
ghost use Rattle.lists.specs.Lists.{any};
ghost use Rattle.wire.specs.Lun.{lun_form};
ghost use Rattle.paper.specs.Rows.{rows_of, has_lun};
ghost use Rattle.paper.specs.Effects.{assigned, released, proxying};
ghost use Rattle.paper.specs.Commands.{assign_tests, release_tests};
ghost use Rattle.rows.specs.Initiator.{InSetup};
ghost use Rattle.commands.specs.Answered.{answered};

use paper::answers::{Answer, Condition};
use paper::outcomes;
use paper::outcomes::Outcome;
use paper::state::Coordinator;
use rows::{building, opening};
use tables::{effects, lookups, proxies};

// "form, or any row of the caller has the LUN"
fn is_taken(c: &Coordinator, i: usize, l: u64) -> bool
    requires { InSetup c.now i }
    ensures { result ≡ not (lun_form l) || any (has_lun l) (rows_of c.now i) }
{
    !wire::lun_form(l) || opening::has_lun(building::rows_of(c, i).in_use(), l)
}

// ASSIGN "checks 20h/0Ah; 20h/09h ..; 55h/05h exactly when 32 proxy LUNs stand".
pub fn assign(c: Coordinator, i: usize, n: u64, l: u64) -> Outcome
    requires { InSetup c i }
    ensures { result ≡ answered c (assign_tests c i n l) (proxying (assigned i l n) ∷ []) }
{
    if lookups::token_for(c.tokens.in_use(), n).is_none() {
        return outcomes::checked(c, Condition::DeadToken);
    }
    if is_taken(&c, i, l) {
        return outcomes::checked(c, Condition::BadLun);
    }
    if 32 <= c.proxies.count {
        return outcomes::checked(c, Condition::NoRoom);
    }
    let next = effects::assigned(c, i as u8, l, n);
    outcomes::handed_back(next, Answer::Good, 0)
}

// "RELEASE: 20h/09h unless the caller has that proxy LUN."
pub fn release(c: Coordinator, i: usize, l: u64) -> Outcome
    requires { InSetup c i }
    ensures { result ≡ answered c (release_tests c i l) (proxying (released i l) ∷ []) }
{
    if !proxies::has_proxy(c.proxies.in_use(), i as u8, l) {
        return outcomes::checked(c, Condition::BadLun);
    }
    let next = effects::released(c, i as u8, l);
    outcomes::handed_back(next, Answer::Good, 0)
}
