// DISABLE, and a command that asks for nothing.
ghost use Rattle.std.specs.Prelude.{◌≡◌, [], ◌∷◌};
ghost use Rattle.paper.specs.Effects.{turned_off, switched};
ghost use Rattle.paper.specs.Commands.{key_tests, passes};
ghost use Rattle.commands.specs.Answered.{answered};

use paper::answers::{Answer, Condition};
use paper::outcomes;
use paper::outcomes::Outcome;
use paper::state::Coordinator;
use tables::{effects, keys};

// DISABLE "checks the key, then empties all tables".
pub fn disable(c: Coordinator, key: u64) -> Outcome
    ensures { result ≡ answered c (key_tests c key) (switched turned_off ∷ []) }
{
    if keys::wrong_key(c.enabled, c.key, key) {
        return outcomes::checked(c, Condition::WrongKey);
    }
    outcomes::handed_back(effects::emptied(c), Answer::Good, 0)
}

// "GOOD with no action"
pub fn no_action(c: Coordinator) -> Outcome
    ensures { result ≡ answered c passes [] }
{
    outcomes::handed_back(c, Answer::Good, 0)
}
