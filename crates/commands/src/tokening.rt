// REQUEST PROXY TOKEN, REVOKE PROXY TOKEN and REVOKE ALL PROXY TOKENS.
ghost use Rattle.std.specs.Prelude.{◌≡◌, [], ◌∷◌, ◌||◌, length, take, cond, eqb, leb, ◌<◌};
ghost use Rattle.lists.specs.Lists.{is_some};
ghost use Rattle.paper.specs.Grounds.{is_ta};
ghost use Rattle.paper.specs.Rows.{token_for, rows_of, row_with, pending_has};
ghost use Rattle.paper.specs.Effects.{own, named, ended, tokening};
ghost use Rattle.paper.specs.Applied.{unit_in};
ghost use Rattle.paper.specs.Commands.{request_tests, passes};
ghost use Rattle.paper.specs.Outcomes.{outcome_of, buffer_after};
ghost use Rattle.paper.specs.declared.answers.Condition.TheVariants.{PendingEnrolled, BadLun};
ghost use Rattle.rows.specs.Initiator.{InSetup};
ghost use Rattle.commands.specs.Answered.{answered};
ghost use Rattle.commands.specs.Requested.{requested, request_decision, outcome_with, reply_with};

use paper::answers::{Answer, Condition, Refusal};
use paper::outcomes;
use paper::outcomes::Outcome;
use paper::state::{Coordinator, Row, Token, Tokens};
use rows::{building, opening};
use tables::tokens::EndKind;
use tables::{effects, lookups};

// REVOKE "ends the caller's own token"; nothing to end is GOOD.
pub fn revoke(c: Coordinator, i: usize, n: u64) -> Outcome
    requires { InSetup c i }
    ensures { result ≡ answered c passes (tokening (ended (own i n)) ∷ []) }
{
    let next = effects::ended(c, EndKind::Own(i as u8, n), b"");
    outcomes::handed_back(next, Answer::Good, 0)
}

// 08h "ends all tokens the caller got by naming that LUN".
pub fn revoke_all(c: Coordinator, i: usize, l: u64) -> Outcome
    requires { InSetup c i }
    ensures { result ≡ answered c passes (tokening (ended (named i l)) ∷ []) }
{
    let next = effects::ended(c, EndKind::Named(i as u8, l), b"");
    outcomes::handed_back(next, Answer::Good, 0)
}

// "55h/05h if 32 are live, or if the 64-bit random number given with the call is zero or a live token"
fn no_room(ts: &Tokens, random: u64) -> bool
    ensures { result ≡ leb 32 ts.now.count || (eqb random 0 || is_some (token_for (take ts.now.count ts.now.items) random)) }
{
    32 <= ts.count || random == 0 || lookups::token_for(ts.in_use(), random).is_some()
}

// "with neither, 20h/01h if W has it, else 20h/09h"
fn unopened(rows: &[Row], l: u64) -> Condition
    ensures { result ≡ cond (pending_has l rows.now) PendingEnrolled BadLun }
{
    if opening::pending_has(rows, l) {
        Condition::PendingEnrolled
    } else {
        Condition::BadLun
    }
}

// What a request comes to: a condition, or the unit that the LUN opens. "the LUN must open by a T or A row"
fn request_unit(c: &Coordinator, i: usize, l: u64, random: u64) -> Result<u8, Condition>
    requires { InSetup c.now i }
    ensures { result ≡ requested (request_tests c.now i l random) (unit_in (row_with is_ta l (rows_of c.now i))) }
{
    let rows = building::rows_of(c, i);
    let Some(row) = opening::request_row(rows.in_use(), l) else {
        return Err(unopened(rows.in_use(), l));
    };
    if no_room(&c.tokens, random) {
        return Err(Condition::NoRoom);
    }
    Ok(row.unit)
}

// The token goes into the buffer, if there is room for its eight bytes, and into the table.
fn issue(c: Coordinator, t: Token, reply: &mut [u8]) -> Outcome
    requires { c.tokens.count < 32 }
    ensures value { result ≡ outcome_with c t (length reply.old) }
    ensures reply_after { reply.new ≡ reply_with t reply.old }
{
    if reply.len() < 8 {
        return outcomes::handed_back(c, Answer::Refused(Refusal::ShortBuffer), 0);
    }
    wire::put_be64(reply, 0, 8, t.number);
    outcomes::handed_back(effects::issued(c, t), Answer::Good, 8)
}

// REQUEST PROXY TOKEN: "Else that number is the token."
pub fn request_token(c: Coordinator, i: usize, l: u64, random: u64, reply: &mut [u8]) -> Outcome
    requires { InSetup c i }
    ensures value { result ≡ outcome_of c (request_decision c i l random (length reply.old)) }
    ensures reply_after { reply.new ≡ buffer_after (request_decision c i l random (length reply.old)) reply.old }
{
    match request_unit(&c, i, l, random) {
        Err(k) => outcomes::checked(c, k),
        Ok(unit) => {
            let t = Token {
                number: random,
                unit,
                requester: i as u8,
                lun: wire::lun_head(l),
            };
            issue(c, t, reply)
        }
    }
}
