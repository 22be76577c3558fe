// The tokens, by number.
ghost use Rattle.std.specs.Prelude.{◌+◌, ◌≤◌, take};
ghost use Rattle.wire.specs.Write.{Wrote};
ghost use Rattle.acl.specs.State.{request_text, token_line, tokens_text};

use crate::naming;
use paper::state::{Token, Tokens};
use report::{each, tokened};

// Who got a token, and by naming which LUN.
fn put_request(text: &mut [u8], at: usize, limit: usize, initiator: u8, lun: u16) -> usize
    requires { at + 55 ≤ 4294967296 }
    ensures wrote { Wrote limit at (request_text initiator lun) text.old result text.new }
    ensures fits { result ≤ at + 55 }
{
    let requested = wire::put_bytes(text, at, limit, b", requested by ");
    let who = naming::put_initiator(text, requested, limit, initiator);
    let named = wire::put_bytes(text, who, limit, b" at ");
    naming::put_lun(text, named, limit, lun)
}

// The line of a token.
fn put_line(text: &mut [u8], at: usize, limit: usize, t: &Token) -> usize
    requires { at + 99 ≤ 4294967296 }
    ensures wrote { Wrote limit at (token_line t.now) text.old result text.new }
    ensures fits { result ≤ at + 99 }
{
    let number = naming::put_number(text, at, limit, t.number);
    let colon = wire::put_bytes(text, number, limit, b": ");
    let unit = naming::put_unit(text, colon, limit, t.unit);
    let request = put_request(text, unit, limit, t.requester, t.lun);
    wire::put(text, request, limit, b'\n')
}

// The part of the tokens: a line for each, by number.
pub fn put_tokens(text: &mut [u8], at: usize, limit: usize, tokens: &Tokens) -> usize
    requires { at + 3202 ≤ 4294967296 }
    ensures wrote { Wrote limit at (tokens_text (take tokens.now.count tokens.now.items)) text.old result text.new }
    ensures fits { result ≤ at + 3202 }
{
    let next = naming::put_head(text, at, limit, b"Tokens: ", tokens.in_use().len());
    let sorted = tokened::by_number(tokens);
    each::put_each(text, next, sorted.in_use(), |text, to, t| {
        put_line(text, to, limit, t)
    })
}
