// The state in words: the first line, and five parts.
ghost use Rattle.std.specs.Prelude.{◌≡◌, true, ◌+◌, ◌≤◌, length};
ghost use Rattle.wire.specs.Write.{Wrote};
ghost use Rattle.paper.specs.Standing.{standing};
ghost use Rattle.acl.specs.State.{switch_text, acl_text, state_text};

use crate::{granted, initiators, proxies, tokens, units};
use paper::state::Coordinator;
use standing::rules;

// "The first line is `access controls on, generation 1` or `access controls off, generation 0`."
fn put_switch(text: &mut [u8], at: usize, limit: usize, on: bool) -> usize
    requires { at + 34 ≤ 4294967296 }
    ensures wrote { Wrote limit at (switch_text on) text.old result text.new }
    ensures fits { result ≤ at + 34 }
{
    if on {
        let a = wire::put_bytes(text, at, limit, b"access controls on, generation 1");
        return wire::put(text, a, limit, b'\n');
    }
    let b = wire::put_bytes(text, at, limit, b"access controls off, generation 0");
    wire::put(text, b, limit, b'\n')
}

// "Then five parts": initiators, units, ACEs, tokens, proxy LUNs.
fn put_standing(c: &Coordinator, text: &mut [u8], limit: usize) -> usize
    requires { standing c.now ≡ true }
    ensures { Wrote limit 0 (acl_text c.now) text.old result text.new }
{
    let first = put_switch(text, 0, limit, c.enabled);
    let second = initiators::put_initiators(text, first, limit, &c.initiators);
    let third = units::put_units(text, second, limit, c.units.in_use());
    let fourth = granted::put_aces(text, third, limit, &c.acl);
    let fifth = tokens::put_tokens(text, fourth, limit, &c.tokens);
    proxies::put_proxies(text, fifth, limit, c.tokens.in_use(), &c.proxies)
}

// The state in words, as much of it as the text has room for, and how long it is; nothing if the state does not stand.
pub fn put_state(c: Coordinator, text: &mut [u8]) -> usize
    ensures { Wrote (length text.old) 0 (state_text c) text.old result text.new }
{
    if !rules::standing(&c) {
        return 0;
    }
    let limit = text.len();
    put_standing(&c, text, limit)
}
