// The coordinator after an effect.
ghost use Rattle.std.specs.Prelude.{◌≡◌, [], ◌∷◌, ◌++◌, ◌<◌, ◌≤◌};
ghost use Rattle.paper.specs.Tables.{tokens_of, enrolments_of, with_tokens, with_enrolments};
ghost use Rattle.paper.specs.Effects.{switched, turned_off, tokening, ended, proxying, assigned, released};
ghost use Rattle.paper.specs.Applied.{applied};
ghost use Rattle.tables.specs.Changes.{changed};
ghost use Rattle.tables.specs.Endings.{ending_of};

use crate::enrolments::Change;
use crate::tokens::EndKind;
use crate::{enrolments, proxies, tokens};
use paper::state::{Coordinator, ProxyLun, Token};
use paper::{setters, state};

// Tokens end, and with them their proxy LUNs.
pub fn ended(c: Coordinator, e: EndKind, page: &[u8]) -> Coordinator
    ensures { result ≡ applied c (tokening (ended (ending_of e page.now))) }
{
    let live = tokens::tokens_after(&c.tokens, e, page);
    let standing = proxies::proxies_after(&c.proxies, c.tokens.in_use(), e, page);
    setters::with_proxies(setters::with_tokens(c, live), standing)
}

// A token is issued.
pub fn issued(c: Coordinator, t: Token) -> Coordinator
    requires { c.tokens.count < 32 }
    ensures { result ≡ with_tokens c (tokens_of c ++ (t ∷ [])) }
{
    let live = tokens::token_added(&c.tokens, t);
    setters::with_tokens(c, live)
}

// A proxy LUN is assigned: initiator, LUN and token.
pub fn assigned(c: Coordinator, i: u8, l: u64, n: u64) -> Coordinator
    requires { c.proxies.count < 32 }
    ensures { result ≡ applied c (proxying (assigned i l n)) }
{
    let p = ProxyLun {
        initiator: i,
        lun: wire::lun_head(l),
        token: n,
    };
    let standing = proxies::proxy_added(&c.proxies, p);
    setters::with_proxies(c, standing)
}

// An initiator's proxy LUN is released.
pub fn released(c: Coordinator, i: u8, l: u64) -> Coordinator
    ensures { result ≡ applied c (proxying (released i l)) }
{
    let standing = proxies::proxy_released(&c.proxies, i, l);
    setters::with_proxies(c, standing)
}

// Enrolments change.
pub fn enrolled_change(c: Coordinator, change: Change, id: &[u8]) -> Coordinator
    requires { c.initiators.count ≤ 16 }
    ensures { result ≡ with_enrolments c (changed change id.now (enrolments_of c)) }
{
    let t = c.initiators;
    setters::with_initiators(c, enrolments::enrolments_after(t, change, id))
}

// Access controls go off: all tables are emptied, key and DLgeneration become 0.
pub fn emptied(c: Coordinator) -> Coordinator
    ensures { result ≡ applied c (switched turned_off) }
{
    let t = c.initiators;
    let off = setters::with_acl(setters::with_switch(c, false, 0, 0), state::no_acl());
    let bare = setters::with_proxies(
        setters::with_tokens(off, state::no_tokens()),
        state::no_proxies(),
    );
    setters::with_initiators(bare, enrolments::nobody_enrolled(t))
}
