// The coordinator with another table: the only places that make one beside the fresh one.
ghost use Rattle.std.specs.Prelude.{◌≡◌};
ghost use Rattle.paper.specs.Tables.{with_switch, with_initiators, with_units, with_acl, with_token_table, with_proxy_table};

use crate::state::{Acl, Coordinator, Initiators, ProxyLuns, Tokens, Units};

pub fn with_switch(c: Coordinator, on: bool, generation: u32, key: u64) -> Coordinator
    ensures { result ≡ with_switch c on generation key }
{
    Coordinator {
        enabled: on,
        generation,
        key,
        ..c
    }
}

pub fn with_initiators(c: Coordinator, t: Initiators) -> Coordinator
    ensures { result ≡ with_initiators c t }
{
    Coordinator { initiators: t, ..c }
}

pub fn with_units(c: Coordinator, t: Units) -> Coordinator
    ensures { result ≡ with_units c t }
{
    Coordinator { units: t, ..c }
}

pub fn with_acl(c: Coordinator, t: Acl) -> Coordinator
    ensures { result ≡ with_acl c t }
{
    Coordinator { acl: t, ..c }
}

pub fn with_tokens(c: Coordinator, t: Tokens) -> Coordinator
    ensures { result ≡ with_token_table c t }
{
    Coordinator { tokens: t, ..c }
}

pub fn with_proxies(c: Coordinator, t: ProxyLuns) -> Coordinator
    ensures { result ≡ with_proxy_table c t }
{
    Coordinator { proxies: t, ..c }
}
