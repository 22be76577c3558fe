// The ways in which a state is changed in one thing.
use paper::setters;
use paper::state::{
    Ace, Coordinator, ENROLMENTS_SIZE, IDS_SIZE, Initiators, Luacd, ProxyLun, ProxyLuns, Token,
    Tokens, Units,
};

// Counts, with nothing behind them.
pub fn initiators_counted(c: Coordinator, count: usize) -> Coordinator {
    setters::with_initiators(
        c,
        Initiators {
            count,
            ..c.initiators
        },
    )
}

pub fn units_counted(c: Coordinator, count: usize) -> Coordinator {
    setters::with_units(c, Units { count, ..c.units })
}

pub fn aces_counted(c: Coordinator, count: usize) -> Coordinator {
    let mut t = c.acl;
    t.count = count;
    setters::with_acl(c, t)
}

pub fn luacds_counted(c: Coordinator, count: usize) -> Coordinator {
    let mut t = c.acl;
    t.items[1].count = count;
    setters::with_acl(c, t)
}

pub fn tokens_counted(c: Coordinator, count: usize) -> Coordinator {
    setters::with_tokens(c, Tokens { count, ..c.tokens })
}

pub fn proxies_counted(c: Coordinator, count: usize) -> Coordinator {
    setters::with_proxies(c, ProxyLuns { count, ..c.proxies })
}

// One byte of the TransportIDs.
pub fn transport_byte(c: Coordinator, place: usize, byte: u8) -> Coordinator {
    let mut t = c.initiators;
    if place < IDS_SIZE {
        t.ids[place] = byte;
    }
    setters::with_initiators(c, t)
}

// One byte of the enrolments.
pub fn enrolment_byte(c: Coordinator, place: usize, byte: u8) -> Coordinator {
    let mut t = c.initiators;
    if place < ENROLMENTS_SIZE {
        t.enrolments[place] = byte;
    }
    setters::with_initiators(c, t)
}

// The default LUN of the last unit.
pub fn last_default(c: Coordinator, lun: u16) -> Coordinator {
    let mut t = c.units;
    t.luns[16] = lun;
    setters::with_units(c, t)
}

// One ACE more.
pub fn one_more_ace(c: Coordinator, a: Ace) -> Coordinator {
    let mut t = c.acl;
    if t.count < 32 {
        t.push(a);
    }
    setters::with_acl(c, t)
}

// The last LUACD of the list of 16.
pub fn last_luacd(c: Coordinator, lun: u16, unit: u8) -> Coordinator {
    let mut t = c.acl;
    t.items[1].luacds[15] = Luacd { lun, unit };
    setters::with_acl(c, t)
}

// One token more, or another in the place of the only one.
pub fn one_more_token(c: Coordinator, x: Token) -> Coordinator {
    let mut t = c.tokens;
    if t.count < 32 {
        t.items[t.count] = x;
        t.count += 1;
    }
    setters::with_tokens(c, t)
}

pub fn other_token(c: Coordinator, unit: u8, requester: u8, lun: u16) -> Coordinator {
    let mut t = c.tokens;
    t.items[0] = Token {
        number: 5,
        unit,
        requester,
        lun,
    };
    setters::with_tokens(c, t)
}

// One proxy LUN more, or another in the place of the only one.
pub fn one_more_proxy(c: Coordinator, x: ProxyLun) -> Coordinator {
    let mut t = c.proxies;
    if t.count < 32 {
        t.items[t.count] = x;
        t.count += 1;
    }
    setters::with_proxies(c, t)
}

pub fn other_proxy(c: Coordinator, initiator: u8, lun: u16, token: u64) -> Coordinator {
    let mut t = c.proxies;
    t.items[0] = ProxyLun {
        initiator,
        lun,
        token,
    };
    setters::with_proxies(c, t)
}
