// The states that stand: the fresh ones, and one with something in every table.
use paper::state::{
    Ace, Acl, Coordinator, Extent, IdType, Initiators, Luacd, ProxyLun, ProxyLuns, Token, Tokens,
    Units,
};
use paper::{setters, state};

// An identifier by its first byte and its last.
pub fn id_of(first: u8, last: u8) -> [u8; 24] {
    let mut id = [0; 24];
    id[0] = first;
    id[23] = last;
    id
}

fn at(lun: u16, unit: u8) -> Luacd {
    Luacd { lun, unit }
}

// An ACE with a list of one.
pub fn listing(kind: IdType, id: [u8; 24], lun: u16, unit: u8) -> Ace {
    let mut luacds = [state::no_luacd(); 16];
    luacds[0] = at(lun, unit);
    Ace {
        kind,
        extent: Extent::Listed,
        id,
        count: 1,
        luacds,
    }
}

// The same with a second LUACD.
pub fn and_at(a: Ace, lun: u16, unit: u8) -> Ace {
    let mut next = a;
    next.luacds[1] = at(lun, unit);
    next.count = 2;
    next
}

// An ACE of everything.
pub fn granting_all(kind: IdType, id: [u8; 24]) -> Ace {
    Ace {
        kind,
        extent: Extent::Everything,
        id,
        count: 0,
        luacds: [state::no_luacd(); 16],
    }
}

// An AccessID's ACE with a list of 16: unit n at LUN 100 + n.
fn listing_16(id: [u8; 24]) -> Ace {
    let mut luacds = [state::no_luacd(); 16];
    for unit in 0..16u8 {
        luacds[unit as usize] = at(100 + unit as u16, unit);
    }
    Ace {
        kind: IdType::AccessId,
        extent: Extent::Listed,
        id,
        count: 16,
        luacds,
    }
}

// Three initiators, of which none is enrolled.
fn initiators() -> Initiators {
    let mut ids = [0; state::IDS_SIZE];
    ids[47] = 1;
    ids[48] = 1;
    Initiators {
        count: 3,
        ids,
        enrolments: [0; state::ENROLMENTS_SIZE],
    }
}

// Seventeen units, each at the LUN of its number.
fn units() -> Units {
    let mut luns = [0; 32];
    for unit in 0..17u16 {
        luns[unit as usize] = unit;
    }
    Units { count: 17, luns }
}

// Everything for initiator 0 by its TransportID, and the list of 16 for the AccessID A1h.
fn acl() -> Acl {
    let mut t = state::no_acl();
    t.push(granting_all(IdType::TransportId, id_of(0, 0)));
    t.push(listing_16(id_of(0xA1, 0)));
    t
}

// A token that initiator 0 got for unit 0.
pub fn token(number: u64) -> Token {
    Token {
        number,
        unit: 0,
        requester: 0,
        lun: 0,
    }
}

fn tokens() -> Tokens {
    let mut items = [state::no_token(); 32];
    items[0] = token(5);
    Tokens { count: 1, items }
}

// A proxy LUN on token 5.
pub fn proxy(initiator: u8, lun: u16) -> ProxyLun {
    ProxyLun {
        initiator,
        lun,
        token: 5,
    }
}

fn proxies() -> ProxyLuns {
    let mut items = [state::no_proxy(); 32];
    items[0] = proxy(2, 9);
    ProxyLuns { count: 1, items }
}

// No initiators and no units.
pub fn bare() -> Coordinator {
    state::fresh_coordinator()
}

// What a setup gives.
pub fn fresh() -> Coordinator {
    setters::with_units(setters::with_initiators(bare(), initiators()), units())
}

// Initiator 1 is enrolled under A1h, and initiator 2 has a proxy LUN.
pub fn whole() -> Coordinator {
    let mut t = initiators();
    t.enrolments[25] = 1;
    t.enrolments[26] = 0xA1;
    let on = setters::with_switch(fresh(), true, 1, 7);
    let granted = setters::with_acl(setters::with_initiators(on, t), acl());
    setters::with_proxies(setters::with_tokens(granted, tokens()), proxies())
}
