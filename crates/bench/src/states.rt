// The states that are measured, by their shapes. Identifiers differ in the last byte that is compared, and in no other.
ghost use Rattle.std.specs.Prelude.{◌<◌};

use lists::Table;
use paper::state::{
    Ace, Coordinator, ENROLMENT_SIZE, ENROLMENTS_SIZE, Extent, ID_SIZE, IDS_SIZE, IdType,
    Initiators, Luacd, ProxyLun, ProxyLuns, Token, Tokens, Units,
};
use std::array;

// How much of each table is used. Of the initiators the first ones are enrolled, each under an AccessID of its own.
// ACEs list so many LUACDs: those of TransportIDs from unit 0 on, those of AccessIDs from unit `upper` on. There are as many proxy LUNs as tokens.
#[derive(Clone, Copy)]
pub struct Shape {
    pub extent: Extent,
    pub initiators: usize,
    pub enrolled: usize,
    pub units: usize,
    pub aces: usize,
    pub listed: usize,
    pub upper: u8,
    pub tokens: usize,
}

fn extent_named(letter: u8) -> Extent {
    match letter {
        b'E' => Extent::Everything,
        _ => Extent::Listed,
    }
}

// The shape that bytes name: E if each ACE holds everything, another letter if it lists LUACDs; then the numbers.
pub fn shape_in(b: &[u8]) -> Shape {
    Shape {
        extent: extent_named(wire::byte(b, 0)),
        initiators: wire::byte(b, 1) as usize,
        enrolled: wire::byte(b, 2) as usize,
        units: wire::byte(b, 3) as usize,
        aces: wire::byte(b, 4) as usize,
        listed: wire::byte(b, 5) as usize,
        upper: wire::byte(b, 6),
        tokens: wire::byte(b, 7) as usize,
    }
}

// 16 LUACDs: the units from a number on, each at the LUN of its number. An ACE uses the first of them.
fn luacds(from: u8) -> [Luacd; 16]
    requires { from < 32 }
{
    array::from_fn(|i| {
        let unit = from + i as u8;
        Luacd {
            lun: unit as u16,
            unit,
        }
    })
}

// The ACE of initiator n's TransportID, with the lower units.
fn transport_ace(s: Shape, n: u8) -> Ace {
    let mut id = [0; ID_SIZE];
    id[23] = n;
    Ace {
        kind: IdType::TransportId,
        extent: s.extent,
        id,
        count: s.listed,
        luacds: luacds(0),
    }
}

// The ACE of the AccessID under which initiator n is enrolled, with the units from `upper` on, if there is such a unit.
fn access_ace(s: Shape, n: u8) -> Ace {
    let mut id = [0; ID_SIZE];
    id[15] = n;
    Ace {
        kind: IdType::AccessId,
        extent: s.extent,
        id,
        count: s.listed,
        luacds: luacds(if s.upper < 32 { s.upper } else { 0 }),
    }
}

// The ACE at a place: those of the TransportIDs come first.
fn ace_at(s: Shape, i: usize) -> Ace
    requires { i < 32 }
{
    if i < s.initiators {
        transport_ace(s, i as u8)
    } else {
        access_ace(s, (i - s.initiators) as u8)
    }
}

fn token_at(i: usize) -> Token
    requires { i < 32 }
{
    let n = i as u8;
    Token {
        number: n as u64 + 1,
        unit: n,
        requester: n / 2,
        lun: n as u16,
    }
}

fn proxy_at(i: usize) -> ProxyLun
    requires { i < 32 }
{
    let n = i as u8;
    ProxyLun {
        initiator: n / 2,
        lun: n as u16 + 64,
        token: n as u64 + 1,
    }
}

// The TransportIDs, and the enrolments of those that have one.
fn initiators_of(s: Shape) -> Initiators {
    let mut ids = [0; IDS_SIZE];
    let mut enrolments = [0; ENROLMENTS_SIZE];
    for i in 0..16 {
        ids[ID_SIZE * i + 23] = i as u8;
        if i < s.enrolled {
            enrolments[ENROLMENT_SIZE * i] = 1;
            enrolments[ENROLMENT_SIZE * i + 16] = i as u8;
        }
    }
    Initiators {
        count: s.initiators,
        ids,
        enrolments,
    }
}

// The state of a shape: every place of the tables is filled, and the counts say how many are used.
pub fn state_of(s: Shape) -> Coordinator {
    Coordinator {
        enabled: true,
        generation: 1,
        key: 7,
        initiators: initiators_of(s),
        units: Units {
            count: s.units,
            luns: array::from_fn(|i| i as u16),
        },
        acl: Table {
            count: s.aces,
            items: array::from_fn(|i| ace_at(s, i)),
        },
        tokens: Tokens {
            count: s.tokens,
            items: array::from_fn(|i| token_at(i)),
        },
        proxies: ProxyLuns {
            count: s.tokens,
            items: array::from_fn(|i| proxy_at(i)),
        },
    }
}
