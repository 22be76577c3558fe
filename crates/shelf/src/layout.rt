// What crosses to C, by value and with C's layout. It is the coordinator of crates/paper with a byte where that has an enum, since no enum crosses, or a bool, since C can hand in one that is neither false nor true.
use paper::state::{ID_SIZE, Initiators, Luacd, ProxyLuns, Tokens, Units};

// Stays: C's layout; the counts here and in the list of ACEs stand beside their arrays.
// An ACE: its type is 0 AccessID, 1 TransportID; it holds 0 a list, 1 everything.
#[repr(C)]
#[derive(Clone, Copy)]
pub struct ShelfAce {
    pub kind: u8,
    pub extent: u8,
    pub id: [u8; ID_SIZE],
    pub count: usize,
    pub luacds: [Luacd; 16],
}

#[repr(C)]
#[derive(Clone, Copy)]
pub struct ShelfAcl {
    pub count: usize,
    pub items: [ShelfAce; 32],
}

// Access controls are 0 disabled, 1 enabled.
#[repr(C)]
#[derive(Clone, Copy)]
pub struct Shelf {
    pub enabled: u8,
    pub generation: u32,
    pub key: u64,
    pub initiators: Initiators,
    pub units: Units,
    pub acl: ShelfAcl,
    pub tokens: Tokens,
    pub proxies: ProxyLuns,
}

// The values of an answer: 00h GOOD, 02h CHECK CONDITION, FFh a house refusal; its number; the sense bytes.
#[repr(C)]
#[derive(Clone, Copy)]
pub struct ShelfValues {
    pub status: u8,
    pub number: u8,
    pub sense: [u8; 18],
}

// The next state, the values of the answer, and how many bytes were delivered.
#[repr(C)]
#[derive(Clone, Copy)]
pub struct ShelfOutcome {
    pub state: Shelf,
    pub values: ShelfValues,
    pub delivered: usize,
}

// What a LUN opens: the unit, if the status is GOOD.
#[repr(C)]
#[derive(Clone, Copy)]
pub struct ShelfOpening {
    pub unit: u8,
    pub values: ShelfValues,
}
