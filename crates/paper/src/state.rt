// The state: one struct a table, each with its count and its array.
// A LUN is kept as its first two bytes, as one number: the other six are zero in every LUN of the form that document 01 asks for.
ghost use Rattle.std.specs.Prelude.{◌≡◌, [], ◌≤◌, take, length};
ghost use Rattle.paper.specs.Tables.{no_luacd, no_ace, no_token, no_proxy, acl_of, token_table, proxy_table, initiator_table, unit_table};
ghost use Rattle.paper.specs.Identifiers.{type_byte};
ghost use Rattle.paper.specs.Fresh.{nothing, fresh};

use lists::{Table, first};

// The bytes of an identifier, and of an enrolment: its stage and the AccessID; and of the tables that hold one for each initiator.
pub const ID_SIZE: usize = 24;

pub const ENROLMENT_SIZE: usize = 1 + ID_SIZE;

pub const IDS_SIZE: usize = 16 * ID_SIZE;

pub const ENROLMENTS_SIZE: usize = 16 * ENROLMENT_SIZE;

// What an identifier is.
#[derive(Clone, Copy, PartialEq, Eq)]
pub enum IdType {
    AccessId,
    TransportId,
}

// What an ACE holds: a list, or everything.
#[derive(Clone, Copy, PartialEq, Eq)]
pub enum Extent {
    Listed,
    Everything,
}

// A unit at a LUN.
#[repr(C)]
#[derive(Clone, Copy)]
pub struct Luacd {
    pub lun: u16,
    pub unit: u8,
}

// A LUACD as it is sent: its access mode, its LUN and its default LUN.
#[derive(Clone, Copy)]
pub struct Descriptor {
    pub mode: u8,
    pub lun: u64,
    pub default: u64,
}

// Stays: document 01 asks for the enums and, beside them, the array of LUACDs, of which the first are in use.
#[derive(Clone, Copy)]
pub struct Ace {
    pub kind: IdType,
    pub extent: Extent,
    pub id: [u8; ID_SIZE],
    pub count: usize,
    pub luacds: [Luacd; 16],
}

// The ACL: at most 32 ACEs.
pub type Acl = Table<Ace, 32>;

// A live token: its number, the unit that it opens, who got it and by naming which LUN.
#[repr(C)]
#[derive(Clone, Copy)]
pub struct Token {
    pub number: u64,
    pub unit: u8,
    pub requester: u8,
    pub lun: u16,
}

// Stays: the C interface takes no struct with type parameters, so that this is no `Table`.
#[repr(C)]
#[derive(Clone, Copy)]
pub struct Tokens {
    pub count: usize,
    pub items: [Token; 32],
}

// A proxy LUN: whose it is, and the number of the live token that it stands on.
#[repr(C)]
#[derive(Clone, Copy)]
pub struct ProxyLun {
    pub initiator: u8,
    pub lun: u16,
    pub token: u64,
}

// Stays: the C interface takes no struct with type parameters, so that this is no `Table`.
#[repr(C)]
#[derive(Clone, Copy)]
pub struct ProxyLuns {
    pub count: usize,
    pub items: [ProxyLun; 32],
}

// Stays: bytes side by side, since they are the layout in C, and initiators' numbers index both.
// The initiators: their TransportIDs one after the other, and their enrolments, each the stage and the AccessID.
#[repr(C)]
#[derive(Clone, Copy)]
pub struct Initiators {
    pub count: usize,
    pub ids: [u8; IDS_SIZE],
    pub enrolments: [u8; ENROLMENTS_SIZE],
}

// The units: their default LUNs.
// Stays: the C interface takes no struct with type parameters, so that this is no `Table`.
#[repr(C)]
#[derive(Clone, Copy)]
pub struct Units {
    pub count: usize,
    pub luns: [u16; 32],
}

#[derive(Clone, Copy)]
pub struct Coordinator {
    pub enabled: bool,
    pub generation: u32,
    pub key: u64,
    pub initiators: Initiators,
    pub units: Units,
    pub acl: Acl,
    pub tokens: Tokens,
    pub proxies: ProxyLuns,
}

// The ground of a row, by the paper's letter.
#[derive(Clone, Copy, PartialEq, Eq)]
pub enum Ground {
    GroundA,
    GroundO,
    GroundT,
    GroundW,
    GroundX,
}

#[derive(Clone, Copy)]
pub struct Row {
    pub initiator: u8,
    pub lun: u16,
    pub unit: u8,
    pub ground: Ground,
}

impl Ace {
    // The LUACDs in use.
    pub fn in_use(&self) -> &[Luacd]
        ensures in_use { result.now ≡ take self.now.count self.now.luacds }
        ensures few { length result.now ≤ 16 }
    {
        first(&self.luacds, self.count)
    }
}

impl Tokens {
    // The live tokens; a count past the size is read as the size.
    pub fn in_use(&self) -> &[Token]
        ensures in_use { result.now ≡ take self.now.count self.now.items }
        ensures few { length result.now ≤ 32 }
    {
        first(&self.items, self.count)
    }
}

impl ProxyLuns {
    // The proxy LUNs that stand.
    pub fn in_use(&self) -> &[ProxyLun]
        ensures in_use { result.now ≡ take self.now.count self.now.items }
        ensures few { length result.now ≤ 32 }
    {
        let ProxyLuns { count, items } = self;
        first(items, *count)
    }
}

impl Units {
    // The default LUNs, by unit number.
    pub fn in_use(&self) -> &[u16]
        ensures in_use { result.now ≡ take self.now.count self.now.luns }
        ensures few { length result.now ≤ 32 }
    {
        first(&self.luns, self.count)
    }
}

// The byte of an identifier's type.
impl From<IdType> for u8 {
    ghost from_gives = { λ k b. b ≡ type_byte k };

    fn from(k: IdType) -> u8 {
        match k {
            IdType::AccessId => 0,
            IdType::TransportId => 1,
        }
    }
}

impl From<Table<Token, 32>> for Tokens {
    ghost from_gives = { λ t r. r ≡ record { count = t.count; items = t.items } };

    fn from(t: Table<Token, 32>) -> Tokens {
        let Table { count, items } = t;
        Tokens { count, items }
    }
}

impl From<Table<ProxyLun, 32>> for ProxyLuns {
    ghost from_gives = { λ t r. r ≡ record { count = t.count; items = t.items } };

    fn from(t: Table<ProxyLun, 32>) -> ProxyLuns {
        let Table { count, items } = t;
        ProxyLuns { count, items }
    }
}

pub fn no_luacd() -> Luacd
    ensures { result ≡ no_luacd }
{
    Luacd { lun: 0, unit: 0 }
}

pub fn no_ace() -> Ace
    ensures { result ≡ no_ace }
{
    Ace {
        kind: IdType::AccessId,
        extent: Extent::Listed,
        id: [0; ID_SIZE],
        count: 0,
        luacds: [no_luacd(); 16],
    }
}

pub fn no_acl() -> Acl
    ensures { result ≡ acl_of [] }
{
    Table {
        count: 0,
        items: [no_ace(); 32],
    }
}

pub fn no_token() -> Token
    ensures { result ≡ no_token }
{
    Token {
        number: 0,
        unit: 0,
        requester: 0,
        lun: 0,
    }
}

pub fn no_tokens() -> Tokens
    ensures { result ≡ token_table [] }
{
    Tokens {
        count: 0,
        items: [no_token(); 32],
    }
}

pub fn no_proxy() -> ProxyLun
    ensures { result ≡ no_proxy }
{
    ProxyLun {
        initiator: 0,
        lun: 0,
        token: 0,
    }
}

pub fn no_proxies() -> ProxyLuns
    ensures { result ≡ proxy_table [] }
{
    ProxyLuns {
        count: 0,
        items: [no_proxy(); 32],
    }
}

pub fn no_initiators() -> Initiators
    ensures { result ≡ initiator_table [] }
{
    Initiators {
        count: 0,
        ids: [0; IDS_SIZE],
        enrolments: [0; ENROLMENTS_SIZE],
    }
}

pub fn no_units() -> Units
    ensures { result ≡ unit_table [] }
{
    Units {
        count: 0,
        luns: [0; 32],
    }
}

// A fresh coordinator is disabled and starts with every table empty.
pub fn fresh_coordinator() -> Coordinator
    ensures { result ≡ fresh nothing }
{
    Coordinator {
        enabled: false,
        generation: 0,
        key: 0,
        initiators: no_initiators(),
        units: no_units(),
        acl: no_acl(),
        tokens: no_tokens(),
        proxies: no_proxies(),
    }
}
