// From what C hands in to the coordinator, and back.
ghost use Rattle.std.specs.Prelude.{◌≡◌, map};
ghost use Rattle.lists.specs.Lists.{all};
ghost use Rattle.shelf.specs.Crossing.{one_of, ace_in, well_ace, well_named, coordinator_in, extent_byte, ace_out, shelf_of, values_out, outcome_out, started_out, unit_opened, opening_out, refused_shelf};

use crate::layout::{Shelf, ShelfAce, ShelfAcl, ShelfOpening, ShelfOutcome, ShelfValues};
use lists::Table;
use paper::answers::{Answer, Opened, Refusal, Values};
use paper::outcomes::{Opening, Outcome, Started};
use paper::state::{Ace, Coordinator, Extent, IdType};
use paper::{answers, state};

// The two that a byte names: 0 the first.
fn one_of<T: Copy>(first: T, second: T, b: u8) -> T
    ensures { result ≡ one_of first second b }
{
    if b == 0 { first } else { second }
}

fn ace_in(a: &ShelfAce) -> Ace
    ensures { result ≡ ace_in a.now }
{
    let ShelfAce {
        kind,
        extent,
        id,
        count,
        luacds,
    } = *a;
    Ace {
        kind: one_of(IdType::AccessId, IdType::TransportId, kind),
        extent: one_of(Extent::Listed, Extent::Everything, extent),
        id,
        count,
        luacds,
    }
}

// Whether the bytes of an ACE name its type and what it holds.
fn well_ace(a: &ShelfAce) -> bool
    ensures { result ≡ well_ace a.now }
{
    a.kind <= 1 && a.extent <= 1
}

// Every entry is looked at, in use or not: the next state keeps them all.
fn well_aces(aces: &[ShelfAce]) -> bool
    ensures { result ≡ all well_ace aces.now }
{
    aces.iter().all(|a| well_ace(a))
}

#[tactic(auto, unfolding(crate::specs::Crossing::well_named))]
pub fn well_named(s: &Shelf) -> bool
    ensures { result ≡ well_named s.now }
{
    s.enabled <= 1 && well_aces(&s.acl.items)
}

fn aces_in(from: &[ShelfAce; 32]) -> [Ace; 32]
    ensures { result ≡ map ace_in from.now }
{
    lists::mapped(state::no_ace(), from, |a| ace_in(a))
}

#[tactic(auto, unfolding(crate::specs::Crossing::coordinator_in))]
pub fn coordinator_in(s: &Shelf) -> Coordinator
    ensures { result ≡ coordinator_in s.now }
{
    Coordinator {
        enabled: one_of(false, true, s.enabled),
        generation: s.generation,
        key: s.key,
        initiators: s.initiators,
        units: s.units,
        acl: Table {
            count: s.acl.count,
            items: aces_in(&s.acl.items),
        },
        tokens: s.tokens,
        proxies: s.proxies,
    }
}

// Stays: the byte of what an ACE holds is told by C's header alone, and `Extent` is paper's, where an impl of `From` would have to stand.
fn extent_byte(e: Extent) -> u8
    ensures { result ≡ extent_byte e }
{
    match e {
        Extent::Listed => 0,
        Extent::Everything => 1,
    }
}

fn ace_out(a: &Ace) -> ShelfAce
    ensures { result ≡ ace_out a.now }
{
    let Ace {
        kind,
        extent,
        id,
        count,
        luacds,
    } = *a;
    ShelfAce {
        kind: u8::from(kind),
        extent: extent_byte(extent),
        id,
        count,
        luacds,
    }
}

fn aces_out(from: &[Ace; 32]) -> [ShelfAce; 32]
    ensures { result ≡ map ace_out from.now }
{
    lists::mapped(ace_out(&state::no_ace()), from, |a| ace_out(a))
}

#[tactic(auto, unfolding(crate::specs::Crossing::shelf_of))]
fn shelf_of(c: &Coordinator) -> Shelf
    ensures { result ≡ shelf_of c.now }
{
    Shelf {
        enabled: u8::from(c.enabled),
        generation: c.generation,
        key: c.key,
        initiators: c.initiators,
        units: c.units,
        acl: ShelfAcl {
            count: c.acl.count,
            items: aces_out(&c.acl.items),
        },
        tokens: c.tokens,
        proxies: c.proxies,
    }
}

fn values_out(v: Values) -> ShelfValues
    ensures { result ≡ values_out v }
{
    let Values {
        status,
        number,
        sense,
    } = v;
    ShelfValues {
        status: status.unwrap_or(0xFF),
        number,
        sense,
    }
}

pub fn outcome_out(o: &Outcome) -> ShelfOutcome
    ensures { result ≡ outcome_out o.now }
{
    ShelfOutcome {
        state: shelf_of(&o.state),
        values: values_out(o.values),
        delivered: o.delivered,
    }
}

pub fn started_out(o: &Started) -> ShelfOutcome
    ensures { result ≡ started_out o.now }
{
    ShelfOutcome {
        state: shelf_of(&o.state),
        values: values_out(o.values),
        delivered: 0,
    }
}

fn unit_opened(o: Opened) -> u8
    ensures { result ≡ unit_opened o }
{
    match o {
        Opened::Opens(u) => u,
        Opened::Closed(_) | Opened::Barred(_) => 0,
    }
}

pub fn opening_out(o: Opening) -> ShelfOpening
    ensures { result ≡ opening_out o }
{
    ShelfOpening {
        unit: unit_opened(o.opened),
        values: values_out(o.values),
    }
}

// "2: the state handed in breaks a standing rule": as it was handed in, it is handed back.
pub fn refused_shelf(s: Shelf) -> ShelfOutcome
    ensures { result ≡ refused_shelf s }
{
    ShelfOutcome {
        state: s,
        values: values_out(answers::values_of(Answer::Refused(Refusal::BadState))),
        delivered: 0,
    }
}
