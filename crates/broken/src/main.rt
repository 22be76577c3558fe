// One state for each standing rule of document 01, in its order, that breaks that rule, and three states that stand.
#![tactic(auto)]

mod changes;
mod states;

use paper::state::{Ace, Coordinator, Extent, IdType};
use paper::{setters, state};
use standing::rules;
use std::io;

fn say(rt: &impl Print, name: &[u8], c: Coordinator) -> io::Result<()> {
    rt.write_all(name)?;
    if rules::standing(&c) {
        println!(rt; ": stands")
    } else {
        println!(rt; ": refused 2")
    }
}

fn standing_states(rt: &impl Print) -> io::Result<()> {
    say(rt, b"bare", states::bare())?;
    say(rt, b"fresh", states::fresh())?;
    say(rt, b"whole", states::whole())
}

// "a setup rule"
fn setup_rules(rt: &impl Print, c: Coordinator) -> io::Result<()> {
    say(
        rt,
        b"invalid TransportID",
        changes::transport_byte(c, 24, 2),
    )?;
    say(rt, b"TransportID twice", changes::transport_byte(c, 47, 0))?;
    say(rt, b"malformed default LUN", changes::last_default(c, 272))?;
    say(rt, b"default LUN twice", changes::last_default(c, 15))
}

// "a count over its size"
fn counts(rt: &impl Print, c: Coordinator) -> io::Result<()> {
    say(rt, b"17 initiators", changes::initiators_counted(c, 17))?;
    say(rt, b"33 units", changes::units_counted(c, 33))?;
    say(rt, b"33 ACEs", changes::aces_counted(c, 33))?;
    say(rt, b"17 LUACDs", changes::luacds_counted(c, 17))?;
    say(rt, b"33 tokens", changes::tokens_counted(c, 33))?;
    say(rt, b"33 proxy LUNs", changes::proxies_counted(c, 33))
}

// "an identifier in two ACEs of its type, a token or one initiator's proxy LUN present twice, a LUN or unit twice in one ACE"
fn twice(rt: &impl Print, c: Coordinator) -> io::Result<()> {
    let access = states::id_of(0xA1, 1);
    let transport = states::id_of(0, 0);
    say(
        rt,
        b"AccessID twice",
        changes::one_more_ace(c, states::granting_all(IdType::AccessId, access)),
    )?;
    say(
        rt,
        b"TransportID in two ACEs",
        changes::one_more_ace(c, states::granting_all(IdType::TransportId, transport)),
    )?;
    say(
        rt,
        b"token twice",
        changes::one_more_token(c, states::token(5)),
    )?;
    say(
        rt,
        b"proxy LUN twice",
        changes::one_more_proxy(c, states::proxy(2, 9)),
    )?;
    let one = states::listing(IdType::AccessId, states::id_of(0xA2, 0), 200, 0);
    say(
        rt,
        b"LUN twice in one ACE",
        changes::one_more_ace(c, states::and_at(one, 200, 1)),
    )?;
    say(
        rt,
        b"unit twice in one ACE",
        changes::one_more_ace(c, states::and_at(one, 201, 0)),
    )
}

// "a list without LUACDs"
fn empty_list(rt: &impl Print, c: Coordinator) -> io::Result<()> {
    let id = states::id_of(0xA2, 0);
    let luacds = [state::no_luacd(); 16];
    let a = Ace {
        kind: IdType::AccessId,
        extent: Extent::Listed,
        id,
        count: 0,
        luacds,
    };
    say(rt, b"list without LUACDs", changes::one_more_ace(c, a))
}

// "a malformed LUN or identifier, a zero token"
fn malformed(rt: &impl Print, c: Coordinator) -> io::Result<()> {
    let id = states::id_of(2, 0);
    say(
        rt,
        b"malformed LUN of a LUACD",
        changes::last_luacd(c, 371, 15),
    )?;
    say(
        rt,
        b"malformed LUN of a token",
        changes::other_token(c, 0, 0, 256),
    )?;
    say(
        rt,
        b"malformed proxy LUN",
        changes::other_proxy(c, 2, 265, 5),
    )?;
    say(
        rt,
        b"malformed identifier",
        changes::one_more_ace(c, states::granting_all(IdType::TransportId, id)),
    )?;
    say(
        rt,
        b"zero token",
        changes::one_more_token(c, states::token(0)),
    )
}

// "a reference to an absent unit, initiator, token or enrolled AccessID"
fn references(rt: &impl Print, c: Coordinator) -> io::Result<()> {
    say(
        rt,
        b"absent unit of a LUACD",
        changes::last_luacd(c, 115, 17),
    )?;
    say(
        rt,
        b"absent unit of a token",
        changes::other_token(c, 17, 0, 0),
    )?;
    say(
        rt,
        b"absent initiator of a token",
        changes::other_token(c, 0, 3, 0),
    )?;
    say(
        rt,
        b"absent initiator of a proxy LUN",
        changes::other_proxy(c, 3, 9, 5),
    )?;
    say(rt, b"absent token", changes::other_proxy(c, 2, 9, 6))?;
    say(
        rt,
        b"absent enrolled AccessID",
        changes::enrolment_byte(c, 26, 0xA2),
    )?;
    say(
        rt,
        b"absent pending AccessID",
        changes::enrolment_byte(c, 50, 2),
    )
}

// "a clash": one LUN and two units, one unit and two LUNs, and a proxy LUN on another unit's LUN.
fn clashes(rt: &impl Print, c: Coordinator) -> io::Result<()> {
    let id = states::id_of(0, 1);
    let other = states::listing(IdType::TransportId, id, 100, 1);
    let again = states::listing(IdType::TransportId, id, 50, 0);
    say(rt, b"one LUN, two units", changes::one_more_ace(c, other))?;
    say(rt, b"one unit, two LUNs", changes::one_more_ace(c, again))?;
    say(
        rt,
        b"proxy LUN on another unit's LUN",
        changes::other_proxy(c, 0, 9, 5),
    )
}

// "DLgeneration not 0 disabled or 1 enabled"
fn generations(rt: &impl Print, on: Coordinator, off: Coordinator) -> io::Result<()> {
    say(
        rt,
        b"DLgeneration 0 enabled",
        setters::with_switch(on, true, 0, 7),
    )?;
    say(
        rt,
        b"DLgeneration 2 enabled",
        setters::with_switch(on, true, 2, 7),
    )?;
    say(
        rt,
        b"DLgeneration 1 disabled",
        setters::with_switch(off, false, 1, 0),
    )
}

// "or an ACE, token or nonzero key while disabled"
fn disabled(rt: &impl Print, off: Coordinator) -> io::Result<()> {
    let id = states::id_of(0xA1, 0);
    say(
        rt,
        b"ACE while disabled",
        changes::one_more_ace(off, states::granting_all(IdType::AccessId, id)),
    )?;
    say(
        rt,
        b"token while disabled",
        changes::one_more_token(off, states::token(5)),
    )?;
    say(
        rt,
        b"key while disabled",
        setters::with_switch(off, false, 0, 7),
    )
}

fn main(rt: HostRuntime) -> io::Result<()> {
    let on = states::whole();
    let off = states::fresh();
    standing_states(&rt)?;
    setup_rules(&rt, on)?;
    counts(&rt, on)?;
    twice(&rt, on)?;
    empty_list(&rt, on)?;
    malformed(&rt, on)?;
    references(&rt, on)?;
    clashes(&rt, on)?;
    generations(&rt, on, off)?;
    disabled(&rt, off)
}
