// The coordinator for C. include/oberkosz.h declares these functions, and crates/shelf_c exports them, since a library exports nothing itself.
#![tactic(auto)]

ghost use Rattle.std.specs.Prelude.{◌≡◌, true, length, get_or};
ghost use Rattle.paper.specs.Fresh.{started};
ghost use Rattle.paper.specs.Standing.{standing};
ghost use Rattle.paper.specs.Outcomes.{decide_command, decide_link, decide_reach, routed, opening_of};
ghost use Rattle.shelf.specs.Crossing.{coordinator_in, started_out, opening_out, call_outcome, call_buffer, route_opening};
ghost use Rattle.shelf.specs.Layout.{layout};

mod crossing;
pub mod layout;

use coordinator::{commanding, questions, setup};
use layout::{Shelf, ShelfOpening, ShelfOutcome};
use paper::answers::{Opened, Refusal};
use paper::outcomes;

#[unsafe(no_mangle)]
pub extern "C" fn oberkosz_setup(ids: &[u8], luns: &[u8]) -> ShelfOutcome
    ensures { result ≡ started_out (started ids.now luns.now) }
{
    crossing::started_out(&setup::setup(ids, luns))
}

#[unsafe(no_mangle)]
pub extern "C" fn oberkosz_command(
    s: Shelf,
    initiator: usize,
    cdb: &[u8],
    list: &[u8],
    random: u64,
    reply: &mut [u8],
) -> ShelfOutcome
    ensures outcome { result ≡ call_outcome s (λ c. decide_command c initiator cdb.now list.now random (length reply.old)) }
    ensures bytes { reply.new ≡ call_buffer s (λ c. decide_command c initiator cdb.now list.now random (length reply.old)) reply.old }
{
    if !crossing::well_named(&s) {
        return crossing::refused_shelf(s);
    }
    let c = crossing::coordinator_in(&s);
    crossing::outcome_out(&commanding::command(c, initiator, cdb, list, random, reply))
}

#[unsafe(no_mangle)]
pub extern "C" fn oberkosz_link_event(s: Shelf, initiator: usize) -> ShelfOutcome
    ensures { result ≡ call_outcome s (λ c. decide_link c initiator) }
{
    if !crossing::well_named(&s) {
        return crossing::refused_shelf(s);
    }
    let c = crossing::coordinator_in(&s);
    crossing::outcome_out(&questions::link_event(c, initiator))
}

#[unsafe(no_mangle)]
pub extern "C" fn oberkosz_reach(s: Shelf, reply: &mut [u8]) -> ShelfOutcome
    ensures outcome { result ≡ call_outcome s (λ c. decide_reach c (length reply.old)) }
    ensures bytes { reply.new ≡ call_buffer s (λ c. decide_reach c (length reply.old)) reply.old }
{
    if !crossing::well_named(&s) {
        return crossing::refused_shelf(s);
    }
    let c = crossing::coordinator_in(&s);
    crossing::outcome_out(&questions::reach(c, reply))
}

#[unsafe(no_mangle)]
pub extern "C" fn oberkosz_route(s: Shelf, initiator: usize, lun: u64) -> ShelfOpening
    ensures { result ≡ route_opening s initiator lun }
{
    if !crossing::well_named(&s) {
        return crossing::opening_out(outcomes::opening_of(Opened::Barred(Refusal::BadState)));
    }
    let c = crossing::coordinator_in(&s);
    crossing::opening_out(questions::route(c, initiator, lun))
}

// For a state that this library handed back, and that was not changed since: what `requires` asks is known of it (always-stands).
#[unsafe(no_mangle)]
pub extern "C" fn oberkosz_route_standing(s: Shelf, initiator: usize, lun: u64) -> ShelfOpening
    requires { standing (coordinator_in s) ≡ true }
    ensures { result ≡ opening_out (opening_of (routed (coordinator_in s) initiator lun)) }
{
    let c = crossing::coordinator_in(&s);
    crossing::opening_out(questions::route_standing(c, initiator, lun))
}

// The layout of each struct that crosses, in bytes: its size, then where its fields stand.
// lun, unit
const LUACD: [usize; 3] = [4, 0, 2];

// kind, extent, id, count, luacds
const ACE: [usize; 6] = [104, 0, 1, 2, 32, 40];

// count, items
const ACL: [usize; 3] = [3336, 0, 8];

// number, unit, requester, lun
const TOKEN: [usize; 5] = [16, 0, 8, 9, 10];

// count, items
const TOKENS: [usize; 3] = [520, 0, 8];

// initiator, lun, token
const PROXY_LUN: [usize; 4] = [16, 0, 2, 8];

// count, items
const PROXY_LUNS: [usize; 3] = [520, 0, 8];

// count, ids, enrolments
const INITIATORS: [usize; 4] = [792, 0, 8, 392];

// count, luns
const UNITS: [usize; 3] = [72, 0, 8];

// enabled, generation, key, initiators, units, acl, tokens, proxies
const STATE: [usize; 9] = [5256, 0, 4, 8, 16, 808, 880, 4216, 4736];

// status, number, sense
const VALUES: [usize; 4] = [20, 0, 1, 2];

// state, values, delivered
const OUTCOME: [usize; 4] = [5288, 0, 5256, 5280];

// unit, values
const OPENING: [usize; 3] = [21, 0, 1];

// The sizes and offsets of what crosses, as include/oberkosz.h has them: by it a program sees that header and library belong together.
#[unsafe(no_mangle)]
pub extern "C" fn oberkosz_layout(entry: usize) -> usize
    ensures { result ≡ get_or layout entry 0 }
{
    match entry {
        0..=2 => LUACD[entry],
        3..=8 => ACE[entry - 3],
        9..=11 => ACL[entry - 9],
        12..=16 => TOKEN[entry - 12],
        17..=19 => TOKENS[entry - 17],
        20..=23 => PROXY_LUN[entry - 20],
        24..=26 => PROXY_LUNS[entry - 24],
        27..=30 => INITIATORS[entry - 27],
        31..=33 => UNITS[entry - 31],
        34..=42 => STATE[entry - 34],
        43..=46 => VALUES[entry - 43],
        47..=50 => OUTCOME[entry - 47],
        51..=53 => OPENING[entry - 51],
        _ => 0,
    }
}
