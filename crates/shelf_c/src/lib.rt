// The exports of the C library: include/oberkosz.h declares them. Each calls the function of shelf that has its name, and promises what that promises.
#![tactic(auto)]

ghost use Rattle.std.specs.Prelude.{◌≡◌, true, length, get_or};
ghost use Rattle.paper.specs.Fresh.{started};
ghost use Rattle.paper.specs.Standing.{standing};
ghost use Rattle.paper.specs.Outcomes.{decide_command, decide_link, decide_reach, routed, opening_of};
ghost use Rattle.shelf.specs.Crossing.{coordinator_in, started_out, opening_out, call_outcome, call_buffer, route_opening};
ghost use Rattle.shelf.specs.Layout.{layout};

use shelf::layout::{Shelf, ShelfOpening, ShelfOutcome};

#[unsafe(no_mangle)]
pub extern "C" fn oberkosz_setup(ids: &[u8], luns: &[u8]) -> ShelfOutcome
    ensures { result ≡ started_out (started ids.now luns.now) }
{
    shelf::oberkosz_setup(ids, luns)
}

#[unsafe(no_mangle)]
pub extern "C" fn oberkosz_command(
    s: Shelf,
    initiator: usize,
    cdb: &[u8],
    list: &[u8],
    random: u64,
    reply: &mut [u8],
) -> ShelfOutcome
    ensures outcome { result ≡ call_outcome s (λ c. decide_command c initiator cdb.now list.now random (length reply.old)) }
    ensures bytes { reply.new ≡ call_buffer s (λ c. decide_command c initiator cdb.now list.now random (length reply.old)) reply.old }
{
    shelf::oberkosz_command(s, initiator, cdb, list, random, reply)
}

#[unsafe(no_mangle)]
pub extern "C" fn oberkosz_link_event(s: Shelf, initiator: usize) -> ShelfOutcome
    ensures { result ≡ call_outcome s (λ c. decide_link c initiator) }
{
    shelf::oberkosz_link_event(s, initiator)
}

#[unsafe(no_mangle)]
pub extern "C" fn oberkosz_reach(s: Shelf, reply: &mut [u8]) -> ShelfOutcome
    ensures outcome { result ≡ call_outcome s (λ c. decide_reach c (length reply.old)) }
    ensures bytes { reply.new ≡ call_buffer s (λ c. decide_reach c (length reply.old)) reply.old }
{
    shelf::oberkosz_reach(s, reply)
}

#[unsafe(no_mangle)]
pub extern "C" fn oberkosz_route(s: Shelf, initiator: usize, lun: u64) -> ShelfOpening
    ensures { result ≡ route_opening s initiator lun }
{
    shelf::oberkosz_route(s, initiator, lun)
}

// For a state that this library handed back, and that was not changed since: what `requires` asks is known of it (always-stands).
#[unsafe(no_mangle)]
pub extern "C" fn oberkosz_route_standing(s: Shelf, initiator: usize, lun: u64) -> ShelfOpening
    requires { standing (coordinator_in s) ≡ true }
    ensures { result ≡ opening_out (opening_of (routed (coordinator_in s) initiator lun)) }
{
    shelf::oberkosz_route_standing(s, initiator, lun)
}

// The sizes and offsets of what crosses, as include/oberkosz.h has them: by it a program sees that header and library belong together.
#[unsafe(no_mangle)]
pub extern "C" fn oberkosz_layout(entry: usize) -> usize
    ensures { result ≡ get_or layout entry 0 }
{
    shelf::oberkosz_layout(entry)
}
