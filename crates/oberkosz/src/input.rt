// The journal on standard input, in chunks, whatever their ends cut.
ghost use Rattle.std.specs.Prelude.{◌≡◌, true, false, List, ℕ, ◌+◌, ◌≤◌, length, take};
ghost use Rattle.std.specs.ControlFlow.{MatchControlFlow};
ghost use Rattle.audit.specs.Following.{Auditing, begun, fed, ended as atEnd};
ghost use Rattle.oberkosz.specs.Places.{inquiry_of, At, Sound};
ghost use Rattle.oberkosz.specs.declared.task.Task.{Task};

use crate::buffers::Buffers;
use crate::console::{Console, Failure};
use crate::step::Place;
use crate::task::Task;
use crate::{console, show, step};
use audit::ledger::Grounds;
use coordinator::setup;
use journal::lines;
use std::io::{Read, Write};
use std::ops::ControlFlow;

// "Before the first setup the coordinator is the one that a refused setup leaves"
fn begun() -> Place
    ensures sound { Sound result × (result.number ≡ 1) }
    ensures at { (task : Task) (line standing ended : List ℕ) → At task result line standing ended begun }
{
    Place {
        state: setup::setup(b"", b"").state,
        number: 1,
        used: 0,
        going: true,
        grounds: Grounds {
            standing: 0,
            ended: 0,
        },
    }
}

// Where the program is after a part of a chunk, and how many bytes that is.
#[derive(Clone, Copy)]
struct Part {
    place: Place,
    eaten: usize,
}

// A chunk up to the end of a line, or all of it.
fn one_line<O: Write, E: Write>(
    to: &mut Console<O, E>,
    task: Task,
    p: Place,
    chunk: &[u8],
    buffers: &mut Buffers,
) -> Part
    requires { Sound p × (1 ≤ length chunk.now) × (p.number + 1 ≤ 18446744073709551615) }
    ensures sound { Sound result.place × (result.place.number ≤ p.number + 1) × (1 ≤ result.eaten) × (result.eaten ≤ length chunk.now) }
    ensures fed { (x : Auditing) → At task p buffers.old.line buffers.old.standing buffers.old.ended x → At task result.place buffers.new.line buffers.new.standing buffers.new.ended (fed (inquiry_of task) x (take result.eaten chunk.now)) }
{
    let taken = lines::take_in(&mut buffers.line, p.used, chunk);
    let eaten = taken.eaten;
    let part = Place {
        used: taken.used,
        ..p
    };
    if !taken.ended {
        return Part { place: part, eaten };
    }
    let done = step::step(to, task, part, buffers);
    Part { place: done, eaten }
}

// A chunk, line by line, unless the output fails.
fn fed<O: Write, E: Write>(
    to: &mut Console<O, E>,
    task: Task,
    p: Place,
    chunk: &[u8],
    buffers: &mut Buffers,
) -> Place
    requires { Sound p × (p.number + length chunk.now ≤ 18446744073709551615) }
    ensures sound { Sound result × (result.number ≤ p.number + length chunk.now) }
    ensures fed { (x : Auditing) → At task p buffers.old.line buffers.old.standing buffers.old.ended x → result.going ≡ true → At task result buffers.new.line buffers.new.standing buffers.new.ended (fed (inquiry_of task) x chunk.now) }
{
    let mut q = p;
    let mut rest = chunk;
    while !rest.is_empty() {
        let part = one_line(to, task, q, rest, buffers);
        if !part.place.going {
            return part.place;
        }
        q = part.place;
        rest = &rest[part.eaten..];
    }
    q
}

// "a last line with no LF counts as a line"
fn last_line<O: Write, E: Write>(
    to: &mut Console<O, E>,
    task: Task,
    p: Place,
    buffers: &mut Buffers,
) -> Place
    requires { Sound p × (p.number + 1 ≤ 18446744073709551615) }
    ensures sound { Sound result }
    ensures ended { (x : Auditing) → At task p buffers.old.line buffers.old.standing buffers.old.ended x → At task result buffers.new.line buffers.new.standing buffers.new.ended (atEnd (inquiry_of task) x) }
{
    if p.used == 0 {
        return p;
    }
    step::step(to, task, p, buffers)
}

// What was read of a journal that cannot be read on says nothing of the whole: nothing is shown.
fn stopped(p: Place) -> Place
    ensures { (result.used ≡ p.used) × (result.grounds ≡ p.grounds) × (result.going ≡ false) }
{
    Place { going: false, ..p }
}

// One read of the journal, and what it brings; at its end the last line. Where the program is after it, and whether to read on.
fn one_chunk<I: Read, O: Write, E: Write>(
    input: &mut I,
    to: &mut Console<O, E>,
    task: Task,
    p: Place,
    chunk: &mut [u8; 65536],
    buffers: &mut Buffers,
) -> ControlFlow<Place, Place>
    requires { Sound p × (p.number + 65536 ≤ 18446744073709551615) }
    ensures { MatchControlFlow result (λ q. Sound q × (q.number ≤ p.number + 65536)) (λ q. Sound q) }
{
    let n = match input.read(chunk) {
        Ok(n) => n,
        Err(error) => {
            to.failure = Some(Failure::Reading(error));
            return ControlFlow::Break(stopped(p));
        }
    };
    if n == 0 {
        return ControlFlow::Break(last_line(to, task, p, buffers));
    }
    let place = fed(to, task, p, &chunk[..n], buffers);
    if place.going {
        ControlFlow::Continue(place)
    } else {
        ControlFlow::Break(place)
    }
}

// Reads the journal to its end. A proved loop has to end, and nothing says that an input does: so it counts its turns, up to a number that no run reaches, and that keeps the number of lines below 2^64.
fn read_through<I: Read, O: Write, E: Write>(
    input: &mut I,
    to: &mut Console<O, E>,
    task: Task,
    buffers: &mut Buffers,
) -> Place
    ensures { Sound result }
{
    let mut chunk = [0; 65536];
    let mut p = begun();
    for turn in 0..281474976710654u64 {
        match one_chunk(input, to, task, p, &mut chunk, buffers) {
            ControlFlow::Continue(place) => p = place,
            ControlFlow::Break(place) => return place,
        }
    }
    p
}

// Never put into its caller: its 1.3 MB of buffers would then stand in the frame of a call that asks for help alone.
#[inline(never)]
pub fn run<I: Read, O: Write, E: Write>(task: Task, input: &mut I, to: &mut Console<O, E>) {
    let mut buffers = Buffers::new();
    let p = read_through(input, to, task, &mut buffers);
    let shown = show::show(&mut to.output, task, p, &mut buffers);
    console::note(to, shown);
}
