// The program `oberkosz`: what a journal on standard input tells, by the proved coordinator. A thin main over journal and audit.
#![tactic(auto)]

mod buffers;
mod console;
mod follow;
mod help;
mod input;
mod show;
mod step;
mod task;
mod words;

use console::Console;
use std::io::{Read, Write};
use task::Task;
use words::Wrong;

fn run<I: Read, O: Write, E: Write>(
    asked: Result<Option<Task>, Wrong>,
    input: &mut I,
    to: &mut Console<O, E>,
) {
    match asked {
        Ok(Some(task)) => input::run(task, input, to),
        Ok(None) => {
            let outcome = help::tell(&mut to.output);
            console::note(to, outcome);
        }
        Err(wrong) => {
            let outcome = help::wrong(&mut to.errors, wrong.message());
            console::note(to, outcome);
        }
    }
}

// The program has no exit status of its own: what went wrong stands on standard error, and where that fails too, nothing is left to say it.
fn main(rt: HostRuntime) {
    let asked = words::asked(&rt);
    let mut to = Console {
        output: rt.stdout(),
        errors: rt.stderr(),
        failure: None,
    };
    run(asked, &mut rt.stdin(), &mut to);
    if let Some(failure) = to.failure {
        let _ = console::tell(&rt, failure);
    }
}
