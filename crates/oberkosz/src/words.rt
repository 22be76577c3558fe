// The words that the program was started with.
ghost use Rattle.std.specs.Prelude.{◌≤◌};

use crate::task::{Audit, Lines, Task};
use journal::kinds;
use std::env::{Env, FillError};

// What is wrong with the words.
#[derive(Clone, Copy)]
pub enum Wrong {
    NoTask,
    NoUnit,
    NoLines,
}

impl Wrong {
    pub fn message(self) -> &'static [u8] {
        match self {
            Wrong::NoTask => b"expected replay, audit, acl or help",
            Wrong::NoUnit => b"audit: expected the number of a unit, 0 to 31",
            Wrong::NoLines =>
                b"audit: expected UNIT, or UNIT FROM TO with line numbers from 1 on and FROM up to TO, and then tsv or nothing",
        }
    }
}

// How many words there are, with the program's own name.
fn count_of<A: Env>(arguments: &A) -> usize {
    let mut space = [0; 4096];
    for i in 0..usize::MAX {
        if let Err(FillError::NotPresent) = arguments.arg(i, &mut space) {
            return i;
        }
    }
    usize::MAX
}

// Whether a word stands at a place, and is this one.
fn is_word<A: Env>(arguments: &A, i: usize, word: &[u8]) -> bool {
    let mut space = [0; 4096];
    match arguments.arg(i, &mut space) {
        Ok(n) => &space[..n] == word,
        Err(_) => false,
    }
}

// The number that stands at a place, if one does that fits.
fn number_at<A: Env>(arguments: &A, i: usize) -> Option<u64> {
    let mut space = [0; 4096];
    let n = arguments.arg(i, &mut space).ok()?;
    kinds::number(&space[..n])
}

// `audit UNIT [FROM TO] [tsv]`, of so many words.
fn audit<A: Env>(arguments: &A, words: usize) -> Result<Audit, Wrong>
    requires { 2 ≤ words }
{
    let unit = match number_at(arguments, 2) {
        Some(unit) if 2 < words && unit < 32 => unit as u8,
        _ => return Err(Wrong::NoUnit),
    };
    let tsv = is_word(arguments, words - 1, b"tsv");
    let lines = lines(arguments, if tsv { words - 1 } else { words })?;
    Ok(Audit { unit, lines, tsv })
}

// The lines of an audit, if they are named.
fn lines<A: Env>(arguments: &A, words: usize) -> Result<Option<Lines>, Wrong> {
    match words {
        3 => Ok(None),
        5 => Ok(Some(named_lines(arguments).ok_or(Wrong::NoLines)?)),
        _ => Err(Wrong::NoLines),
    }
}

// FROM to TO, if both are numbers of lines, in order.
fn named_lines<A: Env>(arguments: &A) -> Option<Lines> {
    let from = number_at(arguments, 3)?;
    let to = number_at(arguments, 4)?;
    if 0 < from && from <= to {
        Some(Lines { from, to })
    } else {
        None
    }
}

// The task that is one word; none, where that asks for help.
fn task_of<A: Env>(arguments: &A) -> Result<Option<Task>, Wrong> {
    if is_word(arguments, 1, b"replay") {
        Ok(Some(Task::Replay))
    } else if is_word(arguments, 1, b"acl") {
        Ok(Some(Task::Acl))
    } else if is_word(arguments, 1, b"help") {
        Ok(None)
    } else {
        Err(Wrong::NoTask)
    }
}

// What the words ask for; no task, where there are none or they ask for help.
pub fn asked<A: Env>(arguments: &A) -> Result<Option<Task>, Wrong> {
    let words = count_of(arguments);
    if words < 2 {
        return Ok(None);
    }
    if is_word(arguments, 1, b"audit") {
        return Ok(Some(Task::Audit(audit(arguments, words)?)));
    }
    if 2 < words {
        return Err(Wrong::NoTask);
    }
    task_of(arguments)
}
