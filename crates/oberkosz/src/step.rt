// One line of a journal: answered, or followed for an audit.
ghost use Rattle.std.specs.Prelude.{◌≡◌, true, ◌+◌, ◌≤◌, take};
ghost use Rattle.journal.specs.Statements.{read_line};
ghost use Rattle.journal.specs.Replay.{step_line};
ghost use Rattle.audit.specs.Room.{Within};
ghost use Rattle.audit.specs.Following.{kept_in, followed};
ghost use Rattle.oberkosz.specs.Places.{is_audit, inquiry_of, Sound};

use crate::buffers::Buffers;
use crate::console::Console;
use crate::task::Task;
use crate::{console, follow};
use audit::ledger::Grounds;
use journal::replaying;
use paper::state::Coordinator;
use std::io::Write;

// Where a run is: the coordinator, the number of the line that is being read and how much of it there is, whether to go on, and the grounds of an audit.
// Stays: a run that stopped still has its state and its number, of which its contracts speak.
#[derive(Clone, Copy)]
pub struct Place {
    pub state: Coordinator,
    pub number: u64,
    pub used: usize,
    pub going: bool,
    pub grounds: Grounds,
}

// "a line that is no statement is told on standard error"
fn tell_fault<O: Write, E: Write>(to: &mut Console<O, E>, text: &[u8]) -> bool {
    !text.starts_with(b"line ") || console::warn(to, text)
}

// What is written of a line: the answer, where answers are asked for.
fn told<O: Write, E: Write>(to: &mut Console<O, E>, task: Task, text: &[u8]) -> bool {
    match task {
        Task::Replay => console::answer(to, text),
        Task::Audit(_) | Task::Acl => tell_fault(to, text),
    }
}

// A whole line: answered, and followed for an audit.
pub fn step<O: Write, E: Write>(
    to: &mut Console<O, E>,
    task: Task,
    p: Place,
    buffers: &mut Buffers,
) -> Place
    requires { (Sound p) × (p.number + 1 ≤ 18446744073709551615) }
    ensures state { result.state ≡ (step_line p.state p.number (read_line (take p.used buffers.old.line))).state }
    ensures place { (result.number ≡ p.number + 1) × (result.used ≡ 0) × Within result.grounds }
    ensures kept { is_audit task ≡ true → result.going ≡ true → (p.going ≡ true) × (kept_in result.grounds buffers.new.standing buffers.new.ended ≡ followed (inquiry_of task) p.number (read_line (take p.used buffers.old.line)) result.state (kept_in p.grounds buffers.old.standing buffers.old.ended)) }
{
    let answered = replaying::answer_line(
        p.state,
        p.number,
        &buffers.line[..p.used],
        &mut buffers.first,
        &mut buffers.second,
        &mut buffers.reply,
        &mut buffers.text,
    );
    let told = told(to, task, &buffers.text[..answered.size]);
    let grounds = follow::follow(to, task, p, answered.state, buffers);
    Place {
        state: answered.state,
        number: p.number + 1,
        used: 0,
        going: p.going && told && grounds.is_some(),
        grounds: grounds.unwrap_or(p.grounds),
    }
}
