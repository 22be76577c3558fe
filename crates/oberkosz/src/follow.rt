// The grounds of a unit, followed for an audit.
ghost use Rattle.std.specs.Prelude.{◌≡◌, true, cond, take, IfSome, is_some};
ghost use Rattle.journal.specs.Statements.{read_line};
ghost use Rattle.audit.specs.Room.{Within};
ghost use Rattle.audit.specs.Following.{kept_in, fits as has_room, followed};
ghost use Rattle.oberkosz.specs.Places.{is_audit, inquiry_of, Sound};

use crate::buffers::Buffers;
use crate::console;
use crate::console::Console;
use crate::step::Place;
use crate::task::Task;
use audit::following;
use audit::ledger::Grounds;
use journal::telling;
use paper::state::Coordinator;
use std::io::Write;

// "If there are more, it .. says so on standard error with the line at which it was full"
#[tactic(auto, using(journal::proofs::Told::number_most))]
fn tell_full<O: Write, E: Write>(to: &mut Console<O, E>, number: u64, text: &mut [u8; 140000]) {
    let limit = text.len();
    let told = telling::put_line(text, 0, limit, number);
    console::warn(to, &text[..told]);
    console::warn(to, b": more than 16384 grounds: ask for fewer lines\n");
}

// The grounds after a line, if there is room for them; of other tasks than an audit there are none. The text was told: its buffer is free for the grounds that stand next.
pub fn follow<O: Write, E: Write>(
    to: &mut Console<O, E>,
    task: Task,
    p: Place,
    state: Coordinator,
    buffers: &mut Buffers,
) -> Option<Grounds>
    requires { Sound p }
    ensures within { IfSome result (λ g. Within g) }
    ensures fits { is_some result ≡ cond (is_audit task) (has_room (followed (inquiry_of task) p.number (read_line (take p.used buffers.old.line)) state (kept_in p.grounds buffers.old.standing buffers.old.ended))) true }
    ensures kept { is_audit task ≡ true → IfSome result (λ g. kept_in g buffers.new.standing buffers.new.ended ≡ followed (inquiry_of task) p.number (read_line (take p.used buffers.old.line)) state (kept_in p.grounds buffers.old.standing buffers.old.ended)) }
{
    let Task::Audit(audit) = task else {
        return Some(p.grounds);
    };
    let after = following::follow(
        audit.inquiry(),
        p.number,
        &buffers.line[..p.used],
        state,
        p.grounds,
        &mut buffers.first,
        &mut buffers.second,
        &mut buffers.reply,
        &mut buffers.standing,
        &mut buffers.text,
        &mut buffers.ended,
    );
    if after.is_none() {
        tell_full(to, p.number, &mut buffers.text);
    }
    after
}
