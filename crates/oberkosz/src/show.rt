// What the task asks for is shown once the journal is read.
ghost use Rattle.oberkosz.specs.Places.{Sound};

use crate::buffers::Buffers;
use crate::step::Place;
use crate::task::{Audit, Task};
use audit::cells::Audited;
use showing::shown;
use std::io;
use std::io::Write;

// The audit of a unit, as a table with its answer or for spreadsheets.
fn show_audit<W: Write>(to: &mut W, audit: Audit, p: Place, buffers: &mut Buffers) -> io::Result<()>
    requires { Sound p }
{
    let audited = Audited {
        asked: audit.asked(p.number),
        ended: &buffers.ended[..p.grounds.ended],
        standing: &buffers.standing[..p.grounds.standing],
    };
    let text = &mut buffers.text;
    if audit.tsv {
        shown::show_table(to, true, &audited, text)
    } else {
        shown::show_audit(to, audit.unit, p.state, &audited, text)
    }
}

// What the task asks for of the journal.
pub fn show<W: Write>(to: &mut W, task: Task, p: Place, buffers: &mut Buffers) -> io::Result<()>
    requires { Sound p }
{
    if !p.going {
        return Ok(());
    }
    match task {
        Task::Audit(audit) => show_audit(to, audit, p, buffers),
        Task::Acl => shown::show_state(to, p.state, &mut buffers.text),
        Task::Replay => Ok(()),
    }
}
