// REPORT ACL.
ghost use Rattle.std.specs.Prelude.{◌≡◌, [], ◌++◌, true, ◌≤◌, length, take};
ghost use Rattle.lists.specs.Bytes.{be_bytes};
ghost use Rattle.wire.specs.Write.{Wrote};
ghost use Rattle.paper.specs.Standing.{standing};
ghost use Rattle.paper.specs.Reports.{report_pages, report_bytes};
ghost use Rattle.paper.specs.Outcomes.{good, in_room, outcome_of, buffer_after};

use crate::{identified, sized, tokened};
use paper::answers::{Answer, Refusal};
use paper::outcomes;
use paper::outcomes::Outcome;
use paper::state::Coordinator;

// "length of what follows (4), DLgeneration (4)"
fn put_header(buf: &mut [u8], limit: usize, follows: u32, generation: u32) -> usize
    ensures { Wrote limit 0 (be_bytes 4 follows ++ be_bytes 4 generation) buf.old result buf.new }
{
    let a = wire::put_be32(buf, 0, limit, follows);
    wire::put_be32(buf, a, limit, generation)
}

// The ACEs' pages, and "proxy page last".
fn put_pages(c: &Coordinator, buf: &mut [u8], at: usize, limit: usize) -> usize
    requires { (standing c.now ≡ true) × (at ≤ 8) }
    ensures { Wrote limit at (report_pages c.now) buf.old result buf.new }
{
    let luns = c.units.in_use();
    let a = identified::put_aces(buf, at, limit, luns, &c.acl);
    tokened::put_proxy_page(buf, a, limit, luns, &c.tokens)
}

// REPORT ACL past its key: as much of the report as was asked for, in the lent buffer if that has room. "Inner lengths do not shrink": the header has the length of all pages, whatever is delivered of them.
pub fn report(c: Coordinator, allocation: usize, reply: &mut [u8]) -> Outcome
    requires { standing c ≡ true }
    ensures outcome { result ≡ outcome_of c (in_room (length reply.old) (good [] (take allocation (report_bytes c)))) }
    ensures bytes { reply.new ≡ buffer_after (in_room (length reply.old) (good [] (take allocation (report_bytes c)))) reply.old }
{
    let follows = 4 + sized::pages_size(&c);
    let limit = allocation.min(4 + follows);
    if reply.len() < limit {
        return outcomes::handed_back(c, Answer::Refused(Refusal::ShortBuffer), 0);
    }
    let at = put_header(reply, limit, follows as u32, c.generation);
    put_pages(&c, reply, at, limit);
    outcomes::handed_back(c, Answer::Good, limit)
}
