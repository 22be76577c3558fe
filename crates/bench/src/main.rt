// One standing rule or one call on a state of the shape that the input names, so many times over, for its cost to be counted.
// The input: eight bytes for the shape, a letter for the rule or the call, the initiator, as eight bytes each the random number and the LUN, and as four how many times; then the CDB, and then the parameter bytes.
#![tactic(auto)]

ghost use Rattle.std.specs.Prelude.{length};
ghost use Rattle.std.specs.Io.{ReadsAtMost};

mod calls;
mod said;
mod states;

use calls::Operands;
use paper::state::Coordinator;
use standing::rules;
use std::io;
use std::io::Read;

// Room for the longest list of one page, a header and a page of 3,275 descriptors, and for the longest reply.
const LIST_SIZE: usize = 65560;

const REPLY_SIZE: usize = 65536;

// The answer of the rule that a letter names; another letter names none.
fn asked(c: &Coordinator, rule: u8) -> bool {
    if 16 < c.initiators.count {
        return false;
    }
    match rule {
        b'a' => rules::setup_kept(c),
        b'b' => rules::within_sizes(c),
        b'c' => rules::identifiers_once(c),
        b'd' => rules::present_once(c),
        b'e' => rules::luacds_once(c),
        b'f' => rules::lists_filled(c),
        b'g' => rules::well_formed(c),
        b'h' => rules::tokens_nonzero(c),
        b'i' => rules::references_there(c),
        b'j' => rules::no_clash(c),
        b'k' => rules::generation_right(c),
        b'l' => rules::empty_while_off(c),
        b'm' => rules::standing(c),
        _ => true,
    }
}

// The last answer of a rule that is asked so many times.
fn asked_often(c: &Coordinator, rule: u8, times: usize) -> bool {
    let mut kept = true;
    for _ in 0..times {
        kept = asked(c, rule);
    }
    kept
}

// Reads until the room is full or the input ends: how many bytes.
fn read_full<I: Read>(input: &mut I, room: &mut [u8]) -> io::Result<usize>
    ensures { ReadsAtMost result room.new }
{
    let mut done = 0;
    while done < room.len() {
        let n = input.read(&mut room[done..])?;
        if n == 0 {
            break;
        }
        done += n;
    }
    Ok(done)
}

// Capitals name calls, other letters rules.
fn answered(
    rt: &impl Print,
    c: &Coordinator,
    head: &[u8; 30],
    cdb: &[u8],
    list: &[u8],
) -> io::Result<()> {
    let letter = head[8];
    let times = wire::be32(head, 26) as usize;
    let mut reply = [0; REPLY_SIZE];
    if !letter.is_ascii_uppercase() {
        return said::say_kept(rt, asked_often(c, letter, times));
    }
    let x = Operands {
        times,
        initiator: wire::byte(head, 9) as usize,
        random: wire::be64(head, 10),
        lun: wire::be64(head, 18),
    };
    said::say_answer(rt, calls::repeated(c, letter, x, cdb, list, &mut reply))
}

fn measured<I: Read>(rt: &impl Print, input: &mut I, head: &[u8; 30]) -> io::Result<()> {
    let mut cdb = [0; 16];
    let mut list = [0; LIST_SIZE];
    read_full(input, &mut cdb)?;
    let n = read_full(input, &mut list)?;
    let c = states::state_of(states::shape_in(head));
    answered(rt, &c, head, &cdb, &list[..n])
}

fn main(rt: HostRuntime) -> io::Result<()> {
    let mut input = rt.stdin();
    let mut head = [0; 30];
    let n = read_full(&mut input, &mut head)?;
    if n == 30 {
        measured(&rt, &mut input, &head)
    } else {
        println!(rt; "bench: the input names no call")
    }
}
