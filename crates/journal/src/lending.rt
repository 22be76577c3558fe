// A lent buffer: each byte of it A5h before the call, and what is told of it after.
ghost use Rattle.std.specs.Prelude.{◌≡◌, not, ◌++◌, ◌+◌, ◌≤◌, length};
ghost use Rattle.std.specs.List.{position};
ghost use Rattle.wire.specs.Write.{Wrote};
ghost use Rattle.paper.specs.declared.answers.Answer.TheVariants.{Good};
ghost use Rattle.journal.specs.Texts.{decimal_text, spoiled_text};
ghost use Rattle.journal.specs.Replay.{lent, is_lent, others_text, untouched_text, lent_text};

use crate::telling::Told;
use crate::{printing, telling};
use paper::answers::Answer;

// "each byte of it A5h before the call"
pub fn fill(reply: &mut [u8])
    ensures { reply.new ≡ lent (length reply.old) }
{
    reply.fill(0xa5);
}

// The place of the first byte that is not as it was lent.
fn spoiled_at(reply: &[u8]) -> Option<usize>
    ensures { result ≡ position (λ b. not (is_lent b)) reply.now }
{
    reply.iter().position(|b| *b != 0xa5)
}

fn put_spoiled(text: &mut [u8], at: usize, limit: usize, offset: usize) -> usize
    requires { at + 29 ≤ 4294967296 }
    ensures { Wrote limit at (spoiled_text ++ decimal_text offset) text.old result text.new }
{
    printing::put_numbered(text, at, limit, b" spoiled ", offset as u64)
}

// "`kept` says that every other byte of the lent buffer is still A5h."
fn put_others(text: &mut [u8], at: usize, limit: usize, n: usize, reply: &[u8]) -> usize
    requires { (n ≤ length reply.now) × (at + 29 ≤ 4294967296) }
    ensures { Wrote limit at (others_text n reply.now) text.old result text.new }
{
    match spoiled_at(&reply[n..]) {
        Some(k) => put_spoiled(text, at, limit, n + k),
        None => wire::put_bytes(text, at, limit, b" kept"),
    }
}

// "if a byte of the lent buffer is not A5h, ` spoiled OFFSET` follows"
fn put_untouched(text: &mut [u8], at: usize, limit: usize, reply: &[u8]) -> usize
    requires { at + 29 ≤ 4294967296 }
    ensures { Wrote limit at (untouched_text reply.now) text.old result text.new }
{
    match spoiled_at(reply) {
        Some(offset) => put_spoiled(text, at, limit, offset),
        None => at,
    }
}

// "N is the number of bytes delivered, in decimal, and BYTES are the first N bytes of the lent buffer"
fn put_delivered(text: &mut [u8], at: usize, limit: usize, n: usize, reply: &[u8]) -> usize
    requires { (n ≤ length reply.now) × (length reply.now ≤ 65536) × (at + 131129 ≤ 4294967296) }
    ensures { Wrote limit at (lent_text Good n reply.now) text.old result text.new }
{
    let good = wire::put_bytes(text, at, limit, b" good ");
    let count = printing::put_decimal(text, good, limit, n as u64);
    let space = wire::put(text, count, limit, b' ');
    let bytes = printing::put_bytes(text, space, limit, &reply[..n]);
    put_others(text, bytes, limit, n, reply)
}

// The answer to a call that lends a buffer: how many bytes were delivered, at the start of the buffer as it is after the call.
#[derive(Clone, Copy)]
pub struct Lent<'a> {
    pub answer: Answer,
    pub n: usize,
    pub reply: &'a [u8],
}

impl<'a> Told for Lent<'a> {
    ghost told = { λ l. lent_text l.answer l.n l.reply.now };

    ghost Fits = { λ l. (l.n ≤ length l.reply.now) × (length l.reply.now ≤ 65536) };

    ghost most = { 131129 };

    fn put(self, text: &mut [u8], at: usize, limit: usize) -> usize {
        match self.answer {
            Answer::Good => put_delivered(text, at, limit, self.n, self.reply),
            Answer::Check(k) => {
                let next = telling::put_check(text, at, limit, k);
                put_untouched(text, next, limit, self.reply)
            },
            Answer::Refused(r) => {
                let next = telling::put_refused(text, at, limit, r);
                put_untouched(text, next, limit, self.reply)
            },
        }
    }
}
