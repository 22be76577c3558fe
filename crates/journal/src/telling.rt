// The words of answers, into a lent buffer: what is answered, and what is told of a line that is no statement.
ghost use Rattle.std.specs.Prelude.{ℕ, List, ◌++◌, ◌+◌, ◌≤◌, ⊤};
ghost use Rattle.wire.specs.Write.{Wrote};
ghost use Rattle.paper.specs.declared.answers.Answer.TheVariants.{Check, Refused};
ghost use Rattle.paper.specs.declared.answers.Opened.TheVariants.{Opens};
ghost use Rattle.journal.specs.Texts.{decimal_text, line_text, word_text, colon_text, kind_text};
ghost use Rattle.journal.specs.Replay.{checked_text, plain_text, opened_text};

use crate::printing;
use crate::statement::Kind;
use paper::answers;
use paper::answers::{Answer, Condition, Opened, Refusal};

// What is told behind a statement's word.
pub trait Told {
    ghost told: { Self → List ℕ };

    // what is asked of it, and the most bytes that it takes
    ghost Fits: { Self → Type 0 };

    ghost most: { ℕ };

    fn put(self, text: &mut [u8], at: usize, limit: usize) -> usize
        requires fits { Fits self }
        requires room { at + most ≤ 4294967296 }
        ensures { Wrote limit at (told self) text.old result text.new };
}

// "SENSE is the 18 bytes of sense data."
pub fn put_check(text: &mut [u8], at: usize, limit: usize, k: Condition) -> usize
    requires { at + 43 ≤ 4294967296 }
    ensures { Wrote limit at (checked_text (Check k)) text.old result text.new }
{
    let next = wire::put_bytes(text, at, limit, b" check ");
    printing::put_hex(text, next, limit, &answers::sense_of(k))
}

// "R is the number of the refusal"
pub fn put_refused(text: &mut [u8], at: usize, limit: usize, n: Refusal) -> usize
    requires { at + 29 ≤ 4294967296 }
    ensures { Wrote limit at (checked_text (Refused n)) text.old result text.new }
{
    printing::put_numbered(text, at, limit, b" refused ", answers::number_of(n) as u64)
}

// The answer to a call that lends no buffer.
impl Told for Answer {
    ghost told = { plain_text };

    ghost Fits = { λ a. ⊤ };

    ghost most = { 43 };

    fn put(self, text: &mut [u8], at: usize, limit: usize) -> usize {
        match self {
            Answer::Good => wire::put_bytes(text, at, limit, b" good"),
            Answer::Check(k) => put_check(text, at, limit, k),
            Answer::Refused(n) => put_refused(text, at, limit, n),
        }
    }
}

// "U that of the unit, in decimal"
fn put_unit(text: &mut [u8], at: usize, limit: usize, unit: u8) -> usize
    requires { at + 26 ≤ 4294967296 }
    ensures { Wrote limit at (opened_text (Opens unit)) text.old result text.new }
{
    printing::put_numbered(text, at, limit, b" unit ", unit as u64)
}

// The answer to the route question.
impl Told for Opened {
    ghost told = { opened_text };

    ghost Fits = { λ o. ⊤ };

    ghost most = { 43 };

    fn put(self, text: &mut [u8], at: usize, limit: usize) -> usize {
        match self {
            Opened::Opens(unit) => put_unit(text, at, limit, unit),
            Opened::Closed(k) => put_check(text, at, limit, k),
            Opened::Barred(n) => put_refused(text, at, limit, n),
        }
    }
}

// "line N"
pub fn put_line(text: &mut [u8], at: usize, limit: usize, number: u64) -> usize
    requires { at + 25 ≤ 4294967296 }
    ensures { Wrote limit at (line_text ++ decimal_text number) text.old result text.new }
{
    printing::put_numbered(text, at, limit, b"line ", number)
}

// The word at fault, and what was expected there.
pub fn put_expected(text: &mut [u8], at: usize, limit: usize, which: u8, kind: Kind) -> usize
    requires { at + 81 ≤ 4294967296 }
    ensures { Wrote limit at (word_text ++ (decimal_text which ++ (colon_text ++ kind_text kind))) text.old result text.new }
{
    let word = wire::put_bytes(text, at, limit, b": word ");
    let number = printing::put_decimal(text, word, limit, which as u64);
    let colon = wire::put_bytes(text, number, limit, b": ");
    wire::put_bytes(text, colon, limit, kind.message())
}
