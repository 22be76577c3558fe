// A line read: its words from left to right, each against the kind that its place asks for.
ghost use Rattle.std.specs.Prelude.{◌≡◌, not, ◌||◌, eqb, ◌≤◌, List, ℕ, length, get_or, IfOk, IfErr};
ghost use Rattle.std.specs.Bool.{then_some};
ghost use Rattle.std.specs.Option.{ok_or};
ghost use Rattle.journal.specs.Words.{has_word};
ghost use Rattle.journal.specs.Statements.{expected, is_word, read_setup, read_lent, read_command, read_link, read_route, read_reach, read_statement, without_cr, read_kept, read_line};
ghost use Rattle.journal.specs.Parsed.{line_of, Says, Reads};
ghost use Rattle.journal.specs.declared.statement.Kind.TheVariants.{End};

use crate::statement::{Fault, Kind, Parsed, ReadLine};
use crate::{kinds, words};

// A word is of the kind that its place asks for, or at fault.
fn needs<T>(value: Option<T>, word: u8, expected: Kind) -> Result<T, Fault>
    ensures { result ≡ ok_or value (record { word = word; expected = expected }) }
{
    value.ok_or(Fault { word, expected })
}

// No word is left, or the next is at fault.
fn ends(s: &[u8], word: u8) -> Result<(), Fault>
    ensures { result ≡ ok_or (then_some (not (has_word s.now)) tt) (record { word = word; expected = End }) }
{
    let is_end = words::next(s).0.is_empty();
    needs(is_end.then_some(()), word, Kind::End)
}

// Whether two words are the same.
fn is_word(w: &[u8], v: &[u8]) -> bool
    ensures { result ≡ is_word w.now v.now }
{
    w == v
}

fn read_link(s: &[u8]) -> Result<Parsed, Fault>
    ensures ok { IfOk result (λ p. Says p (λ a b. read_link s.now)) }
    ensures err { IfErr result (λ f. expected f.word f.expected ≡ read_link s.now) }
{
    let (word, rest) = words::next(s);
    let i = needs(kinds::number(word), 2, Kind::Number)?;
    ends(rest, 3)?;
    Ok(Parsed::Link(i))
}

fn read_route(s: &[u8]) -> Result<Parsed, Fault>
    ensures ok { IfOk result (λ p. Says p (λ a b. read_route s.now)) }
    ensures err { IfErr result (λ f. expected f.word f.expected ≡ read_route s.now) }
{
    let (word, rest) = words::next(s);
    let i = needs(kinds::number(word), 2, Kind::Number)?;
    let (word, rest) = words::next(rest);
    let lun = needs(kinds::digits_word(word), 3, Kind::Digits)?;
    ends(rest, 4)?;
    Ok(Parsed::Route(i, lun))
}

// Stays: like read_link but for the kind and the statement; one function that takes both is no shorter than the two.
fn read_reach(s: &[u8]) -> Result<Parsed, Fault>
    ensures ok { IfOk result (λ p. Says p (λ a b. read_reach s.now)) }
    ensures err { IfErr result (λ f. expected f.word f.expected ≡ read_reach s.now) }
{
    let (word, rest) = words::next(s);
    let n = needs(kinds::buffer(word), 2, Kind::Buffer)?;
    ends(rest, 3)?;
    Ok(Parsed::Reach(n))
}

fn read_setup(s: &[u8], first: &mut [u8], second: &mut [u8]) -> Result<ReadLine, Fault>
    requires { (length s.now ≤ 262144) × (131072 ≤ length first.old) × (131072 ≤ length second.old) }
    ensures ok { IfOk result (λ r. Reads r first.new second.new (read_setup s.now)) }
    ensures err { IfErr result (λ f. expected f.word f.expected ≡ read_setup s.now) }
{
    let (ids, rest) = words::next(s);
    needs(kinds::is_bytes(ids).then_some(()), 2, Kind::Bytes)?;
    let (luns, rest) = words::next(rest);
    needs(kinds::is_bytes(luns).then_some(()), 3, Kind::Bytes)?;
    ends(rest, 4)?;
    Ok(ReadLine {
        parsed: Parsed::Setup,
        first: kinds::put_bytes_of(ids, first),
        second: kinds::put_bytes_of(luns, second),
    })
}

// RANDOM and BUFFER, behind the list.
fn read_lent(i: u64, s: &[u8]) -> Result<Parsed, Fault>
    ensures ok { IfOk result (λ p. Says p (λ a b. read_lent i a b s.now)) }
    ensures err { IfErr result (λ f. (a b : List ℕ) → expected f.word f.expected ≡ read_lent i a b s.now) }
{
    let (word, rest) = words::next(s);
    let random = needs(kinds::digits_word(word), 5, Kind::Digits)?;
    let (word, rest) = words::next(rest);
    let n = needs(kinds::buffer(word), 6, Kind::Buffer)?;
    ends(rest, 7)?;
    Ok(Parsed::Command(i, random, n))
}

fn read_command(s: &[u8], first: &mut [u8], second: &mut [u8]) -> Result<ReadLine, Fault>
    requires { (length s.now ≤ 262144) × (131072 ≤ length first.old) × (131072 ≤ length second.old) }
    ensures ok { IfOk result (λ r. Reads r first.new second.new (read_command s.now)) }
    ensures err { IfErr result (λ f. expected f.word f.expected ≡ read_command s.now) }
{
    let (word, rest) = words::next(s);
    let i = needs(kinds::number(word), 2, Kind::Number)?;
    let (cdb, rest) = words::next(rest);
    needs(kinds::is_bytes(cdb).then_some(()), 3, Kind::Bytes)?;
    let (list, rest) = words::next(rest);
    needs(kinds::is_list(list).then_some(()), 4, Kind::ByteList)?;
    let parsed = read_lent(i, rest)?;
    Ok(ReadLine {
        parsed,
        first: kinds::put_bytes_of(cdb, first),
        second: kinds::put_bytes_of(list, second),
    })
}

// A statement by its first word.
fn read_statement(s: &[u8], first: &mut [u8], second: &mut [u8]) -> Result<ReadLine, Fault>
    requires { (length s.now ≤ 262144) × (131072 ≤ length first.old) × (131072 ≤ length second.old) }
    ensures ok { IfOk result (λ r. Reads r first.new second.new (read_statement s.now)) }
    ensures err { IfErr result (λ f. expected f.word f.expected ≡ read_statement s.now) }
{
    let (word, rest) = words::next(s);
    if is_word(word, b"setup") {
        read_setup(rest, first, second)
    } else if is_word(word, b"command") {
        read_command(rest, first, second)
    } else if is_word(word, b"link") {
        Ok(ReadLine::from(read_link(rest)?))
    } else if is_word(word, b"route") {
        Ok(ReadLine::from(read_route(rest)?))
    } else if is_word(word, b"reach") {
        Ok(ReadLine::from(read_reach(rest)?))
    } else {
        Err(Fault {
            word: 1,
            expected: Kind::Keyword,
        })
    }
}

// "One CR (0Dh) at the end of the line is dropped"
fn without_cr(s: &[u8]) -> &[u8]
    ensures { result.now ≡ without_cr s.now }
{
    match s {
        [left @ .., b'\r'] => left,
        _ => s,
    }
}

// "If nothing is left, or the first byte is `#`, the line is skipped"
fn is_skipped(s: &[u8]) -> bool
    ensures { result ≡ (eqb (length s.now) 0 || eqb (get_or s.now 0 0) 0x23) }
{
    s.is_empty() || s[0] == b'#'
}

// What is left of a line: skipped, or a statement.
fn read_kept(s: &[u8], first: &mut [u8], second: &mut [u8]) -> Result<ReadLine, Fault>
    requires { (length s.now ≤ 262144) × (131072 ≤ length first.old) × (131072 ≤ length second.old) }
    ensures ok { IfOk result (λ r. Reads r first.new second.new (read_kept s.now)) }
    ensures err { IfErr result (λ f. expected f.word f.expected ≡ read_kept s.now) }
{
    if is_skipped(s) {
        return Ok(ReadLine::from(Parsed::Skipped));
    }
    read_statement(s, first, second)
}

// A line without its LF. The byte strings of its statement go into the lent buffers, which have room for all that a line holds.
pub fn read_line(line: &[u8], first: &mut [u8], second: &mut [u8]) -> ReadLine
    requires { (131072 ≤ length first.old) × (131072 ≤ length second.old) }
    ensures { Reads result first.new second.new (read_line line.now) }
{
    if 262144 < line.len() {
        return ReadLine::from(Parsed::TooLong);
    }
    match read_kept(without_cr(line), first, second) {
        Ok(read) => read,
        Err(fault) => ReadLine::from(fault),
    }
}
