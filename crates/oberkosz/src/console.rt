// Where a run writes what it tells, and what failed of it.
ghost use Rattle.std.specs.Prelude.{◌≡◌, true, false, is_ok, OnOk, IfErr, IsSome, IsSomeAnd};
ghost use Rattle.std.specs.Io.KnownBytes.{Appends};
ghost use Rattle.oberkosz.specs.declared.console.Failure.TheVariants.{Writing};

use showing::out;
use std::io;
use std::io::Write;

// What an input or an output failed at.
#[derive(Clone, Copy)]
pub enum Failure {
    Reading(io::Error),
    Writing(io::Error),
}

// Standard output and standard error, or what stands for them, and the last failure.
#[derive(Drop)]
pub struct Console<O: Write, E: Write> {
    pub output: O,
    pub errors: E,
    pub failure: Option<Failure>,
}

// Keeps what failed, to be told at the end; whether nothing did.
// Stays: after a failed write a line's grounds are still followed, and the last failure is told at the end, so nothing returns early.
pub fn note<O: Write, E: Write>(console: &mut Console<O, E>, outcome: io::Result<()>) -> bool
    ensures good { result ≡ is_ok outcome }
    ensures same { OnOk outcome (console.new ≡ console.old) }
    ensures failed { IfErr outcome (λ e. IsSomeAnd console.new.failure (λ f. f ≡ Writing e)) }
    ensures streams { (console.new.output ≡ console.old.output) × (console.new.errors ≡ console.old.errors) }
{
    match outcome {
        Ok(()) => true,
        Err(error) => {
            console.failure = Some(Failure::Writing(error));
            false
        }
    }
}

// Writes an answer; whether it was written.
pub fn answer<O: Write, E: Write>(console: &mut Console<O, E>, text: &[u8]) -> bool
    ensures written { result ≡ true → Appends (O.contents console.old.output) (O.contents console.new.output) text.now }
    ensures failed { result ≡ false → IsSome console.new.failure }
    ensures good { result ≡ true → console.new.failure ≡ console.old.failure }
    ensures other { console.new.errors ≡ console.old.errors }
{
    let outcome = out::write(&mut console.output, text);
    note(console, outcome)
}

// Writes what is wrong; whether it was written.
pub fn warn<O: Write, E: Write>(console: &mut Console<O, E>, text: &[u8]) -> bool
    ensures written { result ≡ true → Appends (E.contents console.old.errors) (E.contents console.new.errors) text.now }
    ensures failed { result ≡ false → IsSome console.new.failure }
    ensures good { result ≡ true → console.new.failure ≡ console.old.failure }
    ensures other { console.new.output ≡ console.old.output }
{
    let outcome = out::write(&mut console.errors, text);
    note(console, outcome)
}

// The system's words for an error, without its number.
fn reason(words: &str) -> &str {
    match words.split_once(" (os error ") {
        Some((reason, _)) => reason,
        None => words,
    }
}

// Says on standard error what failed, and why. Where whoever read the output has closed it, nothing is left to say.
pub fn tell(rt: &(impl Eprint + AllocGlobal), failure: Failure) -> io::Result<()> {
    let (what, error) = match failure {
        Failure::Reading(error) => ("read", error),
        Failure::Writing(error) => ("write", error),
    };
    if error.kind() == io::ErrorKind::BrokenPipe {
        return Ok(());
    }
    match format!(in rt.alloc(); "{error}") {
        Ok(words) => {
            let why = reason(words.as_str());
            eprintln!(rt; "oberkosz: cannot {what}: {why}")
        }
        Err(_) => eprintln!(rt; "oberkosz: cannot {what}"),
    }
}
