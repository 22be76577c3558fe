// How to use the program.
use showing::out;
use std::io;
use std::io::Write;

pub fn tell<W: Write>(to: &mut W) -> io::Result<()> {
    out::write(
        to,
        b"oberkosz: who could open which unit of a shared disk shelf, told from a journal on standard input\n",
    )?;
    out::write(to, b"\n")?;
    out::write(
        to,
        b"  oberkosz replay < JOURNAL                        the answer to each statement\n",
    )?;
    out::write(
        to,
        b"  oberkosz audit UNIT [FROM TO] [tsv] < JOURNAL    who could open the unit, when, and on what ground\n",
    )?;
    out::write(
        to,
        b"  oberkosz acl < JOURNAL                           the state after the last line, in words\n",
    )?;
    out::write(
        to,
        b"  oberkosz help                                    this page\n",
    )?;
    out::write(to, b"\n")?;
    out::write(
        to,
        b"UNIT is a number from 0 to 31; FROM and TO are line numbers of the journal.\n",
    )?;
    out::write(
        to,
        b"For example: oberkosz audit 2 34 50 < examples/lettuce-house.journal\n",
    )
}

// What is wrong with the words, and how to use the program.
pub fn wrong<W: Write>(to: &mut W, message: &[u8]) -> io::Result<()> {
    out::write(to, b"oberkosz: ")?;
    out::write(to, message)?;
    out::write(to, b"\n\n")?;
    tell(to)
}
