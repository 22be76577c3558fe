// Standard output and standard error, or what stands for them.
ghost use Rattle.std.specs.Prelude.{◌≤◌, length, take, OnOk};
ghost use Rattle.std.specs.Io.KnownBytes.{Appends};

use std::io;
use std::io::Write;

// Writes a text, or says why it cannot.
pub fn write<W: Write>(to: &mut W, text: &[u8]) -> io::Result<()>
    ensures { OnOk result (Appends (W.contents to.old) (W.contents to.new) text.now) }
{
    to.write_all(text)
}

// The first bytes of a text buffer.
pub fn write_text<W: Write>(to: &mut W, text: &[u8], size: usize) -> io::Result<()>
    requires { size ≤ length text.now }
    ensures { OnOk result (Appends (W.contents to.old) (W.contents to.new) (take size text.now)) }
{
    write(to, &text[..size])
}
