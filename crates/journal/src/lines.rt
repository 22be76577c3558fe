// Lines, as their bytes come in: a line may end in a later chunk than it began in.
ghost use Rattle.std.specs.Prelude.{◌≡◌, ◌≤◌, length, take};
ghost use Rattle.std.specs.List.{position};
ghost use Rattle.journal.specs.Lines.{is_end};
ghost use Rattle.journal.specs.TakenIn.{TookIn};

// What was taken from a chunk: how much of the line there is now, how many bytes were read, and whether the line is whole.
// Stays: the clause of take_in, a public function, names used, eaten and ended.
#[derive(Clone, Copy)]
pub struct Taken {
    pub used: usize,
    pub eaten: usize,
    pub ended: bool,
}

// The place of the end of the line, if it is in the chunk.
fn end_in(chunk: &[u8]) -> Option<usize>
    ensures { result ≡ position is_end chunk.now }
{
    chunk.iter().position(|b| *b == b'\n')
}

// Takes bytes into the line up to its end, or all of the chunk. Of a line that is too long the first 262,145 bytes are kept: no statement is that long.
pub fn take_in(line: &mut [u8], used: usize, chunk: &[u8]) -> Taken
    requires { (262145 ≤ length line.old) × (used ≤ 262145) }
    ensures { TookIn (take used line.old) chunk.now result.ended result.eaten (take result.used line.new) result.used }
{
    let end = end_in(chunk);
    let bytes = &chunk[..end.unwrap_or(chunk.len())];
    let ended = end.is_some();
    let kept = bytes.len().min(262145 - used);
    line[used..used + kept].copy_from_slice(&bytes[..kept]);
    Taken {
        used: used + kept,
        eaten: bytes.len() + ended as usize,
        ended,
    }
}
