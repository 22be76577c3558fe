// Entries written one after the other.
ghost use Rattle.std.specs.Prelude.{ℕ, ◌+◌, ◌*◌, ◌≤◌, List, length};
ghost use Rattle.lists.specs.Lists.{gather};
ghost use Rattle.wire.specs.Write.{Wrote};
ghost use Rattle.report.specs.Each.{EndsBy, Fits, WritesEach};

// Writes each of some entries by a writer, which is handed the buffer, the place and the entry.
pub fn put_each<T, F: Fn(&mut [u8], usize, &T) -> usize>(
    buf: &mut [u8],
    at: usize,
    xs: &[T],
    put: F,
) -> usize
    requires { Fits F.Fn put at xs.now }
    ensures fits { (most : ℕ) → EndsBy F.Fn put most xs.now → result ≤ at + most * length xs.now }
    ensures wrote { (bytes : T → List ℕ) (limit : ℕ) → WritesEach F.Fn put limit bytes xs.now → Wrote limit at (gather bytes xs.now) buf.old result buf.new }
{
    let mut to = at;
    for x in xs {
        to = put(buf, to, x);
    }
    to
}
