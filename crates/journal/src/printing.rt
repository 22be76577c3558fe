// Numbers and bytes as text, into a lent buffer.
ghost use Rattle.std.specs.Prelude.{◌≡◌, ◌++◌, ◌+◌, ◌*◌, ◌≤◌, length};
ghost use Rattle.wire.specs.Write.{Wrote};
ghost use Rattle.journal.specs.Texts.{decimal_text, hex_char, byte_text, hex_text, bytes_text};

fn hex_char(d: u8) -> u8
    requires { d ≤ 15 }
    ensures { result ≡ hex_char d }
{
    if d < 10 { b'0' + d } else { b'a' + (d - 10) }
}

// A byte as two digits, in lower case.
pub fn put_pair(buf: &mut [u8], at: usize, limit: usize, b: u8) -> usize
    requires { at + 2 ≤ 4294967296 }
    ensures { Wrote limit at (byte_text b) buf.old result buf.new }
{
    let half = wire::put(buf, at, limit, hex_char(b / 16));
    wire::put(buf, half, limit, hex_char(b % 16))
}

// Two digits a byte.
pub fn put_hex(buf: &mut [u8], at: usize, limit: usize, src: &[u8]) -> usize
    requires { at + 2 * length src.now ≤ 4294967296 }
    ensures { Wrote limit at (hex_text src.now) buf.old result buf.new }
{
    let mut to = at;
    for b in src {
        to = put_pair(buf, to, limit, *b);
    }
    to
}

// "`-` if N is 0"
pub fn put_bytes(buf: &mut [u8], at: usize, limit: usize, src: &[u8]) -> usize
    requires { at + (1 + 2 * length src.now) ≤ 4294967296 }
    ensures { Wrote limit at (bytes_text src.now) buf.old result buf.new }
{
    if src.is_empty() {
        wire::put(buf, at, limit, b'-')
    } else {
        put_hex(buf, at, limit, src)
    }
}

// A number in decimal: the last digit behind those of the tenth.
pub fn put_decimal(buf: &mut [u8], at: usize, limit: usize, n: u64) -> usize
    requires { at + 20 ≤ 4294967296 }
    ensures { Wrote limit at (decimal_text n) buf.old result buf.new }
{
    let last = b'0' + (n % 10) as u8;
    if n < 10 {
        return wire::put(buf, at, limit, last);
    }
    let next = put_decimal(buf, at, limit, n / 10);
    wire::put(buf, next, limit, last)
}

// A word, and a number behind it.
pub fn put_numbered(buf: &mut [u8], at: usize, limit: usize, word: &[u8], n: u64) -> usize
    requires { at + (length word.now + 20) ≤ 4294967296 }
    ensures { Wrote limit at (word.now ++ decimal_text n) buf.old result buf.new }
{
    let next = wire::put_bytes(buf, at, limit, word);
    put_decimal(buf, next, limit, n)
}
