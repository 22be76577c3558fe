// Bytes on the wire: numbers read from and written into lent buffers, LUNs, runs of bytes compared.
#![tactic(auto)]

ghost use Rattle.std.specs.Prelude.{ℕ, ◌≡◌, [], ◌∷◌, ◌+◌, ◌<◌, ◌≤◌, length, drop, get_or, replicate};
ghost use Rattle.lists.specs.Bytes.{be, be_bytes, same_bytes, less_bytes};
ghost use Rattle.wire.specs.Lun.{lun_of, head_of, lun_form};
ghost use Rattle.wire.specs.Write.{Wrote};

use std::array;

// The byte at a place, 0 past the end.
pub fn byte(s: &[u8], at: usize) -> u8
    ensures { result ≡ get_or s.now at 0 }
{
    s.get(at).copied().unwrap_or(0)
}

// What stands from a place on, which is nothing past the end.
fn rest_of(s: &[u8], at: usize) -> &[u8]
    ensures { result.now ≡ drop at s.now }
{
    s.get(at..).unwrap_or(&[])
}

// The N bytes from a place on; a byte past the end counts as 0.
fn bytes_at<const N: usize>(s: &[u8], at: usize) -> [u8; N]
    ensures { (k : ℕ) → k < N → get_or result k 0 ≡ get_or (drop at s.now) k 0 }
{
    let rest = rest_of(s, at);
    array::from_fn(|k| byte(rest, k))
}

// The number that the bytes from a place on make, the first the most significant; a byte past the end counts as 0.
pub fn be16(s: &[u8], at: usize) -> u16
    ensures { result ≡ be 2 s.now at }
{
    u16::from_be_bytes(bytes_at(s, at))
}

pub fn be32(s: &[u8], at: usize) -> u32
    ensures { result ≡ be 4 s.now at }
{
    u32::from_be_bytes(bytes_at(s, at))
}

pub fn be64(s: &[u8], at: usize) -> u64
    ensures { result ≡ be 8 s.now at }
{
    u64::from_be_bytes(bytes_at(s, at))
}

// A LUN of the only form there is: 00h, nn, then six 00h.
pub fn lun_form(l: u64) -> bool
    ensures { result ≡ lun_form l }
{
    l % 281474976710656 == 0 && l / 281474976710656 < 256
}

// The number that the first two bytes of a LUN make.
pub fn lun_head(l: u64) -> u16
    ensures { result ≡ head_of l }
{
    (l / 281474976710656) as u16
}

// The LUN whose first two bytes make this number, the other six being 00h.
pub fn lun_of(h: u16) -> u64
    ensures { result ≡ lun_of h }
{
    u64::from(h) * 281474976710656
}

// Whether the first n bytes of one run are less than another's, the first byte foremost.
pub fn less(a: &[u8], b: &[u8], n: usize) -> bool
    ensures { result ≡ less_bytes n a.now b.now }
{
    for i in 0..n {
        let x = byte(a, i);
        let y = byte(b, i);
        if x != y {
            return x < y;
        }
    }
    false
}

// Whether two runs agree in their first n bytes. Where one is shorter, a byte past its end counts as 0.
pub fn same(a: &[u8], b: &[u8], n: usize) -> bool
    ensures { result ≡ same_bytes n a.now b.now }
{
    if n <= a.len() && n <= b.len() {
        a.starts_with(&b[..n])
    } else {
        (0..n).all(|k| byte(a, k) == byte(b, k))
    }
}

// Writes b at a place, if that is below the limit and in the buffer. Returns the next place in any case.
pub fn put(buf: &mut [u8], at: usize, limit: usize, b: u8) -> usize
    requires { at + 1 ≤ 4294967296 }
    ensures { Wrote limit at (b ∷ []) buf.old result buf.new }
{
    if at < limit && at < buf.len() {
        buf[at] = b;
    }
    at + 1
}

pub fn put_be16(buf: &mut [u8], at: usize, limit: usize, x: u16) -> usize
    requires { at + 2 ≤ 4294967296 }
    ensures { Wrote limit at (be_bytes 2 x) buf.old result buf.new }
{
    put_bytes(buf, at, limit, &x.to_be_bytes())
}

pub fn put_be32(buf: &mut [u8], at: usize, limit: usize, x: u32) -> usize
    requires { at + 4 ≤ 4294967296 }
    ensures { Wrote limit at (be_bytes 4 x) buf.old result buf.new }
{
    put_bytes(buf, at, limit, &x.to_be_bytes())
}

pub fn put_be64(buf: &mut [u8], at: usize, limit: usize, x: u64) -> usize
    requires { at + 8 ≤ 4294967296 }
    ensures { Wrote limit at (be_bytes 8 x) buf.old result buf.new }
{
    put_bytes(buf, at, limit, &x.to_be_bytes())
}

// Writes the LUN whose first two bytes make h.
pub fn put_lun(buf: &mut [u8], at: usize, limit: usize, h: u16) -> usize
    requires { at + 8 ≤ 4294967296 }
    ensures { Wrote limit at (be_bytes 8 (lun_of h)) buf.old result buf.new }
{
    put_be64(buf, at, limit, lun_of(h))
}

// Copies all of src into the buffer from a place on, as far as the limit and the buffer allow.
pub fn put_bytes(buf: &mut [u8], at: usize, limit: usize, src: &[u8]) -> usize
    requires { at + length src.now ≤ 4294967296 }
    ensures { Wrote limit at src.now buf.old result buf.new }
{
    let next = at + src.len();
    let end = limit.min(buf.len());
    if next <= end {
        buf[at..next].copy_from_slice(src);
    } else if at < end {
        buf[at..end].copy_from_slice(&src[..end - at]);
    }
    next
}

pub fn put_zeros(buf: &mut [u8], at: usize, limit: usize, n: usize) -> usize
    requires { at + n ≤ 4294967296 }
    ensures { Wrote limit at (replicate n 0) buf.old result buf.new }
{
    let next = at + n;
    let end = limit.min(buf.len());
    if next <= end {
        buf[at..next].fill(0);
    } else if at < end {
        buf[at..end].fill(0);
    }
    next
}
