// Words as bytes and numbers.
ghost use Rattle.std.specs.Prelude.{◌≡◌, true, ◌-◌, ◌≤◌, ◌<◌, length, take, get_or, ltb};
ghost use Rattle.std.specs.Bool.{then_some};
ghost use Rattle.lists.specs.Lists.{all};
ghost use Rattle.journal.specs.Kinds.{is_digit, hex_value, is_hex, is_dash, is_bytes, hex_bytes, bytes_of, is_list, is_number, decimal_of, is_buffer, is_digits, digits_of};

fn is_digit(b: u8) -> bool
    ensures { result ≡ is_digit b }
{
    b.is_ascii_digit()
}

// "hex digits .. in either case"
#[tactic(auto, using(crate::proofs::Digits::hex_cases))]
fn is_hex(b: u8) -> bool
    ensures { result ≡ is_hex b }
{
    b.is_ascii_hexdigit()
}

// The value of a hex digit in either case.
fn hex_value(b: u8) -> u8
    requires { is_hex b ≡ true }
    ensures { (result ≡ hex_value b) × (result < 16) }
{
    match b {
        b'0'..=b'9' => b - b'0',
        b'a'..=b'f' => b - b'a' + 10,
        _ => b - b'A' + 10,
    }
}

fn all_hex(w: &[u8]) -> bool
    ensures { result ≡ all is_hex w.now }
{
    w.iter().all(|b| is_hex(*b))
}

fn is_dash(w: &[u8]) -> bool
    ensures { result ≡ is_dash w.now }
{
    matches!(w, b"-")
}

// "an even number of hex digits .. at least one byte; or `-`"
#[tactic(auto, unfolding(crate::specs::Kinds::is_bytes))]
pub fn is_bytes(w: &[u8]) -> bool
    ensures { result ≡ is_bytes w.now }
{
    is_dash(w) || (!w.is_empty() && w.len() % 2 == 0 && all_hex(w))
}

// How many bytes a word of bytes stands for.
#[tactic(auto, using(crate::proofs::Digits::hex_length), unfolding(crate::specs::Kinds::bytes_of))]
pub fn bytes_size(w: &[u8]) -> usize
    requires { is_bytes w.now ≡ true }
    ensures { result ≡ length (bytes_of w.now) }
{
    if is_dash(w) { 0 } else { w.len() / 2 }
}

// "bytes, at most 65,536 of them"
#[tactic(auto, unfolding(crate::specs::Kinds::is_list))]
pub fn is_list(w: &[u8]) -> bool
    ensures { result ≡ is_list w.now }
{
    is_bytes(w) && bytes_size(w) <= 65536
}

// The byte that the k-th pair of digits makes.
fn pair_at(w: &[u8], k: usize) -> u8
    requires { (all is_hex w.now ≡ true) × (k < length (hex_bytes w.now)) }
    ensures { result ≡ get_or (hex_bytes w.now) k 0 }
{
    hex_value(w[2 * k]) * 16 + hex_value(w[2 * k + 1])
}

// The bytes that pairs of digits make, at the start of a buffer that has room for them.
fn put_pairs(w: &[u8], to: &mut [u8]) -> usize
    requires { (all is_hex w.now ≡ true) × (length (hex_bytes w.now) ≤ length to.old) }
    ensures { (result ≡ length (hex_bytes w.now)) × (take result to.new ≡ hex_bytes w.now) }
{
    let n = w.len() / 2;
    for k in 0..n {
        to[k] = pair_at(w, k);
    }
    n
}

// The bytes that a word stands for, at the start of a buffer that has room for them.
#[tactic(auto, using(crate::proofs::Digits::bytes_hex), unfolding(crate::specs::Kinds::bytes_of))]
pub fn put_bytes_of(w: &[u8], to: &mut [u8]) -> usize
    requires { (is_bytes w.now ≡ true) × (length (bytes_of w.now) ≤ length to.old) }
    ensures { (result ≡ length (bytes_of w.now)) × (take result to.new ≡ bytes_of w.now) }
{
    if is_dash(w) { 0 } else { put_pairs(w, to) }
}

fn all_digits(w: &[u8]) -> bool
    ensures { result ≡ all is_digit w.now }
{
    w.iter().all(|b| is_digit(*b))
}

fn digit_value(b: u8) -> u64
    requires { is_digit b ≡ true }
    ensures { (result ≡ b - 0x30) × (result ≤ 9) }
{
    (b - b'0') as u64
}

// The value of digits, if it is below 2^64. More digits never make it less, so the first that is too many settles it.
fn value_of(w: &[u8]) -> Option<u64>
    requires { all is_digit w.now ≡ true }
    ensures { result ≡ then_some (ltb (decimal_of w.now) 18446744073709551616) (decimal_of w.now) }
{
    let mut value: u64 = 0;
    for b in w {
        value = value.checked_mul(10)?.checked_add(digit_value(*b))?;
    }
    Some(value)
}

// "one or more of the digits 0 to 9, no sign, with a value below" 2^64
#[tactic(auto, unfolding(crate::specs::Kinds::is_number))]
pub fn number(w: &[u8]) -> Option<u64>
    ensures { result ≡ then_some (is_number w.now) (decimal_of w.now) }
{
    if w.is_empty() || !all_digits(w) {
        return None;
    }
    value_of(w)
}

// "a number up to 65,536"
#[tactic(auto, unfolding(crate::specs::Kinds::is_buffer))]
pub fn buffer(w: &[u8]) -> Option<usize>
    ensures { result ≡ then_some (is_buffer w.now) (decimal_of w.now) }
{
    let n = number(w)?;
    (n <= 65536).then_some(n as usize)
}

// "exactly 16 hex digits"
#[tactic(auto, unfolding(crate::specs::Kinds::is_digits))]
pub fn is_digits(w: &[u8]) -> bool
    ensures { result ≡ is_digits w.now }
{
    w.len() == 16 && all_hex(w)
}

// The number that 16 hex digits make.
#[tactic(auto, using(crate::proofs::Digits::be_std, crate::proofs::Digits::digits_given, crate::proofs::Digits::digits_read, crate::proofs::Digits::hex_length))]
pub fn digits(w: &[u8]) -> u64
    requires { is_digits w.now ≡ true }
    ensures { result ≡ digits_of w.now }
{
    let mut bytes = [0; 8];
    put_pairs(w, &mut bytes);
    u64::from_be_bytes(bytes)
}

// The number that a word of 16 hex digits makes.
pub fn digits_word(w: &[u8]) -> Option<u64>
    ensures { result ≡ then_some (is_digits w.now) (digits_of w.now) }
{
    is_digits(w).then(|| digits(w))
}
