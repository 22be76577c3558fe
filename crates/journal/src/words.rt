// The words of a line.
ghost use Rattle.std.specs.Prelude.{◌≡◌, not, ◌≤◌, length, take, drop};
ghost use Rattle.std.specs.List.{take_while};
ghost use Rattle.journal.specs.Words.{is_space, skip_spaces, word_at, after_word, next_word, rest_of};

// The run of spaces at the start.
fn spaces_run(s: &[u8]) -> usize
    ensures { result ≡ length (take_while is_space s.now) }
{
    s.iter().take_while(|b| **b == b' ').count()
}

// The run of other bytes at the start.
fn word_run(s: &[u8]) -> usize
    ensures { result ≡ length (take_while (λ b. not (is_space b)) s.now) }
{
    s.iter().take_while(|b| **b != b' ').count()
}

// How many spaces stand at the start.
#[tactic(auto, using(crate::proofs::Runs::spaces_fit, crate::proofs::Runs::spaces_passed))]
pub fn spaces(s: &[u8]) -> usize
    ensures { (result ≤ length s.now) × (drop result s.now ≡ skip_spaces s.now) }
{
    spaces_run(s)
}

// How many bytes stand before the first space.
#[tactic(auto, using(crate::proofs::Runs::word_fits, crate::proofs::Runs::word_taken, crate::proofs::Runs::word_passed))]
pub fn word_size(s: &[u8]) -> usize
    ensures { (result ≤ length s.now) × (take result s.now ≡ word_at s.now) × (drop result s.now ≡ after_word s.now) }
{
    word_run(s)
}

// The next word, which has no bytes where there is none, and what is left behind it.
pub fn next(s: &[u8]) -> (&[u8], &[u8])
    ensures word { result.0.now ≡ next_word s.now }
    ensures rest { result.1.now ≡ rest_of s.now }
{
    let start = &s[spaces(s)..];
    start.split_at(word_size(start))
}
