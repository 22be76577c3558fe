// The key.
ghost use Rattle.std.specs.Prelude.{◌≡◌, not, ◌&&◌, eqb};

// "20h/03h: wrong key"; "Disabled: key ignored."
pub fn wrong_key(enabled: bool, key: u64, given: u64) -> bool
    ensures { result ≡ enabled && not (eqb given key) }
{
    enabled && given != key
}
