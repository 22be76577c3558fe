// The units: each default LUN by itself, and each two.
ghost use Rattle.std.specs.Prelude.{◌≡◌, not, eqb};
ghost use Rattle.lists.specs.Lists.{all, pairs};
ghost use Rattle.paper.specs.Standing.{lun_formed};

// A LUN of the only form there is, by the number that its first two bytes make.
pub fn lun_formed(head: u16) -> bool
    ensures { result ≡ lun_formed head }
{
    wire::lun_form(wire::lun_of(head))
}

// "H: a LUN is 00h, nn, then six 00h; default LUNs too."
pub fn defaults_formed(luns: &[u16]) -> bool
    ensures { result ≡ all lun_formed luns.now }
{
    luns.iter().all(|lun| lun_formed(*lun))
}

// "the units' default LUNs, all different"
pub fn defaults_once(luns: &[u16]) -> bool
    ensures { result ≡ not (pairs eqb luns.now) }
{
    !lists::some_pair(luns, |a, b| *a == *b)
}
