// Parts of the pages of REPORT ACL.
ghost use Rattle.std.specs.Prelude.{◌≡◌, ◌+◌, ◌≤◌, get_or};
ghost use Rattle.wire.specs.Write.{Wrote};
ghost use Rattle.paper.specs.Sizes.{id_size};
ghost use Rattle.paper.specs.Reports.{head_bytes, luacd_bytes, identifier_bytes, token_bytes};

use paper::state::{Ace, Luacd, Token};
use tables::identifiers;

// The default LUN of a unit, 0 past the last unit.
fn default_lun(luns: &[u16], unit: usize) -> u16
    ensures { result ≡ get_or luns.now unit 0 }
{
    luns.get(unit).copied().unwrap_or(0)
}

// A page's head: its code, a reserved byte, and the number of bytes that follow.
pub fn put_page_head(buf: &mut [u8], at: usize, limit: usize, code: u8, n: u16) -> usize
    requires { at + 4 ≤ 4294967296 }
    ensures { Wrote limit at (head_bytes code n) buf.old result buf.new }
{
    let a = wire::put(buf, at, limit, code);
    let b = wire::put(buf, a, limit, 0);
    wire::put_be16(buf, b, limit, n)
}

// A reserved byte, the identifier's type, its length and the identifier.
pub fn put_identifier(buf: &mut [u8], at: usize, limit: usize, a: &Ace) -> usize
    requires { at + 28 ≤ 4294967296 }
    ensures { Wrote limit at (identifier_bytes id_size a.now) buf.old result buf.new }
{
    let bytes = identifiers::kept_id(a.kind, &a.id);
    let b = wire::put(buf, at, limit, 0);
    let c = wire::put(buf, b, limit, u8::from(a.kind));
    let d = wire::put_be16(buf, c, limit, 24);
    wire::put_bytes(buf, d, limit, &bytes)
}

// A LUACD descriptor: access mode 00h and three reserved bytes, LUN, default LUN.
pub fn put_luacd(buf: &mut [u8], at: usize, limit: usize, luns: &[u16], p: &Luacd) -> usize
    requires { at + 20 ≤ 4294967296 }
    ensures { Wrote limit at (luacd_bytes luns.now p.now) buf.old result buf.new }
{
    let a = wire::put_zeros(buf, at, limit, 4);
    let b = wire::put_lun(buf, a, limit, p.lun);
    wire::put_lun(buf, b, limit, default_lun(luns, p.unit as usize))
}

// A proxy token descriptor: four reserved bytes, token, default LUN.
pub fn put_token(buf: &mut [u8], at: usize, limit: usize, luns: &[u16], t: &Token) -> usize
    requires { at + 20 ≤ 4294967296 }
    ensures { Wrote limit at (token_bytes luns.now t.now) buf.old result buf.new }
{
    let a = wire::put_zeros(buf, at, limit, 4);
    let b = wire::put_be64(buf, a, limit, t.number);
    wire::put_lun(buf, b, limit, default_lun(luns, t.unit as usize))
}
