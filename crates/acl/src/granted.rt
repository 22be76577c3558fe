// The ACEs, AccessIDs first and by identifier, the LUACDs of one by LUN.
ghost use Rattle.std.specs.Prelude.{◌≡◌, ◌+◌, ◌≤◌, take};
ghost use Rattle.lists.specs.Order.{sort};
ghost use Rattle.wire.specs.Write.{Wrote};
ghost use Rattle.paper.specs.Tables.{content_of};
ghost use Rattle.paper.specs.Reports.{luacd_before};
ghost use Rattle.acl.specs.State.{kind_text, between_text, luacd_text, luacds_text, content_text, ace_line, aces_text};

use crate::naming;
use paper::state::{Ace, Acl, Extent, IdType, Luacd};
use report::{each, granted, identified};

// What stands before the k-th LUACD of an ACE.
fn put_between(text: &mut [u8], at: usize, limit: usize, k: usize) -> usize
    requires { at + 2 ≤ 4294967296 }
    ensures wrote { Wrote limit at (between_text k) text.old result text.new }
    ensures fits { result ≤ at + 2 }
{
    if k == 0 {
        at
    } else {
        wire::put_bytes(text, at, limit, b", ")
    }
}

// The k-th LUACD of an ACE, with what stands before it.
fn put_luacd(text: &mut [u8], at: usize, limit: usize, k: usize, p: &Luacd) -> usize
    requires { at + 34 ≤ 4294967296 }
    ensures wrote { Wrote limit at (luacd_text k p.now) text.old result text.new }
    ensures fits { result ≤ at + 34 }
{
    let start = put_between(text, at, limit, k);
    let placed = naming::put_lun(text, start, limit, p.lun);
    let space = wire::put(text, placed, limit, b' ');
    naming::put_unit(text, space, limit, p.unit)
}

// The LUACDs of an ACE, by LUN.
fn put_luacds(text: &mut [u8], at: usize, limit: usize, a: &Ace) -> usize
    requires { at + 544 ≤ 4294967296 }
    ensures wrote { Wrote limit at (luacds_text 0 (sort luacd_before (take a.now.count a.now.luacds))) text.old result text.new }
    ensures fits { result ≤ at + 544 }
{
    let sorted = granted::by_lun(a);
    let used = sorted.in_use();
    let mut to = at;
    for (k, p) in used.iter().enumerate() {
        to = put_luacd(text, to, limit, k, p);
    }
    to
}

// A list, or everything.
fn put_content(text: &mut [u8], at: usize, limit: usize, a: &Ace) -> usize
    requires { at + 544 ≤ 4294967296 }
    ensures wrote { Wrote limit at (content_text (content_of a.now)) text.old result text.new }
    ensures fits { result ≤ at + 544 }
{
    match a.extent {
        Extent::Listed => put_luacds(text, at, limit, a),
        Extent::Everything => wire::put_bytes(text, at, limit, b"everything"),
    }
}

// What an identifier is.
fn put_kind(text: &mut [u8], at: usize, limit: usize, kind: IdType) -> usize
    requires { at + 12 ≤ 4294967296 }
    ensures wrote { Wrote limit at (kind_text kind) text.old result text.new }
    ensures fits { result ≤ at + 12 }
{
    match kind {
        IdType::AccessId => wire::put_bytes(text, at, limit, b"AccessID "),
        IdType::TransportId => wire::put_bytes(text, at, limit, b"TransportID "),
    }
}

// The line of an ACE: its identifier, and what it holds.
fn put_line(text: &mut [u8], at: usize, limit: usize, a: &Ace) -> usize
    requires { at + 607 ≤ 4294967296 }
    ensures wrote { Wrote limit at (ace_line a.now) text.old result text.new }
    ensures fits { result ≤ at + 607 }
{
    let start = put_kind(text, at, limit, a.kind);
    let named = naming::put_id(text, start, limit, a.kind, &a.id);
    let colon = wire::put_bytes(text, named, limit, b": ");
    let content = put_content(text, colon, limit, a);
    wire::put(text, content, limit, b'\n')
}

// The part of the ACEs: a line for each, AccessIDs first, and by identifier.
pub fn put_aces(text: &mut [u8], at: usize, limit: usize, acl: &Acl) -> usize
    requires { at + 19458 ≤ 4294967296 }
    ensures wrote { Wrote limit at (aces_text (take acl.now.count acl.now.items)) text.old result text.new }
    ensures fits { result ≤ at + 19458 }
{
    let next = naming::put_head(text, at, limit, b"ACEs: ", acl.in_use().len());
    let sorted = identified::by_id(acl);
    each::put_each(text, next, sorted.in_use(), |text, to, a| {
        put_line(text, to, limit, a)
    })
}
