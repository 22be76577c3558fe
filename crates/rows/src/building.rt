// The rows of an initiator, built from the tables: each function appends the rows of one ground to those that there are.
ghost use Rattle.std.specs.Prelude.{◌≡◌, ◌<◌, ◌≤◌, take, length, option_copied};
ghost use Rattle.lists.specs.Lists.{keep, gather};
ghost use Rattle.paper.specs.Contents.{all_units, held};
ghost use Rattle.paper.specs.Tables.{aces_of, units_of, enrolment_of, content_of};
ghost use Rattle.paper.specs.Rows.{content_in, content_for, row_at, row_by, rows_at, transport_rows, enrolment_rows, owned_by, row_of_proxy, rows_of};
ghost use Rattle.tables.specs.Changes.{meant};
ghost use Rattle.rows.specs.Table.{row_table};
ghost use Rattle.paper.specs.declared.state.Ground.TheVariants.{GroundX};
ghost use Rattle.rows.specs.Append.{Joined};
ghost use Rattle.rows.specs.Initiator.{InSetup};

use crate::table;
use crate::table::Rows;
use paper::state::{Ace, Coordinator, Extent, Ground, IdType, Luacd, ProxyLun, Row, Token};
use tables::enrolments::Enrolment;
use tables::{enrolments, lookups};

fn row_at(i: u8, g: Ground, p: Luacd) -> Row
    ensures { result ≡ row_at i g p }
{
    Row {
        initiator: i,
        lun: p.lun,
        unit: p.unit,
        ground: g,
    }
}

// The rows of the LUACDs that an ACE lists.
fn with_listed(rows: &mut Rows, i: u8, g: Ground, luacds: &[Luacd])
    requires { (rows.old.count ≤ 64) × (length luacds.now ≤ 16) }
    ensures { Joined 32 rows.old (rows_at i g luacds.now) rows.new }
{
    for p in luacds {
        rows.push(row_at(i, g, *p));
    }
}

// The rows of all units, each at its default LUN.
fn with_units(rows: &mut Rows, i: u8, g: Ground, luns: &[u16])
    requires { (rows.old.count ≤ 64) × (length luns.now ≤ 32) }
    ensures { Joined 32 rows.old (rows_at i g (all_units luns.now)) rows.new }
{
    for unit in 0..luns.len() {
        let p = Luacd {
            lun: luns[unit],
            unit: unit as u8,
        };
        rows.push(row_at(i, g, p));
    }
}

// The rows of what an ACE holds: a list or everything.
fn with_ace(rows: &mut Rows, i: u8, g: Ground, a: &Ace, luns: &[u16])
    requires { (rows.old.count ≤ 64) × (length luns.now ≤ 32) }
    ensures { Joined 32 rows.old (rows_at i g (held luns.now (content_of a.now))) rows.new }
{
    match a.extent {
        Extent::Listed => with_listed(rows, i, g, a.in_use()),
        Extent::Everything => with_units(rows, i, g, luns),
    }
}

// The rows of what an identifier holds, which is nothing without an ACE.
fn with_held(rows: &mut Rows, i: u8, g: Ground, a: Option<&Ace>, luns: &[u16])
    requires { (rows.old.count ≤ 64) × (length luns.now ≤ 32) }
    ensures { Joined 32 rows.old (rows_at i g (held luns.now (content_in (option_copied a.entry)))) rows.new }
{
    if let Some(ace) = a {
        with_ace(rows, i, g, ace, luns);
    }
}

// The rows of an identifier, by its ACE.
fn with_identifier(rows: &mut Rows, i: u8, g: Ground, c: &Coordinator, k: IdType, id: &[u8])
    requires { rows.old.count ≤ 64 }
    ensures { Joined 32 rows.old (rows_at i g (held (units_of c.now) (content_for (aces_of c.now) k id.now))) rows.new }
{
    let ace = lookups::ace_for(c.acl.in_use(), k, id);
    with_held(rows, i, g, ace, c.units.in_use());
}

// The rows of an enrolment: A when enrolled, W when pending.
fn with_enrolment(rows: &mut Rows, i: u8, c: &Coordinator, e: Enrolment)
    requires { rows.old.count ≤ 64 }
    ensures { Joined 32 rows.old (enrolment_rows c.now i (meant e.entry)) rows.new }
{
    match e {
        Enrolment::NotEnrolled => {}
        Enrolment::Enrolled(id) => {
            with_identifier(rows, i, Ground::GroundA, c, IdType::AccessId, id)
        }
        Enrolment::Pending(id) => {
            with_identifier(rows, i, Ground::GroundW, c, IdType::AccessId, id)
        }
    }
}

// The row of a proxy LUN, to the unit of its token.
fn proxy_row(p: ProxyLun, t: Token) -> Row
    ensures { result ≡ row_by p.initiator p.lun t.unit GroundX }
{
    Row {
        initiator: p.initiator,
        lun: p.lun,
        unit: t.unit,
        ground: Ground::GroundX,
    }
}

// The rows of the proxy LUNs of an initiator.
fn with_proxies(rows: &mut Rows, i: u8, live: &[Token], proxies: &[ProxyLun])
    requires { (rows.old.count ≤ 64) × (length proxies.now ≤ 32) }
    ensures { Joined 32 rows.old (gather (row_of_proxy live.now) (keep (owned_by i) proxies.now)) rows.new }
{
    for p in proxies {
        if p.initiator == i {
            if let Some(t) = lookups::token_for(live, p.token) {
                rows.push(proxy_row(*p, t));
            }
        }
    }
}

// The rows of an initiator's TransportID.
fn with_transport(rows: &mut Rows, i: usize, c: &Coordinator)
    requires { (rows.old.count ≤ 64) × InSetup c.now i }
    ensures { Joined 32 rows.old (transport_rows c.now i) rows.new }
{
    let id = enrolments::transport_part(&c.initiators.ids, i);
    with_identifier(rows, i as u8, Ground::GroundT, c, IdType::TransportId, id);
}

// The rows of an initiator's enrolment.
fn with_access(rows: &mut Rows, i: usize, c: &Coordinator)
    requires { (rows.old.count ≤ 64) × InSetup c.now i }
    ensures { Joined 32 rows.old (enrolment_rows c.now i (enrolment_of c.now i)) rows.new }
{
    let part = enrolments::enrolment_part(&c.initiators.enrolments, i);
    with_enrolment(rows, i as u8, c, Enrolment::from_bytes(part));
}

// The rows of an initiator: T, A or W, and X while enabled, and O while disabled.
pub fn rows_of(c: &Coordinator, i: usize) -> Rows
    requires { InSetup c.now i }
    ensures { result ≡ row_table (rows_of c.now i) }
{
    let mut rows = table::no_rows();
    if c.enabled {
        with_transport(&mut rows, i, c);
        with_access(&mut rows, i, c);
        with_proxies(&mut rows, i as u8, c.tokens.in_use(), c.proxies.in_use());
    } else {
        with_units(&mut rows, i as u8, Ground::GroundO, c.units.in_use());
    }
    rows
}
