// Clashes: "two rows with one LUN and two units, or two rows of T, A, W with one unit and two LUNs".
ghost use Rattle.std.specs.Prelude.{◌≡◌, ◌≤◌};
ghost use Rattle.paper.specs.Grounds.{is_taw};
ghost use Rattle.paper.specs.Rows.{clashing, clash_in, some_clash};

use crate::building;
use paper::state::{Coordinator, Ground, Row};

// A row of T, A or W.
fn is_taw(g: Ground) -> bool
    ensures { result ≡ is_taw g }
{
    matches!(g, Ground::GroundA | Ground::GroundT | Ground::GroundW)
}

pub fn clashing_rows(a: Row, b: Row) -> bool
    ensures { result ≡ clashing a b }
{
    if a.lun == b.lun {
        return a.unit != b.unit;
    }
    if a.unit != b.unit {
        return false;
    }
    is_taw(a.ground) && is_taw(b.ground)
}

// Whether two rows clash. "The clash search stops at the first such pair".
// Stays: nested loops left by a label are the form that document 01 names for this place, so that this is no `lists::some_pair`.
pub fn clash_in(rows: &[Row]) -> bool
    ensures { result ≡ clash_in rows.now }
{
    let mut found = false;
    'search: for i in 0..rows.len() {
        let later = lists::behind(rows, i + 1);
        for b in later {
            if clashing_rows(rows[i], *b) {
                found = true;
                break 'search;
            }
        }
    }
    found
}

// "some initiator has a clash"
pub fn some_clash(c: &Coordinator) -> bool
    requires { c.now.initiators.count ≤ 16 }
    ensures { result ≡ some_clash c.now }
{
    for i in 0..c.initiators.count {
        if clash_in(building::rows_of(c, i).in_use()) {
            return true;
        }
    }
    false
}
