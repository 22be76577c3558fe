// What a LUN has among the rows of an initiator: one search, on the grounds that the question is about.
ghost use Rattle.std.specs.Prelude.{◌≡◌};
ghost use Rattle.lists.specs.Lists.{any};
ghost use Rattle.paper.specs.Grounds.{opens_by, is_ta, is_w};
ghost use Rattle.paper.specs.Rows.{has_lun, row_with, pending_has};
ghost use Rattle.paper.specs.Outcomes.{opens};

use paper::answers::{Condition, Opened};
use paper::state::{Ground, Row};

// "a T, A, X or O row"
fn opens_by(g: Ground) -> bool
    ensures { result ≡ opens_by g }
{
    !is_w(g)
}

fn is_ta(g: Ground) -> bool
    ensures { result ≡ is_ta g }
{
    matches!(g, Ground::GroundA | Ground::GroundT)
}

fn is_w(g: Ground) -> bool
    ensures { result ≡ is_w g }
{
    matches!(g, Ground::GroundW)
}

// All eight bytes of a LUN are compared.
fn row_has(x: &Row, l: u64) -> bool
    ensures { result ≡ has_lun l x.now }
{
    wire::lun_of(x.lun) == l
}

// The row by which a LUN opens.
#[tactic(auto, unfolding(paper::specs::Rows::row_with))]
pub fn opening_row(rows: &[Row], l: u64) -> Option<Row>
    ensures { result ≡ row_with opens_by l rows.now }
{
    rows.iter()
        .copied()
        .find(|x| opens_by(x.ground) && row_has(x, l))
}

// The row by which a token may be requested: "the LUN must open by a T or A row".
#[tactic(auto, unfolding(paper::specs::Rows::row_with))]
pub fn request_row(rows: &[Row], l: u64) -> Option<Row>
    ensures { result ≡ row_with is_ta l rows.now }
{
    rows.iter()
        .copied()
        .find(|x| is_ta(x.ground) && row_has(x, l))
}

// "if W has it"
#[tactic(auto, unfolding(paper::specs::Rows::pending_has))]
pub fn pending_has(rows: &[Row], l: u64) -> bool
    ensures { result ≡ pending_has l rows.now }
{
    rows.iter().any(|x| is_w(x.ground) && row_has(x, l))
}

// Whether any row has a LUN, on whatever ground.
pub fn has_lun(rows: &[Row], l: u64) -> bool
    ensures { result ≡ any (has_lun l) rows.now }
{
    rows.iter().any(|x| row_has(x, l))
}

// "the unit of a T, A, X or O row with that LUN; else 20h/01h if W has it; else 25h/00h"
pub fn opened(rows: &[Row], l: u64) -> Opened
    ensures { result ≡ opens l rows.now }
{
    if let Some(x) = opening_row(rows, l) {
        return Opened::Opens(x.unit);
    }
    if pending_has(rows, l) {
        return Opened::Closed(Condition::PendingEnrolled);
    }
    Opened::Closed(Condition::OpensNothing)
}
