// The rows of one initiator as a counted table: 32 each for its TransportID, its AccessID and its proxy LUNs.
ghost use Rattle.std.specs.Prelude.{◌≡◌, []};
ghost use Rattle.rows.specs.Table.{no_row, row_table};

use lists::Table;
use paper::state::{Ground, Row};

pub type Rows = Table<Row, 96>;

pub fn no_row() -> Row
    ensures { result ≡ no_row }
{
    Row {
        initiator: 0,
        lun: 0,
        unit: 0,
        ground: Ground::GroundA,
    }
}

pub fn no_rows() -> Rows
    ensures { result ≡ row_table [] }
{
    Table {
        count: 0,
        items: [no_row(); 96],
    }
}
