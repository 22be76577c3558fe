// Room in a table.
ghost use Rattle.std.specs.Prelude.{◌≡◌, ◌+◌, ◌<◌, ◌≤◌, set, IfErr, OnOk, OnErr};
ghost use Rattle.paper.specs.declared.answers.Condition.TheVariants.{NoRoom};

use lists::Table;
use paper::answers::Condition;

// One entry more behind the others, if the table has room for it.
pub fn push<T: Copy, const N: usize>(table: &mut Table<T, N>, x: T) -> Result<(), Condition>
    ensures joins { OnOk result (table.new ≡ record { count = table.old.count + 1; items = set table.old.items table.old.count x }) }
    ensures room { OnOk result (table.old.count < N) }
    ensures keeps { OnErr result (table.new ≡ table.old) }
    ensures full { OnErr result (N ≤ table.old.count) }
    ensures condition { IfErr result (λ k. k ≡ NoRoom) }
{
    if table.count >= N {
        return Err(Condition::NoRoom);
    }
    table.push(x);
    Ok(())
}
