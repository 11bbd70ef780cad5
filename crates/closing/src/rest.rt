// The rows past the count.
ghost use Rattle.std.specs.Prelude.{◌≡◌};
ghost use Rattle.table.specs.Rows.{rows_of, filled};
ghost use Rattle.table.specs.Lent.{lanes_in, Kept};
ghost use Rattle.table.specs.Places.{RowsWithin};

use table::Table;

// Zeroes the rows past the count.
pub fn wipe_past(table: &mut Table)
    requires { RowsWithin (lanes_in table.old) table.old.count }
    ensures kept { Kept table.old table.new }
    ensures wiped { lanes_in table.new ≡ filled (rows_of (lanes_in table.old) table.old.count) (lanes_in table.old) }
    ensures same_count { table.new.count ≡ table.old.count }
{
    let end = table.count;
    table.subj[end..].fill(0);
    table.pred[end..].fill(0);
    table.obj[end..].fill(0);
    table.ann[end..].fill(0);
}
