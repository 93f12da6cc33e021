// Rows of one width, one after another.
ghost use Rattle.std.specs.Prelude.{◌≡◌, ◌≤◌, ◌*◌, ◌+◌, length};
ghost use Rattle.clr_rows.specs.Rows.{AreWithin, row_at};

/// The row at a place, counted from 0.
pub fn row_of<T>(items: &[T], width: usize, place: usize) -> &[T]
    requires { (place + 1) * width ≤ length items.now }
    ensures row { result.now ≡ row_at width items.now place }
    ensures size { length result.now ≡ width }
{
    let start = place * width;
    &items[start..start + width]
}

/// A size that no value of a row passes: the greatest of their sizes.
pub fn reach_of(row: &[i64]) -> u64
    requires { AreWithin 1000000000000000000 row.now }
    ensures range { result ≤ 1000000000000000000 }
    ensures values { AreWithin result row.now }
{
    let mut reach = 0;
    for value in row {
        reach = reach.max(value.unsigned_abs());
    }
    reach
}
