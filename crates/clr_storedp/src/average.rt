// The averages of one week, one for each summary after it.
ghost use Rattle.std.specs.Prelude.{◌≡◌, ◌≤◌, ◌<◌, ◌*◌, length, IfOk};
ghost use Rattle.clr_rules.specs.declared.season_rules.Summary.{Summary};
ghost use Rattle.clr_rows.specs.Summaries.{AreOnLadder};
ghost use Rattle.clr_rows.specs.Rows.{AreWithin};
ghost use Rattle.clr_storedp.specs.Rows.{AreAverages};

use clr_model::average_week;
use clr_num::Direction;
use clr_rows::{reach_of, row_of};
use clr_rules::Summary;
use clr_season::Season;
use std::alloc::{AllocError, Global};

/// For each live summary after a week, the averages over the week's demands of what the store earns and of the values
/// after it, at the stocks from 0 up. Nothing is paid for relabelling.
///
/// The last rung of a summary is that of the week which ends in it, so the average depends on the summary after the week
/// alone and is made once for all summaries before it.
pub fn average_rows<R: Direction>(
    alloc: Global,
    season: &Season,
    store: u32,
    done: u32,
    width: usize,
    list: &[Summary],
    after: &[i64],
) -> Result<Vec<i64>, AllocError>
    requires low { 1 ≤ store }
    requires high { store ≤ length season.now.stores }
    requires early { done < season.now.rules.weeks }
    requires width { width ≤ 2001 }
    requires ladder { AreOnLadder season.now.rules list.now }
    requires size { length after.now ≡ length list.now * width }
    requires values { AreWithin 1000000000000000000 after.now }
    ensures { IfOk result (λ rows. AreAverages R.quotient season.now store done width list.now after.now (length list.now) rows.items) }
{
    let mut rows = Vec::with_capacity(alloc, after.len())?;
    let mut row = vec![in alloc; 0; width]?;
    for (place, s) in list.iter().enumerate() {
        let values = row_of(after, width, place);
        let reach = reach_of(values);
        average_week::<R>(season, store, done, s.last, s.last, values, reach, &mut row);
        rows.extend_from_slice(&row)?;
    }
    Ok(rows)
}
