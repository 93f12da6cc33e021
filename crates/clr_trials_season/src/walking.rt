// The places of a season's lines, one after another.
ghost use Rattle.clr_rules.specs.LiveSummaries.{live_pairs};
ghost use Rattle.std.specs.Prelude.{◌≡◌};

use crate::seasons::shows;
use clr_cert::Place;
use clr_rules::Live;
use clr_season::Season;
use std::alloc::{AllocError, Global};
use std::fmt::Write;
use std::test::Fail;

// The season has one store and may be tabled with three lists of stocks.
const WALK: &str = "Head
Path
Mult { week: 1, rung: 1 }
Mult { week: 1, rung: 2 }
Mult { week: 2, rung: 1 }
Mult { week: 2, rung: 2 }
Low { done: 2, store: 1 }
High { done: 2, store: 1 }
Value { done: 2, store: 1, s: Summary { last: 1, count: 0, age: 1 } }
Value { done: 2, store: 1, s: Summary { last: 2, count: 1, age: 1 } }
Joint { done: 2, s: Summary { last: 1, count: 0, age: 1 }, index: 0 }
Joint { done: 2, s: Summary { last: 1, count: 0, age: 1 }, index: 1 }
Joint { done: 2, s: Summary { last: 1, count: 0, age: 1 }, index: 2 }
Joint { done: 2, s: Summary { last: 2, count: 1, age: 1 }, index: 0 }
Joint { done: 2, s: Summary { last: 2, count: 1, age: 1 }, index: 1 }
Joint { done: 2, s: Summary { last: 2, count: 1, age: 1 }, index: 2 }
Low { done: 1, store: 1 }
High { done: 1, store: 1 }
Value { done: 1, store: 1, s: Summary { last: 1, count: 0, age: 1 } }
Value { done: 1, store: 1, s: Summary { last: 2, count: 1, age: 1 } }
Joint { done: 1, s: Summary { last: 1, count: 0, age: 1 }, index: 0 }
Joint { done: 1, s: Summary { last: 1, count: 0, age: 1 }, index: 1 }
Joint { done: 1, s: Summary { last: 1, count: 0, age: 1 }, index: 2 }
Joint { done: 1, s: Summary { last: 2, count: 1, age: 1 }, index: 0 }
Joint { done: 1, s: Summary { last: 2, count: 1, age: 1 }, index: 1 }
Joint { done: 1, s: Summary { last: 2, count: 1, age: 1 }, index: 2 }
Low { done: 0, store: 1 }
High { done: 0, store: 1 }
Value { done: 0, store: 1, s: Summary { last: 1, count: 0, age: 1 } }
Joint { done: 0, s: Summary { last: 1, count: 0, age: 1 }, index: 0 }
Joint { done: 0, s: Summary { last: 1, count: 0, age: 1 }, index: 1 }
Joint { done: 0, s: Summary { last: 1, count: 0, age: 1 }, index: 2 }
Revenue
Bound
Exact
End
End
End
";

// As many places, a place a line.
fn walk(alloc: Global, season: &Season, live: &Live) -> Result<String, AllocError>
    requires { live.now ≡ live_pairs season.now.rules }
{
    let mut text = String::new(alloc);
    let mut place = Place::Head;
    for _ in WALK.lines() {
        writeln!(text, "{place:?}")?;
        place = place.next(season, live);
    }
    Ok(text)
}

fn walked(alloc: Global, season: &Season, _told: &str) -> Result<String, AllocError> {
    let live = Live::build(alloc, season.rules())?;
    walk(alloc, season, &live)
}

#[test]
fn places_come_in_order(rt: HostRuntime) -> Result<(), Fail> {
    assert!(rt; shows(rt.alloc(), "", walked, "", WALK)?);
    Ok(())
}
