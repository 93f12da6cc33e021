// Seasons of files that are held in memory, by their names.
use clr_io::MemoryShelf;
use clr_season::{Season, read_season};
use std::alloc::{AllocError, Global};
use std::test::Fail;

// The files of the seasons, one in a line: the front of the names of the seasons that have it, the name of the file, and its text, in which
// `|` stands for a line feed. Where a season has a file twice, the first counts. The demands:
//
// - `both`: one store sells its unit on both rungs, and the other on rung 2 alone.
// - `late`: on rung 1 nothing or one unit is asked for in each week; on rung 2 nothing in week 1, and two in week 2.
// - `cheaper`: one unit is asked for: in week 1 on each rung, in week 2 on rungs 2 and 3, in week 3 on rung 3.
// - `twice`: in week 1 one unit on rung 1; in week 2 one unit on rung 2 and two on rung 3; in week 3 one unit on rung 3.
// - `unlike`: on rung 1 each store asks for nothing or one unit, the first with the weights 1 and 2, the other with 2 and 1. On rung 2
//   the first always asks for one unit, and the other for none.
// - `three`: as `both`, with a third store as the second.
// - `forced`: rung 2 alone is allowed, and costs 3.00.
// - `equal` and `never`: nothing is asked for.
// - `many`: sixteen stores of 1999 units, with a salvage of 0.01; the rows by which nothing is asked for are added where they are used.
const FILES: &str = r#"both free/rules.json {"weeks":1,"base":2}
both free/stock.csv store,units,salvage|a,1,0|b,1,0|
both 1.00/stock.csv store,units,salvage,relabel|a,1,0,1.00|b,1,0,1.00|
both 0.25/stock.csv store,units,salvage,relabel|a,1,0,0.25|b,1,0,0.50|
both/rules.json {"version":2,"weeks":1,"base":2}
both/ladder.csv rung,price|1,10.00|2,6.00|
both/demand.csv store,week,rung,units,weight|a,1,1,1,2|a,1,2,1,2|b,1,1,0,2|b,1,2,1,2|
late free/rules.json {"weeks":2,"base":2}
late free/stock.csv store,units,salvage|a,2,0|
late 0.50/rules.json {"version":2,"weeks":2,"base":2}
late 0.50/stock.csv store,units,salvage,relabel|a,2,0,0.50|
late/ladder.csv rung,price|1,10.00|2,4.00|
late/demand.csv store,week,rung,units,weight|a,1,1,0,1|a,1,1,1,1|a,2,1,0,1|a,2,1,1,1|a,1,2,0,2|a,2,2,2,2|
cheaper free/rules.json {"weeks":3,"base":1}
cheaper spaced/rules.json {"weeks":3,"base":1,"spacing":2}
cheaper once/rules.json {"weeks":3,"base":1,"markdowns":1}
cheaper near/rules.json {"weeks":3,"base":1,"first_cut":10}
cheaper/ladder.csv rung,price|1,10.00|2,8.00|3,5.00|
cheaper/stock.csv store,units,salvage|a,3,0|
cheaper/demand.csv store,week,rung,units,weight|a,1,1,1,1|a,1,2,1,1|a,1,3,1,1|a,2,1,0,1|a,2,2,1,1|a,2,3,1,1|a,3,1,0,1|a,3,2,0,1|a,3,3,1,1|
twice/rules.json {"weeks":3,"base":1}
twice/ladder.csv rung,price|1,10.00|2,6.00|3,3.00|
twice/stock.csv store,units,salvage|a,9,0|
twice/demand.csv store,week,rung,units,weight|a,1,1,1,1|a,1,2,0,1|a,1,3,0,1|a,2,1,0,1|a,2,2,1,1|a,2,3,2,1|a,3,1,0,1|a,3,2,0,1|a,3,3,1,1|
quarters one/stock.csv store,units,salvage|a,1,2.00|
quarters none/stock.csv store,units,salvage|a,0,2.00|
quarters/rules.json {"weeks":1,"base":4}
quarters/ladder.csv rung,price|1,10.00|
quarters/demand.csv store,week,rung,units,weight|a,1,1,0,1|a,1,1,1,3|
thirds/rules.json {"weeks":1,"base":3}
thirds/ladder.csv rung,price|1,10.00|
thirds/stock.csv store,units,salvage|a,1,2.00|
thirds/demand.csv store,week,rung,units,weight|a,1,1,0,1|a,1,1,1,2|
weeks of thirds/rules.json {"weeks":3,"base":3}
weeks of thirds/ladder.csv rung,price|1,10.00|
weeks of thirds/stock.csv store,units,salvage|a,3,0|
weeks of thirds/demand.csv store,week,rung,units,weight|a,1,1,0,1|a,1,1,1,2|a,2,1,0,1|a,2,1,1,2|a,3,1,0,3|
forced/rules.json {"version":2,"weeks":1,"base":1,"calendar":true}
forced/calendar.csv week,from,to,frozen|1,2,12,0|
forced/ladder.csv rung,price|1,10.00|2,6.00|
forced/stock.csv store,units,salvage,relabel|a,0,0,3.00|
forced/demand.csv store,week,rung,units,weight|a,1,1,0,1|a,1,2,0,1|
unlike/rules.json {"weeks":1,"base":3}
unlike/ladder.csv rung,price|1,10.00|2,6.00|
unlike/stock.csv store,units,salvage|a,1,0|b,1,4.00|
unlike/demand.csv store,week,rung,units,weight|a,1,1,0,1|a,1,1,1,2|b,1,1,0,2|b,1,1,1,1|a,1,2,1,3|b,1,2,0,3|
equal/rules.json {"weeks":1,"base":2}
equal/ladder.csv rung,price|1,10.00|2,6.00|
equal/stock.csv store,units,salvage|a,1,0|
equal/demand.csv store,week,rung,units,weight|a,1,1,0,2|a,1,2,0,2|
never/rules.json {"weeks":2,"base":1}
never/ladder.csv rung,price|1,10.00|2,6.00|
never/stock.csv store,units,salvage|a,1,0|
never/demand.csv store,week,rung,units,weight|a,1,1,0,1|a,1,2,0,1|a,2,1,0,1|a,2,2,0,1|
three/rules.json {"weeks":1,"base":1}
three/ladder.csv rung,price|1,10.00|2,6.00|
three/stock.csv store,units,salvage|a,1,0|b,1,0|c,1,0|
three/demand.csv store,week,rung,units,weight|a,1,1,1,1|a,1,2,1,1|b,1,1,0,1|b,1,2,1,1|c,1,1,0,1|c,1,2,1,1|
many/rules.json {"weeks":4,"base":1,"markdowns":0,"spacing":10}
many/stock.csv store,units,salvage|s1,1999,0.01|s2,1999,0.01|s3,1999,0.01|s4,1999,0.01|s5,1999,0.01|s6,1999,0.01|s7,1999,0.01|s8,1999,0.01|s9,1999,0.01|s10,1999,0.01|s11,1999,0.01|s12,1999,0.01|s13,1999,0.01|s14,1999,0.01|s15,1999,0.01|s16,1999,0.01|
many/ladder.csv rung,price|1,5.00|2,4.00|3,3.00|4,2.00|5,1.00|
limit of 4 stores/stock.csv store,units,salvage|a,1,0|b,1,0|c,1,0|d,1,0|
limit of 4 stores/demand.csv store,week,rung,units,weight|a,1,1,0,1|b,1,1,0,1|c,1,1,0,1|d,1,1,0,1|
limit of 5 stores/stock.csv store,units,salvage|a,1,0|b,1,0|c,1,0|d,1,0|e,1,0|
limit of 5 stores/demand.csv store,week,rung,units,weight|a,1,1,0,1|b,1,1,0,1|c,1,1,0,1|d,1,1,0,1|e,1,1,0,1|
limit of base 1000000/rules.json {"weeks":1,"base":1000000}
limit of base 1000000/stock.csv store,units,salvage|a,1,0|b,1,0|c,1,0|
limit of base 1000000/demand.csv store,week,rung,units,weight|a,1,1,0,1000000|b,1,1,0,1000000|c,1,1,0,1000000|
limit of base 31622/rules.json {"weeks":1,"base":31622}
limit of base 31622/stock.csv store,units,salvage|a,1,0|b,1,0|c,1,0|d,1,0|
limit of base 31622/demand.csv store,week,rung,units,weight|a,1,1,0,31622|b,1,1,0,31622|c,1,1,0,31622|d,1,1,0,31622|
limit of base 31623/rules.json {"weeks":1,"base":31623}
limit of base 31623/stock.csv store,units,salvage|a,1,0|b,1,0|c,1,0|d,1,0|
limit of base 31623/demand.csv store,week,rung,units,weight|a,1,1,0,31623|b,1,1,0,31623|c,1,1,0,31623|d,1,1,0,31623|
limit of 1000 stocks/stock.csv store,units,salvage|a,499,0|b,999,0|
limit of 1000 stocks/demand.csv store,week,rung,units,weight|a,1,1,0,1|b,1,1,0,1|
limit of 1001 stocks/stock.csv store,units,salvage|a,499,0|b,1000,0|
limit of 1001 stocks/demand.csv store,week,rung,units,weight|a,1,1,0,1|b,1,1,0,1|
limit of 10 demands/stock.csv store,units,salvage|a,499,0|b,999,0|
limit of 10 demands/demand.csv store,week,rung,units,weight|a,1,1,9,1|b,1,1,0,1|
limit of 11 demands/stock.csv store,units,salvage|a,499,0|b,999,0|
limit of 11 demands/demand.csv store,week,rung,units,weight|a,1,1,10,1|b,1,1,0,1|
limit of 1 unit/stock.csv store,units,salvage|a,1,0|
limit of 1 unit/demand.csv store,week,rung,units,weight|a,1,1,0,1|
limit/rules.json {"weeks":1,"base":1}
limit/ladder.csv rung,price|1,10.00|
/calendar.csv is not read where the rules do not speak of it"#;

/// A file of a season's folder, in whose text `|` stands for a line feed.
pub fn file(alloc: Global, name: &str, text: &str) -> Result<(String, Vec<u8>), AllocError> {
    let mut path = String::from_str(alloc, "f/")?;
    path.push_str(name)?;
    let mut bytes = text.as_bytes().to_vec(alloc)?;
    for byte in bytes.iter_mut() {
        if *byte == b'|' {
            *byte = b'\n';
        }
    }
    Ok((path, bytes))
}

// The name and the text of a file of the list, where the season of this name has it.
fn of_season<'x>(line: &'x str, name: &str) -> Option<(&'x str, &'x str)> {
    let (front, rest) = line.split_once('/')?;
    if name.starts_with(front) {
        rest.split_once(' ')
    } else {
        None
    }
}

/// The files of the season of this name.
pub fn files(alloc: Global, name: &str) -> Result<Vec<(String, Vec<u8>)>, AllocError> {
    let mut files = Vec::new(alloc);
    for line in FILES.lines() {
        if let Some((name, text)) = of_season(line, name) {
            files.push(file(alloc, name, text)?)?;
        }
    }
    Ok(files)
}

/// The season of these files.
pub fn season(alloc: Global, files: Vec<(String, Vec<u8>)>) -> Result<Season, Fail> {
    let mut shelf = MemoryShelf::new(files, 16, Vec::new(alloc));
    let season = read_season(alloc, &mut shelf, "f")?;
    Ok(season)
}

/// The season of this name.
pub fn season_of(alloc: Global, name: &str) -> Result<Season, Fail> {
    season(alloc, files(alloc, name)?)
}
