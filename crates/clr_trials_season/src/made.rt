// The made files: their texts, those of seed 1 in part, drawn by hand, and for three seeds a sum of all bytes, worked with another
// program that was written after the formats alone; and the seasons that they read to, of which some path obeys.
ghost use Rattle.std.specs.Prelude.{◌<◌};

use crate::seasons::{is_text, put, read_shows, sides};
use clr_io::MemoryShelf;
use clr_make::{Made, make_files};
use clr_rules::Live;
use clr_season::Season;
use std::alloc::{AllocError, Global};
use std::test::Fail;

// Seeds, and the sums and lengths of their stock.csv and demand.csv.
const SUMS: &str = "0=>290422751 388850705 308 68717
1=>126714465 206630655 308 68717
999999999=>728240372 436035678 308 68717";

// Seeds, and of their seasons the units of the first and the last store, and whether some path obeys.
const SEASONS: &str = "0=>42 60 true
1=>53 60 true
999999999=>31 29 true";

const RULES: &str = "{\"weeks\":12,\"base\":100,\"markdowns\":3,\"spacing\":2,\"first_cut\":50}\n";

const LADDER: &str = "rung,price\n1,60.00\n2,52.00\n3,45.00\n4,38.00\n5,30.00\n6,22.00\n";

// The first state is 7806831264735756412 and the first draw 908834774, and 908834774 mod 41 is 33.
const STOCK: &str = "store,units,salvage\ns01,53,5.00\ns02,57,5.00\ns03,45,5.00\n";

// The draws of the first week of `s01` are 1093944153, 1392341196, 822192870, 1708211034, 1074839795 and 1189567130, with the
// remainders 0, 0, 0, 0, 2 and 2 by 3. So the least demands are 0/2, 1/2, 2/2, 3/2, 6/2 and 7/2, rounded down.
const DEMAND: &str =
    "store,week,rung,units,weight\ns01,1,1,0,25\ns01,1,1,1,50\ns01,1,1,2,25\ns01,1,2,0,25\ns01,1,2,1,50\ns01,1,2,2,25\ns01,1,3,1,25\ns01,1,3,2,50\ns01,1,3,3,25\ns01,1,4,1,25\ns01,1,4,2,50\ns01,1,4,3,25\ns01,1,5,3,25\ns01,1,5,4,50\ns01,1,5,5,25\ns01,1,6,3,25\ns01,1,6,4,50\ns01,1,6,5,25\ns01,2,1,0,25\n";

const LAST_ROWS: &str = "s24,12,6,3,25\ns24,12,6,4,50\ns24,12,6,5,25\n";

// Each byte counts: the sum so far times 31 and the byte, by its remainder.
fn sum(text: &[u8]) -> u64
    ensures { result < 1000000007 }
{
    let mut sum = 0;
    for byte in text {
        sum = (sum * 31 + u64::from(*byte)) % 1_000_000_007;
    }
    sum
}

// The files of a seed that stands in a text.
fn made_of(alloc: Global, seed: &str) -> Result<Made, AllocError> {
    let seed = seed.parse::<u32>().unwrap_or(0).min(999_999_999);
    make_files(alloc, seed)
}

// Whether the files are those that were drawn by hand, as far as these go.
fn are_drawn(made: &Made) -> bool {
    made.rules.as_slice() == RULES.as_bytes()
        && made.ladder.as_slice() == LADDER.as_bytes()
        && made.stock.starts_with(STOCK.as_bytes())
        && made.demand.starts_with(DEMAND.as_bytes())
        && made.demand.ends_with(LAST_ROWS.as_bytes())
}

#[test]
fn seed_1_is_drawn_as_by_hand(rt: HostRuntime) -> Result<(), Fail> {
    let made = made_of(rt.alloc(), "1")?;
    assert!(rt; are_drawn(&made));
    Ok(())
}

fn sums(alloc: Global, made: &Made) -> Result<String, AllocError> {
    let (stock, demand) = (sum(&made.stock), sum(&made.demand));
    format!(in alloc;
        "{stock} {demand} {} {}",
        made.stock.len(),
        made.demand.len()
    )
}

fn is_summed(alloc: Global, case: &str) -> Result<bool, Fail> {
    let (seed, want) = sides(case);
    let made = made_of(alloc, seed)?;
    is_text(sums(alloc, &made), want)
}

#[test]
fn each_byte_is_as_another_program_makes_it(rt: HostRuntime) -> Result<(), Fail> {
    for case in SUMS.lines() {
        assert!(rt; is_summed(rt.alloc(), case)?, "{case}");
    }
    Ok(())
}

// A shelf that holds these files in the folder `f`.
fn shelf_of(alloc: Global, made: Made) -> Result<MemoryShelf, AllocError> {
    let mut files = Vec::new(alloc);
    put(alloc, "f/rules.json", made.rules, &mut files)?;
    put(alloc, "f/ladder.csv", made.ladder, &mut files)?;
    put(alloc, "f/stock.csv", made.stock, &mut files)?;
    put(alloc, "f/demand.csv", made.demand, &mut files)?;
    Ok(MemoryShelf::new(files, 4096, Vec::new(alloc)))
}

// What a case tells of a season that has the sizes of the made ones.
fn sized(alloc: Global, season: &Season, _told: &str) -> Result<String, AllocError> {
    if season.stores() != 24
        || (season.weeks(), season.rungs()) != (12, 6)
        || (season.base(), season.top()) != (100, 5)
    {
        return String::from_str(alloc, "other sizes");
    }
    let any = Live::build(alloc, season.rules())?.any();
    format!(in alloc; "{} {} {any}", season.stock(1), season.stock(24))
}

fn is_read(alloc: Global, case: &str) -> Result<bool, Fail> {
    let (seed, want) = sides(case);
    let made = made_of(alloc, seed)?;
    let shelf = shelf_of(alloc, made)?;
    read_shows(alloc, shelf, sized, "", want)
}

#[test]
fn seeds_read_to_seasons(rt: HostRuntime) -> Result<(), Fail> {
    for case in SEASONS.lines() {
        assert!(rt; is_read(rt.alloc(), case)?, "{case}");
    }
    Ok(())
}
