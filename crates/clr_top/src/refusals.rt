// Files that are refused: each with its note, the first refusal in the order of the files, rows and columns.
use crate::cases::unanswered_twice;
use std::test::Fail;

// Each file of the smallest season in turn, and then later versions, with a column of costs and weights that are scaled to the base.
const REFUSALS: &str = r#"rules.json
= 1 refused: rules.json json

rules.json []
= 1 refused: rules.json json

rules.json 4
= 1 refused: rules.json json

rules.json {"weeks":1,"base":4
= 1 refused: rules.json json

rules.json {"weeks":1,"base":4} x
= 1 refused: rules.json json

rules.json [[[
= 1 refused: rules.json json

rules.json {"weeks":1,"base":4,"x":"%"}
= 1 refused: rules.json json

rules.json {"weeks":1,"base":4,"colour":2}
= 1 refused: rules.json field

rules.json {"colour":2}
= 1 refused: rules.json field

rules.json {"base":4}
= 1 refused: rules.json weeks missing

rules.json {"weeks":1}
= 1 refused: rules.json base missing

rules.json {"weeks":0,"base":4}
= 1 refused: rules.json weeks range

rules.json {"weeks":53,"base":4}
= 1 refused: rules.json weeks range

rules.json {"weeks":1.0,"base":4}
= 1 refused: rules.json weeks number

rules.json {"weeks":-1,"base":4}
= 1 refused: rules.json weeks number

rules.json {"weeks":1,"base":"4"}
= 1 refused: rules.json base number

rules.json {"weeks":1,"base":0}
= 1 refused: rules.json base range

rules.json {"weeks":1,"base":1000001}
= 1 refused: rules.json base range

rules.json {"weeks":1,"base":1000000000000000000000000000000000000000}
= 1 refused: rules.json base number

rules.json {"version":0,"weeks":1,"base":4}
= 1 refused: rules.json version range

rules.json {"version":4,"weeks":1,"base":4}
= 1 refused: rules.json version range

rules.json {"weeks":1,"base":4,"markdowns":13}
= 1 refused: rules.json markdowns range

rules.json {"weeks":1,"base":4,"spacing":0}
= 1 refused: rules.json spacing range

rules.json {"weeks":1,"base":4,"spacing":13}
= 1 refused: rules.json spacing range

rules.json {"weeks":1,"base":4,"first_cut":101}
= 1 refused: rules.json first_cut range

rules.json {"weeks":1,"base":4,"calendar":1}
= 1 refused: rules.json calendar number

rules.json {"calendar":0,"spacing":0,"base":0,"weeks":0,"version":0}
= 1 refused: rules.json version range

rules.json {"weeks":1,"base":4,"calendar":true}
= 1 refused: calendar.csv header

rules.json {"weeks":1,"base":4,"calendar":true}
calendar.csv week,from,to|
= 1 refused: calendar.csv header

rules.json {"weeks":1,"base":4,"calendar":true}
calendar.csv week,from,to,frozen|1,1,12|
= 1 refused: calendar.csv row 1 fields

rules.json {"weeks":1,"base":4,"calendar":true}
calendar.csv week,from,to,frozen|2,1,12,0|
= 1 refused: calendar.csv row 1 column week range

rules.json {"weeks":1,"base":4,"calendar":true}
calendar.csv week,from,to,frozen|w,1,12,0|
= 1 refused: calendar.csv row 1 column week number

rules.json {"weeks":1,"base":4,"calendar":true}
calendar.csv week,from,to,frozen|1,0,12,0|
= 1 refused: calendar.csv row 1 column from range

rules.json {"weeks":1,"base":4,"calendar":true}
calendar.csv week,from,to,frozen|1,1,13,0|
= 1 refused: calendar.csv row 1 column to range

rules.json {"weeks":1,"base":4,"calendar":true}
calendar.csv week,from,to,frozen|1,3,2,0|
= 1 refused: calendar.csv row 1 column to order

rules.json {"weeks":1,"base":4,"calendar":true}
calendar.csv week,from,to,frozen|1,3,2,2|
= 1 refused: calendar.csv row 1 column to order

rules.json {"weeks":1,"base":4,"calendar":true}
calendar.csv week,from,to,frozen|1,1,12,2|
= 1 refused: calendar.csv row 1 column frozen range

rules.json {"weeks":1,"base":4,"calendar":true}
calendar.csv week,from,to,frozen|1,1,12,yes|
= 1 refused: calendar.csv row 1 column frozen number

rules.json {"weeks":1,"base":4,"calendar":true}
calendar.csv week,from,to,frozen|1,1,12,0||1,1,12,1|
= 1 refused: calendar.csv row 2 repeat of row 1

ladder.csv
= 1 refused: ladder.csv header

ladder.csv rung,pri
= 1 refused: ladder.csv header

ladder.csv price,rung|1,10.00|
= 1 refused: ladder.csv header

ladder.csv rung,price,x|
= 1 refused: ladder.csv header

ladder.csv rung,price|
= 1 refused: ladder.csv count 0

ladder.csv rung,price|1,19|2,18|3,17|4,16|5,15|6,14|7,13|8,12|9,11|10,10|11,9|12,8|13,7|
= 1 refused: ladder.csv count 13

ladder.csv rung,price|1
= 1 refused: ladder.csv row 1 fields

ladder.csv rung,price|x,10.00|2|
= 1 refused: ladder.csv row 2 fields

ladder.csv rung,price|x,y|
= 1 refused: ladder.csv row 1 column rung number

ladder.csv rung,price|9223372036854775808,10.00|
= 1 refused: ladder.csv row 1 column rung number

ladder.csv rung,price|9223372036854775807,10.00|
= 1 refused: ladder.csv row 1 column rung range

ladder.csv rung,price|+1,10.00|
= 1 refused: ladder.csv row 1 column rung number

ladder.csv rung,price|13,10.00|
= 1 refused: ladder.csv row 1 column rung range

ladder.csv rung,price|2,10.00|
= 1 refused: ladder.csv row 1 column rung order

ladder.csv rung,price|1,10.005|
= 1 refused: ladder.csv row 1 column price money

ladder.csv rung,price|1,100000000|
= 1 refused: ladder.csv row 1 column price money

ladder.csv rung,price|1,10000000|
= 1 refused: ladder.csv row 1 column price range

ladder.csv rung,price|1,0|
= 1 refused: ladder.csv row 1 column price range

ladder.csv rung,price|1,100000.01|
= 1 refused: ladder.csv row 1 column price range

ladder.csv rung,price|1,10.00|2,10.00|
= 1 refused: ladder.csv row 2 column price order

stock.csv
= 1 refused: stock.csv header

stock.csv store,units,salvage,relabel|a,1,2.00,0|
= 1 refused: stock.csv header

stock.csv store,units,salvage|
= 1 refused: stock.csv count 0

stock.csv store,units,salvage|s1,1,1|s2,1,1|s3,1,1|s4,1,1|s5,1,1|s6,1,1|s7,1,1|s8,1,1|s9,1,1|s10,1,1|s11,1,1|s12,1,1|s13,1,1|s14,1,1|s15,1,1|s16,1,1|s17,1,1|s18,1,1|s19,1,1|s20,1,1|s21,1,1|s22,1,1|s23,1,1|s24,1,1|s25,1,1|s26,1,1|s27,1,1|s28,1,1|s29,1,1|s30,1,1|s31,1,1|s32,1,1|s33,1,1|s34,1,1|s35,1,1|s36,1,1|s37,1,1|s38,1,1|s39,1,1|s40,1,1|s41,1,1|s42,1,1|s43,1,1|s44,1,1|s45,1,1|s46,1,1|s47,1,1|s48,1,1|s49,1,1|s50,1,1|s51,1,1|s52,1,1|s53,1,1|s54,1,1|s55,1,1|s56,1,1|s57,1,1|s58,1,1|s59,1,1|s60,1,1|s61,1,1|s62,1,1|s63,1,1|s64,1,1|s65,1,1|
= 1 refused: stock.csv count 65

stock.csv store,units,salvage|a,1|
= 1 refused: stock.csv row 1 fields

stock.csv store,units,salvage|,1,2.00|
= 1 refused: stock.csv row 1 column store name

stock.csv store,units,salvage|nnnnnnnnnnnnnnnnnnnnnnnnnnnnnnnnnnnnnnnnnnnnnnnnnnnnnnnnnnnnnnnnn,1,2.00|
= 1 refused: stock.csv row 1 column store name

stock.csv store,units,salvage|%,1,2.00|
= 1 refused: stock.csv row 1 column store name

stock.csv store,units,salvage|a~b,1,2.00|
= 1 refused: stock.csv row 1 column store name

stock.csv store,units,salvage|a,-1,2.00|
= 1 refused: stock.csv row 1 column units number

stock.csv store,units,salvage|a,2001,x|
= 1 refused: stock.csv row 1 column units range

stock.csv store,units,salvage|a,1,-2.00|
= 1 refused: stock.csv row 1 column salvage money

stock.csv store,units,salvage|a,1,100000.01|
= 1 refused: stock.csv row 1 column salvage range

stock.csv store,units,salvage|a,1,2.00|b,1,2.00| a ,1,2.00|
= 1 refused: stock.csv row 3 repeat of row 1

stock.csv store,units,salvage|a,1,2.00|a,x,2.00|
= 1 refused: stock.csv row 2 column units number

demand.csv
= 1 refused: demand.csv header

demand.csv store,week,rung,units|
= 1 refused: demand.csv header

demand.csv store,week,rung,units,weight|b,1,1,0,1|a,1,1,0|
= 1 refused: demand.csv row 2 fields

demand.csv store,week,rung,units,weight|b,1,1,0,1|a,1,1,1,3|
= 1 refused: demand.csv row 1 column store unknown

demand.csv store,week,rung,units,weight|a,0,1,0,1|
= 1 refused: demand.csv row 1 column week range

demand.csv store,week,rung,units,weight|a,2,1,0,4|
= 1 refused: demand.csv row 1 column week range

demand.csv store,week,rung,units,weight|a,w,1,0,4|
= 1 refused: demand.csv row 1 column week number

demand.csv store,week,rung,units,weight|a,1,2,0,4|
= 1 refused: demand.csv row 1 column rung range

demand.csv store,week,rung,units,weight|a,1,1,201,1|a,1,1,1,3|
= 1 refused: demand.csv row 1 column units range

demand.csv store,week,rung,units,weight|a,1,1,0,5|a,1,1,1,3|
= 1 refused: demand.csv row 1 column weight range

demand.csv store,week,rung,units,weight|a,1,1,0,1000000000000000000000000000000000000000|
= 1 refused: demand.csv row 1 column weight number

demand.csv store,week,rung,units,weight|a,1,1,0,1|a,1,1,1,3|a,1,1,1,3|
= 1 refused: demand.csv row 3 repeat of row 2

demand.csv store,week,rung,units,weight|a,1,1,0,1|a,1,1,1,2|
= 1 refused: demand.csv store 1 week 1 rung 1 total 3

demand.csv store,week,rung,units,weight|
= 1 refused: demand.csv store 1 week 1 rung 1 total 0

rules.json {"version":2,"weeks":2,"base":2}
ladder.csv rung,price|1,10.00|2,4.00|
stock.csv store,units,salvage|a,2,0|
demand.csv store,week,rung,units,weight|a,1,1,0,1|a,1,1,1,1|a,2,1,0,1|a,2,1,1,1|a,1,2,0,2|a,2,2,2,2|
= 1 refused: stock.csv header

rules.json {"version":2,"weeks":1,"base":4}
stock.csv store,units,salvage,relabel|a,1,2.00,100000.01|
= 1 refused: stock.csv row 1 column relabel range

rules.json {"version":2,"weeks":1,"base":4}
stock.csv store,units,salvage,relabel|a,1,2.00,free|a,1,2.00,0|
= 1 refused: stock.csv row 1 column relabel money

rules.json {"version":3,"weeks":1,"base":12}
stock.csv store,units,salvage,relabel|a,1,2.00,0|
demand.csv store,week,rung,units,weight|a,1,1,0,1|a,1,1,1,4|
= 1 refused: demand.csv store 1 week 1 rung 1 total 5

rules.json {"version":3,"weeks":1,"base":12}
stock.csv store,units,salvage,relabel|a,1,2.00,0|
demand.csv store,week,rung,units,weight|a,1,1,0,0|
= 1 refused: demand.csv store 1 week 1 rung 1 total 0"#;

#[test]
fn first_refusals_are_told(rt: HostRuntime) -> Result<(), Fail> {
    let wrong = unanswered_twice(&rt, rt.alloc(), "refused", REFUSALS)?;
    assert!(rt; wrong.is_none(), "{wrong:?}");
    Ok(())
}
