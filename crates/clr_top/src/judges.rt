// Judged policies: what `run` reports of policy files in memory.
use crate::cases::{TWO_WEEKS, unanswered};
use std::test::Fail;

const POLICIES: &str =
    r#"# Two units left earn 8.00 at the lower price, one earns 5.00 behind a sale for 10.00.
policy.json {"rung":1,"then":{"store":"a","left_at_most":1,"yes":{"rung":1},"no":{"rung":2}}}
> judge f
= 0 season 1 stores 2 weeks 2 rungs base 2|objects 4|revenue 11.50000000 11.50000000|

# The markdown's cost falls in one of two cases: (7.50 + 15.00) / 2.
rules.json {"version":2,"weeks":2,"base":2}
stock.csv store,units,salvage,relabel|a,2,0,0.50|
policy.json {"rung":1,"then":{"store":"a","left_at_most":1,"yes":{"rung":1},"no":{"rung":2}}}
> judge f
= 0 season 1 stores 2 weeks 2 rungs base 2|objects 4|revenue 11.25000000 11.25000000|

policy.json {"rung":2,"then":{"store":"a","left_at_most":1,"yes":{"rung":2},"no":{"rung":1}}}
> judge f
= 9 policy no: branch 2 rise

# No more than two units are ever left, so that the branch of `no` is never reached.
policy.json {"rung":2,"then":{"store":"a","left_at_most":2,"yes":{"rung":2},"no":{"rung":1}}}
> judge f
= 9 policy no: branch 2 rise

policy.json {"rung":1}
> judge f
= 9 policy no: branch 1 shape

policy.json {"store":"b","left_at_most":1,"yes":{},"no":{}}
> judge f
= 9 policy no: branch 1 unknown

policy.json {"rung":3}
> judge f
= 9 policy no: branch 1 shape

policy.json [
> judge f
= 9 policy no: json

# Arrays nested 127 deep are read, and are no policy; deeper ones aren't read.
policy.json <# 1 127 [><# 1 127 ]>
> judge f
= 9 policy no: branch 1 shape

policy.json <# 1 128 [><# 1 128 ]>
> judge f
= 9 policy no: json

# The base to the number of stores is 10^24.
rules.json {"weeks":1,"base":1000000}
ladder.csv rung,price|1,10.00|
stock.csv store,units,salvage|a,1,0|b,1,0|c,1,0|d,1,0|
demand.csv store,week,rung,units,weight|a,1,1,0,1000000|b,1,1,0,1000000|c,1,1,0,1000000|d,1,1,0,1000000|
policy.json {"rung":1}
> judge f
= 6 limit: base

# What stands against the season comes first.
rules.json []
ladder.csv rung,price|1,10.00|
stock.csv store,units,salvage|a,1,2.00|
demand.csv store,week,rung,units,weight|a,1,1,0,1|a,1,1,1,3|
policy.json [
> judge f
= 1 refused: rules.json json

# Without a policy file.
rules.json {"weeks":1,"base":4}
ladder.csv rung,price|1,10.00|
stock.csv store,units,salvage|a,1,2.00|
demand.csv store,week,rung,units,weight|a,1,1,0,1|a,1,1,1,3|
> judge f
= 10 absent: policy.json

# Of 16 stores with 1,999 units each: four objects times 2000^16, which is held at 10^18.
rules.json {"weeks":4,"base":1,"markdowns":0,"spacing":10}
ladder.csv rung,price|1,5.00|2,4.00|3,3.00|4,2.00|5,1.00|
stock.csv store,units,salvage|<# 0 15 s#,1999,0.01|>
demand.csv store,week,rung,units,weight|<# 0 15 <$ 1 4 <& 1 5 s#,$,&,0,1|>>>
policy.json {"rung":1,"then":{"rung":1,"then":{"rung":1,"then":{"rung":1}}}}
> judge f
= 6 limit: policy size 1000000000000000000"#;

#[test]
fn policies_are_judged(rt: HostRuntime) -> Result<(), Fail> {
    let wrong = unanswered(rt.alloc(), TWO_WEEKS, POLICIES)?;
    assert!(rt; wrong.is_none(), "{wrong:?}");
    Ok(())
}
