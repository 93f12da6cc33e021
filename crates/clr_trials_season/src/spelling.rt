// The spelling of numbers in a certificate.
use crate::seasons::{is_text, sides};
use clr_cert::read_num;
use std::alloc::Global;
use std::test::Fail;

// Fields, and what they are read as.
const FIELDS: &str = "0=>Is(0)
7=>Is(7)
-7=>Is(-7)
10=>Is(10)
400000000=>Is(400000000)
-250000000=>Is(-250000000)
9223372036854775808=>Is(9223372036854775808)
1000000000000000000000000000000=>Is(1000000000000000000000000000000)
-1000000000000000000000000000000=>Is(-1000000000000000000000000000000)
1000000000000000000000000000001=>Large
-1000000000000000000000000000001=>Large
99999999999999999999999999999999999999999999999999999999999999999999999999=>Large
=>No
-=>No
-0=>No
00=>No
05=>No
-05=>No
+5=>No
--5=>No
5-=>No
 5=>No
5 =>No
0x5=>No";

fn is_read(alloc: Global, case: &str) -> Result<bool, Fail> {
    let (field, want) = sides(case);
    let found = read_num(field.as_bytes());
    is_text(format!(in alloc; "{found:?}"), want)
}

#[test]
fn fields_are_read(rt: HostRuntime) -> Result<(), Fail> {
    for case in FIELDS.lines() {
        assert!(rt; is_read(rt.alloc(), case)?, "{case}");
    }
    Ok(())
}
