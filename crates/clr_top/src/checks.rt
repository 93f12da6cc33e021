// Certificates that a run checks. Worked ones, with a line that is changed, are read in pieces of several lengths.
use crate::cases::{Held, TWO_WEEKS, held, is_told, number_of};
use crate::certs::{CERTIFICATE, STEPPED, TWO_STORES, VERSION_3};
use std::alloc::{AllocError, Global};
use std::process::Abort;
use std::test::Fail;

// A season, the files of it that are others, and its certificate.
#[derive(Clone, Copy)]
struct Certified {
    season: &'static str,
    over: &'static str,
    certificate: &'static str,
}

const FIRST_VERSION: Certified = Certified {
    season: TWO_WEEKS,
    over: "",
    certificate: CERTIFICATE,
};

const THIRD_VERSION: Certified = Certified {
    season: TWO_WEEKS,
    over: VERSION_3,
    certificate: CERTIFICATE,
};

const TWO_STEPS: Certified = Certified {
    season: TWO_STORES,
    over: "",
    certificate: STEPPED,
};

// A line of a certificate, what stands in its place, and behind `=` what is told. A line may have 65,536 bytes, and not one more.
const CHANGED: &str =
    "path,1,2 -> path,1,2=0 season 1 stores 2 weeks 2 rungs base 2|certificate yes|path 1 2|prices 10.00 4.00|revenue 11.00000000 11.00000000|bound 11.50000000|exact 11.50000000 11.50000000|
v,0,1,1,0,1,0,750000000,1150000000 -> v,0,1,1,0,1,0,750000000,1149999999=7 certificate no: row 29 value 2299999998 2300000000
l,1,1,0,400000000,800000000 -> l,1,1,00,400000000,800000000=7 certificate no: row 17 form
l,1,1,0,400000000,800000000 -> l,1,1,0,+400000000,800000000=7 certificate no: row 17 form
m,1,1,0 -> m,1,1,<# 1 65530 9>=7 certificate no: row 3 range
m,1,1,0 -> m,1,1,<# 1 65531 9>=7 certificate no: row 3 form
path,1,2 -> path,1,3=7 certificate no: row 2 range
path,1,2 -> path,2,1=7 certificate no: row 2 path 2 1
exact,1150000000,1150000000 -> exact,1150000000,1150000000|x=7 certificate no: row 36 extra
exact,1150000000,1150000000| -> =7 certificate no: row 35 short
exact,1150000000,1150000000| -> exact,1150000000,115=7 certificate no: row 35 short";

// The same in version 3, where a second line tells how many lines there are.
const CHANGED_IN_VERSION_3: &str =
    "clearance certificate 1 -> clearance certificate 2|lengths,36,1,2,2=0 season 1 stores 2 weeks 2 rungs base 2|certificate yes|path 1 2|prices 10.00 4.00|revenue 11.00000000 11.00000000|bound 11.50000000|exact 11.50000000 11.50000000|
clearance certificate 1 -> clearance certificate 1=7 certificate no: row 1 form
clearance certificate 1 -> clearance certificate 2|lengths,35,1,2,2=7 certificate no: row 2 form
clearance certificate 1 -> clearance certificate 2|lengths,37,1,2,2=7 certificate no: row 2 form";

// The same of two stores that multipliers draw together.
const CHANGED_OF_TWO_STORES: &str =
    "path,2 -> path,2=0 season 2 stores 1 weeks 2 rungs base 2|certificate yes|path 2|prices 6.00|revenue 12.00000000 12.00000000|bound 12.00000000|exact 12.00000000 12.00000000|
m,1,1,-250000000,250000000 -> m,1,1,-250000000,250000001=7 certificate no: row 3 sum 1 0
v,0,2,1,0,1,250000000,350000000 -> v,0,2,1,0,1,250000000,349999999=7 certificate no: row 26 value 1199999998 1200000000";

// The files of the season, and the certificate with other lines in the place of a line.
fn changed(
    alloc: Global,
    certified: Certified,
    line: &str,
    other: &str,
) -> Result<Held, AllocError> {
    let certificate = certified.certificate.replace(alloc, line, other)?;
    let case = format!(in alloc; "{}\n{certificate}", certified.over)?;
    held(alloc, "f", certified.season, case.as_str())
}

// The certificate of a line is answered as the line tells, in pieces of each length.
fn is_changed(alloc: Global, certified: Certified, case: &str) -> Result<bool, AllocError> {
    let (change, told) = case.split_once('=').unwrap_or((case, ""));
    let (line, other) = change.split_once(" -> ").unwrap_or((change, ""));
    for piece in [1, 16, 65_536] {
        let files = changed(alloc, certified, line, other)?;
        if !is_told(alloc, "check f", files, piece, 0, told)? {
            return Ok(false);
        }
    }
    Ok(true)
}

// Checks each change of a certificate.
fn assert_changed(
    rt: &impl Abort,
    alloc: Global,
    certified: Certified,
    cases: &str,
) -> Result<(), Fail> {
    for case in cases.lines() {
        assert!(rt; is_changed(alloc, certified, case)?, "{case}");
    }
    Ok(())
}

#[test]
fn certificates_are_checked(rt: HostRuntime) -> Result<(), Fail> {
    assert_changed(&rt, rt.alloc(), FIRST_VERSION, CHANGED)?;
    assert_changed(&rt, rt.alloc(), THIRD_VERSION, CHANGED_IN_VERSION_3)?;
    assert_changed(&rt, rt.alloc(), TWO_STEPS, CHANGED_OF_TWO_STORES)
}

// The call that fails, and what is told. Each of the four files before the certificate takes an opening, a read, and a read at its end.
const FAULTS: &str = "13=4 read fault: certificate
14=4 read fault: certificate
15=4 read fault: certificate
16=0 season 1 stores 2 weeks 2 rungs base 2|certificate yes|path 1 2|prices 10.00 4.00|revenue 11.00000000 11.00000000|bound 11.50000000|exact 11.50000000 11.50000000|";

// The fault of a line is answered as the line tells.
fn is_fault_told(alloc: Global, line: &str) -> Result<bool, AllocError> {
    let (fail, told) = line.split_once('=').unwrap_or((line, ""));
    let files = held(alloc, "f", TWO_WEEKS, CERTIFICATE)?;
    is_told(alloc, "check f", files, 65_536, number_of(fail), told)
}

#[test]
fn shelves_fail_at_certificates(rt: HostRuntime) -> Result<(), Fail> {
    for line in FAULTS.lines() {
        assert!(rt; is_fault_told(rt.alloc(), line)?, "{line}");
    }
    Ok(())
}
