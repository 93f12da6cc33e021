// Each note's text.
use crate::seasons::sides;
use clr_cert::{No, NoKind};
use clr_report::{Cause, Doc, note_text};
use clr_rules::Rule;
use clr_text::Why;

// Causes as words, and the lines that tell them: of refusals by files, rows, columns and reasons, of a policy's branches by their
// numbers and rules, and of a certificate's row 29 by kinds with their two sides.
const CAUSES: &str =
    "Words=>usage: clearance plan|check|judge|make FOLDER [--steps N] [--step N] [--nodes N] [--cert NAME] [--seed N]
NoPath=>no path
ReadFault Rules=>read fault: rules.json
ReadFault Calendar=>read fault: calendar.csv
ReadFault Ladder=>read fault: ladder.csv
ReadFault Stock=>read fault: stock.csv
ReadFault Demand=>read fault: demand.csv
Absent Demand=>absent: demand.csv
Absent Policy=>absent: policy.json
Absent Certificate=>absent: certificate
ReadFault Certificate=>read fault: certificate
ReadFault Policy=>read fault: policy.json
WriteFault Rules=>write fault: rules.json
WriteFault Certificate=>write fault: certificate
WriteFault Report=>write fault: report
TooLong Demand 33554432=>limit: demand.csv longer than 33554432
TooLong Certificate 268435456=>limit: certificate longer than 268435456
Cells 16000250=>limit: cells 16000250
Size 100000001=>limit: policy size 100000001
Size 18446744073709551615=>limit: policy size 18446744073709551615
Base=>limit: base
PolicyJson=>policy no: json
PolicyShape 1=>policy no: branch 1 shape
PolicyShape 4294967295=>policy no: branch 4294967295 shape
PolicyUnknown 12=>policy no: branch 12 unknown
PolicyRule 1 Rise=>policy no: branch 1 rise
PolicyRule 2 Window=>policy no: branch 2 window
PolicyRule 3 Frozen=>policy no: branch 3 frozen
PolicyRule 40 Number=>policy no: branch 40 number
PolicyRule 50 Spacing=>policy no: branch 50 spacing
PolicyRule 600 FirstCut=>policy no: branch 600 firstcut
Memory=>memory
Refused Rules 0 0 Json=>refused: rules.json json
Refused Rules 0 0 Field=>refused: rules.json field
Refused Rules 0 3 Missing=>refused: rules.json base missing
Refused Rules 0 2 Range=>refused: rules.json weeks range
Refused Rules 0 7 Number=>refused: rules.json calendar number
Refused Stock 0 0 Header=>refused: stock.csv header
Refused Demand 12 0 Fields=>refused: demand.csv row 12 fields
Refused Stock 0 0 Count 0=>refused: stock.csv count 0
Refused Stock 0 0 Count 65=>refused: stock.csv count 65
Refused Demand 1 1 Unknown=>refused: demand.csv row 1 column store unknown
Refused Demand 1 4 Range=>refused: demand.csv row 1 column units range
Refused Demand 1 5 Range=>refused: demand.csv row 1 column weight range
Refused Ladder 1 2 Money=>refused: ladder.csv row 1 column price money
Refused Ladder 2 2 Order=>refused: ladder.csv row 2 column price order
Refused Calendar 1 3 Order=>refused: calendar.csv row 1 column to order
Refused Stock 64 1 Name=>refused: stock.csv row 64 column store name
Refused Stock 1 4 Money=>refused: stock.csv row 1 column relabel money
Refused Demand 1 2 Number=>refused: demand.csv row 1 column week number
Refused Demand 3 0 Repeat 2=>refused: demand.csv row 3 repeat of row 2
Refused Demand 0 0 Total 1 1 1 3=>refused: demand.csv store 1 week 1 rung 1 total 3
Refused Demand 0 0 Total 64 52 12 201000000=>refused: demand.csv store 64 week 52 rung 12 total 201000000
No Form 0 0=>certificate no: row 29 form
No Range 0 0=>certificate no: row 29 range
No Short 0 0=>certificate no: row 29 short
No Extra 0 0=>certificate no: row 29 extra
No Path 2 1=>certificate no: row 29 path 2 1
No Sum 1 0=>certificate no: row 29 sum 1 0
No Low 3 0=>certificate no: row 29 low 3 0
No High -1 0=>certificate no: row 29 high -1 0
No Value 2299999998 2300000000=>certificate no: row 29 value 2299999998 2300000000
No Rung 2 1=>certificate no: row 29 rung 2 1
No JointLow 1 0=>certificate no: row 29 jointlow 1 0
No JointTop -2 0=>certificate no: row 29 jointtop -2 0
No Total 7 6=>certificate no: row 29 total 7 6";

// A number that stands in a text; 0 where none does.
fn number(text: &str) -> i128 {
    text.parse::<i128>().unwrap_or(0)
}

fn small(text: &str) -> u32 {
    u32::try_from(number(text)).unwrap_or(0)
}

fn large(text: &str) -> u64 {
    u64::try_from(number(text)).unwrap_or(0)
}

// The first word of a text, and what stands behind it.
fn word(text: &str) -> (&str, &str) {
    text.split_once(' ').unwrap_or((text, ""))
}

fn doc_of(name: &str) -> Option<Doc> {
    match name {
        "Rules" => Some(Doc::Rules),
        "Calendar" => Some(Doc::Calendar),
        "Ladder" => Some(Doc::Ladder),
        "Stock" => Some(Doc::Stock),
        "Demand" => Some(Doc::Demand),
        "Certificate" => Some(Doc::Certificate),
        "Policy" => Some(Doc::Policy),
        "Report" => Some(Doc::Report),
        _ => None,
    }
}

// A reason without numbers.
fn plain_why(name: &str) -> Option<Why> {
    match name {
        "Header" => Some(Why::Header),
        "Fields" => Some(Why::Fields),
        "Number" => Some(Why::Number),
        "Money" => Some(Why::Money),
        "Name" => Some(Why::Name),
        "Range" => Some(Why::Range),
        "Order" => Some(Why::Order),
        "Unknown" => Some(Why::Unknown),
        "Json" => Some(Why::Json),
        "Field" => Some(Why::Field),
        "Missing" => Some(Why::Missing),
        _ => None,
    }
}

// The reason that a total of weights is: a store, a week, a rung and what was found.
fn total(text: &str) -> Why {
    let (store, text) = word(text);
    let (week, text) = word(text);
    let (rung, found) = word(text);
    Why::Total {
        store: small(store),
        week: small(week),
        rung: small(rung),
        found: large(found),
    }
}

// A reason, with its numbers behind its name.
fn why_of(text: &str) -> Option<Why> {
    let (name, numbers) = word(text);
    match name {
        "Repeat" => Some(Why::Repeat {
            first_row: small(numbers),
        }),
        "Count" => Some(Why::Count {
            found: small(numbers),
        }),
        "Total" => Some(total(numbers)),
        _ => plain_why(name),
    }
}

// A refusal's row, column and reason.
fn refused(doc: Doc, text: &str) -> Option<Cause> {
    let (row, text) = word(text);
    let (column, why) = word(text);
    let why = why_of(why)?;
    Some(Cause::Refused {
        doc,
        row: small(row),
        column: small(column),
        why,
    })
}

// What ails a file, as its word says; what stands behind the file's name is a number, or for a refusal more.
fn cause_of(name: &str, doc: Doc, text: &str) -> Option<Cause> {
    match name {
        "ReadFault" => Some(Cause::ReadFault { doc }),
        "Absent" => Some(Cause::Absent { doc }),
        "WriteFault" => Some(Cause::WriteFault { doc }),
        "TooLong" => Some(Cause::TooLong {
            doc,
            max: large(text),
        }),
        "Refused" => refused(doc, text),
        _ => None,
    }
}

fn kind_of(name: &str) -> Option<NoKind> {
    match name {
        "Form" => Some(NoKind::Form),
        "Range" => Some(NoKind::Range),
        "Short" => Some(NoKind::Short),
        "Extra" => Some(NoKind::Extra),
        "Path" => Some(NoKind::Path),
        "Sum" => Some(NoKind::Sum),
        "Low" => Some(NoKind::Low),
        "High" => Some(NoKind::High),
        "Value" => Some(NoKind::Value),
        "Rung" => Some(NoKind::Rung),
        "JointLow" => Some(NoKind::JointLow),
        "JointTop" => Some(NoKind::JointTop),
        "Total" => Some(NoKind::Total),
        _ => None,
    }
}

fn certificate_no(text: &str) -> Option<Cause> {
    let (kind, sides) = word(text);
    let (left, right) = word(sides);
    let kind = kind_of(kind)?;
    let no = No {
        row: 29,
        kind,
        left: number(left),
        right: number(right),
    };
    Some(Cause::CertificateNo { no })
}

fn rule_of(name: &str) -> Option<Rule> {
    match name {
        "Rise" => Some(Rule::Rise),
        "Window" => Some(Rule::Window),
        "Frozen" => Some(Rule::Frozen),
        "Number" => Some(Rule::Number),
        "Spacing" => Some(Rule::Spacing),
        "FirstCut" => Some(Rule::FirstCut),
        _ => None,
    }
}

// What ails a branch of a policy: its number, and behind it the rule that it breaks.
fn policy_cause(name: &str, text: &str) -> Option<Cause> {
    let (branch, rule) = word(text);
    let branch = small(branch);
    match name {
        "PolicyShape" => Some(Cause::PolicyShape { branch }),
        "PolicyUnknown" => Some(Cause::PolicyUnknown { branch }),
        "PolicyRule" => Some(Cause::PolicyRule {
            branch,
            rule: rule_of(rule)?,
        }),
        _ => None,
    }
}

// The cause that some words are.
fn read_cause(words: &str) -> Option<Cause> {
    let (name, text) = word(words);
    match name {
        "Words" => Some(Cause::Words),
        "NoPath" => Some(Cause::NoPath),
        "Memory" => Some(Cause::Memory),
        "Cells" => Some(Cause::Cells { found: large(text) }),
        "Size" => Some(Cause::Size { found: large(text) }),
        "Base" => Some(Cause::Base),
        "PolicyJson" => Some(Cause::PolicyJson),
        "PolicyShape" | "PolicyUnknown" | "PolicyRule" => policy_cause(name, text),
        "No" => certificate_no(text),
        _ => {
            let (doc, text) = word(text);
            cause_of(name, doc_of(doc)?, text)
        }
    }
}

// Whether the cause of a case is told in its line.
fn is_told(case: &str) -> bool {
    let (words, want) = sides(case);
    let Some(cause) = read_cause(words) else {
        return false;
    };
    let mut out = [0; 256];
    let end = note_text(&cause, &mut out);
    out[..end].strip_suffix(b"\n") == Some(want.as_bytes())
}

#[test]
fn writes_each_note(rt: HostRuntime) {
    for case in CAUSES.lines() {
        assert!(rt; is_told(case), "{case}");
    }
}
