//! The notes: one line for each cause of a status other than success.
#![tactic(auto, unfolding(crate::specs::NoteText::note_words))]

ghost use Rattle.clr_report.specs.Columns.{doc_text};
ghost use Rattle.clr_report.specs.Lines.{words_joined, IsLine};
ghost use Rattle.clr_report.specs.NoteText.{note_text_of, note_words};
ghost use Rattle.std.specs.Prelude.{◌≡◌, ◌+◌, ◌≤◌, [], ◌∷◌, codes, decimal, length, take};

use crate::pieces::{put, put_count, put_labelled_wide, put_word};
use crate::refusal::{Place, put_refusal};
use crate::verdict::{put_branch, put_no, rule_name};
use clr_cert::No;
use clr_rules::Rule;
use clr_text::Why;

/// A document that the program reads or writes.
#[derive(Clone, Copy)]
pub enum Doc {
    /// The rules of the season, rules.json.
    Rules,
    /// The weeks in which markdowns may be taken, calendar.csv.
    Calendar,
    /// The prices, ladder.csv.
    Ladder,
    /// The stores and their stock, stock.csv.
    Stock,
    /// The demand weights, demand.csv.
    Demand,
    /// The certificate of a plan.
    Certificate,
    /// The policy that is judged, policy.json.
    Policy,
    /// The report on the program's output.
    Report,
}

impl Doc {
    /// The name of the document in a note.
    fn name(self) -> &'static str
        ensures text { result.now ≡ doc_text self }
        ensures short { length result.now ≤ 12 }
    {
        match self {
            Doc::Rules => "rules.json",
            Doc::Calendar => "calendar.csv",
            Doc::Ladder => "ladder.csv",
            Doc::Stock => "stock.csv",
            Doc::Demand => "demand.csv",
            Doc::Certificate => "certificate",
            Doc::Policy => "policy.json",
            Doc::Report => "report",
        }
    }
}

/// Why the program ends with a status other than success.
#[derive(Clone, Copy)]
pub enum Cause {
    /// The words of the command line aren't those of a job.
    Words,
    /// A file of the season breaks a rule of its form.
    Refused {
        /// The file.
        doc: Doc,
        /// The row, from 1 under the header; 0 where the reason has none.
        row: u32,
        /// The column, from 1, of rules.json the field; 0 where the reason has none.
        column: u32,
        /// What is wrong there.
        why: Why,
    },
    /// No path obeys the rules of the season.
    NoPath,
    /// A document could not be read.
    ReadFault {
        /// The document.
        doc: Doc,
    },
    /// A document that the job needs isn't held.
    Absent {
        /// The document.
        doc: Doc,
    },
    /// A document could not be written.
    WriteFault {
        /// The document.
        doc: Doc,
    },
    /// A document has more bytes than its limit.
    TooLong {
        /// The document.
        doc: Doc,
        /// The limit, in bytes.
        max: u64,
    },
    /// The tables of the season would have more cells than their limit.
    Cells {
        /// The number of cells.
        found: u64,
    },
    /// A policy is too large to be judged.
    Size {
        /// Its size.
        found: u64,
    },
    /// The base of the weights, to the number of stores, is too great for a policy to be judged.
    Base,
    /// A certificate is refused.
    CertificateNo {
        /// Where and why.
        no: No,
    },
    /// The policy file is no JSON text.
    PolicyJson,
    /// A policy isn't in the form.
    PolicyShape {
        /// The branch, from 1 in the order in which they end.
        branch: u32,
    },
    /// A policy asks for a store that the season doesn't have.
    PolicyUnknown {
        /// The branch, from 1 in the order in which they end.
        branch: u32,
    },
    /// A branch of a policy breaks a rule.
    PolicyRule {
        /// The branch, from 1 in the order in which they end.
        branch: u32,
        /// The rule.
        rule: Rule,
    },
    /// There was not enough memory.
    Memory,
}

/// What the program says of its words.
const USAGE: &[u8] =
    b"usage: clearance plan|check|judge|make FOLDER [--steps N] [--step N] [--nodes N] [--cert NAME] [--seed N]";

/// Writes the note of a cause to the front of the buffer, and gives its number of bytes.
///
/// A note is one line with its line feed, of docs/formats.md, "Notes". Any cause has a note: a column that the document doesn't
/// have is told by an empty name. This takes no memory.
pub fn note_text(cause: &Cause, out: &mut [u8; 256]) -> usize
    ensures fits { result ≤ 256 }
    ensures text { take result out.new ≡ note_text_of cause.now }
    ensures line { IsLine (take result out.new) }
{
    let end = put_cause(*cause, out);
    put(b"\n", end, out)
}

/// Writes the words of a note.
fn put_cause(cause: Cause, out: &mut [u8; 256]) -> usize
    ensures end { result ≤ 200 }
    ensures text { take result out.new ≡ words_joined (note_words cause) }
{
    match cause {
        Cause::Words => put(USAGE, 0, out),
        Cause::Refused {
            doc,
            row,
            column,
            why,
        } => put_refused(Place { doc, row, column }, why, out),
        Cause::NoPath => put(b"no path", 0, out),
        Cause::ReadFault { doc } => put_doc(b"read fault:", doc, out),
        Cause::Absent { doc } => put_doc(b"absent:", doc, out),
        Cause::WriteFault { doc } => put_doc(b"write fault:", doc, out),
        Cause::TooLong { doc, max } => put_too_long(doc, max, out),
        Cause::Cells { found } => put_count(b"limit: cells", found, out),
        Cause::Size { found } => put_count(b"limit: policy size", found, out),
        Cause::Base => put(b"limit: base", 0, out),
        Cause::CertificateNo { no } => put_no(no, out),
        Cause::PolicyJson => put(b"policy no: json", 0, out),
        Cause::PolicyShape { branch } => put_branch(branch, b"shape", out),
        Cause::PolicyUnknown { branch } => put_branch(branch, b"unknown", out),
        Cause::PolicyRule { branch, rule } => put_branch(branch, rule_name(rule).as_bytes(), out),
        Cause::Memory => put(b"memory", 0, out),
    }
}

/// Writes that a file is refused.
fn put_refused(place: Place, why: Why, out: &mut [u8; 256]) -> usize
    ensures end { result ≤ 200 }
    ensures text { take result out.new ≡
        words_joined (note_words (Cause.Refused place.doc place.row place.column why)) }
{
    let end = put_doc(b"refused:", place.doc, out);
    put_refusal(place, why, end, out)
}

/// Writes that a document is longer than its limit.
fn put_too_long(doc: Doc, max: u64, out: &mut [u8; 256]) -> usize
    ensures end { result ≤ 200 }
    ensures text { take result out.new ≡ words_joined
        (codes "limit:" ∷ doc_text doc ∷ codes "longer than" ∷ decimal max ∷ []) }
{
    let end = put_doc(b"limit:", doc, out);
    put_labelled_wide(b"longer than", max, end, out)
}

/// Writes a phrase and the name of a document.
fn put_doc(phrase: &[u8], doc: Doc, out: &mut [u8; 256]) -> usize
    requires { length phrase.now ≤ 200 }
    ensures end { result ≤ length phrase.now + 13 }
    ensures text { take result out.new ≡ words_joined (phrase.now ∷ doc_text doc ∷ []) }
{
    let end = put(phrase, 0, out);
    put_word(doc.name().as_bytes(), end, out)
}
