//! What a note tells of a certificate or a policy that is refused.
#![tactic(auto, unfolding(crate::specs::NoteText::note_words, crate::specs::NoteText::no_words))]

ghost use Rattle.clr_report.specs.declared.note.Cause.{Cause};
ghost use Rattle.clr_report.specs.Lines.{spaced, words_joined};
ghost use Rattle.clr_report.specs.NoteText.{branch_words, no_words, note_words, rule_text, sides_words};
ghost use Rattle.std.specs.Prelude.{◌≡◌, ◌+◌, ◌≤◌, ◌++◌, length, take};

use crate::pieces::{put_count, put_signed, put_word};
use clr_cert::{No, NoKind};
use clr_rules::Rule;

/// Writes where and why a certificate is refused.
pub(crate) fn put_no(no: No, out: &mut [u8; 256]) -> usize
    ensures end { result ≤ 200 }
    ensures text { take result out.new ≡ words_joined (note_words (Cause.CertificateNo no)) }
{
    let end = put_count(b"certificate no: row", no.row, out);
    put_kind(no.kind, no.left, no.right, end, out)
}

/// Writes what is wrong with a line of a certificate.
fn put_kind(kind: NoKind, left: i128, right: i128, at: usize, out: &mut [u8; 256]) -> usize
    requires { at ≤ 40 }
    ensures end { result ≤ 200 }
    ensures text { take result out.new ≡ take at out.old ++ spaced (no_words kind left right) }
{
    match kind {
        NoKind::Form => put_word(b"form", at, out),
        NoKind::Range => put_word(b"range", at, out),
        NoKind::Short => put_word(b"short", at, out),
        NoKind::Extra => put_word(b"extra", at, out),
        NoKind::Path => put_sides(b"path", left, right, at, out),
        NoKind::Sum => put_sides(b"sum", left, right, at, out),
        NoKind::Low => put_sides(b"low", left, right, at, out),
        NoKind::High => put_sides(b"high", left, right, at, out),
        NoKind::Value => put_sides(b"value", left, right, at, out),
        NoKind::Rung => put_sides(b"rung", left, right, at, out),
        NoKind::JointLow => put_sides(b"jointlow", left, right, at, out),
        NoKind::JointTop => put_sides(b"jointtop", left, right, at, out),
        NoKind::Total => put_sides(b"total", left, right, at, out),
    }
}

/// Writes a word and the two sides of a condition that fails.
fn put_sides(word: &[u8], left: i128, right: i128, at: usize, out: &mut [u8; 256]) -> usize
    requires room { at ≤ 40 }
    requires short { length word.now ≤ 8 }
    ensures end { result ≤ 200 }
    ensures text { take result out.new ≡ take at out.old ++ spaced (sides_words word.now left right) }
{
    let word_end = put_word(word, at, out);
    let end = put_signed(left, word_end, out);
    put_signed(right, end, out)
}

/// Writes which branch of a policy is refused, and a word on why.
pub(crate) fn put_branch(branch: u32, word: &[u8], out: &mut [u8; 256]) -> usize
    requires { length word.now ≤ 8 }
    ensures end { result ≤ 200 }
    ensures text { take result out.new ≡ words_joined (branch_words branch word.now) }
{
    let end = put_count(b"policy no: branch", u64::from(branch), out);
    put_word(word, end, out)
}

/// The word of a rule.
pub(crate) fn rule_name(rule: Rule) -> &'static str
    ensures text { result.now ≡ rule_text rule }
    ensures short { length result.now ≤ 8 }
{
    match rule {
        Rule::Rise => "rise",
        Rule::Window => "window",
        Rule::Frozen => "frozen",
        Rule::Number => "number",
        Rule::Spacing => "spacing",
        Rule::FirstCut => "firstcut",
    }
}
