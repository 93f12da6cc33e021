// The command, and the matches of a line of words.
ghost use Rattle.std.specs.Prelude.{◌≡◌, ◌<◌, ◌^◌, ◌∷◌, [], ℕ, List, IfOk, IsErrOf, true, false, codes, pos, Some, map, string_bytes};
ghost use Rattle.std.specs.Str.Parse.{IsNumeral};
ghost use Rattle.clap.specs.Words.{App, app_of, fault_of, found_of, matches_of, rows_of, rule_of, with_rule};
ghost use Rattle.clr_words.specs.Line.{HasNumbers, clearance, digits_in, line_of, number_in, number_option, place, text_in, text_option};

use crate::WordsError;
use clap::builder::ValueParser;
use clap::error::ErrorKind;
use clap::{Arg, ArgAction, ArgMatches, Command};
use std::alloc::{AllocError, Global};

// A required word at a place of its own.
fn place_word<'a>(alloc: Global, name: &'a str) -> Arg<'a>
    ensures rule { rule_of result ≡ place name.entry.now }
    ensures local { result.global ≡ false }
{
    Arg::new(alloc, name).required(true).action(ArgAction::Set)
}

// An option of a text, with what it is where it isn't given.
fn text_word<'a>(alloc: Global, name: &'a str, standard: &'a str) -> Arg<'a>
    ensures rule { rule_of result ≡ text_option name.entry.now standard.entry.now }
    ensures local { result.global ≡ false }
{
    Arg::new(alloc, name)
        .long(name)
        .action(ArgAction::Set)
        .default_value(standard)
}

// An option of a number within limits, with what it is where it isn't given.
fn number_word<'a>(alloc: Global, name: &'a str, low: u32, high: u32, standard: &'a str) -> Arg<'a>
    ensures rule { rule_of result ≡ number_option name.entry.now low high standard.entry.now }
    ensures local { result.global ≡ false }
{
    text_word(alloc, name, standard).value_parser(ValueParser::Signed(
        i64::from(low),
        i64::from(high),
    ))
}

// The command with one more argument.
fn with_word<'a>(command: Command<'a>, word: Arg<'a>) -> Result<Command<'a>, AllocError>
    requires { word.global ≡ false }
    ensures { IfOk result (λ c. app_of c ≡ with_rule (app_of command.entry) (rule_of word.entry)) }
{
    command.arg(word)
}

// The command of the program.
fn make_command<'a>(alloc: Global) -> Result<Command<'a>, AllocError>
    ensures { IfOk result (λ c. app_of c ≡ clearance) }
{
    let command = Command::new(alloc, "clearance");
    let command = with_word(command, place_word(alloc, "job"))?;
    let command = with_word(command, place_word(alloc, "folder"))?;
    let command = with_word(command, number_word(alloc, "steps", 0, 100, "20"))?;
    let command = with_word(command, number_word(alloc, "step", 1, 10, "1"))?;
    let command = with_word(
        command,
        number_word(alloc, "nodes", 0, 10_000_000, "100000"),
    )?;
    let command = with_word(command, text_word(alloc, "cert", "-"))?;
    with_word(command, number_word(alloc, "seed", 0, 999_999_999, "1"))
}

// The program's name, and then the words.
pub(crate) fn make_line<'a>(alloc: Global, words: &'a [String]) -> Result<Vec<&'a str>, AllocError>
    ensures { IfOk result (λ v. map (λ s. s.now) v.items ≡ line_of (map string_bytes words.entry.now)) }
{
    let mut line: Vec<&'a str> = Vec::new(alloc);
    line.push("clearance")?;
    for word in words {
        line.push(word.as_str())?;
    }
    Ok(line)
}

// The matches of a line.
pub(crate) fn read_line<'a>(
    alloc: Global,
    line: &'a [&'a str],
) -> Result<ArgMatches<'a>, WordsError>
    ensures matches { IfOk result (λ m. rows_of (found_of m) ≡ matches_of clearance (map (λ s. s.now) line.entry.now)) }
    ensures numbers { IfOk result (λ m. HasNumbers (rows_of (found_of m))) }
    ensures taken { IfOk result (λ m. fault_of clearance (map (λ s. s.now) line.entry.now) ≡ []) }
    ensures faulty { IsErrOf result WordsError.Faulty → fault_of clearance (map (λ s. s.now) line.entry.now) ≡ [] → ⊥ }
{
    let Ok(command) = make_command(alloc) else {
        return Err(WordsError::Memory);
    };
    match command.try_get_matches_from(line) {
        Ok(matches) => Ok(matches),
        Err(error) => Err(match error.kind() {
            ErrorKind::OutOfMemory => WordsError::Memory,
            _ => WordsError::Faulty,
        }),
    }
}

// The value of an argument, as it was written.
pub(crate) fn text<'a>(matches: &ArgMatches<'a>, name: &str) -> &'a str
    ensures { result.now ≡ text_in name.now (rows_of (found_of matches.now)) }
{
    matches.get_str(name).unwrap_or("")
}

// The number that is the value of an option.
pub(crate) fn number(matches: &ArgMatches<'_>, name: &str) -> u64
    requires numeral { IsNumeral 10 (digits_in name.now (rows_of (found_of matches.now))) }
    requires fits { number_in name.now (rows_of (found_of matches.now)) < 2 ^ 64 }
    ensures { result ≡ number_in name.now (rows_of (found_of matches.now)) }
{
    matches.get_one::<u64>(name).unwrap_or(0)
}
