// The reading of the words.
ghost use Rattle.std.specs.Prelude.{◌≡◌, IfOk, map, string_bytes};
ghost use Rattle.clap.specs.Words.{found_of, rows_of};
ghost use Rattle.clr_words.specs.Asked.{Answers, IsAsk, ask_of, asked_in, asked_of, job_of};
ghost use Rattle.clr_words.specs.Line.{HasNumbers};

use crate::line::{make_line, number, read_line, text};
use crate::{Asked, Job, WordsError};
use clap::ArgMatches;
use std::alloc::Global;

// The job of a word.
fn named_job(word: &str) -> Option<Job>
    ensures { result ≡ job_of word.now }
{
    match word {
        "plan" => Some(Job::Plan),
        "check" => Some(Job::Check),
        "judge" => Some(Job::Judge),
        "make" => Some(Job::Make),
        _ => None,
    }
}

// What the matches of the words ask.
#[tactic(auto, unfolding(crate::specs::Asked::asked_in))]
fn asked_by(alloc: Global, matches: &ArgMatches<'_>) -> Result<Asked, WordsError>
    requires { HasNumbers (rows_of (found_of matches.now)) }
    ensures answers { Answers result (asked_in (rows_of (found_of matches.now))) }
    ensures facts { IfOk result (λ asked. IsAsk (ask_of asked)) }
{
    let Some(job) = named_job(text(matches, "job")) else {
        return Err(WordsError::Faulty);
    };
    let Ok(folder) = String::from_str(alloc, text(matches, "folder")) else {
        return Err(WordsError::Memory);
    };
    let Ok(cert) = String::from_str(alloc, text(matches, "cert")) else {
        return Err(WordsError::Memory);
    };
    Ok(Asked {
        job,
        folder,
        steps: number(matches, "steps") as u32,
        step: number(matches, "step") as u32,
        nodes: number(matches, "nodes"),
        cert,
        seed: number(matches, "seed") as u32,
    })
}

/// What the words behind the program's name ask: those of docs/formats.md, "Words".
///
/// # Errors
/// `Faulty` comes exactly where `clap` refuses the words for another cause than memory, `--help`
/// and `--version` among them, or the job is none of `plan`, `check`, `judge` and `make`. Want of
/// memory may come in place of any answer.
#[tactic(auto, unfolding(crate::specs::Asked::asked_of))]
pub fn read_words(alloc: Global, words: &[String]) -> Result<Asked, WordsError>
    ensures answers { Answers result (asked_of (map string_bytes words.now)) }
    ensures facts { IfOk result (λ asked. IsAsk (ask_of asked)) }
{
    let Ok(line) = make_line(alloc, words) else {
        return Err(WordsError::Memory);
    };
    match read_line(alloc, &line) {
        Ok(matches) => asked_by(alloc, &matches),
        Err(error) => Err(error),
    }
}
