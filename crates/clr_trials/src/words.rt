// Words of the command line, and what they ask.
use crate::cases::{Kind, assert_cases};
use crate::tables::sides;
use clr_words::{WordsError, read_words};
use std::alloc::{AllocError, Global};
use std::test::Fail;

// The answer to some words: job, folder, steps, step, nodes, certificate and seed, or the error.
fn shown(alloc: Global, words: &[String]) -> Result<String, AllocError> {
    match read_words(alloc, words) {
        Ok(asked) => format!(in alloc;
            "{:?} {} {} {} {} {} {}",
            asked.job, asked.folder, asked.steps, asked.step, asked.nodes, asked.cert, asked.seed
        ),
        Err(WordsError::Faulty) => String::from_str(alloc, "faulty"),
        Err(WordsError::Memory) => String::from_str(alloc, "memory"),
    }
}

// The words of a case, which stand with a comma between them.
fn words_of(alloc: Global, text: &str) -> Result<Vec<String>, AllocError> {
    let mut words = Vec::new(alloc);
    if text.is_empty() {
        return Ok(words);
    }
    for word in text.split(',') {
        words.push(String::from_str(alloc, word)?)?;
    }
    Ok(words)
}

/// Whether the words of a case are answered as it says. A line that begins with `#` is a heading.
pub(crate) fn is_answered(alloc: Global, case: &str) -> Result<bool, AllocError> {
    if case.starts_with('#') {
        return Ok(true);
    }
    let (text, want) = sides(case);
    let words = words_of(alloc, text)?;
    Ok(shown(alloc, &words)?.as_str() == want)
}

// Words, and what they ask.
const ASKED: &str = "plan,f=>Plan f 20 1 100000 - 1
check,f=>Check f 20 1 100000 - 1
judge,f=>Judge f 20 1 100000 - 1
make,f=>Make f 20 1 100000 - 1
# each option, in both spellings
plan,f,--steps,3=>Plan f 3 1 100000 - 1
plan,f,--steps=3=>Plan f 3 1 100000 - 1
plan,f,--step,2=>Plan f 20 2 100000 - 1
plan,f,--step=2=>Plan f 20 2 100000 - 1
plan,f,--nodes,5=>Plan f 20 1 5 - 1
plan,f,--nodes=5=>Plan f 20 1 5 - 1
plan,f,--cert,c=>Plan f 20 1 100000 c 1
plan,f,--cert=c=>Plan f 20 1 100000 c 1
plan,f,--seed,7=>Plan f 20 1 100000 - 7
plan,f,--seed=7=>Plan f 20 1 100000 - 7
# options before the job and between
--steps,3,plan,f=>Plan f 3 1 100000 - 1
plan,--steps=3,f=>Plan f 3 1 100000 - 1
--seed,7,--cert,c,make,--nodes,5,f,--step,2,--steps=3=>Make f 3 2 5 c 7
# the limits
plan,f,--steps,0=>Plan f 0 1 100000 - 1
plan,f,--steps,100=>Plan f 100 1 100000 - 1
plan,f,--step,1=>Plan f 20 1 100000 - 1
plan,f,--step,10=>Plan f 20 10 100000 - 1
plan,f,--nodes,0=>Plan f 20 1 0 - 1
plan,f,--nodes,10000000=>Plan f 20 1 10000000 - 1
plan,f,--seed,0=>Plan f 20 1 100000 - 0
plan,f,--seed,999999999=>Plan f 20 1 100000 - 999999999
# further spellings of a number
plan,f,--steps,007=>Plan f 7 1 100000 - 1
plan,f,--steps,+5=>Plan f 5 1 100000 - 1
plan,f,--steps=-0=>Plan f 0 1 100000 - 1
# a dash alone is a value, and no option comes behind two
plan,f,--cert,-=>Plan f 20 1 100000 - 1
plan,-=>Plan - 20 1 100000 - 1
plan,--,-f=>Plan -f 20 1 100000 - 1
--,plan,f=>Plan f 20 1 100000 - 1
plan,--,--steps=>Plan --steps 20 1 100000 - 1
# texts are taken as they are
plan,=>Plan  20 1 100000 - 1
plan,f,--cert==>Plan f 20 1 100000  1
plan,a b/c=>Plan a b/c 20 1 100000 - 1
plan,plan=>Plan plan 20 1 100000 - 1";

// Words that ask nothing, first of all none.
const FAULTY: &str = "=>faulty
plan=>faulty
--steps,3=>faulty
# a job that is none of the four
paint,f=>faulty
Plan,f=>faulty
,f=>faulty
help,f=>faulty
help=>faulty
# one word too many
plan,f,g=>faulty
plan,f,--steps,3,4=>faulty
plan,--,f,--steps,3=>faulty
# no such option
plan,-f=>faulty
plan,f,-s,3=>faulty
plan,f,--speed,3=>faulty
plan,f,--ste,3=>faulty
# no value
plan,f,--steps=>faulty
plan,f,--cert=>faulty
plan,f,--steps==>faulty
plan,f,--steps,=>faulty
# no number
plan,f,--steps,x=>faulty
plan,f,--steps,1.5=>faulty
plan,f,--steps, 3=>faulty
plan,f,--steps,0x3=>faulty
# past the limits
plan,f,--steps,101=>faulty
plan,f,--steps=-1=>faulty
plan,f,--step,0=>faulty
plan,f,--step,11=>faulty
plan,f,--nodes,10000001=>faulty
plan,f,--seed,1000000000=>faulty
plan,f,--seed,99999999999999999999=>faulty
# an option twice
plan,f,--steps,3,--steps,3=>faulty
--cert=c,plan,f,--cert=d=>faulty
# texts to show
--help=>faulty
plan,f,--help=>faulty
-h=>faulty
--version=>faulty
-V=>faulty";

#[test]
fn words_are_answered(rt: HostRuntime) -> Result<(), Fail> {
    assert_cases(&rt, rt.alloc(), Kind::Words, ASKED)?;
    assert_cases(&rt, rt.alloc(), Kind::Words, FAULTY)
}
