// Plays a table of cases on both chunk kinds, and prints for each step how many agree with what the table expects.
#![tactic(auto)]

mod case;
mod kind;
mod play;

use crate::case::{Case, Step, read_case};
use crate::kind::Shown;
use crate::play::agrees;
use lanes::Lanes16;
use std::{fmt, fs};
use word::Word;

// The cases of one step so far.
#[derive(Clone, Copy)]
struct Tally {
    step: Step,
    cases: usize,
    word: usize,
    lanes: usize,
}

impl Tally {
    fn new(step: Step) -> Tally {
        Tally {
            step,
            cases: 0,
            word: 0,
            lanes: 0,
        }
    }
}

impl fmt::Display for Tally {
    fn fmt<W: fmt::Write>(&self, f: &mut fmt::Formatter<W>) -> fmt::Result {
        let Tally {
            step,
            cases,
            word,
            lanes,
        } = *self;
        write!(
            f,
            "{step}: {cases} cases, {word} agree on the word, {lanes} on the array"
        )
    }
}

// Whether a kind answers a case as expected; where it does not, prints so.
fn play_on<K: Shown>(
    rt: &HostRuntime,
    kind: &str,
    line: &str,
    case: &Case,
    expected: Option<&[u8]>,
) -> anyhow::Result<bool> {
    let agreed = agrees::<K>(case.step, case.x.as_slice(), case.y.as_slice(), expected);
    if !agreed {
        println!(rt; "the {kind} does not agree: {line}")?;
    }
    Ok(agreed)
}

// Plays one case on both kinds.
fn play_case(rt: &HostRuntime, line: &str, case: &Case, tally: &mut Tally) -> anyhow::Result<()> {
    let word = play_on::<Word>(rt, "word", line, case, case.eight.as_deref())?;
    let lanes = play_on::<Lanes16>(rt, "array", line, case, case.sixteen.as_deref())?;
    tally.cases = tally.cases.wrapping_add(1);
    tally.word = tally.word.wrapping_add(word as usize);
    tally.lanes = tally.lanes.wrapping_add(lanes as usize);
    Ok(())
}

fn play_table(rt: &HostRuntime, table: &str) -> anyhow::Result<()> {
    let mut tally = Tally::new(Step::Load);
    for line in table.lines() {
        if line.is_empty() || line.starts_with('#') {
            continue;
        }
        let case = read_case(rt.alloc(), line)?;
        if case.step != tally.step {
            println!(rt; "{tally}")?;
            tally = Tally::new(case.step);
        }
        play_case(rt, line, &case, &mut tally)?;
    }
    println!(rt; "{tally}")?;
    Ok(())
}

fn run(rt: &HostRuntime) -> anyhow::Result<()> {
    let table = fs::read_to_string(rt, "cases.txt")?;
    play_table(rt, table.as_str())
}

fn main(rt: HostRuntime) -> anyhow::Result<()> {
    run(&rt)
}
