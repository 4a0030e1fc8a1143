// One case: a question, what it is asked of, and the answer that is expected.
use crate::ask::Ask;
use crate::bytes::bytes_of;
use anyhow::{Context, anyhow};
use chunk::ByteChunk;
use cue::transcript::transcript;
use faults::{Fault, Reason};
use lanes::Lanes16;
use std::alloc::{AllocError, Global};
use str_indices::lines::count_breaks_up_to;
use str_indices::{chars, utf16};
use utf8::{Checked, check};
use word::Word;

// What a call answered: `ok`, or number and place as `1@0`, a form of the list's own.
fn told<C: Reason>(heap: Global, fault: Option<Fault<C>>) -> Result<String, AllocError> {
    let Some(fault) = fault else {
        return String::from_str(heap, "ok");
    };
    let number = fault.refusal().number;
    let place = fault.place;
    format!(in heap; "{number}@{place}")
}

// The bytes as a text.
fn text_of(bytes: &[u8]) -> anyhow::Result<Checked<'_>> {
    Checked::try_from(bytes).ok().context("no text")
}

// `held GOOD BAD`: a holder that checked GOOD and was refused BAD holds GOOD.
fn held_good(good: &[u8], bad: &[u8]) -> bool {
    let mut held = Checked::new();
    held.check(good).is_ok() && held.check(bad).is_err() && held.bytes() == good
}

// Whether there are so many surrogate pairs, at every head, of a checked text and of its bytes.
fn pairs_agree<K: ByteChunk>(text: Checked<'_>, expected: usize) -> bool {
    (0..K::SIZE).all(|head| {
        utf16::count_surrogates::<K, _>(text, head) == Ok(expected)
            && utf16::count_surrogates::<K, _>(text.bytes(), head) == Ok(expected)
    })
}

// Whether a count of bytes answers so at a head.
fn counts_so<K: ByteChunk>(
    heap: Global,
    head: &str,
    bytes: &str,
    expected: &str,
) -> anyhow::Result<bool> {
    let bytes = bytes_of(heap, bytes)?;
    let answer = chars::count::<K, _>(bytes.as_slice(), head.parse::<usize>()?);
    Ok(told(heap, answer.err())?.as_str() == expected)
}

// What the program prints, with `;` for each line's end and `_` for each space, and `-` for nothing.
fn printed(heap: Global, text: &[u8], cues: &[u8]) -> anyhow::Result<String> {
    let out = transcript(heap, text, cues)?;
    if out.is_empty() {
        return Ok(String::from_str(heap, "-")?);
    }
    let mut word = String::new(heap);
    for c in out.as_str().chars() {
        word.push(match c {
            '\n' => ';',
            ' ' => '_',
            other => other,
        })?;
    }
    Ok(word)
}

// Whether the answer is the one that is expected. A word that is left out stands for `-`, or for `0` if it is the fourth
// or the fifth; those past the last that a question takes say nothing.
pub fn agrees(heap: Global, line: &str) -> anyhow::Result<bool> {
    let mut words: Vec<&str> = line.split_whitespace().collect(heap)?;
    words.resize(words.len().max(3), "-")?;
    words.resize(words.len().max(5), "0")?;
    match *words.as_slice() {
        ["check", bytes, expected, ..] => {
            let bytes = bytes_of(heap, bytes)?;
            Ok(told(heap, check(bytes.as_slice()).err())?.as_str() == expected)
        }
        ["held", good, bad, ..] => {
            let good = bytes_of(heap, good)?;
            let bad = bytes_of(heap, bad)?;
            Ok(held_good(good.as_slice(), bad.as_slice()))
        }
        ["cues", text, cues, expected, ..] => {
            let text = bytes_of(heap, text)?;
            let cues = bytes_of(heap, cues)?;
            Ok(printed(heap, text.as_slice(), cues.as_slice())?.as_str() == expected)
        }
        ["pairs", bytes, expected, ..] => {
            let bytes = bytes_of(heap, bytes)?;
            let expected = expected.parse::<usize>()?;
            let Ok(text) = Checked::try_from(bytes.as_slice()) else {
                return Ok(false);
            };
            Ok(pairs_agree::<Word>(text, expected) && pairs_agree::<Lanes16>(text, expected))
        }
        ["up_to", bytes, max_bytes, max_breaks, expected, ..] => {
            let bytes = bytes_of(heap, bytes)?;
            let (breaks, passed) = count_breaks_up_to(
                bytes.as_slice(),
                max_bytes.parse::<usize>()?,
                max_breaks.parse::<usize>()?,
            );
            Ok(format!(in heap; "{breaks},{passed}")?.as_str() == expected)
        }
        ["word", head, bytes, expected, ..] => counts_so::<Word>(heap, head, bytes, expected),
        ["array", head, bytes, expected, ..] => counts_so::<Lanes16>(heap, head, bytes, expected),
        [question, module, bytes, at, expected, ..] => {
            let question = question.parse()?;
            let bytes = bytes_of(heap, bytes)?;
            let at = at.parse::<usize>()?;
            let expected = expected.parse::<usize>()?;
            let text = text_of(bytes.as_slice())?;
            let ask = Ask {
                question,
                module: module.parse()?,
                at,
            };
            Ok(
                ask.by_bytes(text)? == expected
                    && ask.every_head::<Word>(text, expected)
                    && ask.every_head::<Lanes16>(text, expected),
            )
        }
        // five words stand here: the check wants the other case too
        _ => Err(anyhow!("no such question")),
    }
}
