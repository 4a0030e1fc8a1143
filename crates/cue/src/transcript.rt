// The whole of what the program prints: a line for each record, up to the first refusal.
ghost use Rattle.std.specs.Prelude.{◌≡◌, ◌++◌, IfOk, None, OnOk, Some, string_bytes, MatchResult};
ghost use Rattle.cue.specs.Prints.{line_of, refused_line, not_admitted, too_large, OnlyPrints};
ghost use Rattle.cue.specs.Steps.{Played, Ran};

use crate::place::place_of;
use crate::record::{Cue, record_at};
use crate::stop::Stop;
use faults::cue::{Cause, Fault};
use std::alloc::{AllocError, Global};
use utf8::Checked;

// the largest text and the largest cue file, in bytes
const MAX_TEXT: usize = 16384;

const MAX_CUES: usize = 4096;

fn too_large(limit: usize) -> Fault
    ensures { result ≡ too_large limit }
{
    Fault {
        place: limit,
        cause: Cause::TooLarge,
    }
}

// The text, unless a file is too large or the text is none.
fn admit<'a>(text: &'a [u8], cues: &[u8]) -> Result<Checked<'a>, Fault>
    ensures { MatchResult result (λ t. (not_admitted text.now cues.now ≡ None) × (t.bytes.now ≡ text.now)) (λ f. not_admitted text.now cues.now ≡ Some f) }
{
    if text.len() > MAX_TEXT {
        return Err(too_large(MAX_TEXT));
    }
    let text = Checked::try_from(text)?;
    if cues.len() > MAX_CUES {
        return Err(too_large(MAX_CUES));
    }
    Ok(text)
}

fn add_line(out: &mut String, number: usize, cue: Cue, place: usize) -> Result<(), AllocError>
    ensures { OnOk result (string_bytes out.new ≡ string_bytes out.old ++ line_of number cue place) }
{
    let kind = u8::from(cue.kind());
    writeln!(out, "{number} {kind} {place}")
}

fn add_refusal(out: &mut String, fault: Fault) -> Result<(), AllocError>
    ensures { OnOk result (string_bytes out.new ≡ string_bytes out.old ++ refused_line fault) }
{
    writeln!(out, "{fault}")
}

// Adds the line of each record, up to one that is refused.
fn play(out: &mut String, text: Checked<'_>, cues: &[u8]) -> Result<(), Stop>
    ensures { Played text.entry.bytes.now cues.now (string_bytes out.old) result (string_bytes out.new) }
{
    let mut at = 0;
    let mut number = 0;
    // no iterator: it would keep the place besides, and that a refused record ended it
    while let Some(record) = record_at(cues, at)? {
        number += 1;
        let place = place_of(text, record.cue)?;
        add_line(out, number, record.cue, place)?;
        at = record.next;
    }
    Ok(())
}

fn run(out: &mut String, text: &[u8], cues: &[u8]) -> Result<(), Stop>
    ensures { Ran text.now cues.now (string_bytes out.old) result (string_bytes out.new) }
{
    let text = admit(text, cues)?;
    play(out, text, cues)
}

// What the program prints of a text and a cue file.
pub fn transcript(heap: Global, text: &[u8], cues: &[u8]) -> Result<String, AllocError>
    ensures { IfOk result (λ s. OnlyPrints text.now cues.now (string_bytes s)) }
{
    let mut out = String::new(heap);
    match run(&mut out, text, cues) {
        Ok(()) => Ok(out),
        Err(Stop::Refused(fault)) => {
            add_refusal(&mut out, fault)?;
            Ok(out)
        }
        Err(Stop::NoMemory(error)) => Err(error),
    }
}
