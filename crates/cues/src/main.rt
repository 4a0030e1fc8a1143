// Reads a text and a cue file, and prints the place of each cue.
#![tactic(auto)]

use cue::transcript::transcript;
use std::{fs, io};

// What the file holds; nothing, if it cannot be read.
fn read_or_empty(rt: &HostRuntime, path: &str) -> Vec<u8> {
    fs::read(rt, path).unwrap_or_else(|_| Vec::new(rt.alloc()))
}

fn main(rt: HostRuntime) -> io::Result<()> {
    let text = read_or_empty(&rt, "script.txt");
    let cues = read_or_empty(&rt, "script.cue");
    let out = transcript(rt.alloc(), text.as_slice(), cues.as_slice())?;
    rt.print(out.as_str())
}
