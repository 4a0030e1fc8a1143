// Replays a list of cases whose answers come from outside, and prints how many agree.
#![tactic(auto)]

mod ask;
mod bytes;
mod case;

use case::agrees;
use std::fs;

fn run(rt: &HostRuntime) -> anyhow::Result<()> {
    let list = fs::read_to_string(rt, "cases.txt")?;
    let mut agreed = 0u32;
    let mut asked = 0u32;
    for line in list.as_str().lines() {
        if line.is_empty() || line.starts_with('#') {
            continue;
        }
        asked = asked.saturating_add(1);
        if agrees(rt.alloc(), line)? {
            agreed = agreed.saturating_add(1);
        } else {
            println!(rt; "differs: {line}")?;
        }
    }
    println!(rt; "{agreed} of {asked} cases agree")?;
    Ok(())
}

fn main(rt: HostRuntime) -> anyhow::Result<()> {
    run(&rt)
}
