// Bytes as a case writes them: `61C3A9`, `-` for none, and `61*7,C285` for seven bytes 61 and then C2 85.
use anyhow::Context;
use std::alloc::Global;

// By hand, since the list has digits in upper case alone, which the library's readers do not ask for.
fn digit(byte: u8) -> Option<u8> {
    match byte {
        b'0'..=b'9' => Some(byte - b'0'),
        b'A'..=b'F' => Some(byte - b'A' + 10),
        _ => None,
    }
}

// Adds the bytes of a row of pairs of digits. What is left after the last pair says nothing.
fn add_row(bytes: &mut Vec<u8>, row: &str) -> anyhow::Result<()> {
    for pair in row.as_bytes().chunks_exact(2) {
        let high = digit(pair[0]).context("no hexadecimal digit")?;
        let low = digit(pair[1]).context("no hexadecimal digit")?;
        bytes.push(high << 4 | low)?;
    }
    Ok(())
}

pub fn bytes_of(heap: Global, word: &str) -> anyhow::Result<Vec<u8>> {
    let mut bytes = Vec::new(heap);
    if word == "-" {
        return Ok(bytes);
    }
    for piece in word.split(',') {
        let (row, times) = piece.split_once('*').unwrap_or((piece, "1"));
        match times.parse::<usize>()? {
            0 => {}
            1 => add_row(&mut bytes, row)?,
            times => {
                // read once, however often it stands
                let mut once = Vec::new(heap);
                add_row(&mut once, row)?;
                for _ in 0..times {
                    bytes.extend_from_slice(once.as_slice())?;
                }
            }
        }
    }
    Ok(bytes)
}
