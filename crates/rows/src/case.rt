// A case of the table: a line with a step, two operands and what each kind should answer, all but the step in hex.
use anyhow::anyhow;
use std::alloc::Global;
use std::error::Error;
use std::fmt;
use std::str::FromStr;

#[derive(Clone, Copy, PartialEq, Eq)]
pub enum Step {
    Load,
    Zero,
    Splat,
    IsZero,
    ShiftBackLex,
    ShiftAcross,
    Shr,
    CmpEqByte,
    BytesBetween127,
    BitAnd,
    Add,
    Sub,
    IncNthFromEnd,
    DecLast,
    SumBytes,
}

// A name that no step has.
#[derive(Debug, Clone, Copy)]
pub struct UnknownStep;

impl fmt::Display for Step {
    fn fmt<W: fmt::Write>(&self, f: &mut fmt::Formatter<W>) -> fmt::Result {
        f.write_str(match self {
            Step::Load => "load",
            Step::Zero => "zero",
            Step::Splat => "splat",
            Step::IsZero => "is_zero",
            Step::ShiftBackLex => "shift_back_lex",
            Step::ShiftAcross => "shift_across",
            Step::Shr => "shr",
            Step::CmpEqByte => "cmp_eq_byte",
            Step::BytesBetween127 => "bytes_between_127",
            Step::BitAnd => "bitand",
            Step::Add => "add",
            Step::Sub => "sub",
            Step::IncNthFromEnd => "inc_nth_from_end_lex_byte",
            Step::DecLast => "dec_last_lex_byte",
            Step::SumBytes => "sum_bytes",
        })
    }
}

impl fmt::Display for UnknownStep {
    fn fmt<W: fmt::Write>(&self, f: &mut fmt::Formatter<W>) -> fmt::Result {
        f.write_str("no such step")
    }
}

impl Error for UnknownStep {}

impl FromStr for Step {
    type Err = UnknownStep;

    fn from_str(name: &str) -> Result<Step, UnknownStep> {
        match name {
            "load" => Ok(Step::Load),
            "zero" => Ok(Step::Zero),
            "splat" => Ok(Step::Splat),
            "is_zero" => Ok(Step::IsZero),
            "shift_back_lex" => Ok(Step::ShiftBackLex),
            "shift_across" => Ok(Step::ShiftAcross),
            "shr" => Ok(Step::Shr),
            "cmp_eq_byte" => Ok(Step::CmpEqByte),
            "bytes_between_127" => Ok(Step::BytesBetween127),
            "bitand" => Ok(Step::BitAnd),
            "add" => Ok(Step::Add),
            "sub" => Ok(Step::Sub),
            "inc_nth_from_end_lex_byte" => Ok(Step::IncNthFromEnd),
            "dec_last_lex_byte" => Ok(Step::DecLast),
            "sum_bytes" => Ok(Step::SumBytes),
            _ => Err(UnknownStep),
        }
    }
}

// The operands, and the answer of eight and of sixteen lanes: none where a step is not allowed.
#[derive(Drop)]
pub struct Case {
    pub step: Step,
    pub x: Vec<u8>,
    pub y: Vec<u8>,
    pub eight: Option<Vec<u8>>,
    pub sixteen: Option<Vec<u8>>,
}

// By hand, since the table has digits in upper case alone, which the library's readers do not ask for.
fn digit(byte: u8) -> anyhow::Result<u8> {
    match byte {
        b'0'..=b'9' => Ok(byte - b'0'),
        b'A'..=b'F' => Ok(byte - b'A' + 10),
        _ => Err(anyhow!("a word is not in hex")),
    }
}

// The bytes that a word of hex digits stands for; none for `-`.
fn read_answer(heap: Global, word: &str) -> anyhow::Result<Option<Vec<u8>>> {
    if word == "-" {
        return Ok(None);
    }
    let pairs = word.as_bytes().chunks_exact(2);
    let last = pairs.remainder();
    let mut bytes = Vec::new(heap);
    for pair in pairs {
        bytes.push(digit(pair[0])? << 4 | digit(pair[1])?)?;
    }
    if let [half] = *last {
        digit(half)?;
        return Err(anyhow!("half a byte"));
    }
    Ok(Some(bytes))
}

// The same for an operand, which `-` leaves empty.
fn read_operand(heap: Global, word: &str) -> anyhow::Result<Vec<u8>> {
    Ok(read_answer(heap, word)?.unwrap_or_else(|| Vec::new(heap)))
}

// A word that is left out stands for `-`, and those past the fifth say nothing.
pub fn read_case(heap: Global, line: &str) -> anyhow::Result<Case> {
    let mut words: Vec<&str> = line.split_whitespace().take(5).collect(heap)?;
    words.resize(5, "-")?;
    // there are five: the check wants the other case too
    let [step, x, y, eight, sixteen] = *words.as_slice() else {
        return Err(anyhow!("a case has five words"));
    };
    Ok(Case {
        step: step.parse::<Step>()?,
        x: read_operand(heap, x)?,
        y: read_operand(heap, y)?,
        eight: read_answer(heap, eight)?,
        sixteen: read_answer(heap, sixteen)?,
    })
}
