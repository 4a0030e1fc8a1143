// What a case asks of a text: its count, the index of a place or the start of an index, by one of the five modules.
use anyhow::{anyhow, ensure};
use cells::Measure;
use cells::walk::{count, index, start};
use chunk::ByteChunk;
use faults::count::Fault;
use lanes::Lanes16;
use measures::chars::Chars;
use measures::lines::Lines;
use measures::lines_crlf::LinesCrlf;
use measures::lines_lf::LinesLf;
use measures::utf16::Utf16;
use std::str::FromStr;
use str_indices::{chars, lines, lines_crlf, lines_lf, utf16};
use utf8::{Checked, Source};
use word::Word;

#[derive(Clone, Copy)]
pub enum Question {
    Count,
    Index,
    Start,
}

#[derive(Clone, Copy)]
pub enum Module {
    Chars,
    Utf16,
    Lines,
    LinesCrlf,
    LinesLf,
}

#[derive(Clone, Copy)]
pub struct Ask {
    pub question: Question,
    pub module: Module,
    // the place or the index
    pub at: usize,
}

impl FromStr for Question {
    type Err = anyhow::Error;

    fn from_str(name: &str) -> anyhow::Result<Question> {
        match name {
            "count" => Ok(Question::Count),
            "index" => Ok(Question::Index),
            "start" => Ok(Question::Start),
            _ => Err(anyhow!("no such question")),
        }
    }
}

impl FromStr for Module {
    type Err = anyhow::Error;

    fn from_str(name: &str) -> anyhow::Result<Module> {
        match name {
            "chars" => Ok(Module::Chars),
            "utf16" => Ok(Module::Utf16),
            "lines" => Ok(Module::Lines),
            "lines_crlf" => Ok(Module::LinesCrlf),
            "lines_lf" => Ok(Module::LinesLf),
            _ => Err(anyhow!("no such measure")),
        }
    }
}

impl Ask {
    // What the module answers, by a chunk kind and at a head. A match: a table of calls
    // would be no plainer, since they differ in what they take.
    fn by_module<'a, K: ByteChunk, T: Source<'a>>(
        self,
        text: T,
        head: usize,
    ) -> Result<usize, Fault> {
        match (self.module, self.question) {
            (Module::Chars, Question::Count) => chars::count::<K, T>(text, head),
            (Module::Chars, Question::Index) => chars::from_byte_idx::<K, T>(text, self.at, head),
            (Module::Chars, Question::Start) => chars::to_byte_idx::<K, T>(text, self.at, head),
            (Module::Utf16, Question::Count) => utf16::count::<K, T>(text, head),
            (Module::Utf16, Question::Index) => utf16::from_byte_idx::<K, T>(text, self.at, head),
            (Module::Utf16, Question::Start) => utf16::to_byte_idx::<K, T>(text, self.at, head),
            (Module::Lines, Question::Count) => lines::count_breaks::<K, T>(text, head),
            (Module::Lines, Question::Index) => lines::from_byte_idx::<K, T>(text, self.at, head),
            (Module::Lines, Question::Start) => lines::to_byte_idx::<K, T>(text, self.at, head),
            (Module::LinesCrlf, Question::Count) => lines_crlf::count_breaks::<K, T>(text, head),
            (Module::LinesCrlf, Question::Index) => lines_crlf::from_byte_idx::<K, T>(
                text, self.at, head,
            ),
            (Module::LinesCrlf, Question::Start) => lines_crlf::to_byte_idx::<K, T>(
                text, self.at, head,
            ),
            (Module::LinesLf, Question::Count) => lines_lf::count_breaks::<K, T>(text, head),
            (Module::LinesLf, Question::Index) => lines_lf::from_byte_idx::<K, T>(
                text, self.at, head,
            ),
            (Module::LinesLf, Question::Start) => lines_lf::to_byte_idx::<K, T>(
                text, self.at, head,
            ),
        }
    }

    // Whether the module answers so at every head, of a checked text and of its bytes.
    pub fn every_head<K: ByteChunk>(self, text: Checked<'_>, expected: usize) -> bool {
        (0..K::SIZE).all(|head| {
            self.by_module::<K, _>(text, head) == Ok(expected)
                && self.by_module::<K, _>(text.bytes(), head) == Ok(expected)
        })
    }

    // The answer of the plain walks, if sums by both chunk kinds agree with it where it is an index.
    fn by_measure<M: Measure>(self, measure: &M, text: Checked<'_>) -> anyhow::Result<usize> {
        match self.question {
            Question::Count => Ok(count(measure, text)),
            Question::Index => {
                let answer = index(measure, text, self.at);
                let agree = (0..20).all(|head| {
                    measure.sum::<Word>(text, 0, self.at, head) == answer
                        && measure.sum::<Lanes16>(text, 0, self.at, head) == answer
                });
                ensure!(agree, "a sum differs");
                Ok(answer)
            }
            Question::Start => Ok(start(measure, text, self.at)),
        }
    }

    // What the module's measure answers, byte by byte.
    pub fn by_bytes(self, text: Checked<'_>) -> anyhow::Result<usize> {
        match self.module {
            Module::Chars => self.by_measure(&Chars, text),
            Module::Utf16 => self.by_measure(&Utf16, text),
            Module::Lines => self.by_measure(&Lines, text),
            Module::LinesCrlf => self.by_measure(&LinesCrlf, text),
            Module::LinesLf => self.by_measure(&LinesLf, text),
        }
    }
}
