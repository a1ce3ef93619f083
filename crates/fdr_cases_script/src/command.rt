//! A command line of a script.

use crate::bytes::number_with;
use crate::wrong::Wrong;
use std::alloc::Global;

/// What a stop leaves of the bytes that were being written.
#[derive(Clone, Copy, Debug, PartialEq, Eq)]
pub enum Left {
    /// Those from before.
    Old,
    /// Those that were written.
    New,
    /// The first half of the new ones, and after it the old ones.
    Half,
    /// This byte throughout.
    Fill(u8),
}

/// A command: its words, where its input comes from and its output goes, which reads of its table, calls of its deck and writes of its
/// sink fail, and within which call it is stopped.
#[derive(Drop)]
pub struct Command<'a> {
    pub words: Vec<&'a str>,
    pub input: Option<&'a str>,
    pub output: Option<&'a str>,
    pub reads: Vec<u64>,
    pub calls: Vec<u64>,
    pub writes: Vec<u64>,
    pub stop: Option<(u64, Left)>,
    /// The name for what is left of the input.
    pub rest: Option<&'a str>,
    /// The name for the number that was announced, in eight bytes, the highest first.
    pub told: Option<&'a str>,
    /// The name for what it gives, in place of a block.
    pub said: Option<&'a str>,
    /// Whether it is run over objects that can't fail.
    pub is_sure: bool,
}

/// What the next word of a line is.
#[derive(Clone, Copy)]
enum Next {
    Setting,
    Word,
    Input,
    Output,
}

impl<'a> Command<'a> {
    /// Reads `SETTING=VALUE .. fdr WORD .. < INPUT > OUTPUT`. In a value `N` is this number.
    pub fn read(alloc: Global, line: &'a str, n: u64) -> Result<Command<'a>, Wrong> {
        let mut command = Command {
            words: Vec::new(alloc),
            input: None,
            output: None,
            reads: Vec::new(alloc),
            calls: Vec::new(alloc),
            writes: Vec::new(alloc),
            stop: None,
            rest: None,
            told: None,
            said: None,
            is_sure: false,
        };
        let mut next = Next::Setting;
        for word in line.split_whitespace() {
            next = command.take(next, word, n)?;
        }
        Ok(command)
    }

    /// Takes a word, and answers what the one after it is.
    fn take(&mut self, next: Next, word: &'a str, n: u64) -> Result<Next, Wrong> {
        match (next, word) {
            (Next::Setting, "fdr") => return Ok(Next::Word),
            (Next::Setting, _) => return self.set(word, n),
            (Next::Word, "<") => return Ok(Next::Input),
            (Next::Word, ">") => return Ok(Next::Output),
            (Next::Word, "''") => self.words.push("").map_err(|_| Wrong::NoMemory)?,
            (Next::Word, _) => self.words.push(word).map_err(|_| Wrong::NoMemory)?,
            (Next::Input, _) => self.input = Some(word),
            (Next::Output, _) => self.output = Some(word),
        }
        Ok(Next::Word)
    }

    /// Takes a setting.
    fn set(&mut self, word: &'a str, n: u64) -> Result<Next, Wrong> {
        let (key, value) = word.split_once("=").ok_or(Wrong::Line)?;
        match key {
            "reads" => self
                .reads
                .push(number_with(value, n)?)
                .map_err(|_| Wrong::NoMemory)?,
            "calls" => self
                .calls
                .push(number_with(value, n)?)
                .map_err(|_| Wrong::NoMemory)?,
            "writes" => self
                .writes
                .push(number_with(value, n)?)
                .map_err(|_| Wrong::NoMemory)?,
            "rest" => self.rest = Some(value),
            "told" => self.told = Some(value),
            "said" => self.said = Some(value),
            "sure" => self.is_sure = true,
            "stop" => self.stop = Some(stop_of(value, n)?),
            _ => return Err(Wrong::Line),
        }
        Ok(Next::Setting)
    }
}

/// `CALL:TEAR`.
fn stop_of(text: &str, n: u64) -> Result<(u64, Left), Wrong> {
    let (call, tear) = text.split_once(":").ok_or(Wrong::Line)?;
    Ok((number_with(call, n)?, tear_of(tear)?))
}

/// `old`, `new`, `half`, or a byte that fills what is torn.
fn tear_of(text: &str) -> Result<Left, Wrong> {
    match text {
        "old" => Ok(Left::Old),
        "new" => Ok(Left::New),
        "half" => Ok(Left::Half),
        _ => match u8::from_str_radix(text, 16) {
            Ok(byte) => Ok(Left::Fill(byte)),
            Err(_) => Err(Wrong::Line),
        },
    }
}
