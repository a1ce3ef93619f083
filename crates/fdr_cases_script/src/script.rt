//! A script: bytes with their names, and cases, each with its commands and what they give.

use crate::bytes::{bytes_of, number_of};
use crate::command::Command;
use crate::files::Files;
use crate::promises::is_kept;
use crate::wrong::Wrong;
use std::alloc::{AllocError, Global};

/// What a command gives that has no such call as the one in which it is to be stopped.
pub const NO_SUCH_CALL: &[u8] = b"[no such call]\n";

/// For how many numbers a line is run that says no end.
const MOST_CALLS: u64 = 10_000;

/// Who runs the commands of a script.
pub trait Runner {
    /// Runs a command on the files that its words name, adds to a block what it gives, and leaves its image and its output.
    fn run(
        &self,
        alloc: Global,
        files: &mut Files,
        command: &Command<'_>,
        block: &mut Vec<u8>,
    ) -> Result<(), Wrong>;

    /// Adds each answer to a block, also those that no command of a script has.
    fn say_answers(&self, alloc: Global, block: &mut Vec<u8>) -> Result<(), Wrong>;
}

/// What is known so far.
#[derive(Drop)]
struct Script<'a> {
    files: Files,
    // How many of the files all cases share: those before the first case.
    shared: Option<usize>,
    // The case that is gone through, if there is one, and what of it isn't as the script says.
    case: Option<&'a str>,
    wrong: Vec<u8>,
    said: Vec<u8>,
}

/// What is to be said of a script.
pub fn said_of<R: Runner>(alloc: Global, runner: &R, text: &str) -> Result<Vec<u8>, Wrong> {
    let mut script = Script {
        files: Files::new(alloc),
        shared: None,
        case: None,
        wrong: Vec::new(alloc),
        said: Vec::new(alloc),
    };
    let mut head = "";
    let mut body = String::new(alloc);
    for line in text.lines() {
        if let Some(more) = line.strip_prefix("  ") {
            body.push_str(more)?;
            body.push_str("\n")?;
        } else {
            script.take(alloc, runner, head, body.as_str())?;
            head = line;
            body.clear();
        }
    }
    script.take(alloc, runner, head, body.as_str())?;
    script.end()?;
    let Script { said, .. } = script;
    Ok(said)
}

impl<'a> Script<'a> {
    /// Does what a line and the lines below it say.
    fn take<R: Runner>(
        &mut self,
        alloc: Global,
        runner: &R,
        head: &'a str,
        body: &str,
    ) -> Result<(), Wrong> {
        let done = self.done(alloc, runner, head, body);
        if done == Err(Wrong::Line) {
            self.note(head, b"can't be read\n")?;
            return Ok(());
        }
        done
    }

    fn done<R: Runner>(
        &mut self,
        alloc: Global,
        runner: &R,
        head: &'a str,
        body: &str,
    ) -> Result<(), Wrong> {
        let is_alone = body.is_empty();
        if is_alone && (head.is_empty() || head.starts_with("#")) {
            return Ok(());
        }
        if let (true, Some(name)) = (is_alone, head.strip_prefix("case ")) {
            return Ok(self.begin(name)?);
        }
        if let Some(line) = head.strip_prefix("$ ") {
            return self.run(alloc, runner, head, line, body);
        }
        if head == "answers" {
            return self.compare_answers(alloc, runner, head, body);
        }
        if let Some(name) = head.strip_suffix(":") {
            return Ok(self.files.put(alloc, name, body.as_bytes().to_vec(alloc)?)?);
        }
        if let Some((name, tokens)) = head.split_once(" =") {
            return self.define(alloc, name, tokens, body);
        }
        if let Some((name, tokens)) = head.split_once(" is") {
            return self.compare(alloc, head, name, tokens, body);
        }
        Err(Wrong::Line)
    }

    /// Ends the case before, and begins one. It has the files that were there before the first case.
    fn begin(&mut self, name: &'a str) -> Result<(), AllocError> {
        self.end()?;
        self.case = Some(name);
        let shared = self.shared.unwrap_or(self.files.count());
        self.shared = Some(shared);
        self.files.keep(shared);
        Ok(())
    }

    /// Says whether all of the case was as the script says.
    fn end(&mut self) -> Result<(), AllocError> {
        if let Some(name) = self.case {
            let answer: &[u8] = if self.wrong.is_empty() {
                b"ok "
            } else {
                b"NO "
            };
            self.said.extend_from_slice(answer)?;
            self.said.extend_from_slice(name.as_bytes())?;
            self.said.extend_from_slice(b"\n")?;
        }
        self.said.extend_from_slice(&self.wrong)?;
        self.wrong.clear();
        Ok(())
    }

    /// Notes what isn't as the script says.
    fn note(&mut self, head: &str, got: &[u8]) -> Result<(), AllocError> {
        self.wrong.extend_from_slice(head.as_bytes())?;
        self.wrong.extend_from_slice(b"\n")?;
        self.wrong.extend_from_slice(got)
    }

    /// Gives a name to the bytes that tokens make.
    fn define(&mut self, alloc: Global, name: &str, tokens: &str, body: &str) -> Result<(), Wrong> {
        let bytes = whole(alloc, &self.files, tokens, body)?;
        Ok(self.files.put(alloc, name, bytes)?)
    }

    /// Compares the bytes of a name with those that tokens make.
    fn compare(
        &mut self,
        alloc: Global,
        head: &str,
        name: &str,
        tokens: &str,
        body: &str,
    ) -> Result<(), Wrong> {
        let bytes = whole(alloc, &self.files, tokens, body)?;
        let is_so = self.files.get(name) == Some(bytes.as_slice());
        if !is_so {
            self.note(head, b"is not so\n")?;
        }
        Ok(())
    }

    /// Compares each answer with the lines below.
    fn compare_answers<R: Runner>(
        &mut self,
        alloc: Global,
        runner: &R,
        head: &str,
        body: &str,
    ) -> Result<(), Wrong> {
        let mut said = Vec::new(alloc);
        runner.say_answers(alloc, &mut said)?;
        if said.as_slice() != body.as_bytes() {
            self.note(head, &said)?;
        }
        Ok(())
    }

    /// Runs commands, and compares what they give with the lines below them.
    fn run<R: Runner>(
        &mut self,
        alloc: Global,
        runner: &R,
        head: &str,
        line: &str,
        body: &str,
    ) -> Result<(), Wrong> {
        let given = match line.strip_prefix("N=") {
            None => once(alloc, runner, &mut self.files, line, 0)?,
            Some(rest) => {
                let (range, line) = rest.split_once(" ").ok_or(Wrong::Line)?;
                each(alloc, runner, &mut self.files, range, line)?
            }
        };
        if given.as_slice() != body.as_bytes() {
            self.note(head, &given)?;
        }
        Ok(())
    }
}

/// The bytes of tokens behind a name and in the lines below it.
fn whole(alloc: Global, files: &Files, tokens: &str, body: &str) -> Result<Vec<u8>, Wrong> {
    let mut all = String::from_str(alloc, tokens)?;
    all.push_str(" ")?;
    all.push_str(body)?;
    bytes_of(alloc, files, all.as_str(), 0)
}

/// What the commands of a line give, one after the other, where `N` is this number. After one that has no such call none is run.
fn once<R: Runner>(
    alloc: Global,
    runner: &R,
    files: &mut Files,
    line: &str,
    n: u64,
) -> Result<Vec<u8>, Wrong> {
    let mut block = Vec::new(alloc);
    for part in line.split("; ") {
        do_part(alloc, runner, files, part, n, &mut block)?;
        if block.starts_with(NO_SUCH_CALL) {
            break;
        }
    }
    Ok(block)
}

/// Does a part of a line: it gives a name to bytes, asks whether something is so, or is a command.
fn do_part<R: Runner>(
    alloc: Global,
    runner: &R,
    files: &mut Files,
    part: &str,
    n: u64,
    block: &mut Vec<u8>,
) -> Result<(), Wrong> {
    if let Some((name, tokens)) = part.split_once(" = ") {
        let bytes = bytes_of(alloc, files, tokens, n)?;
        return Ok(files.put(alloc, name, bytes)?);
    }
    if let Some((name, tokens)) = part.split_once(" is ") {
        let bytes = bytes_of(alloc, files, tokens, n)?;
        let is_so = files.get(name) == Some(bytes.as_slice());
        return Ok(add_unless(alloc, block, part, is_so)?);
    }
    match is_kept(files, part)? {
        Some(is_so) => Ok(add_unless(alloc, block, part, is_so)?),
        None => run_command(alloc, runner, files, part, n, block),
    }
}

/// Adds a part to a block where what it says isn't so.
fn add_unless(
    alloc: Global,
    block: &mut Vec<u8>,
    part: &str,
    is_so: bool,
) -> Result<(), AllocError> {
    if is_so {
        return Ok(());
    }
    let text = format!(in alloc; "[not so: {part}]\n")?;
    block.extend_from_slice(text.as_bytes())
}

/// Runs a command. What it gives comes into the block, or has a name of its own.
fn run_command<R: Runner>(
    alloc: Global,
    runner: &R,
    files: &mut Files,
    part: &str,
    n: u64,
    block: &mut Vec<u8>,
) -> Result<(), Wrong> {
    let command = Command::read(alloc, part, n)?;
    let Some(name) = command.said else {
        return runner.run(alloc, files, &command, block);
    };
    let mut said = Vec::new(alloc);
    runner.run(alloc, files, &command, &mut said)?;
    Ok(files.put(alloc, name, said)?)
}

/// What the commands of a line give for each number of a range, `FROM..TO`, or `FROM..` for each call that there is.
fn each<R: Runner>(
    alloc: Global,
    runner: &R,
    files: &mut Files,
    range: &str,
    line: &str,
) -> Result<Vec<u8>, Wrong> {
    let (from, to) = range.split_once("..").ok_or(Wrong::Line)?;
    let from = number_of(from)?;
    if to.is_empty() {
        every(alloc, runner, files, from, line)
    } else {
        between(alloc, runner, files, from, number_of(to)?, line)
    }
}

/// What the commands of a line give for each number from the first on, until there is no such call. A number for which it is something
/// else than for the first one has a block of its own.
fn every<R: Runner>(
    alloc: Global,
    runner: &R,
    files: &mut Files,
    from: u64,
    line: &str,
) -> Result<Vec<u8>, Wrong> {
    let before = files.count();
    let first = once(alloc, runner, files, line, from)?;
    files.keep(before);
    let mut blocks = b"[each N]\n".to_vec(alloc)?;
    blocks.extend_from_slice(&first)?;
    for n in from..from.saturating_add(MOST_CALLS) {
        let block = once(alloc, runner, files, line, n)?;
        files.keep(before);
        if block.starts_with(NO_SUCH_CALL) {
            return Ok(blocks);
        }
        if block != first {
            add_block(alloc, &mut blocks, n, n.saturating_add(1), &block)?;
        }
    }
    Err(Wrong::Line)
}

/// What the commands of a line give for each number. Numbers in a row for which it is the same have one block.
fn between<R: Runner>(
    alloc: Global,
    runner: &R,
    files: &mut Files,
    from: u64,
    to: u64,
    line: &str,
) -> Result<Vec<u8>, Wrong> {
    let before = files.count();
    let mut blocks = Vec::new(alloc);
    let (mut first, mut last) = (from, Vec::new(alloc));
    for n in from..to {
        let block = once(alloc, runner, files, line, n)?;
        files.keep(before);
        if n > from && block != last {
            add_block(alloc, &mut blocks, first, n, &last)?;
            first = n;
        }
        last = block;
    }
    add_block(alloc, &mut blocks, first, to, &last)?;
    Ok(blocks)
}

/// Adds a block of the numbers from `first` on and below `end`.
fn add_block(
    alloc: Global,
    blocks: &mut Vec<u8>,
    first: u64,
    end: u64,
    block: &[u8],
) -> Result<(), AllocError> {
    let text = format!(in alloc; "[N={first}..{end}]\n")?;
    blocks.extend_from_slice(text.as_bytes())?;
    blocks.extend_from_slice(block)
}
