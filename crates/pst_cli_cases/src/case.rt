//! A case: what the program is given and what it has to write.

use crate::text::{Text, number, put_line, split_word};
use std::alloc::{AllocError, Global};

/// To which part of a case the next line belongs.
#[derive(Clone, Copy, PartialEq, Eq)]
enum Part {
    Head,
    Input,
    Output,
    Script,
    Cuts,
}

/// How many bytes of the input and of the output stand up to the end of a line of the script and of its reply, and what the store
/// has then. The first step of a script is the one before its first line.
#[derive(Drop)]
pub struct Step {
    pub read: usize,
    pub written: usize,
    pub store: Vec<usize>,
}

/// With which status the program ends, and what it writes, for the first bytes of the input alone, from so many of them on.
#[derive(Drop)]
pub struct Cut {
    pub from: usize,
    pub status: usize,
    pub output: Text,
}

/// A case. It stands for a run of the program for each of its lists of words, each size of a read and each of a write.
#[derive(Drop)]
pub struct Case {
    pub name: Vec<u8>,
    /// The lists of words.
    pub words: Vec<Vec<String>>,
    /// The status with which the program has to end.
    pub status: usize,
    /// The sizes of a read. None: all at once.
    pub reads: Vec<usize>,
    /// The sizes of a write. None: whole pieces.
    pub writes: Vec<usize>,
    /// The numbers of the reads that fail, from 1.
    pub failing_reads: Vec<u64>,
    /// The numbers of the writes that fail, from 1.
    pub failing_writes: Vec<u64>,
    /// How many bytes may be written. None: more than enough.
    pub room: Option<usize>,
    /// How many versions, records, pointer writes and value writes the store that the words work over has in the end. Empty: that is
    /// not looked at.
    pub store: Vec<usize>,
    /// Whether it is run again with each read and each write failing in turn.
    pub each_fails: bool,
    pub input: Text,
    pub output: Text,
    /// The steps of a script that is told step by step.
    pub steps: Vec<Step>,
    /// What the program does for the first bytes of the input, in the order of how many these are.
    pub cuts: Vec<Cut>,
    part: Part,
}

/// What a store has that is left as it was handed in.
pub const UNTOUCHED: [usize; 4] = [0, 0, 0, 0];

/// What a store has once the program is accepted: version 0, and the root record.
pub const STARTED: [usize; 4] = [1, 1, 0, 0];

/// The words of a list.
fn words_of(alloc: Global, line: &[u8]) -> Result<Vec<String>, AllocError> {
    let mut words = Vec::new(alloc);
    for word in line.split(|byte| *byte == b' ') {
        if !word.is_empty() {
            let mut bytes = Vec::new(alloc);
            put_line(alloc, word, 0, b"", &mut bytes)?;
            words.push(String::from_utf8_lossy(alloc, &bytes)?)?;
        }
    }
    Ok(words)
}

/// The numbers of a list.
fn numbers_of(alloc: Global, line: &[u8]) -> Result<Vec<usize>, AllocError> {
    let mut numbers = Vec::new(alloc);
    for word in line.split(|byte| *byte == b' ') {
        if let Some(found) = number(word) {
            numbers.push(found)?;
        }
    }
    Ok(numbers)
}

/// The numbers of calls.
fn calls_of(alloc: Global, line: &[u8]) -> Result<Vec<u64>, AllocError> {
    let mut calls = Vec::new(alloc);
    for call in numbers_of(alloc, line)? {
        calls.push(call as u64)?;
    }
    Ok(calls)
}

impl Case {
    /// A case of which no line was read.
    pub fn new(alloc: Global) -> Case {
        Case {
            name: Vec::new(alloc),
            words: Vec::new(alloc),
            status: 0,
            reads: Vec::new(alloc),
            writes: Vec::new(alloc),
            failing_reads: Vec::new(alloc),
            failing_writes: Vec::new(alloc),
            room: None,
            store: Vec::new(alloc),
            each_fails: false,
            input: Text::new(alloc),
            output: Text::new(alloc),
            steps: Vec::new(alloc),
            cuts: Vec::new(alloc),
            part: Part::Head,
        }
    }

    /// Takes the next line of the file.
    pub fn take_line(
        &mut self,
        alloc: Global,
        programs: &[u8],
        line: &[u8],
    ) -> Result<(), AllocError> {
        if line == b"-- input".as_slice() {
            self.part = Part::Input;
            return Ok(());
        }
        if line == b"-- output".as_slice() {
            self.part = Part::Output;
            return Ok(());
        }
        if line == b"-- script".as_slice() {
            self.part = Part::Script;
            return self.put_step(Vec::from_slice(alloc, &STARTED)?);
        }
        if line == b"-- cuts".as_slice() {
            self.part = Part::Cuts;
            return Ok(());
        }
        match self.part {
            Part::Head => self.take_head(alloc, line),
            Part::Input => self.input.take_line(alloc, programs, line),
            Part::Output => self.output.take_line(alloc, programs, line),
            Part::Script => self.take_step(alloc, programs, line),
            Part::Cuts => self.take_cut(alloc, programs, line),
        }
    }

    /// Puts a step that ends where input and output end so far.
    fn put_step(&mut self, store: Vec<usize>) -> Result<(), AllocError> {
        self.steps.push(Step {
            read: self.input.bytes.len(),
            written: self.output.bytes.len(),
            store,
        })?;
        Ok(())
    }

    /// Takes a line of the script, a line of its reply, or what the store has then.
    fn take_step(&mut self, alloc: Global, programs: &[u8], line: &[u8]) -> Result<(), AllocError> {
        if let Some(reply) = line.strip_prefix(b"=> ") {
            self.output.take_line(alloc, programs, reply)?;
            if let Some(step) = self.steps.last_mut() {
                step.written = self.output.bytes.len();
            }
        } else if let Some(store) = line.strip_prefix(b"-> ") {
            if let Some(step) = self.steps.last_mut() {
                step.store = numbers_of(alloc, store)?;
            }
        } else {
            let store = match self.steps.last() {
                None => Vec::new(alloc),
                Some(step) => step.store.clone()?,
            };
            self.input.take_line(alloc, programs, line)?;
            self.put_step(store)?;
        }
        Ok(())
    }

    /// Takes what the program does from so many bytes on: the number of bytes, the status, and what is written, if anything is.
    fn take_cut(&mut self, alloc: Global, programs: &[u8], line: &[u8]) -> Result<(), AllocError> {
        let (from, behind) = split_word(line);
        let (status, written) = split_word(behind);
        let mut output = Text::new(alloc);
        if !written.is_empty() {
            output.take_line(alloc, programs, written)?;
        }
        self.cuts.push(Cut {
            from: number(from).unwrap_or(0),
            status: number(status).unwrap_or(usize::MAX),
            output,
        })?;
        Ok(())
    }

    /// Takes a line of the head.
    fn take_head(&mut self, alloc: Global, line: &[u8]) -> Result<(), AllocError> {
        if let Some(rest) = line.strip_prefix(b"words:") {
            for words in rest.split(|byte| *byte == b'|') {
                self.words.push(words_of(alloc, words)?)?;
            }
        } else if let Some(rest) = line.strip_prefix(b"status: ") {
            self.status = number(rest).unwrap_or(usize::MAX);
        } else if let Some(rest) = line.strip_prefix(b"reads: ") {
            self.reads = numbers_of(alloc, rest)?;
        } else if let Some(rest) = line.strip_prefix(b"writes: ") {
            self.writes = numbers_of(alloc, rest)?;
        } else if let Some(rest) = line.strip_prefix(b"failing reads: ") {
            self.failing_reads = calls_of(alloc, rest)?;
        } else if let Some(rest) = line.strip_prefix(b"failing writes: ") {
            self.failing_writes = calls_of(alloc, rest)?;
        } else if let Some(rest) = line.strip_prefix(b"room: ") {
            self.room = number(rest);
        } else if let Some(rest) = line.strip_prefix(b"store: ") {
            self.store = numbers_of(alloc, rest)?;
        } else if line == b"each fails".as_slice() {
            self.each_fails = true;
        }
        Ok(())
    }
}
