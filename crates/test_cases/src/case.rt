//! A case: files, and what a call over them must end with, or what the start of a problem in them must be.

use anyhow::{Context, bail};
use outside::{Bytes, CallList, FileList};
use std::alloc::Global;

/// A file while its lines are read.
#[derive(Drop)]
pub struct Body {
    pub name: String,
    pub bytes: Bytes,
}

/// What a case says of its end.
#[derive(Drop)]
pub enum Wanted {
    Nothing,
    /// A call ends with this status, and writes the text.
    Report { status: u64 },
    /// A call ends with this status, and writes the text and perhaps more.
    Front { status: u64 },
    /// A call ends with the status 0, and writes the text and more; all that it writes is accepted for the problem in this file.
    Proof { problem: String },
    /// The start of the problem in this file has the literals of the text.
    Start { problem: String },
}

/// To what the lines that come are added.
#[derive(Clone, Copy, PartialEq, Eq)]
enum Part {
    File,
    Word,
    Text,
}

#[derive(Drop)]
pub struct Case {
    pub name: String,
    pub files: Vec<Body>,
    pub words: Vec<Bytes>,
    /// The calls of the files that fail, and those of the sink, each counted from 0.
    pub reads: Vec<u64>,
    pub writes: Vec<u64>,
    pub room: usize,
    pub wanted: Wanted,
    pub text: Bytes,
    part: Part,
    alloc: Global,
}

/// The room of a sink where a case says nothing of it.
const ROOM: usize = 1_048_576;

/// The number before the first space, and the text behind it.
fn numbered(rest: &str) -> anyhow::Result<(u32, &str)> {
    let (times, text) = rest.split_once(' ').context("nothing is to be repeated")?;
    Ok((times.parse()?, text))
}

/// The calls of these numbers.
pub fn call_list(alloc: Global, numbers: &[u64]) -> anyhow::Result<CallList> {
    let mut calls = CallList::new(alloc);
    for number in numbers {
        calls.push(*number)?;
    }
    Ok(calls)
}

impl Case {
    pub fn new(alloc: Global, name: &str) -> anyhow::Result<Case> {
        Ok(Case {
            name: String::from_str(alloc, name)?,
            files: Vec::new(alloc),
            words: Vec::new(alloc),
            reads: Vec::new(alloc),
            writes: Vec::new(alloc),
            room: ROOM,
            wanted: Wanted::Nothing,
            text: Bytes::new(alloc),
            part: Part::File,
            alloc,
        })
    }

    /// The bytes to which the lines that come are added.
    fn open(&mut self) -> anyhow::Result<&mut Bytes> {
        match self.part {
            Part::Text => Ok(&mut self.text),
            Part::Word => self.words.last_mut().context("a line stands before a word"),
            Part::File => match self.files.last_mut() {
                Some(file) => Ok(&mut file.bytes),
                None => bail!("a line stands before a file"),
            },
        }
    }

    fn add(&mut self, text: &str) -> anyhow::Result<()> {
        self.open()?.extend_from_slice(text.as_bytes())?;
        Ok(())
    }

    fn add_byte(&mut self, byte: u8) -> anyhow::Result<()> {
        self.open()?.push(byte)?;
        Ok(())
    }

    /// Adds the text behind a number so many times.
    fn fill(&mut self, rest: &str) -> anyhow::Result<()> {
        let (times, text) = numbered(rest)?;
        let open = self.open()?;
        for _ in 0..times {
            open.extend_from_slice(text.as_bytes())?;
        }
        Ok(())
    }

    /// Adds the text behind a number as so many lines, each with its number, from 0 on, in place of each `#`.
    fn add_lines(&mut self, rest: &str) -> anyhow::Result<()> {
        let (times, text) = numbered(rest)?;
        for i in 0..times {
            let number = format!(in self.alloc; "{i}")?;
            let line = text.replace(self.alloc, "#", number.as_str())?;
            self.add(line.as_str())?;
            self.add("\n")?;
        }
        Ok(())
    }

    fn add_file(&mut self, name: &str) -> anyhow::Result<()> {
        self.part = Part::File;
        self.files.push(Body {
            name: String::from_str(self.alloc, name)?,
            bytes: Bytes::new(self.alloc),
        })?;
        Ok(())
    }

    fn add_word(&mut self, word: &str) -> anyhow::Result<()> {
        self.part = Part::Word;
        self.words
            .push(Bytes::from_slice(self.alloc, word.as_bytes())?)?;
        Ok(())
    }

    fn expect(&mut self, wanted: Wanted) {
        self.wanted = wanted;
        self.part = Part::Text;
    }

    /// Takes a line. A line is a word and what follows it behind a space, or `|` and a line of what was begun last, or `>` and the front of
    /// one.
    pub fn read_line(&mut self, line: &str) -> anyhow::Result<()> {
        if let Some(text) = line.strip_prefix('|') {
            self.add(text)?;
            return self.add("\n");
        }
        if let Some(text) = line.strip_prefix('>') {
            return self.add(text);
        }
        let (word, rest) = line.split_once(' ').unwrap_or((line, ""));
        self.read_word(word, rest)
    }

    fn read_word(&mut self, word: &str, rest: &str) -> anyhow::Result<()> {
        match word {
            "file" => self.add_file(rest),
            "word" => self.add_word(rest),
            "fill" => self.fill(rest),
            "lines" => self.add_lines(rest),
            "byte" => self.add_byte(rest.parse()?),
            "reads" => Ok(self.reads.push(rest.parse()?)?),
            "writes" => Ok(self.writes.push(rest.parse()?)?),
            "room" => self.read_room(rest),
            _ => self.read_end(word, rest),
        }
    }

    /// Takes a line that says how much a call may write.
    fn read_room(&mut self, rest: &str) -> anyhow::Result<()> {
        self.room = rest.parse()?;
        Ok(())
    }

    /// Takes a line that says how a call ends.
    fn read_end(&mut self, word: &str, rest: &str) -> anyhow::Result<()> {
        match word {
            "status" => self.expect(Wanted::Report {
                status: rest.parse()?,
            }),
            "front" => self.expect(Wanted::Front {
                status: rest.parse()?,
            }),
            "proof" => self.expect(Wanted::Proof {
                problem: String::from_str(self.alloc, rest)?,
            }),
            "start" => self.expect(Wanted::Start {
                problem: String::from_str(self.alloc, rest)?,
            }),
            _ => bail!("a line begins with `{word}`"),
        }
        Ok(())
    }

    /// Adds the files to those in memory.
    pub fn list_files(&self, list: &mut FileList) -> anyhow::Result<()> {
        for file in &self.files {
            list.push(file.name.as_str(), file.bytes.as_slice())?;
        }
        Ok(())
    }
}
