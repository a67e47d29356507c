//! Files of cases: scripts with what they are to come to, as the programs read them that try cases.
//!
//! A case begins with a line `== NAME`. Behind it stand lines of its head, and then its parts: a script, a journal and a report,
//! in any order, each behind a line of its own.
//!
//! ```text
//! == one object
//! spoiled
//! -- script
//! node a
//! a.1 new x 1
//! -- report
//! a.1 1 ok 0000000000200001
//! ```
//!
//! A line `spoiled` in the head says that the case is wrong on purpose, and is to come out otherwise. What else a head says is for
//! the program that tries the case. Empty lines count in a script alone. In a head a line that begins with `#` is a comment, and
//! so is all before the first case.
#![tactic(auto)]

use anyhow::Result;
use std::alloc::Global;
use std::mem;
use uid_names::{ByteList, NoMemory};

/// A case as its file has it. The head has no comment, no empty line and no line `spoiled`.
pub struct FileCase {
    pub name: String,
    pub spoiled: bool,
    pub head: Vec<String>,
    pub script: ByteList,
    pub report: ByteList,
    /// None where the case has no such part.
    pub journal: Option<ByteList>,
}

// Of its own, so that what drops one calls this and does not take it apart in place.
impl Drop for FileCase {
    fn drop(self) {
        let FileCase {
            name: _,
            spoiled: _,
            head: _,
            script: _,
            report: _,
            journal: _,
        } = self;
    }
}

/// The part of a case that a line belongs to.
#[derive(Clone, Copy)]
enum Part {
    Head,
    Script,
    Report,
    Journal,
}

/// A case of which some lines were read, and the part that was begun last.
#[derive(Drop)]
struct Reading {
    case: FileCase,
    part: Part,
}

/// Adds a line to a text.
fn put_line(to: &mut ByteList, line: &str) -> Result<(), NoMemory> {
    to.extend(line.as_bytes())?;
    to.push(b'\n')
}

impl Reading {
    /// A case of this name, of which nothing more was read.
    fn new(alloc: Global, name: &str) -> Result<Reading> {
        let case = FileCase {
            name: String::from_str(alloc, name)?,
            spoiled: false,
            head: Vec::new(alloc),
            script: ByteList::new(alloc),
            report: ByteList::new(alloc),
            journal: None,
        };
        Ok(Reading {
            case,
            part: Part::Head,
        })
    }

    /// Takes the next line of the file.
    fn take_line(&mut self, alloc: Global, line: &str) -> Result<()> {
        match line {
            "-- script" => self.part = Part::Script,
            "-- report" => self.part = Part::Report,
            "-- journal" => {
                self.part = Part::Journal;
                self.case.journal = Some(ByteList::new(alloc));
            }
            _ => self.take_text(alloc, line)?,
        }
        Ok(())
    }

    /// Takes a line of the part that was begun last.
    fn take_text(&mut self, alloc: Global, line: &str) -> Result<()> {
        match self.part {
            Part::Script => put_line(&mut self.case.script, line)?,
            _ if line.is_empty() => {}
            Part::Head => self.take_head(alloc, line)?,
            Part::Report => put_line(&mut self.case.report, line)?,
            Part::Journal => {
                if let Some(journal) = &mut self.case.journal {
                    put_line(journal, line)?;
                }
            }
        }
        Ok(())
    }

    /// Takes a line of the head.
    fn take_head(&mut self, alloc: Global, line: &str) -> Result<()> {
        if line == "spoiled" {
            self.case.spoiled = true;
        } else if !line.starts_with('#') {
            self.case.head.push(String::from_str(alloc, line)?)?;
        }
        Ok(())
    }
}

/// The cases of a file, in order.
pub fn read_cases(alloc: Global, text: &str) -> Result<Vec<FileCase>> {
    let mut cases = Vec::new(alloc);
    let mut open = None;
    for line in text.lines() {
        match line.strip_prefix("== ") {
            Some(name) => {
                let before = mem::replace(&mut open, Some(Reading::new(alloc, name)?));
                if let Some(Reading { case, part: _ }) = before {
                    cases.push(case)?;
                }
            }
            None => {
                if let Some(reading) = &mut open {
                    reading.take_line(alloc, line)?;
                }
            }
        }
    }
    if let Some(Reading { case, part: _ }) = open {
        cases.push(case)?;
    }
    Ok(cases)
}
