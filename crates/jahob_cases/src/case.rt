//! What a case is: the words, the files and the sinks that a call gets, and what it is to answer.

use std::alloc::{AllocError, Global};

/// How a sink takes what comes: at most `room` bytes in all and at most `each` at a put, at least 1; and
/// nothing at the puts whose numbers `failing` lists, counted from 1.
#[derive(Drop)]
pub struct Taking {
    pub room: usize,
    pub each: usize,
    pub failing: Vec<u64>,
}

/// A sink that takes all that a case writes.
pub fn ample(alloc: Global) -> Taking {
    Taking {
        room: 65_536,
        each: 64,
        failing: Vec::new(alloc),
    }
}

/// The text of a case to which lines go.
#[derive(Clone, Copy)]
pub enum Part {
    Nothing,
    /// What the last file holds.
    File,
    /// What the first sink is to have.
    Out,
    /// What the second sink is to have.
    Err,
}

/// A call of the tool, and what it is to answer.
#[derive(Drop)]
pub struct Case {
    /// What the case shows.
    pub name: String,
    /// The words of the command line.
    pub words: Vec<String>,
    /// The files, by name.
    pub files: Vec<(String, Vec<u8>)>,
    /// The numbers of the reads that fail, counted from 1.
    pub failing: Vec<u64>,
    /// How the first sink takes what comes.
    pub out_taking: Taking,
    /// How the second sink takes what comes.
    pub err_taking: Taking,
    /// What the first sink is to have in the end.
    pub out: Vec<u8>,
    /// What the second sink is to have in the end.
    pub err: Vec<u8>,
    pub status: u64,
    /// How many of its lines say nothing.
    pub unread: u64,
}

impl Case {
    /// A case with a name, and nothing else yet.
    pub fn of(alloc: Global, name: &str) -> Result<Case, AllocError> {
        Ok(Case {
            name: String::from_str(alloc, name)?,
            words: Vec::new(alloc),
            files: Vec::new(alloc),
            failing: Vec::new(alloc),
            out_taking: ample(alloc),
            err_taking: ample(alloc),
            out: Vec::new(alloc),
            err: Vec::new(alloc),
            status: 0,
            unread: 0,
        })
    }

    /// Adds bytes to a text.
    pub fn add(&mut self, part: Part, bytes: &[u8]) -> Result<(), AllocError> {
        match part {
            Part::Nothing => Ok(()),
            Part::File => match self.files.last_mut() {
                Some(file) => file.1.extend_from_slice(bytes),
                None => Ok(()),
            },
            Part::Out => self.out.extend_from_slice(bytes),
            Part::Err => self.err.extend_from_slice(bytes),
        }
    }

    /// Drops the last byte of a text.
    pub fn chop(&mut self, part: Part) {
        let _last = match part {
            Part::Nothing => None,
            Part::File => match self.files.last_mut() {
                Some(file) => file.1.pop(),
                None => None,
            },
            Part::Out => self.out.pop(),
            Part::Err => self.err.pop(),
        };
    }

    /// Counts a line that says nothing.
    pub fn count_unread(&mut self) {
        self.unread = self.unread.saturating_add(1);
    }
}
