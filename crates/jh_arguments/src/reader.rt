//! What the words behind the command are made of.
#![tactic(auto)]

ghost use Rattle.std.specs.Prelude.{◌≡◌, [], None, Some, map, option_map, string_bytes, if◌then◌else◌, IfOk};
ghost use Rattle.jh_arguments.specs.Arguments as spec;
ghost use Rattle.jh_arguments.specs.Arguments.{begins_with_hyphen};
ghost use Rattle.jh_arguments.specs.Held.{parts_in, reader_in, shape_in};
ghost use Rattle.jh_arguments.specs.Reading.{nothing_read, read_by, read_one, read_option, read_value, read_word, resumed};

use crate::shape::{Shape, begins_with_hyphen, shape_of};
use jh_name::NoMemory;
use std::alloc::Global;

/// An option that is given.
#[derive(Clone, Copy)]
pub struct Given<'a> {
    pub name: &'a str,
    pub value: &'a str,
}

/// What the words that were read so far are made of.
#[derive(Drop)]
pub struct Reader<'a> {
    pub options: Vec<Given<'a>>,
    pub words: Vec<&'a str>,
    /// The option whose value is the next word.
    pub waiting: Option<&'a str>,
    /// Whether the options ended.
    pub ended: bool,
}

impl<'a> Reader<'a> {
    fn new(alloc: Global) -> Reader<'a>
        ensures { reader_in result ≡ nothing_read }
    {
        Reader {
            options: Vec::new(alloc),
            words: Vec::new(alloc),
            waiting: None,
            ended: false,
        }
    }

    /// Reads a word that stands for itself.
    fn read_word(&mut self, word: &'a str) -> Result<(), NoMemory>
        ensures { IfOk result (λ _. reader_in self.new ≡ read_word word.now (reader_in self.old)) }
    {
        self.words.push(word)?;
        Ok(())
    }

    /// Reads an option with its value.
    fn read_option(&mut self, name: &'a str, value: &'a str) -> Result<(), NoMemory>
        ensures { IfOk result (λ _. reader_in self.new ≡ read_option name.now value.now (reader_in self.old)) }
    {
        self.options.push(Given { name, value })?;
        self.waiting = None;
        Ok(())
    }

    /// Reads a word that is the value of an option, and answers whether it may be one.
    fn read_value(&mut self, name: &'a str, word: &'a str) -> Result<bool, NoMemory>
        ensures { IfOk result (λ good. (if good then Some (reader_in self.new) else None) ≡ read_value (begins_with_hyphen word.now) name.now word.now (reader_in self.old)) }
    {
        if begins_with_hyphen(word) {
            return Ok(false);
        }
        self.read_option(name, word)?;
        Ok(true)
    }

    /// Reads a word of a kind, and answers whether it may stand there.
    fn read_by(&mut self, shape: Shape<'a>, word: &'a str) -> Result<bool, NoMemory>
        ensures { IfOk result (λ good. (if good then Some (reader_in self.new) else None) ≡ read_by (shape_in shape.entry) word.now (reader_in self.old)) }
    {
        match shape {
            Shape::Named(name) => self.waiting = Some(name),
            Shape::Valued(name, value) => self.read_option(name, value)?,
            Shape::End => self.ended = true,
            Shape::Dashed => return Ok(false),
            Shape::Plain => self.read_word(word)?,
        }
        Ok(true)
    }

    /// Reads one more word, and answers whether it may stand there.
    fn read_one(&mut self, word: &'a str) -> Result<bool, NoMemory>
        ensures { IfOk result (λ good. (if good then Some (reader_in self.new) else None) ≡ read_one word.now (reader_in self.old)) }
    {
        if self.ended {
            self.read_word(word)?;
            return Ok(true);
        }
        match self.waiting {
            Some(name) => self.read_value(name, word),
            None => self.read_by(shape_of(word), word),
        }
    }
}

/// What words are made of, where each may stand where it does.
pub fn parts<'a>(alloc: Global, words: &'a [String]) -> Result<Option<Reader<'a>>, NoMemory>
    ensures { IfOk result (λ found. option_map parts_in found ≡ spec.parts (map (λ word. string_bytes word) words.now)) }
{
    let mut reader = Reader::new(alloc);
    for word in words.iter() {
        if !reader.read_one(word.as_str())? {
            return Ok(None);
        }
    }
    Ok(finished(reader))
}

/// What was read, unless an option still waits for its value.
fn finished(reader: Reader<'_>) -> Option<Reader<'_>>
    ensures { option_map parts_in result ≡ resumed (reader_in reader.entry) [] }
{
    if reader.waiting.is_some() && !reader.ended {
        return None;
    }
    Some(reader)
}
