// A line as far as it has been read, and what it asks once it has ended.
use crate::request::Request;
use crate::word::Word;
use thiserror::Error;

// What is wrong with a line, as the table of docs/REPLAY.md has it.
#[derive(Clone, Copy, Debug, PartialEq, Eq, Error)]
pub enum Fault {
    #[error("words not separated by single spaces")]
    Spaces,
    #[error("unknown request")]
    Unknown,
    #[error("missing word")]
    Missing,
    #[error("extra word")]
    Extra,
    #[error("word 2 is not extents, blocks or spare")]
    NoBuffer,
    #[error("word 2 is not a field of the head")]
    NoField,
    #[error("word {place} is not a number")]
    NotANumber { place: usize },
    #[error("word {place} is too large")]
    TooLarge { place: usize },
    #[error("sizes beyond what this program holds")]
    Sizes,
    #[error("index outside")]
    Index,
}

#[derive(Clone, Copy, Default)]
pub enum Line {
    #[default]
    Empty,
    Note,
    Words(Words),
    Wrong(Fault),
}

impl Line {
    pub fn push(&mut self, byte: u8) {
        if let Line::Empty = self {
            *self = if byte == b'#' {
                Line::Note
            } else {
                Line::Words(Words::new())
            };
        }
        if let Line::Words(words) = self {
            if let Err(fault) = words.push(byte) {
                *self = Line::Wrong(fault);
            }
        }
    }

    // What the line asks, once it has ended. An empty line and a note ask nothing.
    pub fn request(self) -> Result<Option<Request>, Fault> {
        match self {
            Line::Empty | Line::Note => Ok(None),
            Line::Words(words) => Ok(Some(words.request()?)),
            Line::Wrong(fault) => Err(fault),
        }
    }
}

#[derive(Clone, Copy)]
pub struct Words {
    // Those that have ended. No request has more than five: a sixth is one too many, and what is behind it is looked at for its spaces alone.
    ended: [Word; 6],
    // How many they are.
    count: usize,
    // The one that is being read.
    last: Word,
}

impl Words {
    fn new() -> Self {
        Self {
            ended: [Word::default(); 6],
            count: 0,
            last: Word::new(1),
        }
    }

    fn push(&mut self, byte: u8) -> Result<(), Fault> {
        if byte == b' ' {
            return self.end_word();
        }
        self.last.push(byte);
        Ok(())
    }

    // The word has ended, at a space or at the end of the line.
    fn end_word(&mut self) -> Result<(), Fault> {
        if self.last.is_empty() {
            return Err(Fault::Spaces);
        }
        if let Some(word) = self.ended.get_mut(self.count) {
            *word = self.last;
            self.count += 1;
        }
        self.last = Word::new(self.count.saturating_add(1));
        Ok(())
    }

    fn request(mut self) -> Result<Request, Fault> {
        self.end_word()?;
        match &self.ended[..self.count.min(6)] {
            [name, words @ ..] => Request::read(name, words),
            [] => Err(Fault::Unknown),
        }
    }
}
