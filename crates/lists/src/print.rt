// Answers as they are printed, and on their way to standard output, a page of bytes at a time.
use crate::bytes::Bytes;
use arrayvec::ArrayString;
use rules::{Counted, Head};
use std::error::Error;
use std::fmt::Write as _;
use std::io::{Stdout, Write};
use std::{fmt, io};

// What is printed for a request that is done.
#[derive(Clone, Copy, Debug)]
pub enum Answer<'a> {
    Done,
    // The triples of a write or a read.
    Pieces(&'a [u32]),
    // The source pages of a reclaim, and the block to erase.
    Copied {
        pages: &'a [u32],
        erase: u32,
    },
    Counts(Counted),
    // The head, and the words that are lent.
    State {
        head: Head,
        extents: &'a [u32],
        blocks: &'a [u32],
        spare: &'a [u32],
    },
}

impl fmt::Display for Answer<'_> {
    fn fmt<W: fmt::Write>(&self, f: &mut fmt::Formatter<W>) -> fmt::Result {
        match *self {
            Answer::Done => f.write_str("ok"),
            Answer::Pieces(triples) => write!(f, "ok {}{}", triples.len() / 3, Spaced(triples)),
            Answer::Copied { pages, erase } => {
                write!(f, "ok {}{} erase {erase}", pages.len(), Spaced(pages))
            }
            Answer::Counts(Counted { free, live, stale }) => write!(f, "ok {free} {live} {stale}"),
            Answer::State {
                head,
                extents,
                blocks,
                spare,
            } => {
                let sizes = [head.blocks, head.pages, head.logical, head.slots];
                let filled = [head.used, head.reserve];
                let last = head.last.number;
                writeln!(f, "head{}{} {last}", Spaced(&sizes), Spaced(&filled))?;
                writeln!(f, "extents{}", Spaced(extents))?;
                writeln!(f, "blocks{}", Spaced(blocks))?;
                write!(f, "spare{}", Spaced(spare))
            }
        }
    }
}

// Words, each with a space in front of it.
#[derive(Clone, Copy)]
struct Spaced<'a>(&'a [u32]);

impl fmt::Display for Spaced<'_> {
    fn fmt<W: fmt::Write>(&self, f: &mut fmt::Formatter<W>) -> fmt::Result {
        for word in self.0 {
            write!(f, " {word}")?;
        }
        Ok(())
    }
}

// Standard output behind a page of bytes that wait. What is left in it is written by a flush.
#[derive(Clone, Copy)]
pub struct Sink {
    to: Stdout,
    page: Bytes<4096>,
}

impl Sink {
    pub fn new(to: Stdout) -> Self {
        Self {
            to,
            page: Bytes::new(),
        }
    }
}

impl Write for Sink {
    fn write(&mut self, bytes: &[u8]) -> io::Result<usize> {
        if self.page.is_full() {
            self.flush()?;
        }
        Ok(self.page.extend(bytes))
    }

    fn flush(&mut self) -> io::Result<()> {
        self.to.write_all(self.page.as_slice())?;
        self.page.clear();
        Ok(())
    }
}

// What could not be read or printed, and why.
#[derive(Clone, Copy, Debug)]
pub struct Failure<'a> {
    pub what: &'a str,
    pub error: io::Error,
}

impl Failure<'static> {
    pub fn of_output(error: io::Error) -> Self {
        Self {
            what: "standard output",
            error,
        }
    }
}

// The error is told in its own words, without its number. It has at most 256 bytes of words, so there is room for both.
impl fmt::Display for Failure<'_> {
    fn fmt<W: fmt::Write>(&self, f: &mut fmt::Formatter<W>) -> fmt::Result {
        let mut text = ArrayString::<512>::new();
        write!(text, "{}", self.error)?;
        let words = text.as_str();
        let reason = match words.split_once(" (os error ") {
            Some((reason, _)) => reason,
            None => words,
        };
        write!(f, "{}: {reason}", self.what)
    }
}

impl Error for Failure<'_> {}
