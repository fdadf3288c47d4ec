#![tactic(auto)]

// What goes in and comes back by value: the head, an extent, the record of a block, the refusals, and the answers of the calls. Each has
// the paper's words for names. What the numbers and values of an answer are is said once, in specs/Answers.antt.
use std::error::Error;
use std::fmt;

// What is known of the last accepted write or trim: its number, 0 where there was none.
#[repr(C)]
#[derive(Clone, Copy, Debug, PartialEq, Eq)]
pub struct Last {
    pub number: u64,
}

// 01, Numbers: B, N, L, M, extents in use, reserve block, last request number.
#[repr(C)]
#[derive(Clone, Copy, Debug, PartialEq, Eq)]
pub struct Head {
    pub blocks: u32,
    pub pages: u32,
    pub logical: u32,
    pub slots: u32,
    pub used: u32,
    pub reserve: u32,
    pub last: Last,
}

// 01, the device and what the layer does: logical start, physical start, page count.
#[repr(C)]
#[derive(Clone, Copy, Debug, PartialEq, Eq)]
pub struct Extent {
    pub logical: u32,
    pub physical: u32,
    pub count: u32,
}

// 01, Numbers: blocks 2B (fill, valid): what is stored of a block.
#[derive(Clone, Copy, Debug, PartialEq, Eq)]
pub struct BlockRecord {
    pub fill: u32,
    pub valid: u32,
}

// 01, Refusals, with their numbers.
#[derive(Clone, Copy, Debug, PartialEq, Eq)]
pub enum Refusal {
    Shape = 1,
    Damaged = 2,
    Range = 3,
    Applied = 4,
    NoPages = 5,
    NoNodes = 6,
    OutShort = 7,
    NothingStale = 8,
}

// Its name in the paper.
impl fmt::Display for Refusal {
    fn fmt<W: fmt::Write>(&self, f: &mut fmt::Formatter<W>) -> fmt::Result {
        f.write_str(match self {
            Refusal::Shape => "Shape",
            Refusal::Damaged => "Damaged",
            Refusal::Range => "Range",
            Refusal::Applied => "Applied",
            Refusal::NoPages => "NoPages",
            Refusal::NoNodes => "NoNodes",
            Refusal::OutShort => "OutShort",
            Refusal::NothingStale => "NothingStale",
        })
    }
}

impl Error for Refusal {}

// What a call answers that is accepted; one that is refused answers which refusal it is, and leaves the head as it was. Fresh and trim answer the head.

// What write, read and reclaim answer: how many pieces, or copied pages, stand in the answer buffer.
#[derive(Clone, Copy, Debug, PartialEq, Eq)]
pub struct Listed {
    pub count: u32,
    pub head: Head,
}

// What report answers.
#[derive(Clone, Copy, Debug, PartialEq, Eq)]
pub struct Counted {
    pub free: u32,
    pub live: u32,
    pub stale: u32,
}
