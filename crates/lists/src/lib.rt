#![tactic(auto)]

// Request lists (docs/REPLAY.md), read and printed: what a line asks or what is wrong with it, and the answers as they are printed. Nothing here
// knows what answers the requests, and no fact about an answer is counted on.
ghost use Rattle.std.specs.Prelude.{◌≡◌, take};

mod bytes;
pub mod line;
pub mod print;
pub mod request;
pub mod word;

// The first n words, or all where there are no more.
pub fn first(words: &[u32], n: usize) -> &[u32]
    ensures { result.now ≡ take n words.now }
{
    &words[..n.min(words.len())]
}
