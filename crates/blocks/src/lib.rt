#![tactic(auto)]

// The sound test, block by block: does each record stand as rules 3 and 5 ask? Words of the right shape are assumed, and the pages that the extents
// have in each block. And what the records of a sound state come to: free, live and stale.
ghost use Rattle.std.specs.Prelude.{◌≡◌, ℕ, ◌*◌, ◌<◌, ◌≤◌, length, get_or};
ghost use Rattle.rules.specs.Blocks.{stride, valid_word};
ghost use Rattle.words.specs.Says.{Says};
ghost use Rattle.blocks.specs.Block.{Labels, Framed, Block};
ghost use Rattle.blocks.specs.Totals.{Filled, Totalled, room_left};

use rules::{Counted, Head};

// Rule 3 for one block: its fill, and the spare entries of its pages.
fn block_ok(fill: u32, part: &[u32], top: u32) -> bool
    requires { 0 < top }
    ensures { Says result (Labels fill top part.now) }
{
    let f = fill as usize;
    f <= part.len() && words::all_below(&part[..f], top) && words::all_are(&part[f..], words::NONE)
}

// Rule 3 for every block. Numbers, not a `Head`: `Framed` asks for no number of blocks or pages that 32 bits hold.
pub fn labels_ok(blk: &[u32], spare: &[u32], blocks: usize, n: usize, top: u32) -> bool
    requires { Framed blk.now spare.now blocks n top }
    ensures { Says result ((b : ℕ) → b < blocks → Block blk.now spare.now n top b) }
{
    for b in 0..blocks {
        let from = b * n;
        let to = from + n;
        if !block_ok(words::fill_of(blk, b), &spare[from..to], top) {
            return false;
        }
    }
    true
}

// Rule 5 for every block, against a tally of its mapped pages. There is no exit, so that it vectorises.
pub fn valid_ok(blk: &[u32], tally: &[u32], blocks: usize) -> bool
    requires { (length blk.now ≡ stride * blocks) × (blocks ≤ length tally.now) }
    ensures { Says result ((b : ℕ) → b < blocks → valid_word blk.now b ≡ get_or tally.now b 0) }
{
    let mut off = 0;
    for b in 0..blocks {
        off |= words::valid_of(blk, b) ^ tally[b];
    }
    off == 0
}

// The pages that block b has left for a write, its fill being f: none in the reserve.
fn room_of(h: Head, b: usize, f: u32) -> u32
    requires { f ≤ h.pages }
    ensures { result ≡ room_left h b f }
{
    if b == h.reserve as usize {
        0
    } else {
        h.pages - f
    }
}

// Free, live and stale, from the block records of a sound state.
pub fn totals_of(h: Head, blk: &[u32]) -> Counted
    requires { Filled h blk.now }
    ensures { Totalled h blk.now result }
{
    let mut free = 0;
    let mut live = 0;
    let mut stale = 0;
    for b in 0..h.blocks as usize {
        let r = words::block_at(blk, b);
        free += room_of(h, b, r.fill);
        live += r.valid;
        stale += r.fill - r.valid;
    }
    Counted { free, live, stale }
}
