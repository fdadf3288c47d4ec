#![tactic(auto)]

// Where a write starts: with the block that has room for all of its pages, the lowest-numbered, or else in 01's order. The order is known here and nowhere else in
// the code: `start_block` finds that block, in one pass over the records, and the walks over the blocks go on from there, each block taking what it has room for.
ghost use Rattle.std.specs.Prelude.{◌≡◌, ℕ, ◌*◌, ◌≤◌, ◌<◌, eqb, length};
ghost use Rattle.rules.specs.Blocks.{stride, fill_word, HasBlock};
ghost use Rattle.laws.specs.Spread.{taken, start_block};
ghost use Rattle.starting.specs.Bare.{fills_of};
ghost use Rattle.starting.specs.Rest.{rest};
ghost use Rattle.starting.specs.Starts.{Startable, Starts};

use rules::Head;

// What block b takes of `want` pages.
pub fn room_in(h: Head, blk: &[u32], b: usize, want: u32) -> u32
    requires { HasBlock blk.now b }
    ensures { result ≡ taken h.pages h.reserve b (fill_word blk.now b) want }
{
    let fill = words::fill_of(blk, b);
    // No `saturating_sub`: which blocks are full is as good as random, and a test of the two words alone tells it soonest (docs/DESIGN-PASS.md, Speed).
    if h.pages <= fill {
        return 0;
    }
    if b == h.reserve as usize {
        return 0;
    }
    (h.pages - fill).min(want)
}

// Where a write starts: the block of its first page, and that page. No Option: where no block has room the block is the number behind the last one, from which
// on `pieces_of` finds no pieces, and the contract (`Starts`) names it in that case too.
#[derive(Clone, Copy)]
pub struct Start {
    pub block: usize,
    pub page: u32,
}

// Whether a block that takes m of `want` pages, one or more, has room for all of them.
fn takes_all(m: u32, want: u32) -> bool
    requires { (0 < m) × (m ≤ want) }
    ensures { result ≡ eqb m want }
{
    m == want
}

// The block that `want` pages start with: the first that has room for all of them or, where none has, the first that has room for one. Where no block
// has, and for no pages, it is the one behind the last.
fn start_block(h: Head, blk: &[u32], want: u32) -> usize
    requires { stride * h.blocks ≤ length blk.now }
    ensures { result ≡ start_block h.pages h.reserve (fills_of h.blocks blk.now) want }
{
    let mut any = h.blocks as usize;
    for b in 0..h.blocks as usize {
        let m = room_in(h, blk, b, want);
        if 0 < m {
            if takes_all(m, want) {
                return b;
            }
            any = any.min(b);
        }
    }
    any
}

// Where `want` pages start: the block, and its next page, which is 0 where there is no block.
pub fn start_of(h: Head, blk: &[u32], want: u32) -> Start
    requires { Startable h.blocks h.pages blk.now }
    ensures { Starts h.pages h.reserve h.blocks blk.now want result }
{
    let block = start_block(h, blk, want);
    if h.blocks as usize <= block {
        return Start { block, page: 0 };
    }
    let page = (block as u32) * h.pages + words::fill_of(blk, block);
    Start { block, page }
}

// How many pieces `want` pages make from block `from` on.
pub fn pieces_of(h: Head, blk: &[u32], from: usize, want: u32) -> u32
    requires { (stride * h.blocks ≤ length blk.now) × (from ≤ h.blocks) }
    ensures { (l : ℕ) → result ≡ length (rest h.pages h.reserve h.blocks blk.now from l want) }
{
    let mut count: u32 = 0;
    let mut left = want;
    for b in from..h.blocks as usize {
        if left == 0 {
            return count;
        }
        let m = room_in(h, blk, b, left);
        if 0 < m {
            count += 1;
        }
        left -= m;
    }
    count
}
