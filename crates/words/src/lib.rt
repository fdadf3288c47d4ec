#![tactic(auto)]

// Leaves on what is lent: the record of a block, the slot of an extent, scans of a part, and stores into a part; and what goes by value: a refusal's
// number, a head of sizes, what is kept of a request. What a block record holds, and how far apart two records stand, is known here and in
// specs/Blocks.antt of `rules`, and nowhere else in the code.
ghost use Rattle.std.specs.Prelude.{◌≡◌, ◌+◌, ◌-◌, ◌*◌, ◌<◌, ◌≤◌, ◌^◌, ◌++◌, length, get_or, take, drop, replicate, eqb, ltb};
ghost use Rattle.rules.specs.Counting.{all, tabulate};
ghost use Rattle.rules.specs.Answers.{number};
ghost use Rattle.rules.specs.Request.{kept};
ghost use Rattle.rules.specs.Calls.{sizes_only};
ghost use Rattle.rules.specs.Blocks.{fill_word, valid_word, HasBlock, block_at, put_block};
ghost use Rattle.rules.specs.Extents.{slot, put_slot};

use rules::{BlockRecord, Extent, Head, Last, Refusal};

pub const STRIDE: usize = 2;

// The label of an erased page, and the page of a hole.
pub const NONE: u32 = u32::MAX;

// ---- values

// The paper's number of a refusal.
pub fn number_of(r: Refusal) -> u32
    ensures { result ≡ number r }
{
    r as u32
}

// What is known of a request with this number, once it is accepted.
pub fn kept(number: u64) -> Last
    ensures { result ≡ kept number }
{
    Last { number }
}

// The head of four sizes, and zero elsewhere.
pub fn sizes_only(blocks: u32, pages: u32, logical: u32, slots: u32) -> Head
    ensures { result ≡ sizes_only blocks pages logical slots }
{
    Head {
        blocks,
        pages,
        logical,
        slots,
        used: 0,
        reserve: 0,
        last: kept(0),
    }
}

// ---- block records

pub fn fill_of(blk: &[u32], b: usize) -> u32
    requires { HasBlock blk.now b }
    ensures { result ≡ fill_word blk.now b }
{
    block_at(blk, b).fill
}

pub fn valid_of(blk: &[u32], b: usize) -> u32
    requires { HasBlock blk.now b }
    ensures { result ≡ valid_word blk.now b }
{
    block_at(blk, b).valid
}

// The record of block b.
pub fn block_at(blk: &[u32], b: usize) -> BlockRecord
    requires { HasBlock blk.now b }
    ensures { result ≡ block_at blk.now b }
{
    let at = STRIDE * b;
    BlockRecord {
        fill: blk[at],
        valid: blk[at + 1],
    }
}

// The record of block b becomes r.
#[tactic(auto, unfolding(rules::specs::Blocks::put_block))]
pub fn put_block(blk: &mut [u32], b: usize, r: BlockRecord)
    requires { HasBlock blk.old b }
    ensures { blk.new ≡ put_block blk.old b r }
{
    let at = STRIDE * b;
    blk[at] = r.fill;
    blk[at + 1] = r.valid;
}

// ---- slots: three words an extent

// The extent in slot i.
pub fn slot_at(ws: &[u32], i: usize) -> Extent
    requires { 3 * i + 2 < length ws.now }
    ensures { result ≡ slot ws.now i }
{
    let at = 3 * i;
    Extent {
        logical: ws[at],
        physical: ws[at + 1],
        count: ws[at + 2],
    }
}

// The extent in slot i becomes e.
#[tactic(auto, unfolding(rules::specs::Extents::put_slot))]
pub fn put_slot(ws: &mut [u32], i: usize, e: Extent)
    requires { 3 * i + 2 < length ws.old }
    ensures { ws.new ≡ put_slot ws.old i e }
{
    let at = 3 * i;
    ws[at] = e.logical;
    ws[at + 1] = e.physical;
    ws[at + 2] = e.count;
}

// ---- scans without an exit, so that they vectorise

// Every word is x.
pub fn all_are(ws: &[u32], x: u32) -> bool
    ensures { result ≡ all (length ws.now) (λ k. eqb (get_or ws.now k 0) x) }
{
    let mut off = 0;
    for w in ws {
        off |= *w ^ x;
    }
    off == 0
}

// Every word is below top: none is above the last word below it, which is the compare that vectors have.
pub fn all_below(ws: &[u32], top: u32) -> bool
    requires { 0 < top }
    ensures { result ≡ all (length ws.now) (λ k. ltb (get_or ws.now k 0) top) }
{
    let last = top - 1;
    let mut ok = true;
    for w in ws {
        if last < *w {
            ok = false;
        }
    }
    ok
}

// The words are x, x + 1, ..
pub fn all_rise(ws: &[u32], x: u32) -> bool
    requires { x + length ws.now ≤ 2 ^ 32 }
    ensures { result ≡ all (length ws.now) (λ k. eqb (get_or ws.now k 0) (x + k)) }
{
    let mut off = 0;
    for (k, w) in ws.iter().enumerate() {
        off |= *w ^ (x + k as u32);
    }
    off == 0
}

// ---- stores

// Every word becomes x. With `fill` here the table that choosing::ranks_of gives back is copied by memcpy, and the library that C links may need memset alone.
pub fn fill_with(ws: &mut [u32], x: u32)
    ensures { ws.new ≡ replicate (length ws.old) x }
{
    for w in ws.iter_mut() {
        *w = x;
    }
}

// The words become x, x + 1, ..
pub fn fill_rise(ws: &mut [u32], x: u32)
    requires { x + length ws.old ≤ 2 ^ 32 }
    ensures { ws.new ≡ tabulate (length ws.old) (λ k. x + k) }
{
    for (k, w) in ws.iter_mut().enumerate() {
        *w = x + k as u32;
    }
}

// The words become those of `new`. `copy_from_slice` compiles to a call of memmove, and the library that C links may need memset alone (.ci/tests/install).
pub fn put_words(ws: &mut [u32], new: &[u32])
    requires { length ws.old ≡ length new.now }
    ensures { ws.new ≡ new.now }
{
    for (k, w) in new.iter().enumerate() {
        ws[k] = *w;
    }
}

// Every word moved up by `by` places, the last `by` dropped, and the first `by` left as they were.
pub fn shift_up(tail: &mut [u32], by: usize)
    requires { by ≤ length tail.old }
    ensures { tail.new ≡ take by tail.old ++ take (length tail.old - by) tail.old }
{
    let kept = tail.len() - by;
    tail.copy_within(..kept, by);
}

// The first `by` words dropped, the others moved down in their place, and zeros behind them.
pub fn shift_down(tail: &mut [u32], by: usize)
    requires { by ≤ length tail.old }
    ensures { tail.new ≡ drop by tail.old ++ replicate by 0 }
{
    let kept = tail.len() - by;
    tail.copy_within(by.., 0);
    fill_with(&mut tail[kept..], 0);
}
