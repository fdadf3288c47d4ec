#![tactic(auto)]

// What a reclaim takes: its victim, the rank of each of the victim's mapped pages, which is where it goes in the reserve, and the list of copies. The records
// and extents are assumed to be those of a sound state; but for the answer buffer nothing is changed. No `InUse` is asked for: no order of the slots is needed here.
ghost use Rattle.std.specs.Prelude.{◌≡◌, ℕ, ◌+◌, ◌*◌, ◌%◌, ◌<◌, ◌≤◌, length, slice_index};
ghost use Rattle.rules.specs.Counting.{most, count};
ghost use Rattle.rules.specs.Blocks.{stride, fill_word, valid_word, HasBlock};
ghost use Rattle.rules.specs.Extents.{slot, slots_from};
ghost use Rattle.rules.specs.Calls.{over};
ghost use Rattle.words.specs.Store.{stored};
ghost use Rattle.choosing.specs.Stale.{stale_word};
ghost use Rattle.choosing.specs.Covered.{covered};
ghost use Rattle.choosing.specs.Over.{Elsewhere};
ghost use Rattle.choosing.specs.Ranks.{Ranks, rises, marked_in, Marks, sums};
ghost use Rattle.choosing.specs.Sources.{live_pages};

pub mod block;

use block::Block;

// Slots that are tested at a time.
const W: usize = 16;

pub fn stale_of(blk: &[u32], b: usize) -> u32
    requires { (HasBlock blk.now b) × (valid_word blk.now b ≤ fill_word blk.now b) }
    ensures { result ≡ stale_word blk.now b }
{
    let r = words::block_at(blk, b);
    r.fill - r.valid
}

// The block with most stale pages, the lowest of these. The compare is written out: the edits tie_to_the_highest and fewest_valid are mistakes in it.
pub fn victim_of(blk: &[u32], blocks: u32) -> u32
    requires { (stride * blocks ≤ length blk.now) × ((b : ℕ) → b < blocks → valid_word blk.now b ≤ fill_word blk.now b) }
    ensures { result ≡ most blocks (stale_word blk.now) }
{
    let mut v: u32 = 0;
    let mut most: u32 = 0;
    for b in 0..blocks {
        let stale = stale_of(blk, b as usize);
        if most < stale {
            v = b;
            most = stale;
        }
    }
    v
}

// Ones at the offsets of slot i, where it lies in block v.
fn mark_slot(marks: &mut [u32], ext: &[u32], i: usize, v: Block)
    requires i_in_bounds { (3 * i + 2 < length ext.now) × (1 ≤ v.pages) × (v.pages ≤ length marks.old) }
    requires i_bound { (slot ext.now i).physical % v.pages + (slot ext.now i).count ≤ v.pages }
    ensures { marks.new ≡ marked_in (slot ext.now i) v.pages v.number marks.old }
{
    let e = words::slot_at(ext, i);
    let o = v.offset_of(e.physical);
    if o >= v.pages {
        return;
    }
    let from = o as usize;
    marks[from..from + (e.count as usize)].fill(1);
}

// Of the W slots in these words W where none lies in block v, or 0. The least of their differences tells, without an exit: they are taken in vectors.
fn free_of(ws: &[u32], v: Block) -> usize
    requires { (48 ≤ length ws.now) × (1 ≤ v.pages) }
    ensures { (result ≤ 16) × Elsewhere ws.now 0 result v.pages v.number }
{
    let mut least = u32::MAX;
    for k in 0..W {
        least = least.min(v.offset_of(ws[3 * k + 1]));
    }
    if least < v.pages {
        return 0;
    }
    W
}

// How many slots from slot i on may be passed over: W where none of them lies in block v, or none. Only every W-th slot asks, so no slot is tested more than twice.
pub fn passed_over(ext: &[u32], used: usize, i: usize, v: Block) -> usize
    requires { (3 * used ≤ length ext.now) × (i ≤ used) × (1 ≤ v.pages) }
    ensures { (i + result ≤ used) × Elsewhere ext.now i result v.pages v.number }
{
    if i % W > 0 || used < i + W {
        return 0;
    }
    let at = 3 * i;
    free_of(&ext[at..at + 3 * W], v)
}

// Ones at the offsets of the mapped pages of block v. No `for`: i goes on by one slot, or by as many as are passed over.
fn mark_slots(marks: &mut [u32], ext: &[u32], used: usize, v: Block)
    requires used_in_bounds { (3 * used ≤ length ext.now) × (1 ≤ v.pages) × (v.pages ≤ length marks.old) }
    requires by_index { (i : ℕ) → i < used → (slot ext.now i).physical % v.pages + (slot ext.now i).count ≤ v.pages }
    requires by_index_2 { (o : ℕ) → o < v.pages → slice_index marks.old o ≡ 0 }
    ensures { Marks ext.now used v.pages v.number marks.new }
{
    let mut i: usize = 0;
    while i < used {
        let free = passed_over(ext, used, i, v);
        if free > 0 {
            i += free;
        } else {
            mark_slot(marks, ext, i, v);
            i += 1;
        }
    }
}

// At each offset up to n the sum of the marks before it.
fn add_up(marks: &mut [u32], n: usize)
    requires { (n < length marks.old) × (n ≤ 256) × ((o : ℕ) → o < n → slice_index marks.old o ≤ 1) }
    ensures { marks.new ≡ stored (sums marks.old) (n + 1) marks.old }
{
    let mut k: u32 = 0;
    for o in 0..n {
        let m = marks[o];
        marks[o] = k;
        k += m;
    }
    marks[n] = k;
}

// The rank of each offset of block v, and behind the last the number of its mapped pages.
pub fn ranks_of(ext: &[u32], used: usize, v: Block) -> [u32; 257]
    requires used_in_bounds { (3 * used ≤ length ext.now) × (1 ≤ v.pages) × (v.pages ≤ 256) }
    requires by_index { (i : ℕ) → i < used → (slot ext.now i).physical % v.pages + (slot ext.now i).count ≤ v.pages }
    ensures { Ranks v.pages (covered (slots_from ext.now 0 used) v.pages v.number) result }
{
    let mut ranks = [0u32; 257];
    mark_slots(&mut ranks, ext, used, v);
    add_up(&mut ranks, v.pages as usize);
    ranks
}

// The mapped pages of block v, in physical order: offset o is mapped where the rank rises behind it.
pub fn list_sources(ranks: &[u32], v: Block, out: &mut [u32])
    requires { Ranks v.pages (rises ranks.now) ranks.now × (count v.pages (rises ranks.now) ≤ length out.old) }
    ensures { out.new ≡ over (live_pages v.pages v.number (rises ranks.now)) out.old }
{
    for o in 0..v.pages {
        let at = o as usize;
        let rank = ranks[at];
        if rank < ranks[at + 1] {
            out[rank as usize] = v.first() + o;
        }
    }
}
