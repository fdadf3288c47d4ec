#![tactic(auto)]

// What a reclaim does to lent words: the labels, the block records and the map, each by itself. It stands behind the refusals: what a sound
// state promises is required here.
ghost use Rattle.std.specs.Prelude.{◌≡◌, ℕ, ◌+◌, ◌*◌, ◌<◌, ◌≤◌, length, take, slice_index};
ghost use Rattle.rules.specs.Blocks.{HasBlock};
ghost use Rattle.rules.specs.Extents.{none, end, slot, slots_from};
ghost use Rattle.laws.specs.Cells.{copies_into, swept};
ghost use Rattle.laws.specs.Norm.{move};
ghost use Rattle.map.specs.Padded.{padded};
ghost use Rattle.choosing.specs.Over.{Elsewhere};
ghost use Rattle.choosing.specs.Ranks.{Movable};
ghost use Rattle.reclaiming.specs.Remapped.{ranked_page, remapped};
ghost use Rattle.reclaiming.specs.Slot.{joins_last, Pushed, Apart};
ghost use Rattle.reclaiming.specs.Moves.{Moves};
ghost use Rattle.reclaiming.specs.Labels.{Copied};
ghost use Rattle.reclaiming.specs.Emptied.{emptied};

use choosing::block::Block;
use rules::{BlockRecord, Extent};
use words::NONE;

// The labels of the first k pages listed, copied one after the other.
fn copy_labels(spare: &mut [u32], out: &[u32], k: usize, to: usize)
    requires { (k ≤ length out.now) × (to + k ≤ length spare.old) × ((i : ℕ) → i < k → slice_index out.now i < length spare.old) }
    ensures { spare.new ≡ copies_into none to (take k out.now) spare.old }
{
    for (i, page) in out[..k].iter().enumerate() {
        spare[to + i] = spare[*page as usize];
    }
}

// The labels go along with the copies, and the victim's are erased.
// The victim's numbers and no `Block`: all that `Copied` asks is that its labels are there, of which a slice may have more than a word counts.
pub fn move_labels(spare: &mut [u32], out: &[u32], k: usize, n: u32, r: u32, v: u32)
    requires { Copied n r v out.now k (length spare.old) }
    ensures { spare.new ≡ swept none n r v (take k out.now) spare.old }
{
    let pages = n as usize;
    let to = (r as usize) * pages;
    let from = (v as usize) * pages;
    copy_labels(spare, out, k, to);
    spare[from..from + pages].fill(NONE);
}

// The old reserve has the victim's valid pages and nothing else, and the victim nothing.
pub fn move_blocks(blk: &mut [u32], r: u32, v: u32)
    requires { (HasBlock blk.old r) × (HasBlock blk.old v) }
    ensures { blk.new ≡ emptied r v blk.old }
{
    let valid = words::valid_of(blk, v as usize);
    let full = BlockRecord { fill: valid, valid };
    let empty = BlockRecord { fill: 0, valid: 0 };
    words::put_block(blk, r as usize, full);
    words::put_block(blk, v as usize, empty);
}

// Extent x is joinable with the last of the first w slots.
fn joins_last(ext: &[u32], w: usize, x: Extent, n: u32) -> bool
    requires { (1 ≤ n) × (3 * w ≤ length ext.now) }
    ensures { result ≡ joins_last n ext.now w x }
{
    w > 0 && map::joins(words::slot_at(ext, w - 1), x, n)
}

// Extent x pushed behind the first w slots: how many stand then.
fn push_slot(ext: &mut [u32], w: usize, x: Extent, n: u32) -> usize
    requires { (1 ≤ n) × (3 * w + 2 < length ext.old) × (end x ≤ none) }
    ensures { Pushed n ext.old w x ext.new result }
{
    if joins_last(ext, w, x, n) {
        let at = w - 1;
        let last = words::slot_at(ext, at);
        let count = last.count + x.count;
        words::put_slot(ext, at, Extent { count, ..last });
        return w;
    }
    words::put_slot(ext, w, x);
    w + 1
}

// Slot i goes behind the first w slots. In block v it is moved, and joined where it can be. Elsewhere it stays as it is and joins nothing: no two neighbours did,
// and what was moved lies in a block of its own. It is stored only where it comes down.
fn take_slot(ext: &mut [u32], w: usize, i: usize, v: Block, r: u32, ranks: &[u32]) -> usize
    requires i_in_bounds { (3 * i + 2 < length ext.old) × (w ≤ i) × (end (slot ext.old i) ≤ none) }
    requires movable { Movable v.pages v.number r ranks.now × Apart v.pages ext.old w (slot ext.old i) }
    ensures { Pushed v.pages ext.old w (move (ranked_page v.pages ranks.now v.number r) (slot ext.old i)) ext.new result }
{
    let e = words::slot_at(ext, i);
    let o = v.offset_of(e.physical);
    if o < v.pages {
        let physical = r * v.pages + ranks[o as usize];
        return push_slot(ext, w, Extent { physical, ..e }, v.pages);
    }
    if w < i {
        words::put_slot(ext, w, e);
    }
    w + 1
}

// How many slots from slot i on stay where they are: those that lie in other blocks than v, as long as no slot before them has come down.
// Words and number of slots come apart, not as an `InUse`: both change in `move_map`.
fn stay(ext: &[u32], w: usize, used: usize, i: usize, v: Block) -> usize
    requires { (3 * used ≤ length ext.now) × (i ≤ used) × (1 ≤ v.pages) }
    ensures { (i + result ≤ used) × (0 < result → w ≡ i) × Elsewhere ext.now i result v.pages v.number }
{
    if w != i {
        return 0;
    }
    choosing::passed_over(ext, used, i, v)
}

// The map afterwards, each slot taken from the left, and zeros where slots stand no longer: how many extents it has. No `for`: i goes on by one slot, or by as
// many as stay. No walk in common with `mark_slots` (choosing): this one writes the words that it goes over, and what stays hangs on where it has come to.
pub fn move_map(ext: &mut [u32], used: usize, v: Block, r: u32, ranks: &[u32]) -> usize
    requires { Moves v.pages v.number r ext.old used ranks.now }
    ensures { (result ≡ length (remapped v.pages v.number r (slots_from ext.old 0 used)))
        × (ext.new ≡ padded (length ext.old) (remapped v.pages v.number r (slots_from ext.old 0 used))) }
{
    let mut w: usize = 0;
    let mut i: usize = 0;
    while i < used {
        let k = stay(ext, w, used, i, v);
        if k > 0 {
            w += k;
            i += k;
        } else {
            w = take_slot(ext, w, i, v, r, ranks);
            i += 1;
        }
    }
    ext[3 * w..3 * used].fill(0);
    w
}
