#![tactic(auto)]

// The sound test, slot by slot: does every extent in use stand as rules 1 and 2 ask, with its own labels on pages that are there? Neither L nor a fill is
// looked at: where rule 3 holds, labels that are right keep an extent below both. Assumed are slots in use that are there; promised are the answer and,
// where it is yes, the pages that the extents have in each block. Words and number of slots come apart: nothing is known of them before the test.
ghost use Rattle.std.specs.Prelude.{◌<◌};
ghost use Rattle.words.specs.Says.{Says};
ghost use Rattle.slots.specs.Slot.{SlotLies};
ghost use Rattle.slots.specs.Walk.{Given, Walked};

use rules::Extent;

// Rules 1 and 2 for a slot behind one that ended before (lo, q), but for where it ends: no logical page comes near the end of the words.
fn row_ok(n: u32, lo: u32, q: u32, x: Extent) -> bool
    requires { 0 < n }
    ensures { Says result (SlotLies n lo q x.logical x.physical x.count) }
{
    let o = x.physical % n;
    lo <= x.logical
        && x.logical < 2147483648
        && x.count != 0
        && x.count <= n - o
        && (x.physical != q || x.logical != lo || o == 0)
}

// Every slot in use, and its labels. Each slot's pages are added to its block's place in the tally.
pub fn walk(ext: &[u32], spare: &[u32], used: usize, n: u32, tally: &mut [u32]) -> bool
    requires { Given ext.now spare.now tally.old used n }
    ensures { Walked result ext.now spare.now tally.new used n }
{
    let table = windows::masks();
    let near = windows::near_of(spare.len(), n as usize);
    let mut lo = 0;
    let mut q = u32::MAX;
    for i in 0..used {
        let x = words::slot_at(ext, i);
        if !row_ok(n, lo, q, x) {
            return false;
        }
        if !windows::home_ok(spare, near, &table, x.logical, x.physical, x.count) {
            return false;
        }
        let b = (x.physical / n) as usize;
        tally[b] += x.count;
        lo = x.logical + x.count;
        q = x.physical + x.count;
    }
    true
}
