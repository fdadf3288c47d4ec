#![tactic(auto)]

// The pages of a range struck off the valid counts of their blocks, each of them once. The extents are assumed to be those of a sound state, before the
// range is cut out of them; promised is what each block has left, and that no fill changes.
ghost use Rattle.std.specs.Prelude.{◌≡◌, ◌/◌, ◌<◌, ◌≤◌, [], ◌∷◌};
ghost use Rattle.rules.specs.Extents.{slots_from};
ghost use Rattle.rules.specs.Blocks.{valid_word, HasBlock};
ghost use Rattle.laws.specs.Tallies.{overlap};
ghost use Rattle.map.specs.Halved.{ends_by};
ghost use Rattle.striking.specs.Lowered.{Lowered, Lowerable};

use rules::{BlockRecord, Extent};

// How many pages of an extent lie from l up to e.
#[tactic(auto, unfolding(laws::specs::Tallies::overlap))]
fn overlap_of(x: Extent, l: u32, e: u32) -> u32
    ensures { result ≡ overlap x l e }
{
    let start = x.logical.max(l);
    let stop = map::end(x).min(e as u64) as u32;
    stop.saturating_sub(start)
}

// The block of an extent loses the extent's pages from l up to e, each of them once.
fn lower_slot(x: Extent, pages: u32, l: u32, e: u32, blk: &mut [u32])
    requires { (0 < pages) × HasBlock blk.old (x.physical / pages) × (overlap x l e ≤ valid_word blk.old (x.physical / pages)) }
    ensures { Lowered pages l e (x ∷ []) blk.old blk.new }
{
    let gone = overlap_of(x, l, e);
    let b = (x.physical / pages) as usize;
    let r = words::block_at(blk, b);
    let valid = r.valid - gone;
    words::put_block(blk, b, BlockRecord { valid, ..r });
}

// Each block loses the pages that extents in use have in it from l up to e. The first slot that ends after l is `first`; those from the
// first that starts at e or later on have none. Not over an `InUse`: its `Lowerable` asks for whole sound extents, and says more of them than that these rise.
pub fn lower(ext: &[u32], used: usize, first: usize, pages: u32, l: u32, e: u32, blk: &mut [u32])
    requires { Lowerable ext.now used pages l e blk.old × (first ≡ ends_by l (slots_from ext.now 0 used)) }
    ensures { Lowered pages l e (slots_from ext.now 0 used) blk.old blk.new }
{
    for i in first..used {
        let x = words::slot_at(ext, i);
        if e <= x.logical {
            return;
        }
        lower_slot(x, pages, l, e, blk);
    }
}
