#![tactic(auto)]

// Refusals 1 and 2 on lent words: `shape_ok` takes any head and any lengths, `is_sound` words of the right shape. Each promises the rules' own test, and
// nothing is changed.
ghost use Rattle.std.specs.Prelude.{◌≡◌, true, ◌*◌, length};
ghost use Rattle.rules.specs.Shape.{sizes, lengths, shape};
ghost use Rattle.rules.specs.Blocks.{stride};
ghost use Rattle.rules.specs.Lent.{lent};
ghost use Rattle.rules.specs.Sound.{sound};
ghost use Rattle.words.specs.Says.{Says};
ghost use Rattle.state.specs.Sound.{Headed};

pub mod sound;

use rules::Head;

#[tactic(auto, unfolding(rules::specs::Shape::sizes))]
pub fn sizes_ok(b: u32, n: u32, l: u32, m: u32) -> bool
    ensures { result ≡ sizes b n l m }
{
    (3..=1024).contains(&b)
        && (1..=256).contains(&n)
        && (1..=(b - 2) * n).contains(&l)
        && (1..=8192).contains(&m)
}

// The product of two words fits a usize.
#[tactic(auto, unfolding(rules::specs::Shape::lengths))]
pub fn lengths_ok(b: u32, n: u32, m: u32, ext: usize, blk: usize, spare: usize) -> bool
    ensures { result ≡ lengths b n m ext blk spare }
{
    ext == 3 * m as usize && blk == words::STRIDE * b as usize && spare == b as usize * n as usize
}

#[tactic(auto, unfolding(rules::specs::Shape::shape))]
pub fn shape_ok(h: Head, ext: usize, blk: usize, spare: usize) -> bool
    ensures { result ≡ shape h ext blk spare }
{
    sizes_ok(h.blocks, h.pages, h.logical, h.slots)
        && lengths_ok(h.blocks, h.pages, h.slots, ext, blk, spare)
}

// What the head says of the words: slots in use at most M, and zeros in the others; a reserve that is there and is empty.
fn head_ok(h: Head, ext: &[u32], blk: &[u32]) -> bool
    requires { (length ext.now ≡ 3 * h.slots) × (length blk.now ≡ stride * h.blocks) }
    ensures { Says result (Headed h ext.now blk.now) }
{
    h.used <= h.slots
        && h.reserve < h.blocks
        && words::fill_of(blk, h.reserve as usize) == 0
        && words::all_are(&ext[3 * h.used as usize..], 0)
}

// The head, then rule 3, then the slots and the pages that they have in each block, then rule 5. It takes the parts apart: where it answers yes, a `Sound` may be
// made of them. The tally is cleared only behind the tests that do without it.
pub fn is_sound(h: Head, ext: &[u32], blk: &[u32], spare: &[u32]) -> bool
    requires { shape h (length ext.now) (length blk.now) (length spare.now) ≡ true }
    ensures { result ≡ sound (lent h ext.now blk.now spare.now) }
{
    if !head_ok(h, ext, blk) {
        return false;
    }
    if !blocks::labels_ok(blk, spare, h.blocks as usize, h.pages as usize, h.logical) {
        return false;
    }
    let mut tally = [0; 1024];
    slots::walk(ext, spare, h.used as usize, h.pages, &mut tally)
        && blocks::valid_ok(blk, &tally, h.blocks as usize)
}
