#![tactic(auto)]

// What begins a history, once nothing refuses it: a fresh device. It takes no heed of what the words held; that they fit its sizes is required here.
ghost use Rattle.std.specs.Prelude.{◌≡◌, true, [], length};
ghost use Rattle.rules.specs.Shape.{shape};
ghost use Rattle.rules.specs.Answers.{said, outcome};
ghost use Rattle.rules.specs.Calls.{sizes_only, fresh};

use rules::Head;

// A fresh device of sizes that fit: no extents, nothing programmed, the last block in reserve.
pub fn make_fresh(
    b: u32,
    n: u32,
    l: u32,
    m: u32,
    ext: &mut [u32],
    blk: &mut [u32],
    spare: &mut [u32],
) -> Head
    requires { shape (sizes_only b n l m) (length ext.old) (length blk.old) (length spare.old) ≡ true }
    ensures { outcome (said 0 [] result) ext.new blk.new spare.new [] ≡ fresh b n l m ext.old blk.old spare.old }
{
    words::fill_with(ext, 0);
    words::fill_with(blk, 0);
    words::fill_with(spare, words::NONE);
    Head {
        reserve: b - 1,
        ..words::sizes_only(b, n, l, m)
    }
}
