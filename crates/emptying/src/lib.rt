#![tactic(auto)]

// What a reclaim changes once nothing refuses it. That nothing does is required here (`Ready`), with the victim that was found on the way to it; the answer and the words
// are promised as the rules give them. The parts of the words come apart, as the layer is lent them.
ghost use Rattle.std.specs.Prelude.{◌≡◌, [], ◌∷◌};
ghost use Rattle.rules.specs.Lent.{lent};
ghost use Rattle.rules.specs.Device.{device_of};
ghost use Rattle.rules.specs.Reclaim.{victim};
ghost use Rattle.rules.specs.Answers.{said, outcome};
ghost use Rattle.rules.specs.Calls.{Call, call};
ghost use Rattle.refusals.specs.Accepts.{Ready};

use choosing::block::Block;
use rules::{Head, Listed};

// A reclaim that nothing refuses: the mapped pages of its victim, block v, listed, and everything about them moved into the reserve.
pub fn empty_victim(
    h: Head,
    ext: &mut [u32],
    blk: &mut [u32],
    spare: &mut [u32],
    v: u32,
    out: &mut [u32],
) -> Listed
    requires ready { Ready (Call.reclaim out.old) (lent h ext.old blk.old spare.old) }
    requires v_value { v ≡ victim (device_of (lent h ext.old blk.old spare.old)) }
    ensures { outcome (said 0 (result.count ∷ []) result.head) ext.new blk.new spare.new out.new
        ≡ call (Call.reclaim out.old) (lent h ext.old blk.old spare.old) }
{
    let used = h.used as usize;
    let n = h.pages;
    let block = Block {
        number: v,
        pages: n,
    };
    let ranks = choosing::ranks_of(ext, used, block);
    let k = ranks[n as usize];
    choosing::list_sources(&ranks, block, out);
    reclaiming::move_labels(spare, out, k as usize, n, h.reserve, v);
    reclaiming::move_blocks(blk, h.reserve, v);
    let nodes = reclaiming::move_map(ext, used, block, h.reserve, &ranks);
    let head = Head {
        used: nodes as u32,
        reserve: v,
        ..h
    };
    Listed { count: k, head }
}
