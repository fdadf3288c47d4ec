#![tactic(auto)]

// What a trim and a write change once nothing refuses them. That nothing does is required here (`Ready`), with what was found on the way to it; the answer
// and the words are promised as the rules give them. The parts of the words come apart, as the layer is lent them: a trim reads the spare areas and a write changes them.
ghost use Rattle.std.specs.Prelude.{◌≡◌, [], ◌∷◌, ◌+◌};
ghost use Rattle.rules.specs.Lent.{lent, in_use};
ghost use Rattle.rules.specs.Answers.{said, outcome};
ghost use Rattle.rules.specs.Calls.{Call, call};
ghost use Rattle.map.specs.Around.{Beside};
ghost use Rattle.refusals.specs.Accepts.{Ready};
ghost use Rattle.changes.specs.Trims.{Cut, Opened};
ghost use Rattle.writable.specs.Meeting.{Meets};

use map::{Gap, Sides};
use rules::{Head, Listed};
use writable::Meeting;

// The range, whose sides are given, struck off the valid counts and cut out of the extents, but for a gap among them: the first part of a trim and of a write.
fn open_range(
    h: Head,
    ext: &mut [u32],
    blk: &mut [u32],
    spare: &[u32],
    sides: Sides,
    l: u32,
    n: u32,
) -> Gap
    requires { Cut l n (lent h ext.old blk.old spare.now) × Beside l (l + n) (in_use (lent h ext.old blk.old spare.now)) sides }
    ensures { Opened l n (lent h ext.old blk.old spare.now) sides.before result.used result.from result.to ext.new blk.new }
{
    let used = h.used as usize;
    striking::lower(ext, used, sides.first, h.pages, l, l + n, blk);
    cutting::open_gap(ext, used, sides, l, l + n)
}

// A trim that nothing refuses, of a range with these sides: the gap that it leaves is closed.
pub fn make_holes(
    h: Head,
    ext: &mut [u32],
    blk: &mut [u32],
    spare: &[u32],
    sides: Sides,
    number: u64,
    l: u32,
    n: u32,
) -> Head
    requires { Ready (Call.trim number l n) (lent h ext.old blk.old spare.now) × Beside l (l + n) (in_use (lent h ext.old blk.old spare.now)) sides }
    ensures { outcome (said 0 [] result) ext.new blk.new spare.now []
        ≡ call (Call.trim number l n) (lent h ext.old blk.old spare.now) }
{
    let gap = open_range(h, ext, blk, spare, sides, l, n);
    map::close(ext, gap.used, gap.from, gap.to);
    let used = gap.used - (gap.to - gap.from);
    let last = words::kept(number);
    Head {
        used: used as u32,
        last,
        ..h
    }
}

// A write that nothing refuses and that meets the extents so: the range is cut out, the pages are placed, and the pieces are put into the gap.
pub fn place_pages(
    h: Head,
    ext: &mut [u32],
    blk: &mut [u32],
    spare: &mut [u32],
    m: Meeting,
    number: u64,
    l: u32,
    n: u32,
    out: &mut [u32],
) -> Listed
    requires { Ready (Call.write number l n out.old) (lent h ext.old blk.old spare.old) × Meets l n (lent h ext.old blk.old spare.old) m }
    ensures { outcome (said 0 (result.count ∷ []) result.head) ext.new blk.new spare.new out.new
        ≡ call (Call.write number l n out.old) (lent h ext.old blk.old spare.old) }
{
    let gap = open_range(h, ext, blk, spare, m.sides, l, n);
    let k = placing::place(h, blk, spare, out, m.from, l, n);
    let used = putting::put_pieces(ext, gap, m.joined, out, k as usize);
    let head = Head {
        used: used as u32,
        last: words::kept(number),
        ..h
    };
    Listed { count: k, head }
}
