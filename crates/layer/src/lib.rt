#![tactic(auto)]

// The six calls on lent words. Each takes any head, any words of any lengths and any request, and promises one equality: the answer and every lent word afterwards
// are what the rules give of what was lent. Nothing is changed before nothing refuses the request: until then a trim, a write and a reclaim look at the words
// through shared borrows. The head and the parts of the words come apart, as C lends them.
ghost use Rattle.std.specs.Prelude.{◌≡◌, []};
ghost use Rattle.rules.specs.Lent.{lent};
ghost use Rattle.rules.specs.Answers.{outcome, done, listed, counted};
ghost use Rattle.rules.specs.Calls.{Call, call, sizes_only, fresh};

use map::in_use::InUse;
use refusals::unless;
use rules::{Counted, Head, Listed, Refusal};
use verdicts::lent_verdict;

pub fn fresh(
    blocks: u32,
    pages: u32,
    logical: u32,
    slots: u32,
    ext: &mut [u32],
    blk: &mut [u32],
    spare: &mut [u32],
) -> Result<Head, Refusal>
    ensures { outcome (done (sizes_only blocks pages logical slots) result) ext.new blk.new spare.new []
        ≡ fresh blocks pages logical slots ext.old blk.old spare.old }
{
    let given = words::sizes_only(blocks, pages, logical, slots);
    unless(
        state::shape_ok(given, ext.len(), blk.len(), spare.len()),
        Refusal::Shape,
    )?;
    Ok(makes::make_fresh(blocks, pages, logical, slots, ext, blk, spare))
}

pub fn report(h: Head, ext: &[u32], blk: &[u32], spare: &[u32]) -> Result<Counted, Refusal>
    ensures { outcome (counted h result) ext.now blk.now spare.now [] ≡ call Call.report (lent h ext.now blk.now spare.now) }
{
    let s = lent_verdict(h, ext, blk, spare)?;
    Ok(views::count_pages(s))
}

pub fn read(
    h: Head,
    ext: &[u32],
    blk: &[u32],
    spare: &[u32],
    l: u32,
    n: u32,
    out: &mut [u32],
) -> Result<Listed, Refusal>
    ensures { outcome (listed h result) ext.now blk.now spare.now out.new
        ≡ call (Call.read l n out.old) (lent h ext.now blk.now spare.now) }
{
    let s = lent_verdict(h, ext, blk, spare)?;
    let first = InUse::of(s).first_after(l as u64);
    verdicts::read_verdict(s, first, l, n, out.len())?;
    let count = views::list_pieces(s, first, l, n, out);
    Ok(Listed { count, head: h })
}

pub fn trim(
    h: Head,
    ext: &mut [u32],
    blk: &mut [u32],
    spare: &[u32],
    number: u64,
    l: u32,
    n: u32,
) -> Result<Head, Refusal>
    ensures { outcome (done h result) ext.new blk.new spare.now [] ≡ call (Call.trim number l n) (lent h ext.old blk.old spare.now) }
{
    let s = lent_verdict(h, ext, blk, spare)?;
    let sides = InUse::of(s).around(l, n);
    verdicts::trim_verdict(s, sides, number, l, n)?;
    Ok(changes::make_holes(h, ext, blk, spare, sides, number, l, n))
}

pub fn write(
    h: Head,
    ext: &mut [u32],
    blk: &mut [u32],
    spare: &mut [u32],
    number: u64,
    l: u32,
    n: u32,
    out: &mut [u32],
) -> Result<Listed, Refusal>
    ensures { outcome (listed h result) ext.new blk.new spare.new out.new
        ≡ call (Call.write number l n out.old) (lent h ext.old blk.old spare.old) }
{
    let s = lent_verdict(h, ext, blk, spare)?;
    let m = writable::meeting_of(s, l, n);
    writable::write_verdict(s, m, number, l, n, out.len())?;
    Ok(changes::place_pages(h, ext, blk, spare, m, number, l, n, out))
}

pub fn reclaim(
    h: Head,
    ext: &mut [u32],
    blk: &mut [u32],
    spare: &mut [u32],
    out: &mut [u32],
) -> Result<Listed, Refusal>
    ensures { outcome (listed h result) ext.new blk.new spare.new out.new
        ≡ call (Call.reclaim out.old) (lent h ext.old blk.old spare.old) }
{
    let s = lent_verdict(h, ext, blk, spare)?;
    let victim = choosing::victim_of(s.blk, s.head.blocks);
    verdicts::reclaim_verdict(s, victim, out.len())?;
    Ok(emptying::empty_victim(h, ext, blk, spare, victim, out))
}
