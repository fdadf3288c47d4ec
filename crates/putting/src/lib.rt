#![tactic(auto)]

// A write's pieces put into the extents, in place, where its range was cut out: assumed are the gap that it left, whether the first joins the extent in
// front of it, and slots enough; promised is the list of extents with them, and zeros behind it. Words and number of slots come apart, as in `cutting`.
ghost use Rattle.std.specs.Prelude.{◌≡◌, ◌+◌, ◌-◌, ◌<◌, ◌≤◌, ◌^◌, length};
ghost use Rattle.rules.specs.Extents.{slot, slots_from};
ghost use Rattle.map.specs.Padded.{padded, spliced, without, Holds, Becomes};
ghost use Rattle.putting.specs.Pieces.{lengthened, put_in};
ghost use Rattle.putting.specs.Fills.{Fillable, Puttable};

use map::Gap;
use rules::Extent;

// The extent before slot i gets c pages more.
fn lengthen(ext: &mut [u32], used: usize, i: usize, c: u32)
    requires { Holds ext.old used × (1 ≤ i) × (i ≤ used) × ((slot ext.old (i - 1)).count + c < 2 ^ 32) }
    ensures { ext.new ≡ padded (length ext.old) (lengthened i c (slots_from ext.old 0 used)) }
{
    let x = words::slot_at(ext, i - 1);
    let count = x.count + c;
    words::put_slot(ext, i - 1, Extent { count, ..x });
}

// The pieces from s up to k come into the gap. As many as it has slots for are stored there; then what is left of it is closed, or the other pieces are let in: the
// slots behind it move once. The slots then in use are returned. Parts are cut at three times a slot where they are lent on: the words are C's.
fn fill_gap(ext: &mut [u32], gap: Gap, new: &[u32], s: usize, k: usize) -> usize
    requires { Fillable ext.old gap.used gap.from gap.to new.now s k }
    ensures { Becomes (length ext.old) (spliced gap.from (slots_from new.now s (k - s))
        (without gap.from gap.to (slots_from ext.old 0 gap.used))) ext.new result }
{
    let fits = (k - s).min(gap.to - gap.from);
    let more = k - s - fits;
    let mid = gap.from + fits;
    let next = 3 * (s + fits);
    words::put_words(&mut ext[3 * gap.from..3 * mid], &new[3 * s..next]);
    map::close(ext, gap.used, mid, gap.to);
    let used = gap.used - (gap.to - mid);
    map::insert(ext, used, mid, &new[next..3 * k], more);
    used + more
}

// k new pieces, whose words are the first of the answer buffer, come into the gap, where the first is `joined` to the extent in front of it or not. The slots then in use are returned.
pub fn put_pieces(ext: &mut [u32], gap: Gap, joined: bool, new: &[u32], k: usize) -> usize
    requires { Puttable ext.old gap.used gap.from gap.to joined new.now k }
    ensures { Becomes (length ext.old) (put_in gap.from joined (slots_from new.now 0 k)
        (without gap.from gap.to (slots_from ext.old 0 gap.used))) ext.new result }
{
    if joined {
        let first = words::slot_at(new, 0);
        lengthen(ext, gap.used, gap.from, first.count);
        return fill_gap(ext, gap, new, 1, k);
    }
    fill_gap(ext, gap, new, 0, k)
}
