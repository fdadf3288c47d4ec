#![tactic(auto)]

// The extents of a sound state: where each ends, what joins them, extents let in, and slots that go; where a page and a range meet them stands in `in_use`. `Holds`
// says that words are extents in their first slots and zeros behind; whatever changes the map, here, in `cutting` and in `putting`, leaves it so: it takes
// words and number of slots apart, not as an `InUse`, since it changes both and leaves the slots out of order between.
ghost use Rattle.std.specs.Prelude.{◌≡◌, ◌+◌, ◌*◌, ◌<◌, ◌≤◌, ◌^◌, length};
ghost use Rattle.rules.specs.Extents.{extent, end, joinable, slot, slots_from};
ghost use Rattle.map.specs.Around.{joins_before};
ghost use Rattle.map.specs.Padded.{padded, spliced, without, Holds};

pub mod in_use;

use rules::Extent;

// Where an extent ends, as a whole number.
pub fn end(x: Extent) -> u64
    ensures { (result ≡ end x) × (result < 2 ^ 33) }
{
    (x.logical as u64) + (x.count as u64)
}

// Where slot i ends, as a whole number.
pub fn end_of(ext: &[u32], i: usize) -> u64
    requires { 3 * i + 2 < length ext.now }
    ensures { (result ≡ end (slot ext.now i)) × (result < 2 ^ 33) }
{
    end(words::slot_at(ext, i))
}

// A place in the extents in use that is to be closed or filled: the slots from `from` up to `to` are to go.
#[derive(Clone, Copy)]
pub struct Gap {
    pub used: usize,
    pub from: usize,
    pub to: usize,
}

// Where a range meets the extents in use: the first slot that ends after the range begins, how many extents start before it, and how many
// end after it.
#[derive(Clone, Copy)]
pub struct Sides {
    pub first: usize,
    pub before: usize,
    pub after: usize,
}

// Whether extent b goes on in its block where a ends, so that the two are one. Ends as whole numbers.
pub fn joins(a: Extent, b: Extent, n: u32) -> bool
    requires { 1 ≤ n }
    ensures { result ≡ joinable n a b }
{
    a.physical / n == b.physical / n
        && (b.logical as u64) == (a.logical as u64) + (a.count as u64)
        && (b.physical as u64) == (a.physical as u64) + (a.count as u64)
}

// The last extent before slot `before` goes on with logical page l on page p.
pub fn joins_left(ext: &[u32], before: usize, pages: u32, l: u32, p: u32) -> bool
    requires { (3 * before ≤ length ext.now) × (0 < pages) }
    ensures { result ≡ joins_before pages (extent l p 1) before ext.now }
{
    if before < 1 {
        return false;
    }
    let x = Extent {
        logical: l,
        physical: p,
        count: 1,
    };
    joins(words::slot_at(ext, before - 1), x, pages)
}

// The k extents of `new` come in at slot i, and the slots from there on move up, once for all of them. Where none comes in, none moves.
pub fn insert(ext: &mut [u32], used: usize, i: usize, new: &[u32], k: usize)
    requires { Holds ext.old used × (i ≤ used) × (length new.now ≡ 3 * k) × (3 * (used + k) ≤ length ext.old) }
    ensures { ext.new ≡ padded (length ext.old) (spliced i (slots_from new.now 0 k) (slots_from ext.old 0 used)) }
{
    if k < 1 {
        return;
    }
    let at = 3 * i;
    let to = 3 * (i + k);
    let top = 3 * (used + k);
    words::shift_up(&mut ext[at..top], 3 * k);
    words::put_words(&mut ext[at..to], new);
}

// The slots from a up to z go, and those from z on move down. Where none goes, none moves.
pub fn close(ext: &mut [u32], used: usize, a: usize, z: usize)
    requires { Holds ext.old used × (a ≤ z) × (z ≤ used) }
    ensures { ext.new ≡ padded (length ext.old) (without a z (slots_from ext.old 0 used)) }
{
    if z <= a {
        return;
    }
    let at = 3 * a;
    let top = 3 * used;
    words::shift_down(&mut ext[at..top], 3 * (z - a));
}
