#![tactic(auto)]

// A range cut out of the extents, in place. Assumed are the extents of a sound state, the sides of the range among them and a slot for what is taken
// apart; promised are the extents without the range, but for a gap among them that is still to be closed or filled. Words and number of slots come apart, not as an
// `InUse`: both change, and with a gap among them the slots are no extents in order.
ghost use Rattle.std.specs.Prelude.{◌≡◌, ℕ, ◌+◌, ◌*◌, ◌<◌, ◌≤◌, length};
ghost use Rattle.rules.specs.Extents.{end, slot, slots_from};
ghost use Rattle.laws.specs.Cut.{cut};
ghost use Rattle.map.specs.Sound.{Piece};
ghost use Rattle.map.specs.Around.{Beside};
ghost use Rattle.map.specs.Padded.{padded, Holds, Gapped};
ghost use Rattle.map.specs.Clip.{up_to, on_from, clip_right, clip_left, split_at};
ghost use Rattle.cutting.specs.Cutting.{Cuttable};

use map::{Gap, Sides};
use rules::Extent;

// An extent's part below l.
fn up_to(x: Extent, l: u32) -> Extent
    requires { x.logical < l }
    ensures { result ≡ up_to l x }
{
    let count = x.count.min(l - x.logical);
    Extent { count, ..x }
}

// An extent's part from e on.
fn on_from(x: Extent, e: u32) -> Extent
    requires { Piece x × (e < end x) }
    ensures { result ≡ on_from e x }
{
    let start = x.logical.max(e);
    let passed = start - x.logical;
    Extent {
        logical: start,
        physical: x.physical + passed,
        count: x.count - passed,
    }
}

// Of a extents the last, which starts before l, ends there at the latest.
fn clip_right(ext: &mut [u32], used: usize, a: usize, l: u32)
    requires { Holds ext.old used × (a ≤ used) × ((i : ℕ) → i + 1 ≡ a → (slot ext.old i).logical < l) }
    ensures { ext.new ≡ padded (length ext.old) (clip_right l a (slots_from ext.old 0 used)) }
{
    if a < 1 {
        return;
    }
    let x = words::slot_at(ext, a - 1);
    words::put_slot(ext, a - 1, up_to(x, l));
}

// The extent in slot z, where there is one, ends after e begins. It starts there at the earliest.
fn clip_left(ext: &mut [u32], used: usize, z: usize, e: u32)
    requires { Holds ext.old used × (z < used → Piece (slot ext.old z) × (e < end (slot ext.old z))) }
    ensures { ext.new ≡ padded (length ext.old) (clip_left e z (slots_from ext.old 0 used)) }
{
    if used <= z {
        return;
    }
    let x = words::slot_at(ext, z);
    words::put_slot(ext, z, on_from(x, e));
}

// The extent in slot i, which starts before l and ends after e begins, is taken apart.
fn split(ext: &mut [u32], used: usize, i: usize, l: u32, e: u32)
    requires { Holds ext.old used × (i < used) × (3 * used + 3 ≤ length ext.old) × ((slot ext.old i).logical < l) × (l < e) × (e < end (slot ext.old i)) × Piece (slot ext.old i) }
    ensures { ext.new ≡ padded (length ext.old) (split_at l e i (slots_from ext.old 0 used)) }
{
    let x = words::slot_at(ext, i);
    let left = up_to(x, l);
    let right = on_from(x, e);
    map::insert(
        ext,
        used,
        i + 1,
        &[right.logical, right.physical, right.count],
        1,
    );
    words::put_slot(ext, i, left);
}

// The logical pages from l up to e, whose sides are given, cut out of the extents, but for the slots that they cover whole: these are left as a gap.
pub fn open_gap(ext: &mut [u32], used: usize, sides: Sides, l: u32, e: u32) -> Gap
    requires { Cuttable ext.old used l e × Beside l e (slots_from ext.old 0 used) sides }
    ensures { Gapped (length ext.old) (cut l e (slots_from ext.old 0 used)) ext.new result.used result.from result.to × (result.from ≡ sides.before) }
{
    let a = sides.before;
    let z = used - sides.after;
    if z < a {
        split(ext, used, z, l, e);
        let used = used + 1;
        return Gap {
            used,
            from: a,
            to: a,
        };
    }
    clip_right(ext, used, a, l);
    clip_left(ext, used, z, e);
    Gap {
        used,
        from: a,
        to: z,
    }
}
