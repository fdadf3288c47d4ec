#![tactic(auto)]

// What a read finds in the extents: its pieces one after the other, from the first slot that its range meets. They are counted, or laid into the answer
// buffer.
ghost use Rattle.std.specs.Prelude.{◌≡◌, ◌*◌, ◌≤◌, length};
ghost use Rattle.rules.specs.Extents.{flat};
ghost use Rattle.map.specs.Halved.{ends_by};
ghost use Rattle.map.specs.InUse.{extents_of};
ghost use Rattle.reading.specs.Walk.{between, Walks};
ghost use Rattle.rules.specs.Calls.{over};

use map::in_use::InUse;
use rules::Extent;
use words::NONE;

// The pieces from `pos`, where the answer has come to, up to e; the extents from slot i on are still to come.
#[derive(Drop)]
struct Pieces<'a> {
    m: InUse<'a>,
    i: usize,
    pos: u32,
    e: u32,
    ghost walk: { Walks m.words.now m.used i pos e },
}

impl<'a> Pieces<'a> {
    ghost use Rattle.reading.specs.Pieces.{pieces_left};

    // Those of the logical pages from l up to e, where `first` is the first slot that ends after l.
    fn new(m: InUse<'a>, first: usize, l: u32, e: u32) -> Pieces<'a>
        requires { (l ≤ e) × (first ≡ ends_by l (extents_of m)) }
        ensures { pieces_left result ≡ between l e (extents_of m.entry) }
    {
        Pieces {
            m,
            i: first,
            pos: l,
            e,
        }
    }
}

impl<'a> Iterator for Pieces<'a> {
    ghost use Rattle.std.specs.Iterator.{YieldsFirst, item_count};
    ghost use Rattle.reading.specs.Pieces.{pieces_left};

    type Item = Extent;

    ghost next_gives = { YieldsFirst pieces_left };

    ghost remaining = { item_count pieces_left };

    fn next(&mut self) -> Option<Extent> {
        let pos = self.pos;
        if self.e <= pos {
            return None;
        }
        let mut stop = self.e;
        if self.i < self.m.used {
            let x = words::slot_at(self.m.words, self.i);
            if x.logical <= pos {
                let page = x.physical + (pos - x.logical);
                let reach = map::end(x).min(self.e as u64) as u32;
                self.pos = reach;
                self.i += 1;
                return Some(Extent {
                    logical: pos,
                    physical: page,
                    count: reach - pos,
                });
            }
            stop = x.logical.min(self.e);
        }
        self.pos = stop;
        Some(Extent {
            logical: pos,
            physical: NONE,
            count: stop - pos,
        })
    }
}

// How many pieces a read of the logical pages from l up to e finds, where `first` is the first slot that ends after l.
pub fn count_found(m: InUse<'_>, first: usize, l: u32, e: u32) -> usize
    requires { (l ≤ e) × (first ≡ ends_by l (extents_of m)) }
    ensures { result ≡ length (between l e (extents_of m.entry)) }
{
    Pieces::new(m, first, l, e).count()
}

// What a read of the logical pages from l up to e finds, in the first words of the answer buffer, where `first` is the first slot that ends
// after l: how many pieces.
pub fn list_found(m: InUse<'_>, first: usize, l: u32, e: u32, out: &mut [u32]) -> usize
    requires place { (l ≤ e) × (first ≡ ends_by l (extents_of m)) }
    requires room { 3 * length (between l e (extents_of m)) ≤ length out.old }
    ensures { (result ≡ length (between l e (extents_of m.entry)))
        × (out.new ≡ over (flat (between l e (extents_of m.entry))) out.old) }
{
    // How many came is the answer, which `enumerate` does not hand back: so k is counted here.
    let mut k: usize = 0;
    for piece in Pieces::new(m, first, l, e) {
        words::put_slot(out, k, piece);
        k += 1;
    }
    k
}
