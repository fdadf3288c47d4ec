// The extents in use, which stand in the first slots of the words: where a page and a range meet them, found by halving. Each has pages, and ends before the next one
// begins. Where such extents are made, that is proved; what takes them need not ask for it.
ghost use Rattle.std.specs.Prelude.{◌*◌, ◌≤◌, length};
ghost use Rattle.map.specs.Sound.{Rising};

use crate::{Sides, end_of};
use state::sound::Sound;

#[derive(Clone, Copy)]
pub struct InUse<'a> {
    pub words: &'a [u32],
    pub used: usize,
    pub ghost held: { 3 * used ≤ length words.now },
    pub ghost rising: { Rising words.now used },
}

impl<'a> InUse<'a> {
    ghost use Rattle.std.specs.Prelude.{◌≡◌, ◌+◌};
    ghost use Rattle.rules.specs.Lent.{in_use};
    ghost use Rattle.laws.specs.Counts.{starts_before};
    ghost use Rattle.state.specs.Seen.{lent_of};
    ghost use Rattle.map.specs.Halved.{ends_by};
    ghost use Rattle.map.specs.Around.{Beside};
    ghost use Rattle.map.specs.InUse.{extents_of};

    // Those of a sound state.
    pub fn of(s: Sound<'a>) -> InUse<'a>
        ensures { extents_of result ≡ in_use (lent_of s.entry) }
    {
        InUse {
            words: s.ext,
            used: s.head.used as usize,
        }
    }

    // How many of them end at or below a logical page: the first slot that ends after it, found by halving the slots that are left.
    pub fn first_after(self, page: u64) -> usize
        ensures { result ≡ ends_by page (extents_of self.entry) }
    {
        // The edits middle_lost and stops_one_early are mistakes in the halving, and `partition_point` does it out of their reach.
        let mut first: usize = 0;
        let mut left = self.used;
        while left > 0 {
            let half = left / 2;
            let middle = first + half;
            if end_of(self.words, middle) <= page {
                first = middle + 1;
                left -= half + 1;
            } else {
                left = half;
            }
        }
        first
    }

    // How many of them start before l: those before the first that ends after l, and that one where it does.
    fn starting_before(self, first: usize, l: u32) -> usize
        requires { first ≡ ends_by l (extents_of self) }
        ensures { result ≡ starts_before l (extents_of self.entry) }
    {
        if first < self.used && words::slot_at(self.words, first).logical < l {
            first + 1
        } else {
            first
        }
    }

    // Where the n logical pages from l on meet them, whether there are such pages or not.
    pub fn around(self, l: u32, n: u32) -> Sides
        ensures { Beside l (l + n) (extents_of self.entry) result }
    {
        let first = self.first_after(l as u64);
        let behind = self.first_after((l as u64) + (n as u64));
        let before = self.starting_before(first, l);
        let after = self.used - behind;
        Sides {
            first,
            before,
            after,
        }
    }
}
