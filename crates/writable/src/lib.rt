#![tactic(auto)]

// What a write is refused for, and where its new extents meet the old ones: found first, for any range, then handed to the verdict and to the change. Nothing is
// changed here.
ghost use Rattle.std.specs.Prelude.{◌≡◌, ◌+◌, ◌≤◌};
ghost use Rattle.rules.specs.Counting.{one};
ghost use Rattle.rules.specs.Device.{device_of};
ghost use Rattle.rules.specs.Calls.{write_refusal};
ghost use Rattle.state.specs.Seen.{lent_of};
ghost use Rattle.refusals.specs.Refusals.{told, roomed};
ghost use Rattle.writable.specs.Meeting.{Meets};

use map::Sides;
use map::in_use::InUse;
use refusals::unless;
use rules::Refusal;
use state::sound::Sound;

// Where a write's new extents meet the old ones: the sides of its range, the block that its pages start with, and whether the last extent
// before it and the first new one are joinable.
#[derive(Clone, Copy)]
pub struct Meeting {
    pub sides: Sides,
    pub from: usize,
    pub joined: bool,
}

// Whether they are joinable is told where the write is in range and finds its pages.
pub fn meeting_of(s: Sound<'_>, l: u32, n: u32) -> Meeting
    ensures { Meets l n (lent_of s.entry) result }
{
    let h = s.head;
    let sides = InUse::of(s).around(l, n);
    let start = starting::start_of(h, s.blk, n);
    let joined = map::joins_left(s.ext, sides.before, h.pages, l, start.page);
    Meeting {
        sides,
        from: start.block,
        joined,
    }
}

// The extents after a write of k pieces: one less where the first is joined.
fn nodes_after(m: Meeting, k: u32) -> usize
    requires { (m.sides.before + m.sides.after ≤ 16384) × (one m.joined ≤ m.sides.before + m.sides.after + k) }
    ensures { result + one m.joined ≡ m.sides.before + m.sides.after + k }
{
    let total = m.sides.before + m.sides.after + (k as usize);
    if m.joined {
        return total - 1;
    }
    total
}

// 3 to 7 of a write that meets the extents so.
pub fn write_verdict(
    s: Sound<'_>,
    m: Meeting,
    number: u64,
    l: u32,
    n: u32,
    room: usize,
) -> Result<(), Refusal>
    requires { Meets l n (lent_of s) m }
    ensures { told result ≡ write_refusal number l n (roomed room) (device_of (lent_of s.entry)) }
{
    let h = s.head;
    let inside = refusals::in_range(h.logical, l, n) && n <= h.pages;
    refusals::asked_verdict(h, inside, number)?;
    unless(n <= blocks::totals_of(h, s.blk).free, Refusal::NoPages)?;
    let k = starting::pieces_of(h, s.blk, m.from, n);
    unless(nodes_after(m, k) <= h.slots as usize, Refusal::NoNodes)?;
    unless(k as usize <= room / 3, Refusal::OutShort)
}
