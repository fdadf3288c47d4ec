#![tactic(auto)]

// What a call is refused for, the first refusal that applies in the paper's order, decided over shared slices before anything is touched. A write's
// verdict stands in `writable`.
ghost use Rattle.std.specs.Prelude.{◌≡◌, ◌+◌, IfOk};
ghost use Rattle.rules.specs.Lent.{lent, in_use};
ghost use Rattle.rules.specs.Device.{device_of};
ghost use Rattle.rules.specs.Calls.{read_refusal, trim_refusal, reclaim_refusal};
ghost use Rattle.state.specs.Seen.{lent_of};
ghost use Rattle.map.specs.Halved.{ends_by};
ghost use Rattle.map.specs.Around.{Beside};
ghost use Rattle.refusals.specs.Refusals.{told, lent_refusal, roomed};
ghost use Rattle.rules.specs.Reclaim.{victim};

use map::Sides;
use map::in_use::InUse;
use refusals::unless;
use rules::{Head, Refusal};
use state::sound::Sound;

// 1 and 2. Words of a wrong shape are not looked into. What is not refused is a sound state.
// The parts come apart, as C lends them: a `Sound` is what it answers.
pub fn lent_verdict<'a>(
    h: Head,
    ext: &'a [u32],
    blk: &'a [u32],
    spare: &'a [u32],
) -> Result<Sound<'a>, Refusal>
    ensures told { told result ≡ lent_refusal (lent h ext.now blk.now spare.now) }
    ensures seen { IfOk result (λ s. lent_of s ≡ lent h ext.now blk.now spare.now) }
{
    unless(
        state::shape_ok(h, ext.len(), blk.len(), spare.len()),
        Refusal::Shape,
    )?;
    unless(state::is_sound(h, ext, blk, spare), Refusal::Damaged)?;
    Ok(Sound {
        head: h,
        ext,
        blk,
        spare,
    })
}

// 3 and 7, where `first` is the first slot that ends after l. A range that is outside is not read.
pub fn read_verdict(s: Sound<'_>, first: usize, l: u32, n: u32, room: usize) -> Result<(), Refusal>
    requires { first ≡ ends_by l (in_use (lent_of s)) }
    ensures { told result ≡ read_refusal l n (roomed room) (device_of (lent_of s.entry)) }
{
    unless(refusals::in_range(s.head.logical, l, n), Refusal::Range)?;
    let found = reading::count_found(InUse::of(s), first, l, l + n);
    unless(found <= room / 3, Refusal::OutShort)
}

// 3, 4 and 6 of a trim, where the range has these sides.
pub fn trim_verdict(s: Sound<'_>, sides: Sides, number: u64, l: u32, n: u32) -> Result<(), Refusal>
    requires { Beside l (l + n) (in_use (lent_of s)) sides }
    ensures { told result ≡ trim_refusal number l n (device_of (lent_of s.entry)) }
{
    refusals::asked_verdict(s.head, refusals::in_range(s.head.logical, l, n), number)?;
    unless(
        sides.before + sides.after <= s.head.slots as usize,
        Refusal::NoNodes,
    )
}

// 8 and 7 of a reclaim, whose victim is block v. It has most stale pages: where it has none, no page is stale.
pub fn reclaim_verdict(s: Sound<'_>, v: u32, room: usize) -> Result<(), Refusal>
    requires { v ≡ victim (device_of (lent_of s)) }
    ensures { told result ≡ reclaim_refusal (roomed room) (device_of (lent_of s.entry)) }
{
    let stale = choosing::stale_of(s.blk, v as usize);
    let copies = words::valid_of(s.blk, v as usize);
    unless(0 < stale, Refusal::NothingStale)?;
    unless(copies as usize <= room, Refusal::OutShort)
}
