#![tactic(auto)]

// A write's pages placed: the blocks in turn from the one that it starts with (`starting`), each with what it has room for, the reserve never. One that has room
// for all pages takes them all.
ghost use Rattle.std.specs.Prelude.{◌≡◌, ◌+◌, ◌<◌, ◌^◌};
ghost use Rattle.rules.specs.Blocks.{fill_word, valid_word, HasBlock};
ghost use Rattle.starting.specs.Bare.{bare};
ghost use Rattle.placing.specs.Blocks.{raised};
ghost use Rattle.placing.specs.Place.{RoomFor, PlacedIn, Placeable, Placed};

use rules::{BlockRecord, Extent, Head};

// m pages more in block b, each of them mapped.
fn raise(blk: &mut [u32], b: usize, m: u32)
    requires { (HasBlock blk.old b) × (fill_word blk.old b + m < 2 ^ 32) × (valid_word blk.old b + m < 2 ^ 32) }
    ensures { blk.new ≡ raised m b blk.old }
{
    let r = words::block_at(blk, b);
    let more = BlockRecord {
        fill: r.fill + m,
        valid: r.valid + m,
        ..r
    };
    words::put_block(blk, b, more);
}

// One block's part of a write: the labels of its m pages, its record, and piece k. Nothing where m is 0.
fn place_in(
    h: Head,
    blk: &mut [u32],
    spare: &mut [u32],
    out: &mut [u32],
    b: usize,
    l: u32,
    m: u32,
    k: u32,
) -> u32
    requires { RoomFor blk.old spare.old out.old b h.pages l m k }
    ensures { PlacedIn blk.old spare.old out.old blk.new spare.new out.new b h.pages l m k result }
{
    if m == 0 {
        return k;
    }
    let page = (b as u32) * h.pages + words::fill_of(blk, b);
    let first = page as usize;
    words::fill_rise(&mut spare[first..first + (m as usize)], l);
    raise(blk, b, m);
    let piece = Extent {
        logical: l,
        physical: page,
        count: m,
    };
    words::put_slot(out, k as usize, piece);
    k + 1
}

// Places `want` pages for lines l, l + 1, .., which start with block `from`, and lists the pieces. Answers how many there are.
pub fn place(
    h: Head,
    blk: &mut [u32],
    spare: &mut [u32],
    out: &mut [u32],
    from: usize,
    l: u32,
    want: u32,
) -> u32
    requires { Placeable h.blocks h.pages h.reserve from l want blk.old spare.old out.old }
    ensures { Placed (bare h.blocks h.pages h.reserve blk.old spare.old) l want blk.old out.old blk.new spare.new out.new result }
{
    let mut done: u32 = 0;
    let mut k: u32 = 0;
    for b in from..h.blocks as usize {
        if done == want {
            return k;
        }
        let m = starting::room_in(h, blk, b, want - done);
        k = place_in(h, blk, spare, out, b, l + done, m, k);
        done += m;
    }
    k
}
