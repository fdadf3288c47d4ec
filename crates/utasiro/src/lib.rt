#![tactic(auto)]

// What C and Rust call: each call of the layer, and the read over records, under its name in include/utasiro.h, with its answer as a struct
// by value. The promises are theirs, through what a struct says.
// Each call of C is its own function with the parts apart: an exported name takes no type parameter and no struct of borrowed parts.
ghost use Rattle.std.specs.Prelude.{◌≡◌, []};
ghost use Rattle.rules.specs.Lent.{lent};
ghost use Rattle.rules.specs.Answers.{outcome};
ghost use Rattle.rules.specs.Calls.{Call, call, fresh};
ghost use Rattle.rules.specs.Extents.{flat};
ghost use Rattle.answers.specs.Said.{of_done, of_listed, of_counts};

use answers::{Counts, Outcome};
use rules::{Extent, Head};

// The version of this library, 0.2.0 as 200: ten thousand for each major one, a hundred for each minor one. A program compares it with the
// UTASIRO_VERSION of the header that it was compiled with.
#[unsafe(no_mangle)]
pub extern "C" fn utasiro_version() -> u32
    ensures { result ≡ 200 }
{
    200
}

#[unsafe(no_mangle)]
pub extern "C" fn utasiro_fresh(
    blocks: u32,
    pages: u32,
    logical: u32,
    slots: u32,
    ext: &mut [u32],
    blk: &mut [u32],
    spare: &mut [u32],
) -> Outcome
    ensures { (outcome (of_done result) ext.new blk.new spare.new []
        ≡ fresh blocks pages logical slots ext.old blk.old spare.old) × (result.count ≡ 0) }
{
    answers::of_done(
        words::sizes_only(blocks, pages, logical, slots),
        layer::fresh(blocks, pages, logical, slots, ext, blk, spare),
    )
}

#[unsafe(no_mangle)]
pub extern "C" fn utasiro_write(
    h: Head,
    ext: &mut [u32],
    blk: &mut [u32],
    spare: &mut [u32],
    number: u64,
    l: u32,
    n: u32,
    out: &mut [u32],
) -> Outcome
    ensures { outcome (of_listed result) ext.new blk.new spare.new out.new
        ≡ call (Call.write number l n out.old) (lent h ext.old blk.old spare.old) }
{
    answers::of_listed(h, layer::write(h, ext, blk, spare, number, l, n, out))
}

#[unsafe(no_mangle)]
pub extern "C" fn utasiro_trim(
    h: Head,
    ext: &mut [u32],
    blk: &mut [u32],
    spare: &[u32],
    number: u64,
    l: u32,
    n: u32,
) -> Outcome
    ensures { (outcome (of_done result) ext.new blk.new spare.now []
        ≡ call (Call.trim number l n) (lent h ext.old blk.old spare.now)) × (result.count ≡ 0) }
{
    answers::of_done(h, layer::trim(h, ext, blk, spare, number, l, n))
}

#[unsafe(no_mangle)]
pub extern "C" fn utasiro_read(
    h: Head,
    ext: &[u32],
    blk: &[u32],
    spare: &[u32],
    l: u32,
    n: u32,
    out: &mut [u32],
) -> Outcome
    ensures { outcome (of_listed result) ext.now blk.now spare.now out.new
        ≡ call (Call.read l n out.old) (lent h ext.now blk.now spare.now) }
{
    answers::of_listed(h, layer::read(h, ext, blk, spare, l, n, out))
}

#[unsafe(no_mangle)]
pub extern "C" fn utasiro_read_records(
    h: Head,
    recs: &[Extent],
    blk: &[u32],
    spare: &[u32],
    l: u32,
    n: u32,
    out: &mut [u32],
) -> Outcome
    ensures { outcome (of_listed result) (flat recs.now) blk.now spare.now out.new
        ≡ call (Call.read l n out.old) (lent h (flat recs.now) blk.now spare.now) }
{
    answers::of_listed(h, records::read_records(h, recs, blk, spare, l, n, out))
}

#[unsafe(no_mangle)]
pub extern "C" fn utasiro_reclaim(
    h: Head,
    ext: &mut [u32],
    blk: &mut [u32],
    spare: &mut [u32],
    out: &mut [u32],
) -> Outcome
    ensures { outcome (of_listed result) ext.new blk.new spare.new out.new
        ≡ call (Call.reclaim out.old) (lent h ext.old blk.old spare.old) }
{
    answers::of_listed(h, layer::reclaim(h, ext, blk, spare, out))
}

#[unsafe(no_mangle)]
pub extern "C" fn utasiro_report(h: Head, ext: &[u32], blk: &[u32], spare: &[u32]) -> Counts
    ensures { outcome (of_counts result) ext.now blk.now spare.now []
        ≡ call Call.report (lent h ext.now blk.now spare.now) }
{
    answers::of_counted(h, layer::report(h, ext, blk, spare))
}
