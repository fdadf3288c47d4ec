#![tactic(auto)]

// Reading over a slice of extents: `flatten` lays the extents into flat words, and `read_records` lends a local array to it and then reads
// over those words. The head and the parts come apart, as C lends them.
ghost use Rattle.std.specs.Prelude.{◌≡◌, ℕ, ◌*◌, ◌≤◌, List, length};
ghost use Rattle.rules.specs.Answers.{listed, outcome};
ghost use Rattle.rules.specs.Calls.{Call, call};
ghost use Rattle.rules.specs.Extents.{flat};
ghost use Rattle.rules.specs.Lent.{lent};
ghost use Rattle.records.specs.Laid.{put, laid, First};

use rules::{Extent, Head, Listed, Refusal};

// 01, Numbers: the most slots that a state can have.
const MOST_SLOTS: usize = 8192;

// The three words of slot i are the extent's numbers. Where there is no such slot, nothing changes.
fn put_extent(words: &mut [u32], i: usize, e: Extent)
    ensures { words.new ≡ put words.old i e }
{
    if i < words.len() / 3 {
        words::put_slot(words, i, e);
    }
}

// The first words are the extents' numbers, three for each, as far as there are slots.
fn flatten(recs: &[Extent], words: &mut [u32])
    ensures { words.new ≡ laid recs.now words.old }
{
    for (i, e) in recs.iter().enumerate() {
        put_extent(words, i, *e);
    }
}

// Reads over the words of k extents, which are the first of `words`. More extents than a state can have slots have no room there, and are
// refused with Shape whatever their words are.
fn read_words(
    h: Head,
    words: &[u32],
    k: usize,
    blk: &[u32],
    spare: &[u32],
    l: u32,
    n: u32,
    out: &mut [u32],
) -> Result<Listed, Refusal>
    requires { 3 * 8192 ≤ length words.now }
    ensures { (ext : List ℕ) → First words.now k ext
        → outcome (listed h result) ext blk.now spare.now out.new
        ≡ call (Call.read l n out.old) (lent h ext blk.now spare.now) }
{
    if k > MOST_SLOTS {
        return Err(Refusal::Shape);
    }
    layer::read(h, &words[..3 * k], blk, spare, l, n, out)
}

// Reads over exactly M extents as over their flat words: the same answers, and the same refusals in the same order.
pub fn read_records(
    h: Head,
    recs: &[Extent],
    blk: &[u32],
    spare: &[u32],
    l: u32,
    n: u32,
    out: &mut [u32],
) -> Result<Listed, Refusal>
    ensures { outcome (listed h result) (flat recs.now) blk.now spare.now out.new
        ≡ call (Call.read l n out.old) (lent h (flat recs.now) blk.now spare.now) }
{
    let mut words = [0; 3 * MOST_SLOTS];
    flatten(recs, &mut words);
    read_words(h, &words, recs.len(), blk, spare, l, n, out)
}
