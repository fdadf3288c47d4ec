// What is lent from line to line, and what each request does to it. No fact about what the layer answers is counted on.
use lists::first;
use lists::line::Fault;
use lists::print::Answer;
use lists::request::{Buffer, Change, Field, Pages, Poke, Request, Sizes};
use rules::{Head, Last, Listed, Refusal};
use thiserror::Error;
use words::sizes_only;

// The most of B, of B x N and of M that is held: those of the largest device.
const MOST_BLOCKS: usize = 1024;

const MOST_PAGES: usize = 262144;

const MOST_SLOTS: usize = 8192;

// The words that these ask for. No answer is longer than a read of all slots with a hole before each and after the last.
const EXTENT_WORDS: usize = 3 * MOST_SLOTS;

const BLOCK_WORDS: usize = words::STRIDE * MOST_BLOCKS;

const SPARE_WORDS: usize = MOST_PAGES;

const ANSWER_WORDS: usize = 6 * MOST_SLOTS + 3;

// Why a request is not done.
#[derive(Clone, Copy, Debug, PartialEq, Eq, Error)]
pub enum Undone {
    #[error(transparent)]
    Fault(#[from] Fault),
    #[error(transparent)]
    Refused(#[from] Refusal),
}

// Words of which the first are lent: as many as said, or all where there are no more. No `ArrayVec`: what is lent may grow again, and the words behind it keep what they hold.
#[derive(Clone, Copy)]
struct Buffered<const N: usize> {
    words: [u32; N],
    lent: usize,
}

impl<const N: usize> Buffered<N> {
    fn new(lent: usize) -> Self {
        Self {
            words: [0; N],
            lent,
        }
    }

    fn lent(&self) -> &[u32] {
        first(&self.words, self.lent)
    }

    fn lent_mut(&mut self) -> &mut [u32] {
        let lent = self.lent;
        self.first_mut(lent)
    }

    fn first_mut(&mut self, n: usize) -> &mut [u32] {
        &mut self.words[..n.min(N)]
    }

    // Sets the word at index.
    fn poke(&mut self, index: u32, value: u32) -> Result<(), Fault> {
        let word = self.lent_mut().get_mut(index as usize).ok_or(Fault::Index)?;
        *word = value;
        Ok(())
    }
}

#[derive(Clone, Copy)]
pub struct Device {
    head: Head,
    ext: Buffered<EXTENT_WORDS>,
    blk: Buffered<BLOCK_WORDS>,
    spare: Buffered<SPARE_WORDS>,
    // The answer buffer.
    out: Buffered<ANSWER_WORDS>,
}

impl Device {
    // Before the first accepted fresh nothing is lent.
    pub fn new() -> Self {
        Self {
            head: sizes_only(0, 0, 0, 0),
            ext: Buffered::new(0),
            blk: Buffered::new(0),
            spare: Buffered::new(0),
            out: Buffered::new(ANSWER_WORDS),
        }
    }

    // Does what is asked, and answers it.
    pub fn answer(&mut self, request: Request) -> Result<Answer<'_>, Undone> {
        match request {
            Request::Fresh(sizes) => self.fresh(sizes),
            Request::Write(change) => self.write(change),
            Request::Trim(change) => self.trim(change),
            Request::Read(pages) => self.read(pages),
            Request::Reclaim => self.reclaim(),
            Request::Report => self.report(),
            Request::Room(words) => {
                self.out.lent = words as usize;
                Ok(Answer::Done)
            }
            Request::Poke(poke) => {
                self.poke(poke)?;
                Ok(Answer::Done)
            }
            Request::Head(field) => {
                self.set(field);
                Ok(Answer::Done)
            }
            Request::State => Ok(Answer::State {
                head: self.head,
                extents: self.ext.lent(),
                blocks: self.blk.lent(),
                spare: self.spare.lent(),
            }),
        }
    }

    // Sizes that are not held are no request, but for B: more blocks than are held are refused whatever the lengths, and no more are lent. An
    // accepted fresh decides how many words are lent from then on. A refused one changes no word, and the device from before stays.
    fn fresh(&mut self, sizes: Sizes) -> Result<Answer<'_>, Undone> {
        let pages = u64::from(sizes.blocks) * u64::from(sizes.pages);
        if pages > MOST_PAGES as u64 || sizes.slots > MOST_SLOTS as u32 {
            return Err(Fault::Sizes.into());
        }
        let ext = 3 * sizes.slots as usize;
        let blk = words::STRIDE * sizes.blocks as usize;
        let spare = pages as usize;
        self.head = layer::fresh(
            sizes.blocks,
            sizes.pages,
            sizes.logical,
            sizes.slots,
            self.ext.first_mut(ext),
            self.blk.first_mut(blk),
            self.spare.first_mut(spare),
        )?;
        self.ext.lent = ext;
        self.blk.lent = blk;
        self.spare.lent = spare;
        Ok(Answer::Done)
    }

    fn write(&mut self, change: Change) -> Result<Answer<'_>, Undone> {
        let listed = layer::write(
            self.head,
            self.ext.lent_mut(),
            self.blk.lent_mut(),
            self.spare.lent_mut(),
            change.number,
            change.pages.start,
            change.pages.count,
            self.out.lent_mut(),
        )?;
        Ok(self.pieces(listed))
    }

    fn trim(&mut self, change: Change) -> Result<Answer<'_>, Undone> {
        self.head = layer::trim(
            self.head,
            self.ext.lent_mut(),
            self.blk.lent_mut(),
            self.spare.lent(),
            change.number,
            change.pages.start,
            change.pages.count,
        )?;
        Ok(Answer::Done)
    }

    fn read(&mut self, pages: Pages) -> Result<Answer<'_>, Undone> {
        let listed = layer::read(
            self.head,
            self.ext.lent(),
            self.blk.lent(),
            self.spare.lent(),
            pages.start,
            pages.count,
            self.out.lent_mut(),
        )?;
        Ok(self.pieces(listed))
    }

    // What a write or a read lists.
    fn pieces(&mut self, listed: Listed) -> Answer<'_> {
        self.head = listed.head;
        Answer::Pieces(first(&self.out.words, 3 * listed.count as usize))
    }

    // The new head names the block to erase.
    fn reclaim(&mut self) -> Result<Answer<'_>, Undone> {
        let listed = layer::reclaim(
            self.head,
            self.ext.lent_mut(),
            self.blk.lent_mut(),
            self.spare.lent_mut(),
            self.out.lent_mut(),
        )?;
        self.head = listed.head;
        Ok(Answer::Copied {
            pages: first(&self.out.words, listed.count as usize),
            erase: listed.head.reserve,
        })
    }

    fn report(&self) -> Result<Answer<'_>, Undone> {
        let counted = layer::report(
            self.head,
            self.ext.lent(),
            self.blk.lent(),
            self.spare.lent(),
        )?;
        Ok(Answer::Counts(counted))
    }

    fn poke(&mut self, poke: Poke) -> Result<(), Fault> {
        match poke.buffer {
            Buffer::Extents => self.ext.poke(poke.index, poke.value),
            Buffer::Blocks => self.blk.poke(poke.index, poke.value),
            Buffer::Spare => self.spare.poke(poke.index, poke.value),
        }
    }

    fn set(&mut self, field: Field) {
        match field {
            Field::Blocks(blocks) => self.head.blocks = blocks,
            Field::Pages(pages) => self.head.pages = pages,
            Field::Logical(logical) => self.head.logical = logical,
            Field::Slots(slots) => self.head.slots = slots,
            Field::Used(used) => self.head.used = used,
            Field::Reserve(reserve) => self.head.reserve = reserve,
            Field::Last(number) => self.head.last = Last { number },
        }
    }
}
