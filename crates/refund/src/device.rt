// The device as its host keeps it: the head, and the words that are lent to each call.
use crate::accounts::Accounts;
use lists::first;
use rules::{Head, Listed, Refusal};

// The words of the records of four blocks.
const BLOCK_WORDS: usize = words::STRIDE * 4;

// What an answer lists: at most four pieces, or the pages of a block.
pub type Out = [u32; 12];

#[derive(Clone, Copy, Debug, PartialEq, Eq)]
pub struct Write {
    pub number: u64,
    pub start: u32,
    pub count: u32,
}

#[derive(Clone, Copy, Debug)]
pub struct Device {
    head: Head,
    ext: [u32; 24],
    blk: [u32; BLOCK_WORDS],
    spare: [u32; 16],
}

impl Device {
    pub fn new() -> Self {
        Self {
            head: words::sizes_only(0, 0, 0, 0),
            ext: [0; 24],
            blk: [0; BLOCK_WORDS],
            spare: [0; 16],
        }
    }

    pub fn fresh(&mut self) -> Result<(), Refusal> {
        self.head = layer::fresh(4, 4, 8, 8, &mut self.ext, &mut self.blk, &mut self.spare)?;
        Ok(())
    }

    // The pieces to program.
    pub fn write<'a>(&mut self, write: Write, out: &'a mut Out) -> Result<&'a [[u32; 3]], Refusal> {
        let Listed { count, head } = layer::write(
            self.head,
            &mut self.ext,
            &mut self.blk,
            &mut self.spare,
            write.number,
            write.start,
            write.count,
            out,
        )?;
        self.head = head;
        Ok(pieces(out, count))
    }

    // The pieces that stand for a range.
    pub fn read<'a>(
        &self,
        start: u32,
        count: u32,
        out: &'a mut Out,
    ) -> Result<&'a [[u32; 3]], Refusal> {
        let listed = layer::read(
            self.head,
            &self.ext,
            &self.blk,
            &self.spare,
            start,
            count,
            out,
        )?;
        Ok(pieces(out, listed.count))
    }

    // The pages to copy. They go into the reserve, and the block that they come from becomes the reserve.
    pub fn reclaim<'a>(&mut self, out: &'a mut Out) -> Result<&'a [u32], Refusal> {
        let Listed { count, head } = layer::reclaim(
            self.head,
            &mut self.ext,
            &mut self.blk,
            &mut self.spare,
            out,
        )?;
        self.head = head;
        Ok(first(out, count as usize))
    }

    pub fn reserve(&self) -> u32 {
        self.head.reserve
    }

    pub fn accounts(&self) -> Result<Accounts, Refusal> {
        Ok(Accounts {
            // One by one: a map over 0 to 3 is not proved, since its closure would have to have a record for any number.
            valid: [
                words::valid_of(&self.blk, 0),
                words::valid_of(&self.blk, 1),
                words::valid_of(&self.blk, 2),
                words::valid_of(&self.blk, 3),
            ],
            pages: layer::report(self.head, &self.ext, &self.blk, &self.spare)?,
        })
    }
}

// The triples that are listed: logical start, physical start, page count.
fn pieces(out: &Out, count: u32) -> &[[u32; 3]] {
    first(out, 3 * count as usize).as_chunks().0
}
