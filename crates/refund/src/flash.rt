// The simulated flash, 4 blocks of 4 pages. A page holds a sum in cents, or is erased. What is no page of it holds nothing and keeps nothing.
use thiserror::Error;

#[derive(Clone, Copy, Debug, PartialEq, Eq, Error)]
#[error("a page is programmed twice")]
pub struct ProgrammedTwice;

#[derive(Clone, Copy, Debug)]
pub struct Flash {
    pages: [Option<u32>; 16],
}

impl Flash {
    pub fn erased() -> Self {
        Self { pages: [None; 16] }
    }

    pub fn held(&self, page: usize) -> Option<u32> {
        *self.pages.get(page)?
    }

    // A page is to be erased before. It holds the new sum in any case.
    pub fn program(&mut self, page: usize, cents: u32) -> Result<(), ProgrammedTwice> {
        match self
            .pages
            .get_mut(page)
            .and_then(|held| held.replace(cents))
        {
            Some(_) => Err(ProgrammedTwice),
            None => Ok(()),
        }
    }

    pub fn erase(&mut self, block: usize) {
        if let Some(pages) = self.pages.chunks_exact_mut(4).nth(block) {
            pages.fill(None);
        }
    }
}
