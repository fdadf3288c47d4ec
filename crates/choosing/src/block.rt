// A block of the device, and where a page lies in it.
ghost use Rattle.std.specs.Prelude.{◌≡◌, ◌+◌, ◌*◌, ◌≤◌};
ghost use Rattle.rules.specs.Extents.{none};
ghost use Rattle.choosing.specs.Away.{Away};

// A block: its number, and how many pages each block has. Its pages end below the word that stands for none: that is proved where a block is made, and what takes one need not ask.
// That there are pages is no field: `list_sources` does not ask for it.
#[derive(Clone, Copy)]
pub struct Block {
    pub number: u32,
    pub pages: u32,
    pub ghost ends: { number * pages + pages ≤ none },
}

impl Block {
    // Its first page.
    pub fn first(self) -> u32
        ensures { result ≡ self.number * self.pages }
    {
        self.number * self.pages
    }

    // How far a page lies behind the first. A page before the block is far behind it once the difference wraps, so one test tells whether a page is the block's.
    #[tactic(auto, using(crate::specs::Away::away))]
    pub fn offset_of(self, page: u32) -> u32
        ensures { 1 ≤ self.pages → Away self.pages self.number page result }
    {
        page.wrapping_sub(self.first())
    }
}
