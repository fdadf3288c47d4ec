// The accounts of the device: the valid count of each block, and what the layer reports.
use rules::Counted;
use std::fmt;

#[derive(Clone, Copy, Debug, PartialEq, Eq)]
pub struct Accounts {
    pub valid: [u32; 4],
    pub pages: Counted,
}

impl fmt::Display for Accounts {
    fn fmt<W: fmt::Write>(&self, f: &mut fmt::Formatter<W>) -> fmt::Result {
        let [a, b, c, d] = self.valid;
        let Counted { free, live, stale } = self.pages;
        write!(
            f,
            "valid {a} {b} {c} {d}   free {free}   live {live}   stale {stale}"
        )
    }
}
