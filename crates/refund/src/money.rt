// How a sum of money is told.
use std::fmt;

// A sum in cents: 1820 as 18.20.
#[derive(Clone, Copy, Debug, PartialEq, Eq)]
pub struct Money(pub u32);

impl fmt::Display for Money {
    fn fmt<W: fmt::Write>(&self, f: &mut fmt::Formatter<W>) -> fmt::Result {
        write!(f, "{}.{:02}", self.0 / 100, self.0 % 100)
    }
}
