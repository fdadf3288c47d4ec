// A word of a line as far as it has been read: as a name and as a number at once, so that no line is too long to be told right.
use crate::bytes::Bytes;
use crate::line::Fault;

// Why a word is no number.
#[derive(Clone, Copy, Debug, PartialEq, Eq)]
enum NoNumber {
    NotDigits,
    TooLarge,
}

#[derive(Clone, Copy)]
pub struct Word {
    // Words are counted from 1.
    place: usize,
    // The first bytes: no name has as many as there is room for.
    name: Bytes<8>,
    number: Result<u64, NoNumber>,
}

impl Word {
    pub fn new(place: usize) -> Self {
        Self {
            place,
            name: Bytes::new(),
            number: Ok(0),
        }
    }

    pub fn is_empty(&self) -> bool {
        self.name().is_empty()
    }

    pub fn name(&self) -> &[u8] {
        self.name.as_slice()
    }

    pub fn push(&mut self, byte: u8) {
        let _ = self.name.extend(&[byte]);
        self.number = match (self.number, byte) {
            (Ok(number), b'0'..=b'9') => longer(number, byte - b'0').ok_or(NoNumber::TooLarge),
            (Err(error), b'0'..=b'9') => Err(error),
            _ => Err(NoNumber::NotDigits),
        };
    }
}

// What stands in a list of words where there is none.
impl Default for Word {
    fn default() -> Self {
        Self::new(0)
    }
}

impl TryFrom<&Word> for u64 {
    type Error = Fault;

    fn try_from(word: &Word) -> Result<Self, Fault> {
        let place = word.place;
        word.number.map_err(|error| match error {
            NoNumber::NotDigits => Fault::NotANumber { place },
            NoNumber::TooLarge => Fault::TooLarge { place },
        })
    }
}

impl TryFrom<&Word> for u32 {
    type Error = Fault;

    fn try_from(word: &Word) -> Result<Self, Fault> {
        let place = word.place;
        u32::try_from(u64::try_from(word)?).map_err(|_| Fault::TooLarge { place })
    }
}

fn longer(number: u64, digit: u8) -> Option<u64> {
    number.checked_mul(10)?.checked_add(u64::from(digit))
}
