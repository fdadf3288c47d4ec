// What a line asks, read from its words. Each number is in its limits: no request is made of one that is not.
use crate::line::Fault;
use crate::word::Word;

#[derive(Clone, Copy, Debug)]
pub enum Request {
    Fresh(Sizes),
    Write(Change),
    Trim(Change),
    Read(Pages),
    Reclaim,
    Report,
    // The length of the answer buffer.
    Room(u32),
    Poke(Poke),
    Head(Field),
    State,
}

#[derive(Clone, Copy, Debug)]
pub struct Sizes {
    pub blocks: u32,
    pub pages: u32,
    pub logical: u32,
    pub slots: u32,
}

#[derive(Clone, Copy, Debug)]
pub struct Change {
    pub number: u64,
    pub pages: Pages,
}

#[derive(Clone, Copy, Debug)]
pub struct Pages {
    pub start: u32,
    pub count: u32,
}

#[derive(Clone, Copy, Debug)]
pub struct Poke {
    pub buffer: Buffer,
    pub index: u32,
    pub value: u32,
}

#[derive(Clone, Copy, Debug)]
pub enum Buffer {
    Extents,
    Blocks,
    Spare,
}

// A field of the head, with what it is set to.
#[derive(Clone, Copy, Debug)]
pub enum Field {
    Blocks(u32),
    Pages(u32),
    Logical(u32),
    Slots(u32),
    Used(u32),
    Reserve(u32),
    Last(u64),
}

impl Request {
    // What is asked by a request's name and the words behind it.
    pub fn read(name: &Word, words: &[Word]) -> Result<Self, Fault> {
        match name.name() {
            b"fresh" => Ok(Request::Fresh(words.try_into()?)),
            b"write" => Ok(Request::Write(words.try_into()?)),
            b"trim" => Ok(Request::Trim(words.try_into()?)),
            b"read" => Ok(Request::Read(words.try_into()?)),
            b"reclaim" => exactly::<0>(words).map(|_| Request::Reclaim),
            b"report" => exactly::<0>(words).map(|_| Request::Report),
            b"room" => {
                let [room] = exactly::<1>(words)?;
                Ok(Request::Room(room.try_into()?))
            }
            b"poke" => Ok(Request::Poke(words.try_into()?)),
            b"head" => Ok(Request::Head(words.try_into()?)),
            b"state" => exactly::<0>(words).map(|_| Request::State),
            _ => Err(Fault::Unknown),
        }
    }
}

impl TryFrom<&[Word]> for Sizes {
    type Error = Fault;

    fn try_from(words: &[Word]) -> Result<Self, Fault> {
        let [blocks, pages, logical, slots] = exactly::<4>(words)?;
        Ok(Self {
            blocks: blocks.try_into()?,
            pages: pages.try_into()?,
            logical: logical.try_into()?,
            slots: slots.try_into()?,
        })
    }
}

impl TryFrom<&[Word]> for Change {
    type Error = Fault;

    fn try_from(words: &[Word]) -> Result<Self, Fault> {
        let [number, start, count] = exactly::<3>(words)?;
        Ok(Self {
            number: number.try_into()?,
            pages: Pages {
                start: start.try_into()?,
                count: count.try_into()?,
            },
        })
    }
}

impl TryFrom<&[Word]> for Pages {
    type Error = Fault;

    fn try_from(words: &[Word]) -> Result<Self, Fault> {
        let [start, count] = exactly::<2>(words)?;
        Ok(Self {
            start: start.try_into()?,
            count: count.try_into()?,
        })
    }
}

impl TryFrom<&[Word]> for Poke {
    type Error = Fault;

    fn try_from(words: &[Word]) -> Result<Self, Fault> {
        let [buffer, index, value] = exactly::<3>(words)?;
        Ok(Self {
            buffer: buffer.try_into()?,
            index: index.try_into()?,
            value: value.try_into()?,
        })
    }
}

impl TryFrom<&Word> for Buffer {
    type Error = Fault;

    fn try_from(word: &Word) -> Result<Self, Fault> {
        match word.name() {
            b"extents" => Ok(Buffer::Extents),
            b"blocks" => Ok(Buffer::Blocks),
            b"spare" => Ok(Buffer::Spare),
            _ => Err(Fault::NoBuffer),
        }
    }
}

impl TryFrom<&[Word]> for Field {
    type Error = Fault;

    fn try_from(words: &[Word]) -> Result<Self, Fault> {
        let [field, value] = exactly::<2>(words)?;
        match field.name() {
            b"blocks" => Ok(Field::Blocks(value.try_into()?)),
            b"pages" => Ok(Field::Pages(value.try_into()?)),
            b"logical" => Ok(Field::Logical(value.try_into()?)),
            b"slots" => Ok(Field::Slots(value.try_into()?)),
            b"used" => Ok(Field::Used(value.try_into()?)),
            b"reserve" => Ok(Field::Reserve(value.try_into()?)),
            b"last" => Ok(Field::Last(value.try_into()?)),
            _ => Err(Fault::NoField),
        }
    }
}

// As many words as a request has behind its name.
fn exactly<const N: usize>(words: &[Word]) -> Result<&[Word; N], Fault> {
    words.as_array().ok_or(if words.len() < N {
        Fault::Missing
    } else {
        Fault::Extra
    })
}
