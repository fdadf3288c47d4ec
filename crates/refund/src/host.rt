// The host: it sends its requests to the device and does to the flash exactly what an answer lists, and tells it line by line.
ghost use Rattle.std.specs.Prelude.{IfOk, ◌≤◌, get_or};

use crate::accounts::Accounts;
use crate::device::{Device, Write};
use crate::flash::Flash;
use crate::money::Money;
use lists::print::Sink;
use rules::Refusal;
use std::io;
use std::io::{Stdout, Write as _};
use std::iter::Zip;
use std::ops::Range;

// The line of the accounts that logical page 0 is.
const FIRST_LINE: usize = 4414;

// What came of a write.
pub type Sent = Result<(), Refusal>;

#[derive(Drop)]
pub struct Host {
    device: Device,
    flash: Flash,
    // What is to be written: a sum in cents for each logical page.
    book: [u32; 8],
    sink: Sink,
}

impl Host {
    pub fn new(to: Stdout, book: [u32; 8]) -> Self {
        Self {
            device: Device::new(),
            flash: Flash::erased(),
            book,
            sink: Sink::new(to),
        }
    }

    // What is told stands on standard output at once: whoever reads a pipe has each line as soon as it is told.
    pub fn tell(&mut self, text: &str) -> io::Result<()> {
        self.sink.write_all(text.as_bytes())?;
        self.end()
    }

    // What has been told stands on standard output.
    pub fn end(&mut self) -> io::Result<()> {
        self.sink.flush()
    }

    fn tell_refusal(&mut self, refusal: Refusal) -> io::Result<()> {
        writeln!(self.sink, "     refused {}, {refusal}", refusal as u32)?;
        self.end()
    }

    // Tells the accounts, and hands them on.
    fn tell_accounts(&mut self, when: &str) -> io::Result<Result<Accounts, Refusal>> {
        let accounts = self.device.accounts();
        match accounts {
            Ok(accounts) => {
                writeln!(self.sink, "     {when}{accounts}")?;
                self.end()?;
            }
            Err(refusal) => self.tell_refusal(refusal)?,
        }
        Ok(accounts)
    }

    pub fn fresh(&mut self) -> io::Result<()> {
        match self.device.fresh() {
            Ok(()) => Ok(()),
            Err(refusal) => self.tell_refusal(refusal),
        }
    }

    // Sends a write, and programs what the answer lists.
    fn send(&mut self, write: Write) -> io::Result<Sent> {
        let mut out = [0; 12];
        match self.device.write(write, &mut out) {
            Ok(pieces) => {
                self.tell("     accepted\n")?;
                self.program(pieces)?;
                Ok(Ok(()))
            }
            Err(refusal) => {
                self.tell_refusal(refusal)?;
                Ok(Err(refusal))
            }
        }
    }

    // Sends a write for the first time, and shows the accounts after it.
    fn send_first(&mut self, write: Write) -> io::Result<Sent> {
        let sent = self.send(write)?;
        let _ = self.tell_accounts("")?;
        Ok(sent)
    }

    // Sends a write again, and holds the accounts after it to those before.
    fn send_again(&mut self, write: Write) -> io::Result<Sent> {
        let before = self.tell_accounts("before   ")?;
        let sent = self.send(write)?;
        let after = self.tell_accounts("after    ")?;
        self.tell(if after == before {
            "     unchanged\n"
        } else {
            "     CHANGED\n"
        })?;
        Ok(sent)
    }

    // Sends a write, and sends it again after a crash. Each time is told first.
    pub fn send_twice(
        &mut self,
        write: Write,
        told: &str,
        told_again: &str,
    ) -> io::Result<(Sent, Sent)> {
        self.tell(told)?;
        let first = self.send_first(write)?;
        self.tell(told_again)?;
        let again = self.send_again(write)?;
        Ok((first, again))
    }

    // A line that the accounts showed when the write was applied twice.
    pub fn tell_refund(&mut self, line: usize, sent: Sent) -> io::Result<()> {
        let booked = match sent {
            Ok(()) => "booked",
            Err(_) => "refused",
        };
        writeln!(
            self.sink,
            "     line {line}   09:14:07   refund   18.20   {booked}"
        )?;
        self.end()
    }

    pub fn correct(&mut self, page: usize, cents: u32) {
        if let Some(sum) = self.book.get_mut(page) {
            *sum = cents;
        }
    }

    // Reclaims, and copies and erases what the answer lists.
    pub fn reclaim(&mut self) -> io::Result<()> {
        let reserve = self.device.reserve() as usize;
        let mut out = [0; 12];
        match self.device.reclaim(&mut out) {
            Ok(pages) => {
                for (page, to) in pages.iter().zip(4 * reserve..) {
                    self.copy_page(*page as usize, to)?;
                }
                let emptied = self.device.reserve();
                self.erase(emptied)?;
                let _ = self.tell_accounts("")?;
                Ok(())
            }
            Err(refusal) => self.tell_refusal(refusal),
        }
    }

    // Reads the four lines back and holds each to what was written.
    pub fn read_back(&mut self) -> io::Result<()> {
        let mut out = [0; 12];
        match self.device.read(0, 4, &mut out) {
            Ok(pieces) => {
                let right = self.compare(pieces)?;
                writeln!(self.sink, "     {right} of 4 lines are as written")?;
                self.end()
            }
            Err(refusal) => self.tell_refusal(refusal),
        }
    }

    fn program(&mut self, pieces: &[[u32; 3]]) -> io::Result<()> {
        for piece in pieces {
            for (logical, physical) in pages_of(piece) {
                self.program_page(logical, physical)?;
            }
        }
        Ok(())
    }

    fn program_page(&mut self, logical: usize, physical: usize) -> io::Result<()> {
        let Some(&cents) = self.book.get(logical) else {
            return Ok(());
        };
        self.put(physical, cents)?;
        let line = FIRST_LINE + logical;
        writeln!(
            self.sink,
            "     page {physical}: line {line}   {}",
            Money(cents)
        )?;
        self.end()
    }

    fn put(&mut self, page: usize, cents: u32) -> io::Result<()> {
        match self.flash.program(page, cents) {
            Ok(()) => Ok(()),
            Err(error) => {
                write!(self.sink, "     {error}: ")?;
                self.end()
            }
        }
    }

    fn copy_page(&mut self, from: usize, to: usize) -> io::Result<()> {
        let Some(cents) = self.flash.held(from) else {
            return Ok(());
        };
        self.put(to, cents)?;
        writeln!(
            self.sink,
            "     page {from} is copied to page {to}: {}",
            Money(cents)
        )?;
        self.end()
    }

    fn erase(&mut self, block: u32) -> io::Result<()> {
        self.flash.erase(block as usize);
        writeln!(
            self.sink,
            "     block {block} is erased and becomes the reserve"
        )?;
        self.end()
    }

    // How many pages are as they were written.
    fn compare(&mut self, pieces: &[[u32; 3]]) -> io::Result<u32> {
        let mut right = 0u32;
        for piece in pieces {
            right = right.saturating_add(self.compare_piece(*piece)?);
        }
        Ok(right)
    }

    // Of a piece, no more than it has.
    fn compare_piece(&mut self, piece: [u32; 3]) -> io::Result<u32>
        ensures { IfOk result (λ right. right ≤ get_or piece 2 0) }
    {
        let mut right = 0;
        for k in 0..piece[2] {
            let logical = piece[0] as usize + k as usize;
            let physical = piece[1] as usize + k as usize;
            if self.compare_page(logical, physical)? {
                right += 1;
            }
        }
        Ok(right)
    }

    fn compare_page(&mut self, logical: usize, physical: usize) -> io::Result<bool> {
        let Some(&written) = self.book.get(logical) else {
            return Ok(false);
        };
        let Some(cents) = self.flash.held(physical) else {
            self.tell("     a hole\n")?;
            return Ok(false);
        };
        let line = FIRST_LINE + logical;
        let is_right = cents == written;
        writeln!(
            self.sink,
            "     line {line}   {}   from page {physical}, {}",
            Money(cents),
            if is_right {
                "as written"
            } else {
                "NOT as written"
            }
        )?;
        self.end()?;
        Ok(is_right)
    }
}

// The pages of a piece, each with the logical page that it stands for.
fn pages_of(piece: &[u32; 3]) -> Zip<Range<usize>, Range<usize>> {
    let [logical, physical, count] = piece.map(|n| n as usize);
    (logical..logical + count).zip(physical..physical + count)
}
