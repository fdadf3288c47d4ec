// One line after the other: what is asked is done to what is lent, and the answer printed.
use crate::device::{Device, Undone};
use lists::line::Line;
use lists::print::{Answer, Sink};
use std::io::{Stdout, Write as _};
use std::{io, mem};

#[derive(Drop)]
pub struct Session {
    line: Line,
    // Lines that have ended.
    lines: u64,
    device: Device,
    sink: Sink,
}

impl Session {
    pub fn new(to: Stdout) -> Self {
        Self {
            line: Line::default(),
            lines: 0,
            device: Device::new(),
            sink: Sink::new(to),
        }
    }

    // Answers the lines that end in a piece of the list.
    pub fn read(&mut self, piece: &[u8]) -> io::Result<()> {
        for &byte in piece {
            if byte == b'\n' {
                self.end_line()?;
            } else {
                self.line.push(byte);
            }
        }
        self.sink.flush()
    }

    // The list has ended. Its last line may lack the line feed.
    pub fn end(&mut self) -> io::Result<()> {
        self.end_line()?;
        self.sink.flush()
    }

    fn end_line(&mut self) -> io::Result<()> {
        self.lines = self.lines.saturating_add(1);
        let line = mem::take(&mut self.line);
        match answer(&mut self.device, line) {
            Ok(None) => Ok(()),
            Ok(Some(answer)) => writeln!(self.sink, "{answer}"),
            Err(Undone::Refused(refusal)) => {
                writeln!(self.sink, "refused {} {refusal}", refusal as u32)
            }
            Err(Undone::Fault(fault)) => writeln!(self.sink, "line {}: {fault}", self.lines),
        }
    }
}

// What the device answers to a line that has ended, if the line asks for anything.
fn answer(device: &mut Device, line: Line) -> Result<Option<Answer<'_>>, Undone> {
    match line.request()? {
        Some(request) => Ok(Some(device.answer(request)?)),
        None => Ok(None),
    }
}
