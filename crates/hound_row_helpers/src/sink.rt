// What rows write into.
ghost use Rattle.std.specs.Prelude.{◌≡◌};

use crate::row::{Row, find};
use std::io;
use std::io::{Error, ErrorKind};

/// A writer that takes at most this many bytes a call, and none once it is full: then it fails, or takes 0 bytes.
#[derive(Drop)]
pub struct Sink {
    /// What it took.
    pub taken: Vec<u8>,
    most: usize,
    room: usize,
    fault: Option<ErrorKind>,
}

impl Sink {
    /// By the options `takes=N`, `room=N` and `fault=KIND`.
    pub fn of(row: &mut Row, options: &[&str]) -> Sink {
        row.allow(options, &["takes", "room", "fault"]);
        let fault = match find(options, "fault") {
            Some(kind) => Some(row.kind(kind)),
            None => None,
        };
        Sink {
            taken: Vec::new(row.alloc),
            most: row.option(options, "takes", usize::MAX),
            room: row.option(options, "room", usize::MAX),
            fault,
        }
    }
}

impl io::Write for Sink {
    fn write(&mut self, buf: &[u8]) -> io::Result<usize> {
        let room = self.room.saturating_sub(self.taken.len());
        if room == 0 && !buf.is_empty() {
            return match self.fault {
                Some(kind) => Err(Error::from(kind)),
                None => Ok(0),
            };
        }
        let count = buf.len().min(self.most).min(room);
        self.taken.extend_from_slice(&buf[..count])?;
        Ok(count)
    }

    fn flush(&mut self) -> io::Result<()> {
        Ok(())
    }
}
