// What rows read from.
ghost use Rattle.std.specs.Prelude.{◌≡◌, false};
ghost use Rattle.std.proofs.lemmas.Bool.{false≢true};
ghost use Rattle.hound_medium.specs.{unknown};

use crate::row::{Row, find};
use hound_medium::{Placed, Source};
use std::io;
use std::io::ErrorKind;

// What a feed does once all of its bytes are given.
#[derive(Clone, Copy)]
enum Then {
    Ends,
    // Each read fails.
    Fails(ErrorKind),
    // This byte for ever.
    Gives(u8),
    // The bytes after the zeros again and again.
    Repeats,
    // It claims that it filled the buffer, and leaves it as it was.
    Boasts,
}

/// A reader of bytes in memory, then of zeros, and then of further bytes, which counts what it gave.
#[derive(Drop)]
pub struct Feed {
    bytes: Vec<u8>,
    zeros: u64,
    further: Vec<u8>,
    then: Then,
    // The most bytes a read.
    most: usize,
    // The first read after this many bytes fails, or gives none.
    stumbles: Option<(u64, Option<ErrorKind>)>,

    /// How many bytes it gave.
    pub taken: u64,
}

// Copies as much as both have.
fn copy(from: &[u8], to: &mut [u8]) -> usize {
    let count = from.len().min(to.len());
    to[..count].copy_from_slice(&from[..count]);
    count
}

// What is left of these bytes after this many.
fn rest(bytes: &[u8], at: u64) -> &[u8] {
    bytes.get(at as usize..).unwrap_or(&[])
}

// `fails:KIND`, `gives:HH`, `repeats` or `boasts`
fn then_of(row: &mut Row, word: &str) -> Then {
    let (name, value) = word.split_once(":").unwrap_or((word, ""));
    match name {
        "fails" => Then::Fails(row.kind(value)),
        "gives" => Then::Gives((row.hex(value, 1) & 0xff) as u8),
        "repeats" => Then::Repeats,
        "boasts" => Then::Boasts,
        _ => {
            row.reject();
            Then::Ends
        }
    }
}

// `AT:none` or `AT:KIND`
fn stumble_of(row: &mut Row, word: &str) -> (u64, Option<ErrorKind>) {
    let (at, how) = row.split(word, ":");
    let fault = match how {
        "none" => None,
        kind => Some(row.kind(kind)),
    };
    (row.number(at), fault)
}

impl Feed {
    /// A feed of these bytes, by the options `cut=N`, `zeros=N`, `more=BYTES`, `then=..` and
    /// `stumble=..`.
    pub fn of(row: &mut Row, bytes: &str, options: &[&str]) -> Feed {
        row.allow(options, &["cut", "zeros", "more", "then", "stumble"]);
        let then = match find(options, "then") {
            Some(word) => then_of(row, word),
            None => Then::Ends,
        };
        let stumbles = match find(options, "stumble") {
            Some(word) => Some(stumble_of(row, word)),
            None => None,
        };
        Feed {
            bytes: row.bytes(bytes),
            zeros: row.option(options, "zeros", 0),
            further: row.bytes_option(options, "more"),
            then,
            most: row.option(options, "cut", usize::MAX),
            stumbles,
            taken: 0,
        }
    }

    /// How many of its first bytes it didn't give.
    pub fn left(&self) -> usize {
        rest(&self.bytes, self.taken).len()
    }

    // What it gives into a buffer.
    fn give(&self, buf: &mut [u8]) -> io::Result<usize> {
        let first = rest(&self.bytes, self.taken);
        if !first.is_empty() {
            return Ok(copy(first, buf));
        }
        let past = self.taken.saturating_sub(self.bytes.len() as u64);
        if past < self.zeros {
            let count = buf.len().min((self.zeros - past) as usize);
            buf[..count].fill(0);
            return Ok(count);
        }
        let past = past - self.zeros;
        let last = rest(&self.further, past);
        if !last.is_empty() {
            return Ok(copy(last, buf));
        }
        match self.then {
            Then::Ends => Ok(0),
            Then::Fails(kind) => Err(io::Error::from(kind)),
            Then::Gives(byte) => {
                buf.fill(byte);
                Ok(buf.len())
            }
            Then::Repeats => {
                let turn = (self.further.len() as u64).max(1);
                Ok(copy(rest(&self.further, past % turn), buf))
            }
            Then::Boasts => Ok(buf.len()),
        }
    }
}

impl io::Read for Feed {
    fn read(&mut self, buf: &mut [u8]) -> io::Result<usize> {
        let before_stumble = match self.stumbles {
            Some((at, fault)) if at == self.taken => {
                self.stumbles = None;
                return match fault {
                    Some(kind) => Err(io::Error::from(kind)),
                    None => Ok(0),
                };
            }
            Some((at, _)) if at > self.taken => (at - self.taken) as usize,
            _ => usize::MAX,
        };
        let room = buf.len().min(self.most).min(before_stumble);
        let count = self.give(&mut buf[..room])?;
        // No reader can claim more than the buffer has.
        let count = count.min(room);
        self.taken = self.taken.saturating_add(count as u64);
        Ok(count)
    }
}

// It has no places: it can't be moved.
impl Placed for Feed {
    ghost tells = { false };

    ghost state = { λ _. unknown };

    ghost bytes = { λ _ tells. Prim.absurd (false≢true tells) };

    fn go(&mut self, _to: u64) -> io::Result<()> {
        Err(io::Error::from(ErrorKind::InvalidInput))
    }

    fn shift(&mut self, _by: i64) -> io::Result<()> {
        Err(io::Error::from(ErrorKind::InvalidInput))
    }
}

impl Source for Feed {
    ghost left = { λ _ tells. Prim.absurd (false≢true tells) };

    fn get(&mut self, buf: &mut [u8]) -> io::Result<usize> {
        io::Read::read(self, buf)
    }
}
