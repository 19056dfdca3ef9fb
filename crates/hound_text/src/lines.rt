// Lines of numbers, buffered for the output, and bytes to it, whatever interrupts it.
ghost use Rattle.std.specs.Prelude.{◌≡◌, ◌+◌, ◌<◌, ◌≤◌, ◌↔◌, ℕ, IsTrue, [], ◌∷◌, ◌++◌, decimal, length, List, take, ◌-◌, IsOk, Ok, Some, min};
ghost use Rattle.hound_text.specs.Text.{HasLineRoom, integer_line, lines_capacity, pattern_line};
ghost use Rattle.hound_number.specs.{Writes};

use std::io::ErrorKind;
use std::marker::Model;
use std::{io, mem};

// The two digits of each number below 100.
static PAIRS: [u8; 200] =
    *b"00010203040506070809101112131415161718192021222324252627282930313233343536373839404142434445464748495051525354555657585960616263646566676869707172737475767778798081828384858687888990919293949596979899";

// How many bytes of lines are buffered: a `BufWriter` hands so many on as they are.
const CAPACITY: usize = 16384;

// Room for a line: more bytes than any has.
const LINE_ROOM: usize = 24;

/// Lines that were made and not yet written. Contracts see the list of their bytes.
#[derive(Drop)]
pub struct Lines {
    // Their bytes, and then any others.
    bytes: [u8; CAPACITY],
    length: usize,
}

impl Model for Lines {
    ghost Value = { List ℕ };

    ghost view = { λ lines. take lines.length lines.bytes };

    ghost invariant = { λ lines. lines.length ≤ lines_capacity };
}

impl Lines {
    /// No lines.
    pub fn new() -> Lines
        ensures { result ≡ [] }
    {
        Lines {
            bytes: [0; CAPACITY],
            length: 0,
        }
    }

    /// Whether there is room for a line more.
    #[inline(always)]
    pub fn has_room(&self) -> bool
        ensures { IsTrue result ↔ HasLineRoom self.now }
    {
        self.length <= CAPACITY - LINE_ROOM
    }

    /// Appends a line with an integer.
    #[inline(always)]
    pub fn push_integer(&mut self, number: i32)
        requires { HasLineRoom self.old }
        ensures { self.new ≡ self.old ++ integer_line number }
    {
        if number < 0 {
            self.push(b'-');
        }
        self.push_decimal(number.unsigned_abs());
        self.push(b'\n');
    }

    /// Appends a line with a pattern of bits: eight digits in base 16.
    #[inline(always)]
    pub fn push_pattern(&mut self, pattern: u32)
        requires { HasLineRoom self.old }
        ensures { self.new ≡ self.old ++ pattern_line pattern }
    {
        let mut place: u32 = 8;
        while place > 0 {
            place -= 1;
            let digit = (pattern >> (4 * place)) % 16;
            self.push(char::from_digit(digit, 16).unwrap() as u8);
        }
        self.push(b'\n');
    }

    #[inline(always)]
    fn push(&mut self, byte: u8)
        requires { length self.old < lines_capacity }
        ensures { self.new ≡ self.old ++ byte ∷ [] }
    {
        self.bytes[self.length] = byte;
        self.length += 1;
    }

    // Appends the digits of a number in base 10, which are made in pairs from the last ones on.
    #[inline(always)]
    fn push_decimal(&mut self, mut number: u32)
        requires { length self.old + 10 ≤ lines_capacity }
        ensures { self.new ≡ self.old ++ decimal number }
    {
        let mut text = [0; 10];
        let mut start = 8;
        loop {
            let pair = 2 * (number % 100) as usize;
            text[start..start + 2].copy_from_slice(&PAIRS[pair..pair + 2]);
            if number < 100 {
                break;
            }
            number /= 100;
            start -= 2;
        }
        start += (number < 10) as usize; // One digit has no zero before it.
        self.append(&text[start..]);
    }

    // Appends text.
    fn append(&mut self, text: &[u8])
        requires { length self.old + length text.now ≤ lines_capacity }
        ensures { self.new ≡ self.old ++ text.now }
    {
        let start = self.length;
        self.bytes[start..start + text.len()].copy_from_slice(text);
        self.length = start + text.len();
    }

    /// Writes the lines, in order. There are none after it, whatever it returns; at an `Err` a shorter beginning of
    /// them is written.
    pub fn write_to<O: io::Write>(&mut self, output: &mut O) -> io::Result<()>
        ensures emptied { self.new ≡ [] }
        ensures written { Writes self.old result (O.contents output.old) (O.contents output.new) }
    {
        let length = mem::take(&mut self.length);
        write_text(output, &self.bytes[..length])
    }
}

/// Appends text, as far as there is room.
impl io::Write for Lines {
    ghost use Rattle.std.specs.Io.KnownBytes.{Keeps, WriteAppends};
    ghost use Rattle.std.specs.Io.{WritesAtMost};

    ghost contents = { λ lines. Some lines };

    fn write(&mut self, buf: &[u8]) -> io::Result<usize>
        ensures bound { WritesAtMost result buf.now }
        ensures bytes { WriteAppends (Some self.old) (Some self.new) result buf.now }
        ensures count { result ≡ Ok (min (length buf.now) (lines_capacity - length self.old)) }
    {
        let count = buf.len().min(CAPACITY - self.length);
        self.append(&buf[..count]);
        Ok(count)
    }

    fn flush(&mut self) -> io::Result<()>
        ensures bytes { Keeps (Some self.old) (Some self.new) }
        ensures ok { IsOk result }
        ensures unchanged { self.new ≡ self.old }
    {
        Ok(())
    }
}

/// Writes all of the bytes, in order, and tries again where a write is interrupted, as std's `write_all` does, whose
/// contract doesn't say what an `Err` has written: here it is a beginning of the bytes. A write that takes no byte is a
/// fault of the kind `WriteZero`.
pub fn write_text<O: io::Write>(output: &mut O, bytes: &[u8]) -> io::Result<()>
    ensures { Writes bytes.now result (O.contents output.old) (O.contents output.new) }
{
    let mut at = 0;
    let mut tries = u64::MAX;
    while at < bytes.len() {
        match output.write(&bytes[at..]) {
            Ok(0) => return Err(io::Error::from(ErrorKind::WriteZero)),
            Ok(n) => at += n,
            Err(error) if error.kind() == ErrorKind::Interrupted && tries > 0 => tries -= 1,
            Err(error) => return Err(error),
        }
    }
    Ok(())
}
