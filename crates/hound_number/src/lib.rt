//! Little-endian numbers, and the loops over `read` and `write`.
//!
//! The lowest layer: each call makes, reads or writes exactly the bytes of its number, or returns the fault. The root
//! of `hound` exports none of it; a crate that needs it lists `hound_number`.
#![tactic(auto)]

mod input;
mod laws;

ghost use Rattle.std.specs.Prelude.{◌≡◌, ◌+◌, ◌≤◌, ◌+ℤ◌, ◌-ℤ◌, pos, length, slice_range};
ghost use Rattle.hound_number.specs.Number.{bytes_of, number, signed_bytes_of, signed_number};
ghost use Rattle.hound_number.specs.Io.{Writes};

pub use input::{Input, ReadError, early_end, read_into};
pub use laws::signed_bytes_come_back;
use std::io;
use std::io::{Error, ErrorKind};

/// The signed number of an unsigned byte, which counts from -128, as samples of 8 bits do (WAVEFORMATEX,
/// "wBitsPerSample").
#[inline(always)]
pub fn signed_from_u8(x: u8) -> i8
    ensures { result ≡ pos x -ℤ pos 128 }
{
    (x as i16 - 128) as i8
}

/// The unsigned byte of a signed number, which counts from -128: the inverse of [`signed_from_u8`], by
/// [`signed_bytes_come_back`].
#[inline(always)]
pub fn u8_from_signed(x: i8) -> u8
    ensures { pos result ≡ x +ℤ pos 128 }
{
    (x as i16 + 128) as u8
}

/// The two bytes of a number, the low one first, as in each call here.
#[inline(always)]
pub fn le_u16(n: u16) -> [u8; 2]
    ensures { result ≡ bytes_of 2 n }
{
    n.to_le_bytes()
}

/// The four bytes of a number.
#[inline(always)]
pub fn le_u32(n: u32) -> [u8; 4]
    ensures { result ≡ bytes_of 4 n }
{
    n.to_le_bytes()
}

/// The two bytes of a signed number.
#[inline(always)]
pub fn le_i16(n: i16) -> [u8; 2]
    ensures { result ≡ signed_bytes_of 2 n }
{
    n.to_le_bytes()
}

/// The four bytes of a signed number.
#[inline(always)]
pub fn le_i32(n: i32) -> [u8; 4]
    ensures { result ≡ signed_bytes_of 4 n }
{
    n.to_le_bytes()
}

/// The number in the two bytes from the index `at` on, which must exist: `at + 2` is at most `bytes.len()`.
#[inline(always)]
pub fn u16_at(bytes: &[u8], at: usize) -> u16
    requires { at + 2 ≤ length bytes.now }
    ensures { result ≡ number (slice_range bytes.now at (at + 2)) }
{
    bytes[at] as u16 + bytes[at + 1] as u16 * 0x100
}

/// The number in the four bytes from the index `at` on, which must exist: `at + 4` is at most `bytes.len()`.
#[inline(always)]
pub fn u32_at(bytes: &[u8], at: usize) -> u32
    requires { at + 4 ≤ length bytes.now }
    ensures { result ≡ number (slice_range bytes.now at (at + 4)) }
{
    bytes[at] as u32
        + bytes[at + 1] as u32 * 0x100
        + bytes[at + 2] as u32 * 0x1_0000
        + bytes[at + 3] as u32 * 0x100_0000
}

/// The signed number in two bytes.
#[inline(always)]
pub fn i16_from_le(bytes: [u8; 2]) -> i16
    ensures { result ≡ signed_number bytes }
{
    i16::from_le_bytes(bytes)
}

/// The signed number in three bytes, from -8388608 to 8388607.
#[inline(always)]
pub fn i24_from_le(bytes: [u8; 3]) -> i32
    ensures { result ≡ signed_number bytes }
{
    let [low, middle, high] = bytes;
    i16_from_le([middle, high]) as i32 * 0x100 + low as i32
}

/// The signed number in four bytes.
#[inline(always)]
pub fn i32_from_le(bytes: [u8; 4]) -> i32
    ensures { result ≡ signed_number bytes }
{
    i32::from_le_bytes(bytes)
}

/// Writes all of the bytes, in order; if there are none, the writer isn't called.
///
/// `Interrupted` is passed on like any other fault, and a write that takes no byte is one of kind `WriteZero`. At an
/// `Err` a beginning of the bytes may be written, and no more is tried.
pub fn write_bytes<W: io::Write>(writer: &mut W, bytes: &[u8]) -> io::Result<()>
    ensures { Writes bytes.now result (W.contents writer.old) (W.contents writer.new) }
{
    let mut at = 0;
    while at < bytes.len() {
        let n = writer.write(&bytes[at..])?;
        if n == 0 {
            return Err(Error::from(ErrorKind::WriteZero));
        }
        at += n;
    }
    Ok(())
}
