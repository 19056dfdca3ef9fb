// The types of samples.
ghost use Rattle.std.specs.Prelude.{◌≡◌, ◌≤◌, ◌/◌, ℕ, ℤ, ⊤, List, Option, Result, Ok, IsSome, IsErr, length, take};
ghost use Rattle.hound_sample.specs.Container.{Rejection, int_container, IsEncoded, WritesContainer};
ghost use Rattle.hound_sample.specs.ContainerLaws.{int_container-in_width};
ghost use Rattle.hound_sample.specs.Reading.{ReadRejection, low_i16, ReadsItem, FillsFront, ReadsEach, items_of, Reads};
ghost use Rattle.hound_spec.specs.declared.spec.SampleFormat.{SampleFormat};

use crate::decode::{decode_next, read_container, read_containers};
use crate::integer::{Integer, encode_integer, lowest_16_bits};
use crate::item::{ContainerReader, SampleError, reason_of};
use hound_number::write_bytes;
use hound_spec::{Result, SampleFormat};
use std::{io, result};

/// A type whose samples are read and written.
///
/// Implemented for `i8`, `i16`, `i32` and [`FloatBits`](crate::FloatBits). Integers are written with each pair of
/// `WavSpecEx::is_writable` for integers, if the value fits its bits; `i8` reads 8 bits, `i16` 8 and 16, `i32` all of
/// those pairs, and so every integer that a writer here writes.
///
/// A sample of `bits` used bits takes `byte_width` bytes in the file, its container. A type's tables say which pairs of
/// the two it takes, and which values: `container` for writing, `rejection` and `meaning` for reading. A type of your
/// own has tables of its own, with `read`, `as_i16` and `encode`; the reader and the writer treat it as any other.
///
/// Writing checks the pair before the value: another pair is `Unsupported`, a value out of range `TooWide`. Reading
/// checks the format first: another one is `InvalidSampleFormat`. Then more bytes than the type has are `TooWide`, and
/// every other pair that it doesn't read is `Unsupported`.
pub trait Sample: Sized + Drop {
    /// The container of a value with these used bits and bytes, or why there is none.
    ghost container: { Self → ℕ → ℕ → Result (List ℕ) Rejection };

    /// Why samples of a format, with these bytes and used bits, aren't read as this type, if they aren't.
    ghost rejection: { SampleFormat → ℕ → ℕ → Option ReadRejection };

    /// The value of a container, in a file of this format, with these bytes and used bits.
    ghost meaning: { SampleFormat → ℕ → ℕ → List ℕ → Self };

    /// Whether a value can be cast to sixteen bits: each integer can, and no `FloatBits`.
    ghost can_cast: { Self → Type 0 };

    /// The value cast to sixteen bits.
    ghost cast_value: { Self → ℤ };

    /// Writes the container of `bits / 8` bytes, rounded down, as [`Sample::write_padded`] does.
    fn write<W: io::Write>(self, writer: &mut W, bits: u16) -> Result<()>
        ensures writes { WritesContainer (container self bits (bits / 8))
            (W.contents writer.old) (W.contents writer.new) result }
        ensures untouched { IsErr (container self bits (bits / 8)) → writer.new ≡ writer.old }
    {
        self.write_padded(writer, bits, bits / 8)
    }

    /// Writes the container of `byte_width` bytes, `bits` of them used.
    ///
    /// An error of the type comes first and leaves the writer as it was. A fault of the writer is passed on as
    /// `IoError`, `Interrupted` too, and a write that takes no byte is one of kind `WriteZero`; a beginning of the
    /// container may be written by then.
    fn write_padded<W: io::Write>(self, writer: &mut W, bits: u16, byte_width: u16) -> Result<()>
        ensures writes { WritesContainer (container self bits byte_width)
            (W.contents writer.old) (W.contents writer.new) result }
        ensures untouched { IsErr (container self bits byte_width) → writer.new ≡ writer.old }
    {
        let container = self.encode(bits, byte_width)?;
        write_bytes(writer, &container[..byte_width as usize])?;
        Ok(())
    }

    /// Reads a sample with these bytes and used bits: takes exactly its container.
    ///
    /// A fault of the reader is passed on as `IoError`, `Interrupted` too; an early end is an `IoError` of kind
    /// `Other`. No `IoError` comes from elsewhere, so a `WavReader` returns the fault that it met itself. An error for
    /// the format, the bytes or the bits comes before any read and leaves the reader untouched.
    fn read<R: io::Read>(reader: &mut R, fmt: SampleFormat, bytes: u16, bits: u16) -> Result<Self>
        ensures reads { Reads (rejection fmt bytes bits) (meaning fmt bytes bits) bytes
            (R.remaining reader.old) (R.remaining reader.new) result }
        ensures untouched { IsSome (rejection fmt bytes bits) → reader.new ≡ reader.old };

    /// Reads a sample as [`Sample::read`] does, from a reader that saves its faults (own).
    ///
    /// A `WavReader` reads each item by it. The error of `read` has the fault in it, and so it is large; here the
    /// reader has the fault. A type of your own needn't implement it.
    #[inline(always)]
    fn read_item<R: ContainerReader>(
        reader: &mut R,
        fmt: SampleFormat,
        width: u16,
        bits: u16,
    ) -> result::Result<Self, SampleError>
        ensures item { ReadsItem (rejection fmt width bits) (meaning fmt width bits) width
            (R.remaining reader.old) (R.remaining reader.new) result }
        ensures untouched { IsSome (rejection fmt width bits) → reader.new ≡ reader.old }
    {
        Self::read(reader, fmt, width, bits).map_err(reason_of)
    }

    /// Reads samples one after the other, until the slice is full or `read` returns an error (own).
    ///
    /// Returns how many samples were read, which are the front of the slice, and the error that ended it, if one did.
    /// The rest of the slice stays as it was. A type of your own needn't implement it; the types of this crate read
    /// many containers at once here.
    fn read_many<R: io::Read>(
        reader: &mut R,
        samples: &mut [Self],
        fmt: SampleFormat,
        width: u16,
        bits: u16,
    ) -> (usize, Result<()>)
        ensures each { ReadsEach (rejection fmt width bits) (meaning fmt width bits) width
            (items_of (take result.0 samples.new) result.1) (R.remaining reader.old) (R.remaining reader.new) }
        ensures front { FillsFront result.0 result.1 samples.old samples.new }
        ensures untouched { IsSome (rejection fmt width bits) → reader.new ≡ reader.old }
    {
        for i in 0..samples.len() {
            match Self::read(reader, fmt, width, bits) {
                Ok(sample) => samples[i] = sample,
                Err(error) => return (i, Err(error)),
            }
        }
        (samples.len(), Ok(()))
    }

    /// The value cast to sixteen bits: for an integer the lowest sixteen, as a signed number. Code that is generic over
    /// the type needs `can_cast`; for an integer type it always holds.
    fn as_i16(self) -> i16
        requires { can_cast self }
        ensures { result ≡ cast_value self };

    /// The container in the first `width` bytes, and zeros after it, or the error of the type: `Unsupported` or
    /// `TooWide`, and no other. A writer makes each sample's bytes by it.
    fn encode(self, bits: u16, width: u16) -> Result<[u8; 4]>
        ensures { IsEncoded (container self bits width) result };

    /// A law: a container has the requested number of bytes, from one to four.
    ghost in_width: { (v : Self) (bits width : ℕ) (c : List ℕ) → container v bits width ≡ Ok c →
        (length c ≡ width) × (1 ≤ width) × (width ≤ 4) };
}

impl<T: Integer> Sample for T {
    ghost container = { λ v. int_container (T.number v) };

    ghost in_width = { λ v. int_container-in_width (T.number v) };

    ghost rejection = { T.decode_rejection };

    ghost meaning = { T.value };

    ghost can_cast = { λ _. ⊤ };

    ghost cast_value = { λ v. low_i16 (T.number v) };

    #[inline(always)]
    fn read<R: io::Read>(reader: &mut R, fmt: SampleFormat, bytes: u16, bits: u16) -> Result<Self> {
        read_container(reader, fmt, bytes, bits)
    }

    #[inline(always)]
    fn read_item<R: ContainerReader>(
        reader: &mut R,
        fmt: SampleFormat,
        width: u16,
        bits: u16,
    ) -> result::Result<Self, SampleError> {
        decode_next(reader, fmt, width, bits)
    }

    #[inline(always)]
    fn read_many<R: io::Read>(
        reader: &mut R,
        samples: &mut [Self],
        fmt: SampleFormat,
        width: u16,
        bits: u16,
    ) -> (usize, Result<()>) {
        read_containers(reader, samples, fmt, width, bits)
    }

    #[inline(always)]
    fn as_i16(self) -> i16 {
        lowest_16_bits(self.to_i32())
    }

    #[inline(always)]
    fn encode(self, bits: u16, width: u16) -> Result<[u8; 4]> {
        encode_integer(self.to_i32(), bits, width)
    }
}
