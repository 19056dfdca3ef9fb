// Containers that are read and decoded: one, or many in few reads, which fill pieces of whole containers.
ghost use Rattle.std.specs.Prelude.{◌≡◌, ◌≤◌, ◌<◌, ◌*◌, ℕ, List, length, map, take, Option, None, IsOk, IsSome, OnErr, OnOk};
ghost use Rattle.std.specs.Io.KnownBytes.{Consumes};
ghost use Rattle.hound_sample.specs.Container.{containers};
ghost use Rattle.hound_sample.specs.Reading.{ReadsItem, FillsFront, ReadsEach, items_of, ReadRejection, Reads, float_rejection, int_rejection, read_error};
ghost use Rattle.hound_spec.specs.{IsPair};
ghost use Rattle.hound_spec.specs.declared.spec.SampleFormat.{SampleFormat};
ghost use Rattle.hound_spec.specs.declared.spec.SampleFormat.TheVariants.{Float, Int};

use crate::item::{ContainerReader, SampleError, reason_of};
use hound_number::{early_end, read_into};
use hound_spec::{Error, Result, SampleFormat, is_pair};
use std::{io, result};

// The bytes of a piece: enough that a read costs little for each sample.
const PIECE: usize = 1024;

// The bytes of a piece for few samples, which are cleared at each call.
const SMALL_PIECE: usize = 64;

/// A type that has a value for every container of the pairs that it reads.
///
/// It is no part of [`Sample`](crate::Sample), whose `read_many` is made of it: the checker allows no cycle between the
/// methods of an `impl`.
pub trait Decode: Sized + Drop {
    /// Why containers of a format, with these bytes and used bits, aren't decoded, if they aren't.
    ghost decode_rejection: { SampleFormat → ℕ → ℕ → Option ReadRejection };

    /// The value of a container, in a file of this format, with these bytes and used bits.
    ghost value: { SampleFormat → ℕ → ℕ → List ℕ → Self };

    /// Whether containers of a format, with these bytes and used bits, are decoded, or why not: the errors of
    /// [`Sample::read`](crate::Sample::read).
    fn check(fmt: SampleFormat, width: u16, bits: u16) -> Result<()>
        ensures check { result ≡ read_error (decode_rejection fmt width bits) }
        ensures pair { IsOk result → IsPair fmt bits width };

    /// The value of a container of this many bytes.
    fn decode(container: &[u8], fmt: SampleFormat, width: u16, bits: u16) -> Self
        requires decodes { decode_rejection fmt width bits ≡ None }
        requires width { length container.now ≡ width }
        ensures { result ≡ value fmt width bits container.now };
}

/// Whether a type of a format and of at most this many bytes reads samples, or why not.
#[inline(always)]
pub(crate) fn check_type(
    format: SampleFormat,
    most: u16,
    fmt: SampleFormat,
    width: u16,
    bits: u16,
) -> Result<()>
    ensures int { format ≡ Int → result ≡ read_error (int_rejection most fmt width bits) }
    ensures float { format ≡ Float → most ≡ 4 → result ≡ read_error (float_rejection fmt width bits) }
    ensures pair { IsOk result → IsPair fmt bits width }
{
    if fmt == format && width <= most && is_pair(fmt, bits, width) {
        return Ok(());
    }
    if fmt != format {
        return Err(Error::InvalidSampleFormat);
    }
    if width > most {
        return Err(Error::TooWide);
    }
    Err(Error::Unsupported)
}

/// Reads a container and decodes it, as [`Sample::read`](crate::Sample::read) does.
#[inline(always)]
pub(crate) fn read_container<S: Decode, R: io::Read>(
    reader: &mut R,
    fmt: SampleFormat,
    width: u16,
    bits: u16,
) -> Result<S>
    ensures reads { Reads (S.decode_rejection fmt width bits) (S.value fmt width bits) width
        (R.remaining reader.old) (R.remaining reader.new) result }
    ensures untouched { IsSome (S.decode_rejection fmt width bits) → reader.new ≡ reader.old }
{
    S::check(fmt, width, bits)?;
    let mut container = [0; 4];
    let container = &mut container[..width as usize];
    match read_into(reader, container) {
        Ok(()) => Ok(S::decode(container, fmt, width, bits)),
        Err(error) => Err(Error::IoError(error.into())),
    }
}

// Takes the next container and decodes it.
#[inline(always)]
fn decode_container<S: Decode, R: ContainerReader>(
    reader: &mut R,
    fmt: SampleFormat,
    bits: u16,
    width: u16,
) -> result::Result<S, SampleError>
    requires decodes { S.decode_rejection fmt width bits ≡ None }
    requires width { (1 ≤ width) × (width ≤ 4) }
    ensures { ReadsItem None (S.value fmt width bits) width (R.remaining reader.old) (R.remaining reader.new) result }
{
    match reader.next_container(width) {
        Some(container) => Ok(S::decode(&container[..width as usize], fmt, width, bits)),
        None => Err(SampleError::Failed),
    }
}

/// Takes the next container and decodes it, as [`Sample::read_item`](crate::Sample::read_item) does, with constant
/// widths for each pair.
#[inline(always)]
pub(crate) fn decode_next<S: Decode, R: ContainerReader>(
    reader: &mut R,
    fmt: SampleFormat,
    width: u16,
    bits: u16,
) -> result::Result<S, SampleError>
    ensures item { ReadsItem (S.decode_rejection fmt width bits) (S.value fmt width bits) width
        (R.remaining reader.old) (R.remaining reader.new) result }
    ensures untouched { IsSome (S.decode_rejection fmt width bits) → reader.new ≡ reader.old }
{
    if let Err(error) = S::check(fmt, width, bits) {
        return Err(reason_of(error));
    }
    by_pair!(bits, width, decode_container(reader, fmt))
}

// Fills the front of a buffer, all of it unless a read fails or the input ends. Returns the count.
#[inline(always)]
fn read_piece<R: io::Read>(reader: &mut R, piece: &mut [u8]) -> (usize, io::Result<()>)
    ensures within { result.0 ≤ length piece.new }
    ensures taken { Consumes (R.remaining reader.old) (R.remaining reader.new) (take result.0 piece.new) }
    ensures full { OnOk result.1 (result.0 ≡ length piece.new) }
    ensures part { OnErr result.1 (result.0 < length piece.new) }
{
    let mut at = 0;
    while at < piece.len() {
        match reader.read(&mut piece[at..]) {
            Ok(0) => return (at, Err(early_end())),
            Ok(n) => at += n,
            Err(error) => return (at, Err(error)),
        }
    }
    (at, Ok(()))
}

/// Decodes containers, one after the other.
#[inline(always)]
pub(crate) fn decode_each<S: Decode>(
    from: &[u8],
    samples: &mut [S],
    fmt: SampleFormat,
    bits: u16,
    width: u16,
)
    requires decodes { S.decode_rejection fmt width bits ≡ None }
    requires whole { length from.now ≡ length samples.old * width }
    ensures { samples.new ≡ map (S.value fmt width bits) (containers width (length samples.old) from.now) }
{
    let size = width as usize;
    for i in 0..samples.len() {
        samples[i] = S::decode(&from[i * size..(i + 1) * size], fmt, width, bits);
    }
}

// Reads samples by pieces that a buffer has room for.
#[inline(always)]
fn read_through<S: Decode, R: io::Read>(
    reader: &mut R,
    samples: &mut [S],
    piece: &mut [u8],
    fmt: SampleFormat,
    bits: u16,
    width: u16,
) -> (usize, Result<()>)
    requires decodes { S.decode_rejection fmt width bits ≡ None }
    requires width { (1 ≤ width) × (width ≤ 4) }
    requires room { 4 ≤ length piece.old }
    ensures each { ReadsEach None (S.value fmt width bits) width (items_of (take result.0 samples.new) result.1)
        (R.remaining reader.old) (R.remaining reader.new) }
    ensures front { FillsFront result.0 result.1 samples.old samples.new }
{
    let size = width as usize;
    let mut done = 0;
    while done < samples.len() {
        let wanted = (samples.len() - done).min(piece.len() / size);
        let (taken, answer) = read_piece(reader, &mut piece[..wanted * size]);
        let count = taken / size;
        let decoded = &mut samples[done..done + count];
        decode_each(&piece[..count * size], decoded, fmt, bits, width);
        done += count;
        if let Err(error) = answer {
            return (done, Err(Error::IoError(error)));
        }
    }
    (done, Ok(()))
}

// Reads samples by pieces of a size that depends on their number.
#[inline(always)]
fn read_pieces<S: Decode, R: io::Read>(
    reader: &mut R,
    samples: &mut [S],
    fmt: SampleFormat,
    bits: u16,
    width: u16,
) -> (usize, Result<()>)
    requires decodes { S.decode_rejection fmt width bits ≡ None }
    requires width { (1 ≤ width) × (width ≤ 4) }
    ensures each { ReadsEach None (S.value fmt width bits) width (items_of (take result.0 samples.new) result.1)
        (R.remaining reader.old) (R.remaining reader.new) }
    ensures front { FillsFront result.0 result.1 samples.old samples.new }
{
    if samples.len() <= SMALL_PIECE / 4 {
        return read_through(reader, samples, &mut [0; SMALL_PIECE], fmt, bits, width);
    }
    read_through(reader, samples, &mut [0; PIECE], fmt, bits, width)
}

/// Reads samples as [`Sample::read_many`](crate::Sample::read_many) does, with constant widths for each pair.
#[inline(always)]
pub(crate) fn read_containers<S: Decode, R: io::Read>(
    reader: &mut R,
    samples: &mut [S],
    fmt: SampleFormat,
    width: u16,
    bits: u16,
) -> (usize, Result<()>)
    ensures each { ReadsEach (S.decode_rejection fmt width bits) (S.value fmt width bits) width
        (items_of (take result.0 samples.new) result.1) (R.remaining reader.old) (R.remaining reader.new) }
    ensures front { FillsFront result.0 result.1 samples.old samples.new }
    ensures untouched { IsSome (S.decode_rejection fmt width bits) → reader.new ≡ reader.old }
{
    if samples.is_empty() {
        return (0, Ok(()));
    }
    if let Err(error) = S::check(fmt, width, bits) {
        return (0, Err(error));
    }
    by_pair!(bits, width, read_pieces(reader, samples, fmt))
}
