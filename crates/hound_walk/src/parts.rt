// The walk to the data over bytes that a caller hands in, part after part. So nothing that is skipped has to be read,
// and a caller in C can do the reading.
ghost use Rattle.std.specs.Prelude.{◌≡◌, ℕ, ◌+◌, ◌-◌, ◌≤◌, ◌/◌, ◌%◌, List, Option, None, Some, IfOk, IfErr, length, take, drop};
ghost use Rattle.hound_spec.specs.{greatest_u32, padded};
ghost use Rattle.hound_spec.specs.declared.spec.WavSpecEx.{WavSpecEx};
ghost use Rattle.hound_walk.specs.Grammar.{fmt_len, IsSoundSpec, Head, IsDataPlace, Readable, Rejected, Unreadable, data_fault};
ghost use Rattle.hound_walk.specs.Walking.{IsSoundOption, Rejects, Walked};
ghost use Rattle.hound_walk.specs.Parts.{IsAhead, IsAt, IsAtPart, IsAfter, IsNearer, IsNearerWithin, IsSoundStep, LeadsTo, part_bytes, part_start, part_length, parts_left, parts_within};
ghost use Rattle.hound_walk.specs.declared.parts.Part.TheVariants as kinds;

use crate::cause::{Cause, HeadError, Reason};
use crate::chunks::{Content, FileHead, content_of, read_riff_header};
use crate::fmt::read_fmt_chunk;
use hound_number::{Input, u32_at};
use hound_spec::{WAVEFORMATEXTENSIBLE_LENGTH, WavSpecEx};
use std::io;

// Bytes that are read from the front; no read of them fails.
#[derive(Drop)]
struct Window<'a> {
    rest: &'a [u8],
}

impl Input for Window<'_> {
    ghost use Rattle.std.specs.Prelude.{Some};

    ghost left = { λ w. Some w.rest.now };

    ghost account = { λ _. Some (record { failures = 0; kept = tt }) };

    #[inline(always)]
    fn read_some(&mut self, buf: &mut [u8]) -> io::Result<usize> {
        let n = buf.len().min(self.rest.len());
        buf[..n].copy_from_slice(&self.rest[..n]);
        self.rest = &self.rest[n..];
        Ok(n)
    }
}

/// Which bytes a walk asks for next.
#[derive(Clone, Copy)]
pub enum Part {
    /// The first twelve: RIFF, a size, WAVE.
    Front,
    /// The header of a chunk, eight bytes.
    Header,
    /// The last byte of a chunk that was skipped, which shows that it was whole, and the next header.
    Last,
    /// The fields of a fmt chunk of this length, at most 40 bytes.
    Fmt(u32),
}

/// A walk over the chunks of a file, between two parts.
#[derive(Clone, Copy)]
pub struct HeadWalk {
    /// The spec so far.
    pub found: Option<WavSpecEx>,
    /// How many bytes the chunks so far take, after the WAVE tag.
    pub taken: u32,
    /// The part that it asks for.
    pub part: Part,
}

/// Where one part leads.
#[derive(Clone, Copy)]
pub enum Step {
    /// To another part.
    Next(HeadWalk),
    /// To the data.
    Data(FileHead),
}

// The cause of an error of bytes in memory, where no read fails.
#[inline(always)]
fn cause_of(error: HeadError) -> Cause
    ensures { Rejects error (λ cause. result ≡ cause) }
{
    match error {
        HeadError::Rejected(cause) => cause,
        HeadError::Failed(_) => Cause::Ended,
    }
}

#[inline(always)]
fn take_front(bytes: &[u8]) -> Result<Step, Cause>
    ensures leads { (file : List ℕ) → (bytes.now ≡ take 12 file) → LeadsTo file result }
    ensures ahead { IfOk result (IsAhead 12) }
    ensures nearer { IfOk result (IsNearer (parts_left kinds.Front 0)) }
    ensures within { (n : ℕ) → IfOk result (IsNearerWithin n (parts_within n kinds.Front 0)) }
    ensures sound { IfOk result IsSoundStep }
{
    let mut window = Window { rest: bytes };
    match read_riff_header(&mut window) {
        Ok(_) => Ok(Step::Next(HeadWalk {
            found: None,
            taken: 0,
            part: Part::Header,
        })),
        Err(error) => Err(cause_of(error)),
    }
}

// The walk after a content of which so many bytes were read.
#[inline(always)]
fn skip(found: Option<WavSpecEx>, taken: u32, chunk_len: u32, read: u32) -> HeadWalk
    requires limit { taken + 8 + padded chunk_len ≤ greatest_u32 }
    requires read { read ≤ padded chunk_len }
    ensures found { result.found ≡ found }
    ensures taken { result.taken ≡ taken + 8 + padded chunk_len }
    ensures part { IsAfter (padded chunk_len) read result.part }
{
    let content = chunk_len + chunk_len % 2;
    let part = if read == content {
        Part::Header
    } else {
        Part::Last
    };
    HeadWalk {
        found,
        taken: taken + 8 + content,
        part,
    }
}

#[inline(always)]
fn take_header(found: Option<WavSpecEx>, taken: u32, bytes: &[u8]) -> Result<Step, Cause>
    requires sound { IsSoundOption found }
    ensures leads { (file : List ℕ) → Walked file (drop (12 + taken) file) found taken
        → (bytes.now ≡ take 8 (drop (12 + taken) file)) → LeadsTo file result }
    ensures ahead { IfOk result (IsAhead (20 + taken)) }
    ensures nearer { IfOk result (IsNearer (parts_left kinds.Header taken)) }
    ensures within { (n : ℕ) → length bytes.now ≤ n - (12 + taken)
        → IfOk result (IsNearerWithin n (parts_within n kinds.Header taken)) }
    ensures sound { IfOk result IsSoundStep }
{
    if taken > u32::MAX - 8 {
        return Err(Cause::Format(Reason::NoDataChunk));
    }
    if bytes.len() < 8 {
        return Err(Cause::Ended);
    }
    let chunk_len = u32_at(bytes, 4);
    match content_of(&bytes[..4], chunk_len, found, taken)? {
        Content::Data(spec_ex) => Ok(Step::Data(FileHead {
            spec_ex,
            data_length: chunk_len,
            data_start: 12 + taken as u64 + 8,
        })),
        Content::Fmt => Ok(Step::Next(HeadWalk {
            found,
            taken,
            part: Part::Fmt(chunk_len),
        })),
        Content::Other => Ok(Step::Next(skip(found, taken, chunk_len, 0))),
    }
}

#[inline(always)]
fn take_fmt(taken: u32, chunk_len: u32, bytes: &[u8]) -> Result<Step, Cause>
    ensures leads { (file : List ℕ) → (found : Option WavSpecEx) → IsAtPart file (kinds.Fmt chunk_len) found taken
        → (bytes.now ≡ take (fmt_len chunk_len) (drop (20 + taken) file)) → LeadsTo file result }
    ensures ahead { IfOk result (IsAhead (20 + taken + fmt_len chunk_len)) }
    ensures nearer { IfOk result (IsNearer (parts_left (kinds.Fmt chunk_len) taken)) }
    ensures within { (n : ℕ) → length bytes.now ≤ n - (20 + taken)
        → IfOk result (IsNearerWithin n (parts_within n (kinds.Fmt chunk_len) taken)) }
    ensures sound { IfOk result IsSoundStep }
{
    if taken as u64 + 8 + chunk_len as u64 + chunk_len as u64 % 2 > u32::MAX as u64 {
        return Err(Cause::Format(Reason::NoDataChunk));
    }
    let mut window = Window { rest: bytes };
    match read_fmt_chunk(&mut window, chunk_len) {
        Ok(spec_ex) => Ok(Step::Next(skip(
            Some(spec_ex),
            taken,
            chunk_len,
            chunk_len.min(WAVEFORMATEXTENSIBLE_LENGTH),
        ))),
        Err(error) => Err(cause_of(error)),
    }
}

/// Takes the bytes that a walk asks for, fewer only at the end of the file, and returns where they lead. At an error
/// the walk has ended. After each part fewer are left (`nearer`), and in a file of n bytes some n / 4 (`within`).
#[inline(always)]
pub fn take_part(walk: HeadWalk, bytes: &[u8]) -> Result<Step, Cause>
    requires sound { IsSoundOption walk.found }
    ensures leads { (file : List ℕ) → IsAt file walk → (bytes.now ≡ part_bytes walk file) → LeadsTo file result }
    ensures ahead { IfOk result (IsAhead (part_start walk.part walk.taken + part_length walk.part)) }
    ensures nearer { IfOk result (IsNearer (parts_left walk.part walk.taken)) }
    ensures within { (n : ℕ) → length bytes.now ≤ n - part_start walk.part walk.taken
        → IfOk result (IsNearerWithin n (parts_within n walk.part walk.taken)) }
    ensures sound { IfOk result IsSoundStep }
{
    match walk.part {
        Part::Front => take_front(bytes),
        Part::Header => take_header(walk.found, walk.taken, bytes),
        Part::Last => {
            if bytes.len() == 0 {
                return Err(Cause::Ended);
            }
            take_header(walk.found, walk.taken, &bytes[1..])
        }
        Part::Fmt(chunk_len) => take_fmt(walk.taken, chunk_len, bytes),
    }
}

/// How many samples a head counts, if they are whole frames.
pub fn count_samples(head: FileHead) -> Result<u32, Cause>
    requires sound { IsSoundSpec head.spec_ex }
    ensures count { IfOk result (λ n. (data_fault head.spec_ex head.data_length ≡ None)
        × (n ≡ head.data_length / head.spec_ex.bytes_per_sample) × (n % head.spec_ex.spec.channels ≡ 0)) }
    ensures fault { IfErr result (λ c. data_fault head.spec_ex head.data_length ≡ Some c) }
{
    let width = head.spec_ex.bytes_per_sample as u32;
    if head.data_length % width != 0 {
        return Err(Cause::Format(Reason::DataLength));
    }
    let num_samples = head.data_length / width;
    if num_samples % head.spec_ex.spec.channels as u32 != 0 {
        return Err(Cause::Format(Reason::FrameLength));
    }
    Ok(num_samples)
}

/// The bytes of a file from a place on, at most so many.
#[inline(always)]
pub fn bytes_at(file: &[u8], place: u64, count: usize) -> &[u8]
    ensures { result.now ≡ take count (drop place file.now) }
{
    if place >= file.len() as u64 {
        return &file[file.len()..];
    }
    let rest = &file[place as usize..];
    &rest[..rest.len().min(count)]
}

impl HeadWalk {
    /// The place of the part that it asks for.
    #[inline(always)]
    pub fn start(self) -> u64
        ensures { result ≡ part_start self.part self.taken }
    {
        match self.part {
            Part::Front => 0,
            Part::Header => 12 + self.taken as u64,
            Part::Last => 11 + self.taken as u64,
            Part::Fmt(_) => 20 + self.taken as u64,
        }
    }

    /// How many bytes it has.
    #[inline(always)]
    pub fn length(self) -> usize
        ensures { result ≡ part_length self.part }
    {
        match self.part {
            Part::Front => 12,
            Part::Header => 8,
            Part::Last => 9,
            Part::Fmt(len) => len.min(WAVEFORMATEXTENSIBLE_LENGTH) as usize,
        }
    }
}

// Walks to the data of a file in memory. Of a chunk that is skipped it looks at the last byte alone.
fn find_by_parts(file: &[u8]) -> Result<FileHead, Cause>
    ensures head { IfOk result (λ h. Head file.now h.spec_ex h.data_length h.data_start) }
    ensures sound { IfOk result (λ h. IsSoundSpec h.spec_ex) }
    ensures start { IfOk result (λ h. IsDataPlace h.data_start) }
    ensures inside { IfOk result (λ h. h.data_start ≤ length file.now) }
    ensures rejected { IfErr result (Rejected file.now) }
{
    let mut walk = HeadWalk {
        found: None,
        taken: 0,
        part: Part::Front,
    };
    'parts: loop {
        match take_part(walk, bytes_at(file, walk.start(), walk.length()))? {
            Step::Next(next) => walk = next,
            Step::Data(head) => return Ok(head),
        }
    }
}

/// Walks over a file in memory up to its data, which must be whole frames, and also returns how many samples they are.
pub fn find_samples(file: &[u8]) -> Result<(FileHead, u32), Cause>
    ensures readable { IfOk result (λ r. Readable file.now r.0.spec_ex r.1 r.0.data_start) }
    ensures sound { IfOk result (λ r. IsSoundSpec r.0.spec_ex) }
    ensures start { IfOk result (λ r. IsDataPlace r.0.data_start) }
    ensures frames { IfOk result (λ r. r.1 % r.0.spec_ex.spec.channels ≡ 0) }
    ensures inside { IfOk result (λ r. r.0.data_start ≤ length file.now) }
    ensures unreadable { IfErr result (Unreadable file.now) }
{
    let head = find_by_parts(file)?;
    let samples = count_samples(head)?;
    Ok((head, samples))
}
