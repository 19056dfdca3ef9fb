// Files that are written, or appended to.
ghost use Rattle.std.specs.Prelude.{◌≡◌, ◌+◌, ◌*◌, ◌%◌, ◌^◌, ◌≤◌, ◌++◌, IsOk, IfOk, IfErr, length, take, drop};
ghost use Rattle.hound_spec.specs.{IsPair, IsWritable, greatest_u32, data_start, header, padded, padding, riff_size};
ghost use Rattle.hound_sample.specs.{joined_containers};
ghost use Rattle.hound_writer.specs.{containers_in};
ghost use Rattle.hound_slices.specs.Writing.{Encodes, GivesFiller, GivesHeader, GivesSizes, IsSizeError, IsUnencoded, Sizes, WritesFile, AppendsInPlace};

use crate::error::CallError;
use hound_number::le_u32;
use hound_repair::set_sizes;
use hound_sample::{Sample, SampleError, check_containers, have_containers, store_containers};
use hound_spec::{SampleFormat, WavSpecEx, header_length, header_of, is_pair, riff_size_fits};
use hound_walk::find_samples;

// How long a chunk of two bytes is.
const FILLER_LENGTH: usize = 10;

// Checks that samples of a format have containers of a spec, which is written.
fn check_samples<S: Sample + Copy>(
    spec_ex: WavSpecEx,
    format: SampleFormat,
    samples: &[S],
) -> Result<(), CallError>
    ensures format { IfOk result (λ _. spec_ex.spec.sample_format ≡ format) }
    ensures pair { IfOk result (λ _.
        IsPair spec_ex.spec.sample_format spec_ex.spec.bits_per_sample spec_ex.bytes_per_sample) }
    ensures have { IfOk result (λ _. IsOk (containers_in S.container spec_ex samples.now)) }
    ensures unencoded { IfErr result (IsUnencoded format S.container spec_ex samples.now) }
{
    let bits = spec_ex.spec.bits_per_sample;
    let width = spec_ex.bytes_per_sample;
    if spec_ex.spec.sample_format != format {
        return Err(CallError::OtherFormat);
    }
    if !is_pair(format, bits, width) {
        return Err(CallError::NotWritable);
    }
    if have_containers(samples, bits, width) {
        return Ok(());
    }
    match check_containers(samples, bits, width) {
        Ok(()) => Ok(()),
        Err(SampleError::TooWide) => Err(CallError::TooWide),
        Err(_) => Err(CallError::NotWritable),
    }
}

// Stores the containers of samples at a place, and after data of an odd length the pad byte.
fn write_data_at<S: Sample + Copy>(
    out: &mut [u8],
    at: usize,
    samples: &[S],
    spec_ex: WavSpecEx,
    data_length: u32,
)
    requires have { IsOk (containers_in S.container spec_ex samples.now) }
    requires width { spec_ex.bytes_per_sample ≤ 4 }
    requires room { at + spec_ex.bytes_per_sample * length samples.now + data_length % 2 ≤ length out.old }
    ensures { let s = spec_ex in
        let body = joined_containers (λ v. S.container v s.spec.bits_per_sample s.bytes_per_sample) samples.now in
        out.new ≡ take at out.old ++ ((body ++ padding data_length)
        ++ drop (at + (s.bytes_per_sample * length samples.now + data_length % 2)) out.old) }
{
    let (bits, width) = (spec_ex.spec.bits_per_sample, spec_ex.bytes_per_sample);
    let end = at + width as usize * samples.len();
    store_containers(&mut out[at..end], samples, bits, width);
    if data_length % 2 == 1 {
        out[end] = 0;
    }
}

// Writes the header to the front of `out`.
fn put_header(spec_ex: WavSpecEx, riff_size: u32, data_length: u32, out: &mut [u8])
    requires writable { IsWritable spec_ex }
    requires room { data_start spec_ex ≤ length out.old }
    ensures { out.new ≡ header spec_ex riff_size data_length ++ drop (data_start spec_ex) out.old }
{
    let header = header_of(spec_ex, riff_size, data_length);
    out[..header_length(spec_ex)].copy_from_slice(header.as_slice());
}

// How many bytes so many samples take, and how many the file that has them after a header of this many.
fn sizes_of(spec_ex: WavSpecEx, data_start: u64, samples: u64) -> Result<(u32, usize), CallError>
    requires channels { 1 ≤ spec_ex.spec.channels }
    requires width { 1 ≤ spec_ex.bytes_per_sample }
    requires some { 8 ≤ data_start }
    requires few { data_start ≤ 2 ^ 33 }
    ensures data { IfOk result (λ r. r.0 ≡ samples * spec_ex.bytes_per_sample) }
    ensures end { IfOk result (λ r. r.1 ≡ data_start + padded (samples * spec_ex.bytes_per_sample)) }
    ensures fits { IfOk result (λ r. riff_size data_start (samples * spec_ex.bytes_per_sample) ≤ greatest_u32) }
    ensures frames { IfOk result (λ r. samples % spec_ex.spec.channels ≡ 0) }
    ensures rejected { IfErr result (IsSizeError spec_ex data_start samples) }
{
    if samples > u32::MAX as u64 {
        return Err(CallError::TooLong);
    }
    let count = samples as u32;
    if count % spec_ex.spec.channels as u32 != 0 {
        return Err(CallError::UnfinishedFrame);
    }
    let data_length = count as u64 * spec_ex.bytes_per_sample as u64;
    let end = data_start + data_length + data_length % 2;
    if !riff_size_fits(data_start, data_length) {
        return Err(CallError::TooLong);
    }
    match usize::try_from(end) {
        Ok(size) => Ok((data_length as u32, size)),
        Err(_) => Err(CallError::TooLong),
    }
}

/// How many bytes the file of so many samples has.
pub fn file_size(spec_ex: WavSpecEx, samples: u64) -> Result<usize, CallError>
    ensures sizes { Sizes spec_ex samples result }
    ensures small { IfOk result (λ n. n ≤ 2 ^ 33) }
{
    if !spec_ex.is_writable() {
        return Err(CallError::NotWritable);
    }
    Ok(sizes_of(spec_ex, header_length(spec_ex) as u64, samples)?.1)
}

/// Writes the header of a file of so many samples to the front of `out`, and returns its length.
pub fn write_header(spec_ex: WavSpecEx, samples: u64, out: &mut [u8]) -> Result<usize, CallError>
    ensures gives { GivesHeader spec_ex samples out.old out.new result }
    ensures small { IfOk result (λ n. n ≤ 68) }
{
    if !spec_ex.is_writable() {
        return Err(CallError::NotWritable);
    }
    let data_start = header_length(spec_ex);
    let (data_length, size) = sizes_of(spec_ex, data_start as u64, samples)?;
    if data_start > out.len() {
        return Err(CallError::NoRoom);
    }
    put_header(spec_ex, (size - 8) as u32, data_length, out);
    Ok(data_start)
}

/// Writes the two sizes of a file of so many samples, whose data begin at a place, to the first eight bytes of `out`,
/// and returns how many bytes that file has.
pub fn write_sizes(
    spec_ex: WavSpecEx,
    data_start: u64,
    samples: u64,
    out: &mut [u8],
) -> Result<usize, CallError>
    ensures gives { GivesSizes spec_ex data_start samples out.old out.new result }
    ensures small { IfOk result (λ n. n ≤ 2 ^ 33) }
{
    let spec = spec_ex.spec;
    let width = spec_ex.bytes_per_sample;
    if !is_pair(spec.sample_format, spec.bits_per_sample, width) {
        return Err(CallError::NotWritable);
    }
    if spec.channels == 0 || data_start < 20 {
        return Err(CallError::NotWritable);
    }
    if data_start > u32::MAX as u64 + 8 {
        return Err(CallError::TooLong);
    }
    if out.len() < 8 {
        return Err(CallError::NoRoom);
    }
    let (data_length, size) = sizes_of(spec_ex, data_start, samples)?;
    out[..4].copy_from_slice(&le_u32((size - 8) as u32));
    out[4..8].copy_from_slice(&le_u32(data_length));
    Ok(size)
}

/// Writes a chunk that says nothing to the front of `out`, if it has to come before the header of data that would begin
/// at this place, so that the four bytes of the data length are within one sector of 512 bytes: then a loss of power
/// stores all of them or none. Returns its length, or 0 where none is needed.
pub fn write_filler(data_start: u64, out: &mut [u8]) -> Result<usize, CallError>
    ensures gives { GivesFiller data_start out.old out.new result }
    ensures small { IfOk result (λ n. n ≤ 10) }
{
    if data_start.saturating_sub(4) / 512 == data_start.saturating_sub(1) / 512 {
        return Ok(0);
    }
    if out.len() < FILLER_LENGTH {
        return Err(CallError::NoRoom);
    }
    out[0] = b'J';
    out[1] = b'U';
    out[2] = b'N';
    out[3] = b'K';
    out[4..8].copy_from_slice(&le_u32(2));
    out[8] = 0;
    out[9] = 0;
    Ok(FILLER_LENGTH)
}

/// Writes the file of these samples to the front of `out`, and returns its length.
pub fn write_file<S: Sample + Copy>(
    spec_ex: WavSpecEx,
    format: SampleFormat,
    samples: &[S],
    out: &mut [u8],
) -> Result<usize, CallError>
    ensures writes { WritesFile format S.container spec_ex samples.now out.old out.new result }
    ensures within { IfOk result (λ n. n ≤ length out.old) }
{
    if !spec_ex.is_writable() {
        return Err(CallError::NotWritable);
    }
    check_samples(spec_ex, format, samples)?;
    let data_start = header_length(spec_ex);
    let (data_length, size) = sizes_of(spec_ex, data_start as u64, samples.len() as u64)?;
    if size > out.len() {
        return Err(CallError::NoRoom);
    }
    put_header(spec_ex, (size - 8) as u32, data_length, out);
    write_data_at(out, data_start, samples, spec_ex, data_length);
    Ok(size)
}

/// Encodes samples as containers of a spec, one after the other, and returns how many bytes.
pub fn encode_block<S: Sample + Copy>(
    spec_ex: WavSpecEx,
    format: SampleFormat,
    samples: &[S],
    out: &mut [u8],
) -> Result<usize, CallError>
    ensures encodes { Encodes format S.container spec_ex samples.now out.old out.new result }
    ensures within { IfOk result (λ n. n ≤ length out.old) }
{
    check_samples(spec_ex, format, samples)?;
    let (bits, width) = (spec_ex.spec.bits_per_sample, spec_ex.bytes_per_sample);
    if samples.len() > out.len() / width as usize {
        return Err(CallError::NoRoom);
    }
    let end = samples.len() * width as usize;
    store_containers(&mut out[..end], samples, bits, width);
    Ok(end)
}

/// Appends samples after those of the file in the first bytes, and returns its new length.
pub fn append_block<S: Sample + Copy>(
    file: &mut [u8],
    used: usize,
    format: SampleFormat,
    samples: &[S],
) -> Result<usize, CallError>
    ensures appends { AppendsInPlace format S.container samples.now used file.old file.new result }
    ensures within { IfOk result (λ n. n ≤ length file.old) }
{
    if used > file.len() {
        return Err(CallError::NoRoom);
    }
    let (head, stored) = find_samples(&file[..used])?;
    let spec_ex = head.spec_ex;
    check_samples(spec_ex, format, samples)?;
    let data_start = head.data_start as usize;
    let end = data_start + stored as usize * spec_ex.bytes_per_sample as usize;
    if end > used {
        return Err(CallError::Truncated);
    }
    if samples.len() > u32::MAX as usize {
        return Err(CallError::TooLong);
    }
    let count = samples.len() as u64 + stored as u64;
    let (data_length, size) = sizes_of(spec_ex, head.data_start, count)?;
    if size > file.len() {
        return Err(CallError::NoRoom);
    }
    write_data_at(file, end, samples, spec_ex, data_length);
    set_sizes(file, data_start - 4, (size - 8) as u32, data_length);
    Ok(size)
}
