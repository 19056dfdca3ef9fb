// The bytes before the data.
ghost use Rattle.std.specs.Prelude.{◌≡◌, ◌+◌, ◌-◌, ◌*◌, ◌^◌, ◌≤◌, ◌++◌, ◌↔◌, [], IsTrue, List, ℕ, length, take, min};
ghost use Rattle.hound_spec.specs.Header.{IsWritable, is_short, data_start, fields, header, riff_size, mask, short_fmt, long_fmt, sized_fmt, fmt_bytes, greatest_u32, subformat};
ghost use Rattle.hound_number.specs.{bytes_of};

use crate::{Error, Result, SampleFormat, WavSpec, WavSpecEx};
use hound_number::{le_u16, le_u32};
use std::alloc::Global;
use std::marker::Model;

/// The format tag of integers (mmreg.h, WAVE_FORMAT_PCM).
pub const WAVE_FORMAT_PCM: u16 = 0x0001;

/// The format tag of floats (mmreg.h, WAVE_FORMAT_IEEE_FLOAT).
pub const WAVE_FORMAT_IEEE_FLOAT: u16 = 0x0003;

/// The format tag of a WAVEFORMATEXTENSIBLE, whose subformat says what its samples are.
pub const WAVE_FORMAT_EXTENSIBLE: u16 = 0xfffe;

/// The bytes of a WAVEFORMATEX without an extension: a PCMWAVEFORMAT, and the size of more.
pub const WAVEFORMATEX_LENGTH: u32 = 18;

/// The bytes of a WAVEFORMATEXTENSIBLE.
pub const WAVEFORMATEXTENSIBLE_LENGTH: u32 = 40;

/// The size that a WAVEFORMATEXTENSIBLE gives for its extension.
pub const EXTENSION_LENGTH: u16 = 22;

/// The bytes of a PCMWAVEFORMAT.
pub const PCMWAVEFORMAT_LENGTH: u32 = 16;

/// The subformat of integers in a WAVEFORMATEXTENSIBLE: a GUID of mmreg.h, whose first three groups are little-endian
/// numbers.
pub const KSDATAFORMAT_SUBTYPE_PCM: [u8; 16] = [
    0x01, 0x00, 0x00, 0x00, 0x00, 0x00, 0x10, 0x00, 0x80, 0x00, 0x00, 0xaa, 0x00, 0x38, 0x9b, 0x71,
];

/// The subformat of floats, likewise.
pub const KSDATAFORMAT_SUBTYPE_IEEE_FLOAT: [u8; 16] = [
    0x03, 0x00, 0x00, 0x00, 0x00, 0x00, 0x10, 0x00, 0x80, 0x00, 0x00, 0xaa, 0x00, 0x38, 0x9b, 0x71,
];

/// The bytes of a header, 44 or 68, without memory of their own. Only [`header_of`] makes one.
#[derive(Drop)]
pub struct Header {
    bytes: [u8; 68],
    len: usize,
}

impl Model for Header {
    ghost Value = { List ℕ };

    ghost view = { λ h. take h.len h.bytes };

    ghost invariant = { λ h. h.len ≤ 68 };
}

impl Header {
    // No bytes yet.
    fn new() -> Header
        ensures { result ≡ [] }
    {
        Header {
            bytes: [0; 68],
            len: 0,
        }
    }

    // Appends bytes.
    fn write_all(&mut self, bytes: &[u8])
        requires { length self.old + length bytes.now ≤ 68 }
        ensures { self.new ≡ self.old ++ bytes.now }
    {
        let end = self.len + bytes.len();
        self.bytes[self.len..end].copy_from_slice(bytes);
        self.len = end;
    }

    fn write_le_u16(&mut self, n: u16)
        requires { length self.old + 2 ≤ 68 }
        ensures { self.new ≡ self.old ++ bytes_of 2 n }
    {
        self.write_all(&le_u16(n));
    }

    fn write_le_u32(&mut self, n: u32)
        requires { length self.old + 4 ≤ 68 }
        ensures { self.new ≡ self.old ++ bytes_of 4 n }
    {
        self.write_all(&le_u32(n));
    }

    /// The bytes, in the file's order.
    pub fn as_slice(&self) -> &[u8]
        ensures { result.now ≡ self.now }
    {
        &self.bytes[..self.len]
    }
}

// One low bit for each channel, of which 18 have a speaker.
fn channel_mask(channels: u16) -> u32
    ensures { result ≡ mask channels }
{
    (1 << channels.min(18)) - 1
}

// Whether the older fmt chunk is enough: the extensible one is required above two channels or 16 bits.
fn is_short(spec_ex: WavSpecEx) -> bool
    ensures { result ≡ is_short spec_ex }
{
    spec_ex.spec.channels <= 2 && spec_ex.spec.bits_per_sample <= 16
}

/// How many bytes a header of this spec has; the data follow it.
pub fn header_length(spec_ex: WavSpecEx) -> usize
    ensures { result ≡ data_start spec_ex }
{
    if is_short(spec_ex) { 44 } else { 68 }
}

/// The RIFF size of a file whose data begin at this place and have this length, pad byte included.
#[inline(always)]
pub fn riff_size(data_start: u64, data_length: u64) -> u64
    requires after_front { 8 ≤ data_start }
    requires small { data_start ≤ 2 ^ 33 }
    requires few { data_length ≤ 2 ^ 35 }
    ensures { result ≡ riff_size data_start data_length }
{
    data_start - 8 + data_length + data_length % 2
}

/// Whether the RIFF size of such a file fits 32 bits.
#[inline(always)]
pub fn riff_size_fits(data_start: u64, data_length: u64) -> bool
    requires { 8 ≤ data_start }
    ensures { IsTrue result ↔ riff_size data_start data_length ≤ greatest_u32 }
{
    let greatest = u32::MAX as u64;
    data_start <= greatest + 8
        && data_length <= greatest
        && riff_size(data_start, data_length) <= greatest
}

// The fields of a WAVEFORMAT, and the bits after them.
fn write_waveformat(header: &mut Header, tag: u16, bits: u16, spec_ex: WavSpecEx)
    requires writable { IsWritable spec_ex }
    requires room { length header.old + 16 ≤ 68 }
    ensures { header.new ≡ header.old ++ fmt_bytes (fields tag bits spec_ex) }
{
    let spec = spec_ex.spec;
    let block_align = spec.channels as u32 * spec_ex.bytes_per_sample as u32;
    let bytes_per_sec = block_align * spec.sample_rate;
    header.write_le_u16(tag);
    header.write_le_u16(spec.channels);
    header.write_le_u32(spec.sample_rate);
    header.write_le_u32(bytes_per_sec);
    header.write_le_u16(block_align as u16);
    header.write_le_u16(bits);
}

// The fmt chunk's length, and a PCMWAVEFORMAT.
fn write_pcmwaveformat(header: &mut Header, spec_ex: WavSpecEx)
    requires writable { IsWritable spec_ex }
    requires room { length header.old + 20 ≤ 68 }
    ensures { header.new ≡ header.old ++ bytes_of 4 16 ++ short_fmt spec_ex }
{
    let bits = spec_ex.spec.bits_per_sample;
    header.write_le_u32(PCMWAVEFORMAT_LENGTH);
    write_waveformat(header, WAVE_FORMAT_PCM, bits, spec_ex);
}

// The fmt chunk's length, and a WAVEFORMATEXTENSIBLE.
fn write_waveformatextensible(header: &mut Header, spec_ex: WavSpecEx)
    requires writable { IsWritable spec_ex }
    requires room { length header.old + 44 ≤ 68 }
    ensures { header.new ≡ header.old ++ bytes_of 4 40 ++ long_fmt spec_ex }
{
    let spec = spec_ex.spec;
    let container_bits = 8 * spec_ex.bytes_per_sample;
    header.write_le_u32(WAVEFORMATEXTENSIBLE_LENGTH);
    write_waveformat(header, WAVE_FORMAT_EXTENSIBLE, container_bits, spec_ex);
    header.write_le_u16(EXTENSION_LENGTH);
    header.write_le_u16(spec.bits_per_sample);
    header.write_le_u32(channel_mask(spec.channels));
    write_subformat(header, spec.sample_format);
}

fn write_subformat(header: &mut Header, format: SampleFormat)
    requires { length header.old + 16 ≤ 68 }
    ensures { header.new ≡ header.old ++ subformat format }
{
    match format {
        SampleFormat::Int => header.write_all(&KSDATAFORMAT_SUBTYPE_PCM),
        SampleFormat::Float => header.write_all(&KSDATAFORMAT_SUBTYPE_IEEE_FLOAT),
    }
}

// The fmt chunk's length and its content, in the older form if that is enough.
fn write_fmt(header: &mut Header, spec_ex: WavSpecEx)
    requires writable { IsWritable spec_ex }
    requires room { length header.old + 44 ≤ 68 }
    ensures chunk { header.new ≡ header.old ++ sized_fmt spec_ex }
    ensures size { length header.new ≤ length header.old + 44 }
{
    if is_short(spec_ex) {
        write_pcmwaveformat(header, spec_ex);
    } else {
        write_waveformatextensible(header, spec_ex);
    }
}

/// The header of a file of this spec, up to the first data byte (RIFF, "Waveform Audio File Format"). The spec must be
/// writable: see [`WavSpecEx::is_writable`].
///
/// Both sizes are in bytes. The RIFF size counts all after its own field, the data length the content of the data
/// chunk. One or two channels of 8 or 16 bits have the header of 44 bytes with a PCMWAVEFORMAT, every other spec that
/// of 68 with a WAVEFORMATEXTENSIBLE.
pub fn header_of(spec_ex: WavSpecEx, riff_size: u32, data_length: u32) -> Header
    requires { IsWritable spec_ex }
    ensures { result ≡ header spec_ex riff_size data_length }
{
    let mut header = Header::new();
    header.write_all(b"RIFF");
    header.write_le_u32(riff_size);
    header.write_all(b"WAVE");
    header.write_all(b"fmt ");
    write_fmt(&mut header, spec_ex);
    header.write_all(b"data");
    header.write_le_u32(data_length);
    header
}

impl WavSpec {
    ghost use Rattle.std.specs.Prelude.{◌≡◌, IfOk, IfErr, OnOk, Err};
    ghost use Rattle.hound_spec.specs.declared.error.Error.TheVariants.{OutOfMemory, Unsupported};
    ghost use Rattle.hound_spec.specs.Header.{greatest_u32, header, IsWritable, with_default_width};

    /// The header of a stream whose length isn't known when it begins: both sizes are 4294967295. It is for outputs
    /// without a way back; the containers follow, each by `Sample::write_padded`.
    ///
    /// A sample takes the bytes that its bits need: `(bits_per_sample + 7) / 8`, rounded down. `WavReader` rejects such
    /// a header of 16 or 32 bits, since 4294967295 bytes are no whole samples of them.
    ///
    /// The errors, in their order: `Unsupported`, for a spec that can't be written; `OutOfMemory`.
    pub fn into_header_for_infinite_file(self, alloc: Global) -> Result<Vec<u8>>
        ensures unsupported { (IsWritable (with_default_width self) → ⊥) → result ≡ Err Unsupported }
        ensures only_writable { OnOk result (IsWritable (with_default_width self)) }
        ensures header { IfOk result (λ bytes.
            bytes.items ≡ header (with_default_width self) greatest_u32 greatest_u32) }
        ensures writable { IsWritable (with_default_width self) → IfErr result (λ e. e ≡ OutOfMemory) }
    {
        let spec_ex = WavSpecEx::from(self);
        if !spec_ex.is_writable() {
            return Err(Error::Unsupported);
        }
        let header = header_of(spec_ex, u32::MAX, u32::MAX);
        header.as_slice().to_vec(alloc).or(Err(Error::OutOfMemory))
    }
}
