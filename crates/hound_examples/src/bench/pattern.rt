// The samples that the workloads write and read.
use hound::{FloatBits, Sample, SampleFormat, WavSpec};

/// A type of samples.
pub trait Summed: Sample + Copy {
    /// What a sample adds to the check.
    fn value(self) -> i64;
}

/// The samples of a file, each by its number.
pub trait Pattern {
    /// The type that they are written and read as.
    type Sample: Summed;

    /// How many bits they have.
    const BITS: u16;

    /// Whether they are integers or floats.
    const FORMAT: SampleFormat = SampleFormat::Int;

    /// The sample with this number.
    fn sample(index: u32) -> Self::Sample;

    /// A file of them with this many channels.
    fn spec(channels: u16) -> WavSpec {
        WavSpec {
            channels,
            sample_rate: 44100,
            bits_per_sample: Self::BITS,
            sample_format: Self::FORMAT,
        }
    }
}

/// Samples of so many bits, and floats of thirty-two bits of a magnitude below 2.
pub struct Eight;

pub struct Sixteen;

pub struct TwentyFour;

pub struct ThirtyTwo;

pub struct Float;

// The bits of a sample, of which a narrower one has the upper ones.
#[inline(always)]
fn mixed(index: u32) -> u32 {
    index.wrapping_mul(2_654_435_761)
}

impl Summed for i8 {
    #[inline(always)]
    fn value(self) -> i64 {
        self as i64
    }
}

impl Summed for i16 {
    #[inline(always)]
    fn value(self) -> i64 {
        self as i64
    }
}

impl Summed for i32 {
    #[inline(always)]
    fn value(self) -> i64 {
        self as i64
    }
}

impl Summed for FloatBits {
    #[inline(always)]
    fn value(self) -> i64 {
        let FloatBits(pattern) = self;
        pattern as i64
    }
}

impl Pattern for Eight {
    type Sample = i8;

    const BITS: u16 = 8;

    #[inline(always)]
    fn sample(index: u32) -> i8 {
        ((mixed(index) >> 24) as u8).cast_signed()
    }
}

impl Pattern for Sixteen {
    type Sample = i16;

    const BITS: u16 = 16;

    #[inline(always)]
    fn sample(index: u32) -> i16 {
        ((mixed(index) >> 16) as u16).cast_signed()
    }
}

impl Pattern for TwentyFour {
    type Sample = i32;

    const BITS: u16 = 24;

    #[inline(always)]
    fn sample(index: u32) -> i32 {
        mixed(index).cast_signed() >> 8
    }
}

impl Pattern for ThirtyTwo {
    type Sample = i32;

    const BITS: u16 = 32;

    #[inline(always)]
    fn sample(index: u32) -> i32 {
        mixed(index).cast_signed()
    }
}

impl Pattern for Float {
    type Sample = FloatBits;

    const BITS: u16 = 32;

    const FORMAT: SampleFormat = SampleFormat::Float;

    #[inline(always)]
    fn sample(index: u32) -> FloatBits {
        FloatBits(mixed(index) & 0xbfff_ffff)
    }
}
