// Floating-point samples by their bits.
ghost use Rattle.std.specs.Prelude.{◌≡◌, ◌<◌, from_bits, pos, to_bits, ⊤};
ghost use lib.Ieee.{binary32};
ghost use Rattle.hound_number.specs.{number};
ghost use Rattle.hound_sample.specs.Container.{pattern_container};
ghost use Rattle.hound_sample.specs.ContainerLaws.{pattern_container-in_width};
ghost use Rattle.hound_sample.specs.Reading.{float_rejection, pattern};
ghost use Rattle.hound_spec.specs.declared.error.Error.TheVariants.{Unsupported};
ghost use Rattle.hound_spec.specs.declared.spec.SampleFormat.TheVariants.{Float};

use crate::Sample;
use crate::decode::{Decode, check_type, decode_next, read_container, read_containers};
use crate::item::{ContainerReader, SampleError};
use hound_number::{le_u32, u32_at};
use hound_spec::{Error, Result, SampleFormat};
use std::num::{f32_from_bits_with_nan, f32_to_bits_with_nan};
use std::{io, result};

/// A floating-point sample of 32 bits, by its bit pattern.
///
/// It is written with 32 bits in four bytes, and read so from samples of format `Float`. Every pattern stays as it is.
/// `FloatBits::from(number)` is the sample of a number, and `sample.to_f32()` the number of a sample; every NaN has one
/// pattern there. `==` compares patterns, so 0.0 and -0.0 differ. It can't be cast to sixteen bits: generic code can't
/// do it, and `as_i16` of the type itself returns 0.
///
/// ```
/// writer.write_sample(FloatBits::from(0.5))?;
/// writer.finalize()?;
/// let mut reader = WavReader::new(tape.bytes())?;
/// let sample = reader.samples::<FloatBits>().next().transpose()?;
/// ```
#[repr(C)]
#[derive(Clone, Copy, Debug, PartialEq, Eq)]
pub struct FloatBits(pub u32);

/// The pattern of a number.
impl From<f32> for FloatBits {
    ghost from_gives = { λ number sample. sample.0 ≡ to_bits binary32 number };

    #[inline]
    fn from(number: f32) -> FloatBits {
        FloatBits(f32_to_bits_with_nan(number))
    }
}

impl FloatBits {
    /// The number of this pattern. That of a NaN gives a NaN.
    #[inline]
    pub fn to_f32(self) -> f32
        ensures { result ≡ from_bits binary32 self.0 }
    {
        f32_from_bits_with_nan(self.0)
    }
}

impl Decode for FloatBits {
    ghost decode_rejection = { float_rejection };

    ghost value = { λ fmt bytes bits container. record { 0 = pattern container } };

    #[inline(always)]
    fn check(fmt: SampleFormat, width: u16, bits: u16) -> Result<()> {
        check_type(SampleFormat::Float, 4, fmt, width, bits)
    }

    #[inline(always)]
    fn decode(container: &[u8], fmt: SampleFormat, width: u16, bits: u16) -> FloatBits {
        FloatBits(u32_at(container, 0))
    }
}

impl Sample for FloatBits {
    ghost container = { λ sample. pattern_container sample.0 };

    ghost in_width = { λ sample. pattern_container-in_width sample.0 };

    ghost rejection = { float_rejection };

    ghost meaning = { λ format width bits container. record { 0 = pattern container } };

    ghost can_cast = { λ _. ⊥ };

    ghost cast_value = { λ _. pos 0 };

    #[inline(always)]
    fn read<R: io::Read>(
        reader: &mut R,
        fmt: SampleFormat,
        bytes: u16,
        bits: u16,
    ) -> Result<FloatBits> {
        read_container(reader, fmt, bytes, bits)
    }

    #[inline(always)]
    fn read_item<R: ContainerReader>(
        reader: &mut R,
        fmt: SampleFormat,
        width: u16,
        bits: u16,
    ) -> result::Result<FloatBits, SampleError> {
        decode_next(reader, fmt, width, bits)
    }

    #[inline(always)]
    fn read_many<R: io::Read>(
        reader: &mut R,
        samples: &mut [FloatBits],
        fmt: SampleFormat,
        width: u16,
        bits: u16,
    ) -> (usize, Result<()>) {
        read_containers(reader, samples, fmt, width, bits)
    }

    #[inline(always)]
    fn as_i16(self) -> i16
        requires { ⊤ }
        ensures { result ≡ pos 0 }
    {
        0
    }

    #[inline(always)]
    #[tactic(auto, unfolding(crate::specs::Container::pattern_container))]
    fn encode(self, bits: u16, width: u16) -> Result<[u8; 4]> {
        if bits == 32 && width == 4 {
            return Ok(le_u32(self.0));
        }
        Err(Error::Unsupported)
    }
}
