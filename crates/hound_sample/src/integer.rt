// The containers of integers.
ghost use Rattle.std.specs.Prelude.{◌≡◌, ◌<◌, ◌++◌, ◌∷◌, [], ℤ, Ok, Err};
ghost use Rattle.hound_number.specs.{signed_bytes_of};
ghost use Rattle.hound_sample.specs.Container.{if_fits, offset_byte, int_container, IsEncoded};
ghost use Rattle.hound_sample.specs.Reading.{int_meaning, int_rejection, low_i16};
ghost use Rattle.hound_spec.specs.declared.error.Error.TheVariants.{TooWide, Unsupported};
ghost use Rattle.hound_spec.specs.declared.spec.SampleFormat.TheVariants.{Int};

use crate::decode::{Decode, check_type};
use hound_number::{
    i16_from_le, i24_from_le, i32_from_le, le_i16, le_i32, signed_from_u8, u8_from_signed,
};
use hound_spec::{Error, Result, SampleFormat};

// One unsigned byte, which counts from -128.
#[inline(always)]
fn encode_8_bits(x: i32) -> Result<[u8; 4]>
    ensures { IsEncoded (if_fits 8 x (offset_byte x)) result }
{
    let narrow = match i8::try_from(x) {
        Ok(narrow) => narrow,
        Err(_) => return Err(Error::TooWide),
    };
    Ok([u8_from_signed(narrow), 0, 0, 0])
}

#[inline(always)]
fn encode_16_bits(x: i32) -> Result<[u8; 4]>
    ensures { IsEncoded (if_fits 16 x (signed_bytes_of 2 x)) result }
{
    let narrow = match i16::try_from(x) {
        Ok(narrow) => narrow,
        Err(_) => return Err(Error::TooWide),
    };
    let [low, high] = le_i16(narrow);
    Ok([low, high, 0, 0])
}

// Three bytes; a fourth, where the container has one, is zero.
#[inline(always)]
fn encode_24_bits(x: i32) -> Result<[u8; 4]>
    ensures three { IsEncoded (if_fits 24 x (signed_bytes_of 3 x)) result }
    ensures four { IsEncoded (if_fits 24 x (signed_bytes_of 3 x ++ 0 ∷ [])) result }
{
    if x < -8_388_608 || x > 8_388_607 {
        return Err(Error::TooWide);
    }
    let [low, middle, high, _] = le_i32(x);
    Ok([low, middle, high, 0])
}

/// The container of an integer in the first `width` bytes, and zeros after it.
#[inline(always)]
#[tactic(auto, unfolding(crate::specs::Container::int_container))]
pub(crate) fn encode_integer(x: i32, bits: u16, width: u16) -> Result<[u8; 4]>
    ensures { IsEncoded (int_container x bits width) result }
{
    if bits == 16 && width == 2 {
        return encode_16_bits(x);
    }
    if bits == 24 && (width == 3 || width == 4) {
        return encode_24_bits(x);
    }
    if bits == 32 && width == 4 {
        return Ok(le_i32(x));
    }
    if bits == 8 && width == 1 {
        return encode_8_bits(x);
    }
    Err(Error::Unsupported)
}

/// The lowest sixteen bits, as a signed number.
#[inline(always)]
pub(crate) fn lowest_16_bits(x: i32) -> i16
    ensures { result ≡ low_i16 x }
{
    let [low, high, _, _] = le_i32(x);
    i16_from_le([low, high])
}

impl Decode for i8 {
    ghost decode_rejection = { int_rejection 1 };

    ghost value = { λ fmt. int_meaning };

    #[inline(always)]
    fn check(fmt: SampleFormat, width: u16, bits: u16) -> Result<()> {
        check_type(SampleFormat::Int, 1, fmt, width, bits)
    }

    #[inline(always)]
    fn decode(container: &[u8], fmt: SampleFormat, width: u16, bits: u16) -> i8 {
        signed_from_u8(container[0])
    }
}

impl Decode for i16 {
    ghost decode_rejection = { int_rejection 2 };

    ghost value = { λ fmt. int_meaning };

    #[inline(always)]
    fn check(fmt: SampleFormat, width: u16, bits: u16) -> Result<()> {
        check_type(SampleFormat::Int, 2, fmt, width, bits)
    }

    #[inline(always)]
    fn decode(container: &[u8], fmt: SampleFormat, width: u16, bits: u16) -> i16 {
        if width == 2 {
            return i16_from_le([container[0], container[1]]);
        }
        signed_from_u8(container[0]) as i16
    }
}

impl Decode for i32 {
    ghost decode_rejection = { int_rejection 4 };

    ghost value = { λ fmt. int_meaning };

    #[inline(always)]
    fn check(fmt: SampleFormat, width: u16, bits: u16) -> Result<()> {
        check_type(SampleFormat::Int, 4, fmt, width, bits)
    }

    #[inline(always)]
    fn decode(container: &[u8], fmt: SampleFormat, width: u16, bits: u16) -> i32 {
        match bits {
            16 => i16_from_le([container[0], container[1]]) as i32,
            24 => i24_from_le([container[0], container[1], container[2]]),
            8 => signed_from_u8(container[0]) as i32,
            _ => i32_from_le([container[0], container[1], container[2], container[3]]),
        }
    }
}

/// A type of integers, which an `i32` has room for.
pub(crate) trait Integer: Decode {
    /// The number.
    ghost number: { Self → ℤ };

    fn to_i32(self) -> i32
        ensures { result ≡ number self };
}

impl Integer for i8 {
    ghost number = { λ v. v };

    #[inline(always)]
    fn to_i32(self) -> i32 {
        self as i32
    }
}

impl Integer for i16 {
    ghost number = { λ v. v };

    #[inline(always)]
    fn to_i32(self) -> i32 {
        self as i32
    }
}

impl Integer for i32 {
    ghost number = { λ v. v };

    #[inline(always)]
    fn to_i32(self) -> i32 {
        self
    }
}
