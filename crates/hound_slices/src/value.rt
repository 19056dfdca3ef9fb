// The integer of one container, for a caller that reads no byte ahead, and the container of one integer.
ghost use Rattle.std.specs.Prelude.{◌≡◌, take};
ghost use Rattle.hound_number.specs.{bytes_of};
ghost use Rattle.hound_sample.specs.{int_container, int_meaning};
ghost use Rattle.hound_spec.specs.{IsPair};
ghost use Rattle.hound_spec.specs.declared.spec.SampleFormat.TheVariants.{Int};
ghost use Rattle.hound_slices.specs.Reading.{IsNumberOf, MakesContainer};

use crate::error::CallError;
use hound_number::{le_u32, u32_at};
use hound_sample::{Decode, Sample};
use hound_spec::{Error, SampleFormat};

/// The integer whose container is the low bytes of a number.
#[inline(always)]
pub fn value_of(container: u32, bits: u16, width: u16) -> i32
    requires { IsPair Int bits width }
    ensures { result ≡ int_meaning width bits (take width (bytes_of 4 container)) }
{
    let bytes = le_u32(container);
    i32::decode(&bytes[..width as usize], SampleFormat::Int, width, bits)
}

// The number of a container, whose first byte is the lowest.
#[inline(always)]
fn number_of(encoded: Result<[u8; 4], Error>) -> Result<usize, CallError>
    ensures { IsNumberOf encoded result }
{
    match encoded {
        Ok(bytes) => Ok(u32_at(&bytes, 0) as usize),
        Err(_) => Err(CallError::TooWide),
    }
}

/// The number whose low bytes are the container of an integer, and whose others are zero. So that of 24 bits in four
/// bytes is also that in three (`short`).
#[inline(always)]
pub fn container_of(value: i32, bits: u16, width: u16) -> Result<usize, CallError>
    requires { IsPair Int bits width }
    ensures is { MakesContainer (int_container value bits width) result }
    ensures short { bits ≡ 24 → width ≡ 4 → MakesContainer (int_container value 24 3) result }
{
    number_of(value.encode(bits, width))
}
