// A sample type of a user's own.
ghost use Rattle.std.specs.Prelude.{◌≡◌, ⊤};
ghost use Rattle.hound_callers.specs.Twelve.{low_twelve, twelve_container, twelve_container-in_width, twelve_meaning, twelve_rejection};

use hound::{Error, Result, Sample, SampleFormat};
use std::io;

/// A sample of twelve bits, from -2048 to 2047, which is written with 16 bits in two bytes.
#[derive(Clone, Copy, Debug, PartialEq, Eq)]
pub struct Twelve(pub i16);

// The lowest twelve bits, as a signed number.
fn low_twelve(value: i16) -> i16
    ensures { result ≡ low_twelve value }
{
    let low = value.cast_unsigned() % 4096;
    if low < 2048 {
        low as i16
    } else {
        (low as i32 - 4096) as i16
    }
}

impl Sample for Twelve {
    ghost container = { λ t. twelve_container t.0 };

    ghost in_width = { λ t. twelve_container-in_width t.0 };

    ghost rejection = { twelve_rejection };

    ghost meaning = { λ format width bits container. record { 0 = twelve_meaning container } };

    ghost can_cast = { λ _. ⊤ };

    ghost cast_value = { λ t. t.0 };

    fn read<R: io::Read>(
        reader: &mut R,
        fmt: SampleFormat,
        bytes: u16,
        bits: u16,
    ) -> Result<Twelve> {
        match fmt {
            SampleFormat::Float => Err(Error::InvalidSampleFormat),
            SampleFormat::Int => {
                if bytes > 2 {
                    return Err(Error::TooWide);
                }
                if bytes != 2 || bits != 16 {
                    return Err(Error::Unsupported);
                }
                let value = i16::read(reader, fmt, bytes, bits)?;
                Ok(Twelve(low_twelve(value)))
            }
        }
    }

    fn as_i16(self) -> i16 {
        self.0
    }

    fn encode(self, bits: u16, width: u16) -> Result<[u8; 4]> {
        if bits != 16 || width != 2 {
            return Err(Error::Unsupported);
        }
        if self.0 < -2048 || self.0 > 2047 {
            return Err(Error::TooWide);
        }
        let [low, high] = self.0.to_le_bytes();
        Ok([low, high, 0, 0])
    }
}
