// The containers of many samples, one after the other: checked, stored and decoded at once.
//
// Each loop is written once and called for each pair of bits and bytes (`by_pair`).
ghost use Rattle.std.specs.Prelude.{◌≡◌, ◌+◌, ◌*◌, ◌≤◌, ◌++◌, None, IsOk, is_ok, length, map, take};
ghost use Rattle.hound_sample.specs.Reading.{first_reason};
ghost use Rattle.hound_sample.specs.Container.{containers, all_containers, joined_containers};

use crate::Sample;
use crate::decode::{Decode, decode_each};
use crate::item::{SampleError, reason_of};
use hound_spec::SampleFormat;

// Whether all samples have containers. It looks at each of them, whatever came before.
#[inline(always)]
fn all_have<S: Sample + Copy>(samples: &[S], bits: u16, width: u16) -> bool
    ensures { result ≡ is_ok (all_containers (λ s. S.container s bits width) samples.now) }
{
    let mut all = true;
    for sample in samples {
        all &= sample.encode(bits, width).is_ok();
    }
    all
}

/// Whether all samples have containers with these used bits and bytes.
#[inline(always)]
pub fn have_containers<S: Sample + Copy>(samples: &[S], bits: u16, width: u16) -> bool
    ensures { result ≡ is_ok (all_containers (λ s. S.container s bits width) samples.now) }
{
    by_pair!(bits, width, all_have(samples), or any)
}

/// Why the first sample that has no container has none, if there is one.
#[cold]
#[inline(never)]
pub fn check_containers<S: Sample + Copy>(
    samples: &[S],
    bits: u16,
    width: u16,
) -> Result<(), SampleError>
    ensures { result ≡ first_reason (all_containers (λ s. S.container s bits width) samples.now) }
{
    for sample in samples {
        if let Err(error) = sample.encode(bits, width) {
            return Err(reason_of(error));
        }
    }
    Ok(())
}

/// Stores a container of this many bytes.
#[inline(always)]
pub(crate) fn store_container(bytes: &mut [u8], at: usize, container: [u8; 4], width: usize)
    requires width { width ≤ 4 }
    requires room { at + width ≤ length bytes.old }
    ensures stored { take (at + width) bytes.new ≡ take at bytes.old ++ take width container }
    ensures size { length bytes.new ≡ length bytes.old }
{
    let [a, b, c, d] = container;
    if width == 0 {
        return;
    }
    bytes[at] = a;
    if width == 1 {
        return;
    }
    bytes[at + 1] = b;
    if width == 2 {
        return;
    }
    bytes[at + 2] = c;
    if width == 3 {
        return;
    }
    bytes[at + 3] = d;
}

// Stores the containers of samples one after the other.
#[inline(always)]
fn store_each<S: Sample + Copy>(bytes: &mut [u8], samples: &[S], bits: u16, width: u16)
    requires have { IsOk (all_containers (λ s. S.container s bits width) samples.now) }
    requires width { width ≤ 4 }
    requires room { length bytes.old ≡ width * length samples.now }
    ensures { bytes.new ≡ joined_containers (λ s. S.container s bits width) samples.now }
{
    let mut end = 0;
    for sample in samples {
        let container = match sample.encode(bits, width) {
            Ok(container) => container,
            Err(_) => [0; 4],
        };
        store_container(bytes, end, container, width as usize);
        end += width as usize;
    }
}

/// Stores the containers of samples, each of which has one, into bytes of their length.
#[inline(always)]
pub fn store_containers<S: Sample + Copy>(bytes: &mut [u8], samples: &[S], bits: u16, width: u16)
    requires have { IsOk (all_containers (λ s. S.container s bits width) samples.now) }
    requires width { width ≤ 4 }
    requires room { length bytes.old ≡ width * length samples.now }
    ensures { bytes.new ≡ joined_containers (λ s. S.container s bits width) samples.now }
{
    by_pair!(bits, width, store_each(bytes, samples), or any)
}

/// Decodes containers, as many as the samples, into these.
pub fn decode_containers<S: Decode>(
    from: &[u8],
    samples: &mut [S],
    fmt: SampleFormat,
    width: u16,
    bits: u16,
)
    requires decodes { S.decode_rejection fmt width bits ≡ None }
    requires whole { length from.now ≡ length samples.old * width }
    ensures { samples.new ≡ map (S.value fmt width bits) (containers width (length samples.old) from.now) }
{
    by_pair!(bits, width, decode_each(from, samples, fmt), or any)
}
