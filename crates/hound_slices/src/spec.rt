// The structs that C has; hound.h says what their fields are.
ghost use Rattle.std.specs.Prelude.{◌≡◌, ◌<◌};
ghost use Rattle.hound_slices.specs.Writing.{IsExplicit, spec_from_c};

use crate::effect::HoundEffect;
use hound_spec::{SampleFormat, WavSpec, WavSpecEx};
use hound_walk::FileHead;

/// A spec.
#[repr(C)]
#[derive(Clone, Copy)]
pub struct HoundSpec {
    pub sample_rate: u32,
    pub channels: u16,
    pub bits_per_sample: u16,
    pub bytes_per_sample: u16,
    pub sample_format: u16,
}

/// What is before the data of a file.
#[repr(C)]
#[derive(Clone, Copy)]
pub struct HoundInfo {
    pub spec: HoundSpec,
    pub samples: u32,
    pub data_start: u64,
}

/// A walk to the data.
#[repr(C)]
#[derive(Clone, Copy)]
pub struct HoundWalk {
    pub effect: HoundEffect,
    pub spec: HoundSpec,
    pub taken: u32,
    pub part: u32,
    pub fmt_length: u32,
}

/// What a repair found.
#[repr(C)]
#[derive(Clone, Copy)]
pub struct HoundRepair {
    pub spec: HoundSpec,
    pub frames: u32,
    pub left_over: u32,
    pub state: u32,
    pub data_start: u64,
    pub length: u64,
    pub data_length: u32,
    pub counted: u32,
}

/// The spec that C's is. Where its format is no number of one, it has no bits: no samples of it are read or written.
pub fn spec_from_c(spec: HoundSpec) -> WavSpecEx
    ensures { result ≡ spec_from_c spec }
{
    let sample_format = if spec.sample_format == 0 {
        SampleFormat::Int
    } else {
        SampleFormat::Float
    };
    let bits_per_sample = if spec.sample_format > 1 {
        0
    } else {
        spec.bits_per_sample
    };
    let bytes_per_sample = if spec.bytes_per_sample == 0 {
        spec.bits_per_sample.div_ceil(8)
    } else {
        spec.bytes_per_sample
    };
    WavSpecEx {
        spec: WavSpec {
            channels: spec.channels,
            sample_rate: spec.sample_rate,
            bits_per_sample,
            sample_format,
        },
        bytes_per_sample,
    }
}

/// A spec that was found, for C.
pub(crate) fn spec_for_c(spec_ex: WavSpecEx) -> HoundSpec
    requires { 0 < spec_ex.bytes_per_sample }
    ensures same { spec_from_c result ≡ spec_ex }
    ensures explicit { IsExplicit result }
{
    let spec = spec_ex.spec;
    HoundSpec {
        sample_rate: spec.sample_rate,
        channels: spec.channels,
        bits_per_sample: spec.bits_per_sample,
        bytes_per_sample: spec_ex.bytes_per_sample,
        sample_format: (spec.sample_format == SampleFormat::Float) as u16,
    }
}

/// What is before the data, for C.
pub fn info_for_c(head: FileHead, samples: u32) -> HoundInfo
    requires { 0 < head.spec_ex.bytes_per_sample }
    ensures spec { spec_from_c result.spec ≡ head.spec_ex }
    ensures explicit { IsExplicit result.spec }
    ensures samples { result.samples ≡ samples }
    ensures start { result.data_start ≡ head.data_start }
{
    HoundInfo {
        spec: spec_for_c(head.spec_ex),
        samples,
        data_start: head.data_start,
    }
}
