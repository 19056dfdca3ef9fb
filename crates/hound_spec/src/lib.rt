//! Specs, errors, and the header bytes of a writable spec.
#![tactic(auto)]

mod allocation;
mod error;
mod header;
mod spec;

pub use error::{Error, Result};
pub use header::{
    EXTENSION_LENGTH, Header, KSDATAFORMAT_SUBTYPE_IEEE_FLOAT, KSDATAFORMAT_SUBTYPE_PCM,
    PCMWAVEFORMAT_LENGTH, WAVE_FORMAT_EXTENSIBLE, WAVE_FORMAT_IEEE_FLOAT, WAVE_FORMAT_PCM,
    WAVEFORMATEX_LENGTH, WAVEFORMATEXTENSIBLE_LENGTH, header_length, header_of, riff_size,
    riff_size_fits,
};
pub use spec::{SampleFormat, WavSpec, WavSpecEx, is_pair};
