// Rows of specs, headers and errors.
ghost use Rattle.std.specs.Prelude.{◌≡◌};

use hound::{Error, SampleFormat, WavSpec, WavSpecEx};
use hound_row_helpers::row::Row;
use hound_spec::header_of;

/// `writable SPEC`
pub fn writable(row: &mut Row, spec: &str) {
    let spec_ex = row.spec(spec);
    row.line
        .word(if spec_ex.is_writable() { "yes" } else { "no" });
}

/// `header SPEC RIFF_SIZE DATA_LENGTH`
pub fn header(row: &mut Row, spec: &str, riff_size: &str, data_length: &str) {
    let spec_ex = row.spec(spec);
    let (riff_size, data_length) = (row.number(riff_size), row.number(data_length));
    if !spec_ex.is_writable() {
        return row.line.word("no");
    }
    let header = header_of(spec_ex, riff_size, data_length);
    row.line.hex(header.as_slice());
}

/// `infinite SPEC`
pub fn infinite(row: &mut Row, spec: &str) {
    let spec = row.spec(spec).spec;
    match spec.into_header_for_infinite_file(row.alloc) {
        Ok(header) => row.line.hex(header.as_slice()),
        Err(error) => row.line.error(error),
    }
}

/// `width BITS`
pub fn width(row: &mut Row, bits: &str) {
    let spec_ex = WavSpecEx::from(WavSpec {
        channels: 1,
        sample_rate: 44100,
        bits_per_sample: row.number(bits),
        sample_format: SampleFormat::Int,
    });
    row.line.shown(spec_ex.bytes_per_sample);
}

/// `text NAME`
pub fn text(row: &mut Row, name: &str) {
    let error = match name {
        "FormatError" => Error::FormatError("no RIFF tag found"),
        "TooWide" => Error::TooWide,
        "UnfinishedSample" => Error::UnfinishedSample,
        "Unsupported" => Error::Unsupported,
        "InvalidSampleFormat" => Error::InvalidSampleFormat,
        "TooLong" => Error::TooLong,
        "OutOfMemory" => Error::OutOfMemory,
        _ => return row.reject(),
    };
    row.line.shown(error);
}
