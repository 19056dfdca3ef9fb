// What a file is after each byte written.
use crate::media::bytes_after;
use crate::readers::{Sum, left};
use crate::repairs::repaired;
use hound::{Error, FloatBits, Journal, SampleFormat, Tape, WavReader};
use hound_row_helpers::line::Line;
use hound_row_helpers::row::Row;

/// Shows what the file is after each byte from this one on, as it is or once it is repaired, if
/// that differs from what it was before.
pub fn show_moments(row: &mut Row, journal: &Journal, from: usize, is_repaired: bool) {
    let mut before = Line::new(row.alloc);
    for k in from..journal.taken().saturating_add(1) {
        let Some(bytes) = bytes_after(row, journal, k) else {
            return;
        };
        let mut moment = Line::new(row.alloc);
        put_moment(
            &mut moment,
            if is_repaired { repaired(bytes) } else { bytes },
        );
        if moment.bytes() != before.bytes() {
            row.line.shown(k);
            row.line.put("=");
            row.line.put_bytes(moment.bytes());
        }
        before = moment;
    }
}

// What a file of these bytes is: `FIELD/COUNT/SUM`, `FIELD/ERR` or `ERR`.
fn put_moment(line: &mut Line, bytes: Vec<u8>) {
    let mut file = Tape::new(bytes);
    let rejection = WavReader::new(&mut file).err();
    let left = left(&mut file);
    let bytes = Tape::bytes(&file);
    match rejection {
        None => {
            put_field(line, bytes, left);
            put_sum(line, bytes);
        }
        Some(error) => {
            if is_of_length(&error) {
                put_field(line, bytes, left);
            }
            line.put_error(error);
        }
    }
}

// Whether a file is rejected for its data length.
fn is_of_length(error: &Error) -> bool {
    matches!(
        error,
        Error::FormatError(
            "data chunk length is not a multiple of sample size" | "invalid data chunk length"
        )
    )
}

// The data length in the field before the data, if this many bytes are left from the field on.
fn put_field(line: &mut Line, bytes: &[u8], left: u64) {
    let start = bytes.len().saturating_sub(left as usize);
    if let Some([a, b, c, d]) = bytes.get(start.saturating_sub(4)..start) {
        line.put_shown(u32::from_le_bytes([*a, *b, *c, *d]));
    }
    line.put("/");
}

// How many samples are read, and their sum.
fn put_sum(line: &mut Line, bytes: &[u8]) {
    let Ok(mut reader) = WavReader::new(bytes) else {
        return;
    };
    let sum = match reader.spec().sample_format {
        SampleFormat::Int => Sum::of::<i32>(&mut reader),
        SampleFormat::Float => Sum::of::<FloatBits>(&mut reader),
    };
    sum.put(line, "/");
}
