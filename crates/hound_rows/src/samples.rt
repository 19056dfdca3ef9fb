// Rows of single samples.
use crate::values::{Value, show, value_of};
use hound::{FloatBits, Sample, SampleFormat};
use hound_callers::Twelve;
use hound_row_helpers::row::Row;
use hound_row_helpers::sink::Sink;

/// A row of a sample of a type, by its name and the words after the type.
pub fn answer<T: Value>(row: &mut Row, name: &str, words: &[&str]) {
    match (name, words) {
        ("encode", [value, bits, width]) => encode::<T>(row, value, bits, width),
        ("write", [value, bits, options @ ..]) => write::<T>(row, value, bits, options),
        ("write_padded", [value, bits, width, options @ ..]) => {
            write_padded::<T>(row, value, bits, width, options);
        }
        ("decode", [format, width, bits, bytes]) => decode::<T>(row, format, width, bits, bytes),
        _ => row.reject(),
    }
}

// `encode TYPE VALUE BITS WIDTH`
fn encode<T: Value>(row: &mut Row, value: &str, bits: &str, width: &str) {
    let value: T = value_of(row, value);
    let (bits, width) = (row.number(bits), row.number(width));
    match value.encode(bits, width) {
        Ok(bytes) => row.line.hex(&bytes),
        Err(error) => row.line.error(error),
    }
}

// `write TYPE VALUE BITS SINK`
fn write<T: Value>(row: &mut Row, value: &str, bits: &str, options: &[&str]) {
    let value: T = value_of(row, value);
    let bits = row.number(bits);
    let mut sink = Sink::of(row, options);
    row.line.answer(value.write(&mut sink, bits));
    row.line.contents(&sink.taken);
}

// `write_padded TYPE VALUE BITS WIDTH SINK`
fn write_padded<T: Value>(row: &mut Row, value: &str, bits: &str, width: &str, options: &[&str]) {
    let value: T = value_of(row, value);
    let (bits, width) = (row.number(bits), row.number(width));
    let mut sink = Sink::of(row, options);
    row.line.answer(value.write_padded(&mut sink, bits, width));
    row.line.contents(&sink.taken);
}

// `decode TYPE FORMAT WIDTH BITS BYTES`
fn decode<T: Value>(row: &mut Row, format: &str, width: &str, bits: &str, bytes: &str) {
    let format = match format {
        "int" => SampleFormat::Int,
        "float" => SampleFormat::Float,
        _ => return row.reject(),
    };
    let (width, bits) = (row.number(width), row.number(bits));
    let bytes = row.bytes(bytes);
    let mut rest = bytes.as_slice();
    let item = <T as Sample>::read(&mut rest, format, width, bits);
    show(&mut row.line, item);
    row.line.count("left", rest.len());
}

/// `short TYPE VALUE`; not generic, since the cast needs more of a type that isn't known.
pub fn short(row: &mut Row, kind: &str, value: &str) {
    let short = match kind {
        "i8" => value_of::<i8>(row, value).as_i16(),
        "i16" => value_of::<i16>(row, value).as_i16(),
        "i32" => value_of::<i32>(row, value).as_i16(),
        "f" => value_of::<FloatBits>(row, value).as_i16(),
        "own" => value_of::<Twelve>(row, value).as_i16(),
        _ => return row.reject(),
    };
    row.line.shown(short);
}
