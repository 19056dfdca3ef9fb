// Blocks: many samples that are read by one call.
use crate::readers::Sum;
use crate::values::{Value, at_type, put_value, value_of_number};
use hound::WavReader;
use hound_row_helpers::line::Line;
use hound_row_helpers::row::Row;
use std::io;

// For a longer slice only a sum is shown.
const MOST_SHOWN: usize = 8;

/// `TYPE=N`, `TYPE=N*M` or `TYPE=N#`
pub fn read_blocks(row: &mut Row, reader: &mut WavReader<impl io::Read + Drop>, ask: &str) {
    let (kind, extent) = row.split(ask, "=");
    at_type!(kind, read_as(row, reader, extent), else row.reject());
}

fn read_as<T: Value>(row: &mut Row, reader: &mut WavReader<impl io::Read + Drop>, extent: &str) {
    if let Some(length) = extent.strip_suffix("#") {
        let mut samples = unread::<T>(row, length);
        row.line.word("#");
        return Sum::of_blocks(reader, &mut samples).put(&mut row.line, ":");
    }
    let (length, count) = extent.split_once("*").unwrap_or((extent, "1"));
    for _ in 0..row.number::<u32>(count) {
        let mut samples = unread::<T>(row, length);
        read_block(&mut row.line, reader, &mut samples);
    }
}

// This many places, none of them read yet: each holds 85.
fn unread<T: Value>(row: &mut Row, length: &str) -> Vec<T> {
    let mut samples = Vec::new(row.alloc);
    let length = row.number(length);
    if samples.resize(length, value_of_number(85)).is_err() {
        row.line.fail();
    }
    samples
}

// How many samples a block read, why no more, what the slice then has, and how many are left.
fn read_block<T: Value>(
    line: &mut Line,
    reader: &mut WavReader<impl io::Read + Drop>,
    samples: &mut [T],
) {
    let (count, result) = reader.read_samples(samples);
    line.shown(count);
    if let Err(error) = result {
        line.put(":");
        line.put_error(error);
    }
    line.put(":");
    put_samples(line, samples);
    line.put(":");
    line.put_shown(reader.samples::<T>().len());
}

// Few samples each, more of them as a sum.
fn put_samples<T: Value>(line: &mut Line, samples: &[T]) {
    if samples.len() > MOST_SHOWN {
        line.put("#");
        let mut sum = Sum::none();
        sum.add_first(samples, samples.len());
        return line.put_shown(sum.sum);
    }
    if samples.is_empty() {
        line.put("-");
    }
    for (index, sample) in samples.iter().enumerate() {
        if index > 0 {
            line.put(",");
        }
        put_value(line, *sample);
    }
}
