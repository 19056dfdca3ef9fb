// Rows of readers of files.
ghost use Rattle.std.specs.Prelude.{◌≡◌, ◌≤◌};

use crate::blocks::read_blocks;
use crate::media::journal_of;
use crate::values::{Value, at_type, show};
use hound::{Error, Source, Tape, WavReader, read_wave_header};
use hound_row_helpers::feed::Feed;
use hound_row_helpers::line::Line;
use hound_row_helpers::row::{Row, find};
use std::io;

/// `riff BYTES OPTION..`
pub fn riff(row: &mut Row, bytes: &str, options: &[&str]) {
    let mut feed = Feed::of(row, bytes, options);
    match read_wave_header(&mut feed) {
        Ok(size) => row.line.shown(size),
        Err(error) => row.line.error(error),
    }
    row.line.count("took", feed.taken);
}

/// `read BYTES OPTION.. : ASK..`
pub fn read(row: &mut Row, bytes: &str, options: &[&str], asks: &[&str]) {
    match find(options, "over") {
        None => {
            let mut feed = Feed::of(row, bytes, options);
            ask_all(row, &mut feed, asks);
            row.line.word(":");
            row.line.count("took", feed.taken);
        }
        Some("tape") => {
            let mut tape = Tape::new(row.bytes(bytes));
            ask_all(row, &mut tape, asks);
            show_left(row, &mut tape);
        }
        _ => {
            row.allow(options, &["over", "most", "fail"]);
            let bytes = row.bytes(bytes);
            if let Some(mut journal) = journal_of(row, bytes, options) {
                ask_all(row, &mut journal, asks);
                journal.fail(1, 0);
                journal.most(usize::MAX);
                show_left(row, &mut journal);
            }
        }
    }
}

// How far a source was read, by what is left, if there was a reader.
fn show_left<S: Source>(row: &mut Row, source: &mut S) {
    if row.has_begun {
        row.line.word(":");
        row.line.count("left", left(source));
    }
}

/// How many bytes a source has from where it is.
pub fn left<S: Source>(source: &mut S) -> u64 {
    let mut left = 0u64;
    let mut bytes = [0; 4096];
    for _ in 0..u64::MAX {
        match source.get(&mut bytes) {
            Ok(0) | Err(_) => break,
            Ok(count) => left = left.saturating_add(count as u64),
        }
    }
    left
}

// Makes a reader and reads from it.
fn ask_all<S: Source>(row: &mut Row, source: &mut S, asks: &[&str]) {
    let mut reader = match WavReader::new(&mut *source) {
        Ok(reader) => reader,
        Err(error) => return row.line.error(error),
    };
    row.has_begun = true;
    row.show_spec(reader.spec());
    row.line.count("len", reader.len());
    row.line.count("duration", reader.duration());
    row.line.word(":");
    for ask in asks {
        if let Some(ask) = ask.strip_prefix("into:") {
            return ask_into(row, reader, ask);
        }
        ask_one(row, &mut reader, ask);
    }
}

// `seek=TIME`, `block:TYPE=..`, `hint=TYPE`, `TYPE#`, `TYPE*`, `TYPE*N` or `TYPE`
fn ask_one<S: Source>(row: &mut Row, reader: &mut WavReader<&mut S>, ask: &str) {
    if let Some(time) = ask.strip_prefix("seek=") {
        let time = row.number(time);
        return row.line.io_answer(reader.seek(time));
    }
    if let Some(ask) = ask.strip_prefix("block:") {
        return read_blocks(row, reader, ask);
    }
    let (kind, shown) = match (ask.strip_prefix("hint="), ask.strip_suffix("#")) {
        (Some(kind), _) => (kind, Shown::Hint),
        (None, Some(kind)) => (kind, Shown::Sum),
        (None, None) => match ask.split_once("*") {
            Some((kind, count)) => (kind, Shown::Items(count)),
            None => (ask, Shown::Items("1")),
        },
    };
    at_type!(kind, show_all(row, reader, shown), else row.reject());
}

// What is shown of the samples of a type.
#[derive(Clone, Copy)]
enum Shown<'a> {
    Hint,
    Sum,
    // This many, or without a number all of them.
    Items(&'a str),
}

fn show_all<T: Value>(
    row: &mut Row,
    reader: &mut WavReader<impl io::Read + Drop>,
    shown: Shown<'_>,
) {
    match shown {
        Shown::Hint => show_hint::<T>(&mut row.line, reader),
        Shown::Sum => show_sum::<T>(&mut row.line, reader),
        Shown::Items("") => show_items::<T>(&mut row.line, reader, u64::MAX, true),
        Shown::Items(count) => {
            let count = row.number(count);
            show_items::<T>(&mut row.line, reader, count, false);
        }
    }
}

// This many items, or all up to the first None.
fn show_items<T: Value>(
    line: &mut Line,
    reader: &mut WavReader<impl io::Read + Drop>,
    count: u64,
    is_to_end: bool,
) {
    let mut samples = reader.samples::<T>();
    for _ in 0..count {
        match samples.next() {
            Some(item) => show(line, item),
            None => {
                line.word("None");
                if is_to_end {
                    break;
                }
            }
        }
    }
}

// How many samples there are, up to the first error, and a sum of them.
fn show_sum<T: Value>(line: &mut Line, reader: &mut WavReader<impl io::Read + Drop>) {
    line.word("#");
    Sum::of::<T>(reader).put(line, ":");
}

// How many samples the iterator has by its hint.
fn show_hint<T: Value>(line: &mut Line, reader: &mut WavReader<impl io::Read + Drop>) {
    let samples = reader.samples::<T>();
    let (low, high) = samples.size_hint();
    let (high, length) = (high.unwrap_or(usize::MAX), samples.len());
    line.shown(format_args!("{low}..{high}/{length}"));
}

// `TYPE*` by an iterator that owns the reader.
fn ask_into(row: &mut Row, reader: WavReader<impl io::Read + Drop>, ask: &str) {
    match ask.split_once("*") {
        Some((kind, "")) => at_type!(kind, take_into(row, reader), else row.reject()),
        _ => row.reject(),
    }
}

fn take_into<T: Value>(row: &mut Row, reader: WavReader<impl io::Read + Drop>) {
    for item in reader.into_samples::<T>() {
        show(&mut row.line, item);
    }
    row.line.word("None");
}

/// How many samples came, a sum in which each counts by its place, and the error that ended them.
#[derive(Drop)]
pub struct Sum {
    count: u64,
    pub sum: i64,
    error: Option<Error>,
}

impl Sum {
    /// Of no samples.
    pub fn none() -> Sum {
        Sum {
            count: 0,
            sum: 0,
            error: None,
        }
    }

    /// For the samples that a reader has left.
    pub fn of<T: Value>(reader: &mut WavReader<impl io::Read + Drop>) -> Sum {
        let mut sum = Sum::none();
        for item in reader.samples::<T>() {
            match item {
                Ok(value) => sum.add(value.number()),
                Err(error) => {
                    sum.error = Some(error);
                    break;
                }
            }
        }
        sum
    }

    /// For the samples that a reader has left, by blocks of as many as this slice has.
    pub fn of_blocks<T: Value>(
        reader: &mut WavReader<impl io::Read + Drop>,
        samples: &mut [T],
    ) -> Sum {
        let mut sum = Sum::none();
        for _ in 0..u64::MAX {
            let (count, result) = reader.read_samples(samples);
            sum.add_first(samples, count);
            sum.error = result.err();
            if count == 0 || sum.error.is_some() {
                break;
            }
        }
        sum
    }

    /// Adds this many samples from the front of a slice.
    pub fn add_first<T: Value>(&mut self, samples: &[T], count: usize) {
        for sample in samples.iter().take(count) {
            self.add(sample.number());
        }
    }

    fn add(&mut self, number: i64) {
        self.count = self.count.wrapping_add(1);
        let place = self.count.cast_signed();
        self.sum = self.sum.wrapping_add(place.wrapping_mul(number));
    }

    /// Adds it to the last word, with this between its parts.
    pub fn put(self, line: &mut Line, between: &str) {
        let Sum { count, sum, error } = self;
        line.put_shown(count);
        line.put(between);
        line.put_shown(sum);
        if let Some(error) = error {
            line.put(between);
            line.put_error(error);
        }
    }
}
