// Rows of media, and of what they did.
ghost use Rattle.std.specs.Prelude.{◌≡◌, ◌≤◌};

use hound::{Error, Journal, Medium, Source, Tape};
use hound_row_helpers::row::{Row, find, name_and_value};
use std::io;

// The most bytes that a row reads at once.
const MOST_READ: usize = 65536;

/// A journal over these bytes, by the options `most=N` and `fail=A..B`.
pub fn journal_of(row: &mut Row, bytes: Vec<u8>, options: &[&str]) -> Option<Journal> {
    let Ok(mut journal) = Journal::new(row.alloc, bytes) else {
        row.line.fail();
        return None;
    };
    set_faults(row, &mut journal, options);
    Some(journal)
}

// Lets a journal take and give few bytes a call, and fail.
fn set_faults(row: &mut Row, journal: &mut Journal, options: &[&str]) {
    if let Some(most) = find(options, "most") {
        let most = row.number(most);
        if most == 0 {
            return row.reject();
        }
        journal.most(most);
    }
    if let Some(calls) = find(options, "fail") {
        let (from, to) = row.split(calls, "..");
        journal.fail(row.number(from), row.number(to));
    }
}

// A call of a medium, and its result; false if there is none of this name.
fn call<M: Source + Medium>(row: &mut Row, medium: &mut M, name: &str, value: &str) -> bool {
    match name {
        "go" => {
            let to = row.number(value);
            row.line.io_answer(medium.go(to));
        }
        "shift" => {
            let by = row.number(value);
            row.line.io_answer(medium.shift(by));
        }
        "flush" => row.line.io_answer(medium.flush()),
        "put" => put(row, medium, value),
        "get" | "read" => get(row, medium, value, name == "read"),
        _ => return false,
    }
    true
}

fn put<M: Medium>(row: &mut Row, medium: &mut M, bytes: &str) {
    let bytes = row.bytes(bytes);
    if bytes.is_empty() {
        return row.reject();
    }
    match medium.put(bytes.as_slice()) {
        Ok(count) => row.line.shown(format_args!("put:{count}")),
        Err(fault) => row.line.error(Error::IoError(fault)),
    }
}

// By `get` or by `read`.
fn get<S: Source>(row: &mut Row, source: &mut S, size: &str, is_read: bool) {
    let size: usize = row.number(size);
    let mut bytes = [0; MOST_READ];
    if size > MOST_READ {
        return row.reject();
    }
    let answer = if is_read {
        io::Read::read(source, &mut bytes[..size])
    } else {
        source.get(&mut bytes[..size])
    };
    match answer {
        Ok(0) => row.line.word("got:-"),
        Ok(count) => {
            row.line.word("got:");
            row.line.put_hex(bytes.get(..count).unwrap_or(&[]));
        }
        Err(fault) => row.line.error(Error::IoError(fault)),
    }
}

/// `tape BYTES CALL..`; after the word `lent` calls go to a `&mut` of the tape.
pub fn tape(row: &mut Row, bytes: &str, calls: &[&str]) {
    let mut tape = Tape::new(row.bytes(bytes));
    let is_lent = calls.first() == Some(&"lent");
    for word in calls {
        let (name, value) = name_and_value(word);
        let is_call = if is_lent {
            call(row, &mut &mut tape, name, value)
        } else {
            call(row, &mut tape, name, value)
        };
        if !is_call && name != "lent" {
            row.reject();
        }
    }
    row.line.word(":");
    row.line.contents(Tape::bytes(&tape));
}

/// `journal BYTES CALL..`, likewise.
pub fn journal(row: &mut Row, bytes: &str, calls: &[&str]) {
    let bytes = row.bytes(bytes);
    let Some(mut journal) = journal_of(row, bytes, &[]) else {
        return;
    };
    let is_lent = calls.first() == Some(&"lent");
    for word in calls {
        let (name, value) = name_and_value(word);
        let is_call = if is_lent {
            call(row, &mut &mut journal, name, value)
        } else {
            call(row, &mut journal, name, value)
        };
        if !is_call {
            call_journal(row, &mut journal, word);
        }
    }
    row.line.word(":");
    show_contents(row, &journal, journal.taken());
    show_counts(row, &journal);
}

// A call that only a journal has.
fn call_journal(row: &mut Row, journal: &mut Journal, word: &str) {
    let (name, value) = name_and_value(word);
    match name {
        "most" | "fail" => set_faults(row, journal, &[word]),
        "after" => {
            let k = row.number(value);
            show_contents(row, journal, k);
        }
        "counts" => {
            let (taken, flushed) = (journal.taken(), journal.flushed());
            row.line.shown(format_args!("{taken}/{flushed}"));
        }
        "lent" => {}
        _ => row.reject(),
    }
}

/// How many bytes a journal took, and took before its last flush.
pub fn show_counts(row: &mut Row, journal: &Journal) {
    row.line.count("taken", journal.taken());
    row.line.count("flushed", journal.flushed());
}

/// What a journal held after this many bytes.
pub fn show_contents(row: &mut Row, journal: &Journal, k: usize) {
    match bytes_after(row, journal, k) {
        Some(bytes) => row.line.contents(bytes.as_slice()),
        None => row.line.word("past"),
    }
}

/// The bytes of a journal after this many were written, if there were as many.
pub fn bytes_after(row: &mut Row, journal: &Journal, k: usize) -> Option<Vec<u8>> {
    if k > journal.taken() {
        return None;
    }
    let bytes = journal.bytes_after(row.alloc, k);
    if bytes.is_err() {
        row.line.fail();
    }
    bytes.ok()
}
