//! Reads rows from standard input, runs each with the library, and writes its result as a line.
//! An empty line, and one that begins with `#`, is written as it is.
#![tactic(auto)]

mod blocks;
mod kept;
mod media;
mod moments;
mod numbers;
mod readers;
mod repairs;
mod samples;
mod scales;
mod sessions;
mod specs;
mod tool;
mod values;
mod writers;

use hound_row_helpers::row::{Row, find, parts};
use hound_row_helpers::sweep::Sweep;
use std::io;
use std::io::{BufWriter, ErrorKind, Write};
use std::process::ExitCode;
use values::at_type;

// Runs a row: its first word names the kind. README.md has them all.
fn answer(row: &mut Row, name: &str, words: &[&str]) {
    let (before, after) = parts(words);
    match (name, before) {
        ("read", [bytes, options @ ..]) => readers::read(row, bytes, options, after),
        ("write", ["i8" | "i16" | "i32" | "f" | "own", ..]) => answer_sample(row, name, words),
        ("write", [how, spec, options @ ..]) => writers::write(row, how, spec, options, after),
        ("session" | "sweep", [spec, options @ ..]) => {
            sessions::session(row, spec, options, after);
        }
        ("sessions", [spec, options @ ..]) => sessions::sessions(row, spec, options, after),
        ("tool", words) => tool::tool(row, words, after),
        _ => answer_bytes(row, name, words),
    }
}

// Runs a row over bytes.
fn answer_bytes(row: &mut Row, name: &str, words: &[&str]) {
    match (name, words) {
        ("let", [name, bytes]) => row.define(name, bytes),
        ("riff", [bytes, options @ ..]) => readers::riff(row, bytes, options),
        ("tape", [bytes, calls @ ..]) => media::tape(row, bytes, calls),
        ("journal", [bytes, calls @ ..]) => media::journal(row, bytes, calls),
        ("repair", [how, bytes, options @ ..]) => repairs::answer(row, how, bytes, options),
        ("from", [kind, hex]) => numbers::from(row, kind, hex),
        ("at", [kind, bytes, at]) => numbers::at(row, kind, bytes, at),
        ("fill", [bytes, options @ ..]) => numbers::fill(row, bytes, options),
        ("write_bytes", [bytes, options @ ..]) => numbers::write(row, bytes, options),
        _ => answer_number(row, name, words),
    }
}

// Runs a row of a number, a spec or an error.
fn answer_number(row: &mut Row, name: &str, words: &[&str]) {
    match (name, words) {
        ("le", [kind, number]) => numbers::le(row, kind, number),
        ("signed", [byte]) => numbers::signed(row, byte),
        ("unsigned", [number]) => numbers::unsigned(row, number),
        ("writable", [spec]) => specs::writable(row, spec),
        ("header", [spec, size, length]) => specs::header(row, spec, size, length),
        ("infinite", [spec]) => specs::infinite(row, spec),
        ("width", [bits]) => specs::width(row, bits),
        ("text", [name]) => specs::text(row, name),
        _ => answer_sample(row, name, words),
    }
}

// Runs a row of a sample.
fn answer_sample(row: &mut Row, name: &str, words: &[&str]) {
    match (name, words) {
        ("short", [kind, value]) => samples::short(row, kind, value),
        ("to_float" | "to_int" | "change", [value, bits @ ..]) => {
            scales::answer(row, name, value, bits);
        }
        (_, [kind, words @ ..]) => {
            at_type!(*kind, samples::answer(row, name, words), else row.reject());
        }
        _ => row.reject(),
    }
}

// Runs a row while each range of its first calls fails in turn.
fn answer_swept(row: &mut Row, name: &str, words: &[&str], calls: u64) {
    let mut sweep = Sweep::new();
    row.is_swept = true;
    for from in 1..calls.saturating_add(1) {
        for to in from..calls.saturating_add(1) {
            let Ok(fault) = format!(in row.alloc; "fail={from}..{to}") else {
                return row.line.fail();
            };
            let mut run = Vec::new(row.alloc);
            for word in words {
                let is_range = word.starts_with("calls=");
                row.push(&mut run, if is_range { fault.as_str() } else { *word });
            }
            answer(row, name, &run);
            sweep.add(row);
        }
    }
    sweep.show(row);
}

// Handles a line of the input.
fn answer_line(row: &mut Row, text: &str) {
    row.begin();
    if text.is_empty() || text.starts_with('#') {
        return row.line.put(text);
    }
    let Ok(words) = text.split(' ').collect::<Vec<&str>>(row.alloc) else {
        return row.line.fail();
    };
    if let Some((name, words)) = words.as_slice().split_first() {
        match find(words, "calls") {
            Some(calls) if matches!(*name, "read" | "write" | "session" | "sweep") => {
                let calls = row.number(calls);
                answer_swept(row, name, words, calls);
            }
            _ => answer(row, name, words),
        }
    }
    if row.is_rejected {
        row.line.clear();
        row.line.put("not a row");
    }
}

fn main(rt: HostRuntime) -> io::Result<ExitCode> {
    let alloc = rt.alloc();
    let text = io::read_to_string(alloc, rt.reader())?;
    let mut output = BufWriter::new(alloc, rt.stdout())?;
    let mut row = Row::new(alloc);
    let mut status = ExitCode::SUCCESS;
    for line in text.lines() {
        answer_line(&mut row, line);
        row.line.put("\n");
        if row.is_rejected {
            status = ExitCode::FAILURE;
        }
        if row.line.has_failed {
            return Err(io::Error::from(ErrorKind::OutOfMemory));
        }
        output.write_all(row.line.bytes())?;
    }
    output.flush()?;
    Ok(status)
}
