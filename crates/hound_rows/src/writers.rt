// Rows of writers.
ghost use Rattle.std.specs.Prelude.{◌≡◌, ◌≤◌};
ghost use Rattle.hound.specs.{WhereTells};

use crate::kept::{Kept, recorded_of, show_medium, tape_of};
use crate::sessions::end_of;
use crate::values::{Value, at_type, count_of, push_values, values_of};
use hound::{Begin, End, Error, Medium, Result, SampleFormat, Source, WavWriter};
use hound_row_helpers::row::{Row, find, name_and_value, parts};
use std::result;

// What is done with a writer.
#[derive(Clone, Copy)]
struct Script<'a> {
    constructor: &'a str,
    begin: Begin,
    acts: &'a [&'a str],
    end: End,
    // It is over a `&mut` of its medium.
    is_lent: bool,
    options: &'a [&'a str],
}

/// `write HOW SPEC OPTION.. : ACT.. : END`
pub fn write(row: &mut Row, constructor: &str, spec: &str, options: &[&str], words: &[&str]) {
    let (acts, end) = parts(words);
    row.allow(
        options,
        &["over", "most", "fail", "tape", "lent", "moments"],
    );
    let begin = match constructor {
        "new" | "ex" | "try" => Begin::New(row.spec(spec)),
        "append" | "try_append" => Begin::Append,
        _ => return row.reject(),
    };
    let script = Script {
        constructor,
        begin,
        acts,
        end: end_of(row, end),
        is_lent: row.is_swept || find(options, "lent").is_some(),
        options,
    };
    if find(options, "tape").is_some() {
        let tape = tape_of(row, options);
        write_over(row, script, tape);
    } else if let Some(recorded) = recorded_of(row, options) {
        write_over(row, script, recorded);
    }
}

fn write_over<M: Kept>(row: &mut Row, script: Script<'_>, medium: M)
    requires { WhereTells M.tells ((M.state medium).place ≡ 0) }
{
    if script.is_lent {
        let mut medium = medium;
        let _ = run(row, script, &mut medium);
        show_medium(row, &medium, script.begin, script.options);
    } else if let Some(medium) = run(row, script, medium) {
        show_medium(row, &medium, script.begin, script.options);
    }
}

// Runs a script, and returns the medium if it can.
fn run<M: Source + Medium>(row: &mut Row, script: Script<'_>, medium: M) -> Option<M>
    requires { WhereTells M.tells ((M.state medium).place ≡ 0) }
{
    let mut writer = match begin(script, medium) {
        Ok(writer) => writer,
        Err((medium, error)) => {
            row.line.error(error);
            return medium;
        }
    };
    for act in script.acts {
        take(row, &mut writer, act);
    }
    row.line.word(":");
    row.show_spec(writer.spec());
    row.line.count("duration", writer.duration());
    row.line.word(":");
    end(row, script, writer)
}

// A constructor that returns an error drops its medium or returns it.
fn begin<M: Source + Medium>(
    script: Script<'_>,
    medium: M,
) -> result::Result<WavWriter<M>, (Option<M>, Error)>
    requires { WhereTells M.tells ((M.state medium).place ≡ 0) }
{
    let made = match (script.constructor, script.begin) {
        ("new", Begin::New(spec_ex)) => WavWriter::new(medium, spec_ex.spec),
        ("ex", Begin::New(spec_ex)) => WavWriter::new_with_spec_ex(medium, spec_ex),
        ("append", _) => WavWriter::new_append(medium),
        (_, Begin::New(spec_ex)) => return returning(WavWriter::try_new(medium, spec_ex)),
        (_, Begin::Append) => return returning(WavWriter::try_append(medium)),
    };
    match made {
        Ok(writer) => Ok(writer),
        Err(error) => Err((None, error)),
    }
}

// The medium comes back with an error.
fn returning<M: Medium>(
    made: result::Result<WavWriter<M>, (M, Error)>,
) -> result::Result<WavWriter<M>, (Option<M>, Error)> {
    match made {
        Ok(writer) => Ok(writer),
        Err((medium, error)) => Err((Some(medium), error)),
    }
}

fn end<M: Medium>(row: &mut Row, script: Script<'_>, writer: WavWriter<M>) -> Option<M> {
    match (script.end, script.is_lent) {
        (End::Finalize, true) => {
            row.line.answer(writer.finalize());
            None
        }
        (End::Finalize, false) => {
            let (medium, answer) = writer.finalize_into();
            row.line.answer(answer);
            Some(medium)
        }
        (End::Drop, true) => {
            row.line.word("dropped");
            drop(writer);
            None
        }
        (End::Drop, false) => {
            row.line.word("dropped");
            Some(writer.drop_into())
        }
    }
}

// An act, its result and the writer's length then.
fn take<M: Medium>(row: &mut Row, writer: &mut WavWriter<M>, act: &str) {
    let (name, value) = name_and_value(act);
    let (kind, is_block) = match name.strip_prefix("block:") {
        Some(kind) => (kind, true),
        None => (name, false),
    };
    let answer = at_type!(
        kind,
        write_as(row, writer, value, is_block),
        else take_other(row, writer, name, value)
    );
    row.line.answer(answer);
    row.line.put(":");
    row.line.put_shown(writer.len());
}

// Samples of a type, by one call or a call each.
fn write_as<T: Value>(
    row: &mut Row,
    writer: &mut WavWriter<impl Medium>,
    words: &str,
    is_block: bool,
) -> Result<()> {
    if is_block {
        write_block::<T>(row, writer, words)
    } else {
        write_values::<T>(row, writer, words)
    }
}

// There is no such act.
fn rejected(row: &mut Row) -> Result<()> {
    row.reject();
    Ok(())
}

// `TYPE=VALUE`, `TYPE=VALUE*N` or `TYPE=VALUE+N`, up to the first error.
fn write_values<T: Value>(
    row: &mut Row,
    writer: &mut WavWriter<impl Medium>,
    word: &str,
) -> Result<()> {
    let mut values = Vec::new(row.alloc);
    push_values::<T>(row, &mut values, word);
    for value in &values {
        writer.write_sample(*value)?;
    }
    Ok(())
}

// `block:TYPE=V,V,..`; `-` is an empty one.
fn write_block<T: Value>(
    row: &mut Row,
    writer: &mut WavWriter<impl Medium>,
    words: &str,
) -> Result<()> {
    let values = match words {
        "-" => Vec::new(row.alloc),
        _ => values_of::<T>(row, words),
    };
    writer.write_samples(&values)
}

fn take_other<M: Medium>(
    row: &mut Row,
    writer: &mut WavWriter<M>,
    name: &str,
    value: &str,
) -> Result<()> {
    match name {
        "flush" => writer.flush(),
        "batch" => {
            let count = count_of(row, value);
            write_batch(row, writer, count, value, true)
        }
        "dropped" => {
            let (values, count) = row.split(value, "/");
            let count = row.number(count);
            write_batch(row, writer, count, values, false)
        }
        "begin" => {
            let count = row.number(value);
            write_batch(row, writer, count, "", false)
        }
        _ => rejected(row),
    }
}

// Begins a batch for this many samples, writes these, if any, and flushes or drops it. Files of
// other samples than integers of 16 bits have no batches.
fn write_batch<M: Medium>(
    row: &mut Row,
    writer: &mut WavWriter<M>,
    count: u32,
    words: &str,
    is_flushed: bool,
) -> Result<()> {
    let spec = writer.spec();
    if spec.sample_format != SampleFormat::Int || spec.bits_per_sample != 16 {
        return Err(Error::Unsupported);
    }
    let mut batch = writer.get_i16_writer(row.alloc, count)?;
    if batch.remaining() != count {
        return Err(Error::UnfinishedSample);
    }
    if !words.is_empty() {
        let values: Vec<i16> = values_of(row, words);
        for value in &values {
            if batch.remaining() >= 1 {
                batch.write_sample(*value);
            }
        }
    }
    if !is_flushed {
        return Ok(());
    }
    if batch.remaining() != 0 {
        return Err(Error::UnfinishedSample);
    }
    batch.flush()
}
