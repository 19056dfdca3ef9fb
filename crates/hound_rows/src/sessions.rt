// Rows of sessions.
ghost use Rattle.std.specs.Prelude.{◌≡◌, ◌≤◌, length};
ghost use Rattle.hound.specs.{WhereTells};

use crate::kept::{Kept, recorded_of, show_medium, tape_of};
use crate::values::{push_values, value_of, values_of};
use hound::{Begin, End, Step, WavSpecEx, run_session, run_sessions};
use hound_row_helpers::row::{Row, find, name_and_value, parts};

// How many of the steps that aren't marked are listed.
const MOST_LISTED: usize = 20;

// What a row shows of a session.
#[derive(Clone, Copy)]
struct Script<'a> {
    begin: Begin,
    steps: &'a [Step<'a>],
    end: End,
    options: &'a [&'a str],
}

/// `session SPEC OPTION.. : STEP.. : END`, and `sweep`, a sweep of such rows.
pub fn session(row: &mut Row, spec: &str, options: &[&str], words: &[&str]) {
    let (steps, end) = parts(words);
    row.allow(options, &["over", "most", "fail", "tape", "moments"]);
    let batches = batches_of(row, steps);
    let sessions = steps_of(row, steps, &batches);
    let Some(steps) = sessions.first() else {
        return row.line.fail();
    };
    let script = Script {
        begin: match spec {
            "append" => Begin::Append,
            _ => Begin::New(row.spec(spec)),
        },
        steps: steps.as_slice(),
        end: end_of(row, end),
        options,
    };
    if find(options, "tape").is_some() {
        let tape = tape_of(row, options);
        run_over(row, script, tape);
    } else if let Some(recorded) = recorded_of(row, options) {
        run_over(row, script, recorded);
    }
}

/// `finalize` or `drop`
pub fn end_of(row: &mut Row, end: &[&str]) -> End {
    match end {
        ["finalize"] => End::Finalize,
        ["drop"] => End::Drop,
        _ => {
            row.reject();
            End::Drop
        }
    }
}

// For each word the samples of its batch; none if it is another step.
fn batches_of(row: &mut Row, words: &[&str]) -> Vec<Vec<i16>> {
    let mut batches = Vec::new(row.alloc);
    for word in words {
        let samples = match name_and_value(word) {
            ("batch", values) => values_of(row, values),
            _ => Vec::new(row.alloc),
        };
        row.push(&mut batches, samples);
    }
    batches
}

// The steps of sessions, between which there is a `|`.
fn steps_of<'a>(row: &mut Row, words: &[&str], batches: &'a [Vec<i16>]) -> Vec<Vec<Step<'a>>> {
    let mut sessions = Vec::new(row.alloc);
    let mut steps = Vec::new(row.alloc);
    for (word, batch) in words.iter().zip(batches) {
        if *word == "|" {
            row.push(&mut sessions, steps);
            steps = Vec::new(row.alloc);
        } else {
            push_step(row, &mut steps, word, batch.as_slice());
        }
    }
    row.push(&mut sessions, steps);
    sessions
}

fn push_step<'a>(row: &mut Row, steps: &mut Vec<Step<'a>>, word: &str, batch: &'a [i16]) {
    let (name, value) = name_and_value(word);
    match name {
        "flush" => row.push(steps, Step::Flush),
        "batch" => row.push(steps, Step::Batch(batch)),
        "f" => {
            let bits = value_of(row, value);
            row.push(steps, Step::Bits(bits));
        }
        _ => {
            let mut values = Vec::new(row.alloc);
            push_values(row, &mut values, word);
            for value in &values {
                row.push(steps, Step::Whole(*value));
            }
        }
    }
}

// Runs a session, and shows what came of it.
fn run_over<M: Kept>(row: &mut Row, script: Script<'_>, medium: M)
    requires { WhereTells M.tells ((M.state medium).place ≡ 0) }
{
    let Ok(mut marks) = vec![in row.alloc; false; script.steps.len()] else {
        return row.line.fail();
    };
    let (medium, answer) = run_session(
        row.alloc,
        medium,
        script.begin,
        script.steps,
        &mut marks,
        script.end,
    );
    show_marks(row, &marks);
    row.line.word(":");
    row.line.answer(answer);
    show_medium(row, &medium, script.begin, script.options);
}

// How many steps there are, and which of them aren't marked.
fn show_marks(row: &mut Row, marks: &[bool]) {
    row.line.count("marks", marks.len());
    let mut unmarked = 0usize;
    for (index, is_marked) in marks.iter().enumerate() {
        if !*is_marked {
            if unmarked == 0 {
                row.line.word("not");
            }
            if unmarked < MOST_LISTED {
                row.line.shown(index);
            }
            unmarked = unmarked.saturating_add(1);
        }
    }
    if unmarked > MOST_LISTED {
        row.line.word("..");
    }
}

/// `sessions SPEC OPTION.. : STEP.. | STEP.. | ..`
pub fn sessions(row: &mut Row, spec: &str, options: &[&str], steps: &[&str]) {
    row.allow(options, &["over", "most", "fail", "tape"]);
    let spec_ex = row.spec(spec);
    let batches = batches_of(row, steps);
    let mut sessions = steps_of(row, steps, &batches);
    if steps.is_empty() {
        sessions.clear();
    }
    if find(options, "tape").is_some() {
        let tape = tape_of(row, options);
        run_all(row, spec_ex, &sessions, tape);
    } else if let Some(recorded) = recorded_of(row, options) {
        run_all(row, spec_ex, &sessions, recorded);
    }
}

fn run_all<M: Kept>(row: &mut Row, spec_ex: WavSpecEx, sessions: &[Vec<Step<'_>>], medium: M)
    requires { WhereTells M.tells ((M.state medium).place ≡ 0) }
{
    let mut slices = Vec::new(row.alloc);
    for steps in sessions {
        row.push(&mut slices, steps.as_slice());
    }
    let (medium, answer) = run_sessions(row.alloc, medium, spec_ex, &slices);
    row.line.answer(answer);
    row.line.word(":");
    medium.show(row);
}
