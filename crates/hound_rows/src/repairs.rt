// Rows of repairs.
use hound::{Repair, RepairState, Tape, find_damage, repair, repair_to_end};
use hound_row_helpers::row::{Row, find};
use hound_row_helpers::sweep::Sweep;

/// `repair HOW BYTES`, or with the option `cuts` a sweep of such rows, a row for each beginning of
/// the bytes.
pub fn answer(row: &mut Row, how: &str, bytes: &str, options: &[&str]) {
    row.allow(options, &["cuts"]);
    let bytes = row.bytes(bytes);
    if find(options, "cuts").is_none() {
        return repair_one(row, how, bytes);
    }
    let mut sweep = Sweep::new();
    for length in 0..bytes.len().saturating_add(1) {
        match bytes.get(..length).unwrap_or(&[]).to_vec(row.alloc) {
            Ok(cut) => {
                repair_one(row, how, cut);
                sweep.add(row);
            }
            Err(_) => row.line.fail(),
        }
    }
    sweep.show(row);
}

// Repairs a file, or looks at it, and says what was found and what it then holds.
fn repair_one(row: &mut Row, how: &str, bytes: Vec<u8>) {
    let tape = Tape::new(bytes);
    let answer = match how {
        "look" => find_damage(tape),
        "mend" => repair(tape),
        "to_end" => repair_to_end(tape),
        _ => return row.reject(),
    };
    row.has_begun = answer.is_ok();
    let tape = match answer {
        Ok((tape, found)) => {
            show_found(row, found);
            tape
        }
        Err((tape, error)) => {
            row.line.error(error);
            tape
        }
    };
    row.line.word(":");
    row.line.contents(Tape::bytes(&tape));
}

fn show_found(row: &mut Row, found: Repair) {
    row.line.word(match found.state {
        RepairState::Whole => "whole",
        RepairState::CutOff => "cut_off",
        RepairState::HasChunksAfterData => "followed",
        RepairState::AllCounted => "all_counted",
    });
    row.line.count("frames", found.frames);
    row.line.count("left", found.left_over);
    row.line.word(":");
    row.show_spec(found.spec_ex.spec);
    row.line.shown(found.spec_ex.bytes_per_sample);
}

/// The bytes of a file after it was repaired, whether that failed or not.
pub fn repaired(bytes: Vec<u8>) -> Vec<u8> {
    match repair_to_end(Tape::new(bytes)) {
        Ok((tape, _)) => tape.into_bytes(),
        Err((tape, _)) => tape.into_bytes(),
    }
}
