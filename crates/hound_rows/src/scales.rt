// Rows of samples in another scale.
ghost use Rattle.std.specs.Prelude.{◌<◌, ◌≤◌};

use crate::values::value_of;
use hound::{FloatBits, change_bits, float_to_int, int_to_float};
use hound_row_helpers::row::Row;

/// `to_float VALUE BITS`, `to_int PATTERN BITS` and `change VALUE OLD_BITS NEW_BITS`
pub fn answer(row: &mut Row, name: &str, value: &str, bits: &[&str]) {
    let bits = match bits {
        [bits] => [row.number(bits), 32],
        [old, new] => [row.number(old), row.number(new)],
        _ => return row.reject(),
    };
    let [bits @ 1..=32, new_bits @ 1..=32] = bits else {
        return row.reject();
    };
    match name {
        "to_float" => {
            let number = int_to_float(value_of(row, value), bits);
            row.line.hex(&FloatBits::from(number).0.to_be_bytes());
        }
        "to_int" => {
            let pattern: FloatBits = value_of(row, value);
            show(row, float_to_int(pattern.to_f32(), bits));
        }
        _ => {
            let sample = value_of(row, value);
            show(row, change_bits(sample, bits, new_bits));
        }
    }
}

// The integer, and whether it was clipped.
fn show(row: &mut Row, found: (i32, bool)) {
    row.line.shown(found.0);
    if found.1 {
        row.line.word("clipped");
    }
}
