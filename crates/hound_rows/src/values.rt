// The types of samples in rows.
use hound::{FloatBits, Sample};
use hound_callers::Twelve;
use hound_row_helpers::line::Line;
use hound_row_helpers::row::Row;

/// A type of samples.
pub trait Value: Sample + Copy {
    /// Whether values are written as patterns, in eight hex digits.
    const IS_PATTERN: bool = false;

    /// The value of these bytes, the lowest first; a narrow type leaves the others out.
    fn of_bytes(bytes: [u8; 4]) -> Self;

    /// The value as a number; for a float that of its pattern.
    fn number(self) -> i64;
}

/// The value of this number, if the type has it.
pub fn value_of_number<T: Value>(number: i64) -> T {
    let [a, b, c, d, _, _, _, _] = number.to_le_bytes();
    T::of_bytes([a, b, c, d])
}

/// The value of a word.
pub fn value_of<T: Value>(row: &mut Row, word: &str) -> T {
    let number = if T::IS_PATTERN {
        row.hex(word, 4) as i64
    } else {
        row.number(word)
    };
    let value: T = value_of_number(number);
    if value.number() != number {
        row.reject();
    }
    value
}

impl Value for i8 {
    fn of_bytes(bytes: [u8; 4]) -> i8 {
        let [low, _, _, _] = bytes;
        low.cast_signed()
    }

    fn number(self) -> i64 {
        self as i64
    }
}

impl Value for i16 {
    fn of_bytes(bytes: [u8; 4]) -> i16 {
        let [low, high, _, _] = bytes;
        i16::from_le_bytes([low, high])
    }

    fn number(self) -> i64 {
        self as i64
    }
}

impl Value for i32 {
    fn of_bytes(bytes: [u8; 4]) -> i32 {
        i32::from_le_bytes(bytes)
    }

    fn number(self) -> i64 {
        self as i64
    }
}

impl Value for FloatBits {
    const IS_PATTERN: bool = true;

    fn of_bytes(bytes: [u8; 4]) -> FloatBits {
        FloatBits(u32::from_le_bytes(bytes))
    }

    fn number(self) -> i64 {
        self.0 as i64
    }
}

impl Value for Twelve {
    fn of_bytes(bytes: [u8; 4]) -> Twelve {
        let [low, high, _, _] = bytes;
        Twelve(i16::from_le_bytes([low, high]))
    }

    fn number(self) -> i64 {
        self.0 as i64
    }
}

// The value and the count of `VALUE`, `VALUE*N` or `VALUE+N`.
fn counted<'a>(row: &mut Row, word: &'a str) -> (&'a str, u32) {
    let mark = if word.contains('+') { "+" } else { "*" };
    let (first, count) = word.split_once(mark).unwrap_or((word, "1"));
    (first, row.number(count))
}

/// Adds the values of a word: `VALUE`, `VALUE*N` for N times the same, or `VALUE+N` for N that count up; after the
/// last of the type comes its first.
pub fn push_values<T: Value>(row: &mut Row, values: &mut Vec<T>, word: &str) {
    let (first, count) = counted(row, word);
    let step = if word.contains('+') { 1 } else { 0 };
    let mut value: T = value_of(row, first);
    for _ in 0..count {
        row.push(values, value);
        value = value_of_number(value.number().saturating_add(step));
    }
}

/// The values of `V,V,..`, each of which may be `V*N` or `V+N`.
pub fn values_of<T: Value>(row: &mut Row, words: &str) -> Vec<T> {
    let mut values = Vec::new(row.alloc);
    for word in words.split(',') {
        push_values(row, &mut values, word);
    }
    values
}

/// How many these are; there may be more of them than memory has room for.
pub fn count_of(row: &mut Row, words: &str) -> u32 {
    let mut count = 0u32;
    for word in words.split(',') {
        count = count.saturating_add(counted(row, word).1);
    }
    count
}

/// A value, or why there is none, as a word.
pub fn show<T: Value>(line: &mut Line, item: hound::Result<T>) {
    match item {
        Ok(value) => {
            line.word("");
            put_value(line, value);
        }
        Err(error) => line.error(error),
    }
}

/// Adds a value to the last word.
pub fn put_value<T: Value>(line: &mut Line, value: T) {
    let number = value.number();
    if T::IS_PATTERN {
        line.put_shown(format_args!("{number:08x}"));
    } else {
        line.put_shown(number);
    }
}

/// Calls a function for the type of this name, or else does this.
macro_rules! at_type {
    ($name:expr, $($function:ident)::+($($argument:expr),*), else $other:expr) => {
        match $name {
            "i8" => $($function)::+::<i8>($($argument),*),
            "i16" => $($function)::+::<i16>($($argument),*),
            "i32" => $($function)::+::<i32>($($argument),*),
            "f" => $($function)::+::<hound::FloatBits>($($argument),*),
            "own" => $($function)::+::<hound_callers::Twelve>($($argument),*),
            _ => $other,
        }
    };
}

pub(crate) use at_type;
