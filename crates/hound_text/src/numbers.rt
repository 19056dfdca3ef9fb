// Numbers as text.
ghost use Rattle.std.specs.Prelude.{◌≡◌, ℕ, ◌≤◌, ◌<◌, ◌++◌, true, false, List, IfErr, IfOk, IfSome, IsNone, OnOk, SomeIff, [], ◌∷◌, Some, None, length};
ghost use Rattle.std.specs.Io.KnownBytes.{IsAtEnd};
ghost use Rattle.std.specs.Str.Parse.{IsNumeral, digits_value};
ghost use Rattle.hound_text.specs.Text.{IsInputRejected, IsTextRejection, Breaks, Leads, before, begins_with_digit, ended, is_digit, numbers_from, SaysNumbers};
ghost use Rattle.hound_text.specs.declared.numbers.Place.TheVariants.{Between, Inside};
ghost use Rattle.hound_text.specs.declared.numbers.TextError.TheVariants.{BadNumber};

use std::alloc::Global;
use std::io;

// How many bytes of the input are read at once.
const INPUT_LENGTH: usize = 16384;

/// Why a text isn't read. It has one byte, where an error that holds an `io::Error` has a hundred, and it is part of
/// the result for each number.
#[derive(Clone, Copy)]
pub enum TextError {
    /// A byte that no number has at its place, or a number beyond `i32`.
    BadNumber,
    /// The input failed.
    InputOrOutput,
    /// The input has more than 4294967295 bytes.
    TooLong,
    /// There is no memory for the numbers.
    OutOfMemory,
}

// What of a word was read.
#[derive(Clone, Copy)]
enum Place {
    Between,
    AfterMinus,
    // Within digits: whether the number is negative, and its magnitude so far, at most 2 ^ 31.
    Inside(bool, u32),
}

// Takes the digits that the text begins with, one at least.
#[inline(always)]
fn take_digits(place: Place, mut bytes: &[u8]) -> Option<(Place, &[u8])>
    requires { begins_with_digit bytes.now ≡ true }
    ensures taken { IfSome result (λ after. (tail : List ℕ) →
        numbers_from place (bytes.now ++ tail) ≡ numbers_from after.0 (after.1.now ++ tail)) }
    ensures shorter { IfSome result (λ after. length after.1.now < length bytes.now) }
    ensures none { IsNone result → Breaks place bytes.now }
{
    let (is_negative, mut magnitude) = match place {
        Place::Between => (false, 0),
        Place::AfterMinus => (true, 0),
        Place::Inside(is_negative, magnitude) => (is_negative, magnitude),
    };
    while let Some((byte @ b'0'..=b'9', rest)) = bytes.split_first() {
        let longer = magnitude as u64 * 10 + (*byte - b'0') as u64;
        if longer > 2_147_483_648 {
            return None;
        }
        magnitude = longer as u32;
        bytes = rest;
    }
    Some((Place::Inside(is_negative, magnitude), bytes))
}

// Takes a byte that is no digit, and appends the number that it ends.
#[inline(always)]
fn take_byte(place: Place, byte: u8, numbers: &mut Vec<i32>) -> Result<Place, TextError>
    requires { is_digit byte ≡ false }
    ensures taken { IfOk result (λ later. Leads place (byte ∷ []) numbers.old.items later [] numbers.new.items) }
    ensures rejected { IfErr result (λ rejection. IsTextRejection rejection (Breaks place (byte ∷ []))) }
{
    match (place, byte) {
        (Place::Between, b'-') => Ok(Place::AfterMinus),
        (_, b' ' | b'\t' | b'\r' | b'\n') => end_of_word(place, numbers).and(Ok(Place::Between)),
        _ => Err(TextError::BadNumber),
    }
}

// Appends the number that ends with a word, or with the text.
fn end_of_word(place: Place, numbers: &mut Vec<i32>) -> Result<(), TextError>
    ensures ended { OnOk result (before numbers.old.items (ended place) ≡ Some numbers.new.items) }
    ensures rejected { IfErr result (λ rejection. IsTextRejection rejection (ended place ≡ None)) }
{
    let number = match place {
        Place::Between => return Ok(()),
        Place::AfterMinus => None,
        Place::Inside(false, magnitude) => i32::try_from(magnitude).ok(),
        Place::Inside(true, magnitude) => 0_i32.checked_sub_unsigned(magnitude),
    };
    let number = number.ok_or(TextError::BadNumber)?;
    numbers.push(number).or(Err(TextError::OutOfMemory))
}

// Takes bytes of the text, in order.
fn take_bytes(
    mut place: Place,
    mut bytes: &[u8],
    numbers: &mut Vec<i32>,
) -> Result<Place, TextError>
    ensures taken { IfOk result (λ later. Leads place bytes.now numbers.old.items later [] numbers.new.items) }
    ensures rejected { IfErr result (λ rejection. IsTextRejection rejection (Breaks place bytes.now)) }
{
    while let Some((byte, rest)) = bytes.split_first() {
        if let b'0'..=b'9' = *byte {
            (place, bytes) = take_digits(place, bytes).ok_or(TextError::BadNumber)?;
        } else {
            place = take_byte(place, *byte, numbers)?;
            bytes = rest;
        }
    }
    Ok(place)
}

/// Reads numbers to the end of the input.
///
/// They are separated by spaces, tabs, carriage returns and line feeds: an optional `-`, and then digits, within `i32`.
/// The first byte that breaks this is `BadNumber`. A fault of the input is `InputOrOutput`, and more than 4294967295
/// bytes of it are `TooLong`.
pub fn read_numbers<R: io::Read>(alloc: Global, input: &mut R) -> Result<Vec<i32>, TextError>
    ensures end { OnOk result (IsAtEnd (R.remaining input.new)) }
    ensures numbers { IfOk result (λ numbers. IfSome (R.remaining input.old) (λ text. SaysNumbers text numbers.items)) }
    ensures rejected { IfErr result (λ rejection. IfSome (R.remaining input.old) (IsInputRejected rejection)) }
{
    let mut numbers = Vec::new(alloc);
    let mut place = Place::Between;
    let mut buffer = [0; INPUT_LENGTH];
    let mut room = u32::MAX as usize;
    loop {
        let Ok(count) = input.read(&mut buffer) else {
            return Err(TextError::InputOrOutput);
        };
        if count == 0 {
            end_of_word(place, &mut numbers)?;
            return Ok(numbers);
        }
        let taken = count.min(room);
        place = take_bytes(place, &buffer[..taken], &mut numbers)?;
        if taken < count {
            return Err(TextError::TooLong);
        }
        room -= taken;
    }
}

/// A number without a sign, in digits alone, of at most this size.
pub fn digits(word: &str, most: u32) -> Option<u32>
    ensures { SomeIff result (IsNumeral 10 word.now × (digits_value 10 word.now ≤ most)) (digits_value 10 word.now) }
{
    if word.starts_with('+') {
        return None;
    }
    word.parse().ok().filter(|number| *number <= most)
}
