// Samples as floats whose full scale is 1, and as integers of other bits.
ghost use Rattle.std.specs.Prelude.{◌≡◌, ◌<◌, ◌≤◌, ◌-◌, ◌+◌, ◌+ℤ◌, ◌*ℤ◌, ◌^◌, if◌then◌else◌, nat_abs, not, pos, true};
ghost use lib.Ieee.{binary32, binary64, lt, neg, of_int};
ghost use Rattle.std.specs.Float.{float_to_signed, round_ties_even};
ghost use Rattle.std.specs.Int.{int_shr, w64};
ghost use Rattle.hound_sample.specs.Container.{fits};
ghost use Rattle.hound_sample.specs.Scale.{clipped, double_of_int, float_of_int, scaled, with_bits};

use std::num::{f32_to_f64_with_nan, nearest_u32_to_f32, saturating_f64_to_i64};

/// An integer of so many bits as a float whose full scale is 1: over `2^(bits - 1)`.
///
/// It is the `f32` that is nearest to the quotient, of two the even one. Integers of up to 24 bits come back from
/// `float_to_int` unchanged ([`scaled_integers_come_back`](crate::scaled_integers_come_back)).
///
/// ```
/// let half = int_to_float(16384, 16); // 0.5
/// ```
#[inline]
pub fn int_to_float(sample: i32, bits: u16) -> f32
    requires { (0 < bits) × (bits ≤ 32) }
    ensures { result ≡ float_of_int bits sample }
{
    let step = 1.0 / nearest_u32_to_f32(two_to(bits - 1));
    // A sign that is looked up needs no branch, which would be guessed wrong for each second sample.
    let steps = [step, -step];
    nearest_u32_to_f32(sample.unsigned_abs()) * steps[(sample < 0) as usize]
}

/// The same of an integer that is a float itself, which takes less time.
#[inline]
pub(crate) fn small_int_to_float(sample: i32, bits: u16) -> f32
    requires bits { (0 < bits) × (bits ≤ 32) }
    requires small { nat_abs sample ≤ 2 ^ 24 }
    ensures { result ≡ float_of_int bits sample }
{
    // A product takes less time, and 1 over full scale, a power of two, is exact.
    sample as f32 * (1.0 / nearest_u32_to_f32(two_to(bits - 1)))
}

/// The same as a float of 64 bits, which is the quotient itself.
#[inline]
pub(crate) fn int_to_double(sample: i32, bits: u16) -> f64
    requires { (0 < bits) × (bits ≤ 32) }
    ensures { result ≡ double_of_int bits sample }
{
    f64::from(sample) * (1.0 / f64::from(two_to(bits - 1)))
}

/// A float whose full scale is 1 as an integer of so many bits, and whether it was clipped.
///
/// It is times `2^(bits - 1)`, rounded to the nearest integer, of two to the even one. What is then past the largest
/// one, or the lowest, is clipped to it; a NaN gives 0.
///
/// ```
/// let (sample, is_clipped) = float_to_int(1.0, 16); // 32767, true
/// ```
#[inline]
pub fn float_to_int(number: f32, bits: u16) -> (i32, bool)
    requires { (0 < bits) × (bits ≤ 32) }
    ensures value { result.0 ≡ clipped bits (scaled bits number) }
    ensures is_clipped { result.1 ≡ not (fits bits (scaled bits number)) }
{
    let mut count = 0;
    let sample = double_to_int(f32_to_f64_with_nan(number), bits, &mut count);
    (sample, count == 1)
}

/// The same of a float of 64 bits, which is counted where it is clipped.
#[inline(always)]
pub(crate) fn double_to_int(number: f64, bits: u16, count: &mut u64) -> i32
    requires bits { (0 < bits) × (bits ≤ 32) }
    requires room { count.old + 1 < 2 ^ 64 }
    ensures value { result ≡ clipped bits (scaled bits number) }
    ensures count { count.new ≡ (if fits bits (scaled bits number) then count.old else (count.old + 1)) }
{
    let scaled = number * f64::from(two_to(bits - 1));
    let limit = two_to(bits - 1) - 1;
    if -f64::from(limit) < scaled && scaled < f64::from(limit) {
        return nearest_within(scaled, limit);
    }
    clip_distant(scaled, bits, count)
}

// The nearest integer, of two the even one, to a number within a limit.
#[inline(always)]
fn nearest_within(number: f64, limit: u32) -> i32
    requires most { limit < 2 ^ 31 }
    requires above { lt (neg (of_int binary64 (pos limit))) number ≡ true }
    requires below { lt number (of_int binary64 (pos limit)) ≡ true }
    ensures value { result ≡ float_to_signed w64 (round_ties_even binary64 number) }
    ensures within { nat_abs result ≤ limit }
{
    // Between 2^52 and 2^53 floats are 1 apart, so a sum that is there has no fraction.
    ((number + 6755399441055744.0) as i64 - 6755399441055744) as i32
}

// The integer of so many bits that is nearest to any number, which is counted where another one is nearer. It is a call
// of its own that is seldom made, so that the loops over it stay short.
#[cold]
#[inline(never)]
fn clip_distant(number: f64, bits: u16, count: &mut u64) -> i32
    requires bits { (0 < bits) × (bits ≤ 32) }
    requires room { count.old + 1 < 2 ^ 64 }
    ensures value { result ≡ clipped bits (float_to_signed w64 (round_ties_even binary64 number)) }
    ensures count { count.new ≡
        (if fits bits (float_to_signed w64 (round_ties_even binary64 number)) then count.old else (count.old + 1)) }
{
    let (sample, is_clipped) = clip(saturating_f64_to_i64(number.round_ties_even()), bits);
    if is_clipped {
        *count += 1;
    }
    sample
}

/// An integer of so many bits as one of others, and whether it was clipped.
///
/// More bits are zeros below. Fewer are the nearest integer, a half upwards; the largest ones may then need a bit more,
/// and are clipped.
///
/// ```
/// let (sample, is_clipped) = change_bits(0x123480, 24, 16); // 0x1235, false
/// ```
#[inline]
pub fn change_bits(sample: i32, old_bits: u16, new_bits: u16) -> (i32, bool)
    requires old_bits { (0 < old_bits) × (old_bits ≤ 32) }
    requires new_bits { (0 < new_bits) × (new_bits ≤ 32) }
    ensures value { result.0 ≡ clipped new_bits (with_bits old_bits new_bits sample) }
    ensures is_clipped { result.1 ≡ not (fits new_bits (with_bits old_bits new_bits sample)) }
{
    if new_bits < old_bits {
        return clip(narrowed(sample, old_bits - new_bits), new_bits);
    }
    clip(widened(sample, new_bits - old_bits), new_bits)
}

// With so many bits more, which are zeros.
#[inline(always)]
fn widened(sample: i32, more: u16) -> i64
    requires { more < 32 }
    ensures { result ≡ sample *ℤ pos (2 ^ more) }
{
    i64::from(sample) * i64::from(two_to(more))
}

// With so many bits fewer, to the nearest.
#[inline(always)]
fn narrowed(sample: i32, fewer: u16) -> i64
    requires { (0 < fewer) × (fewer < 32) }
    ensures { result ≡ int_shr (sample +ℤ pos (2 ^ (fewer - 1))) fewer }
{
    (i64::from(sample) + (1 << (fewer - 1))) >> fewer
}

// The integer of so many bits that is nearest, and whether it is another one.
#[inline(always)]
fn clip(number: i64, bits: u16) -> (i32, bool)
    requires { (0 < bits) × (bits ≤ 32) }
    ensures value { result.0 ≡ clipped bits number }
    ensures is_clipped { result.1 ≡ not (fits bits number) }
{
    let full_scale = i64::from(two_to(bits - 1));
    let nearest = number.clamp(-full_scale, full_scale - 1);
    (nearest as i32, nearest != number)
}

#[inline(always)]
fn two_to(power: u16) -> u32
    requires { power < 32 }
    ensures value { result ≡ 2 ^ power }
    ensures most { result ≤ 0x8000_0000 }
{
    1 << power
}
