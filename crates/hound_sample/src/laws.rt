// What holds for all integers and their containers.
ghost use Rattle.std.specs.Prelude.{◌≡◌, ◌<◌, ◌≤◌, ◌+◌, ◌++◌, ℕ, ℤ, List, Ok, None, IsTrue, length};
ghost use Rattle.hound_sample.specs.Container.{fits, int_container};
ghost use Rattle.hound_sample.specs.Reading.{int_meaning, int_rejection, low_i16};
ghost use Rattle.hound_sample.specs.Scale.{ComesBack, double_of_int, float_of_int, state_after, with_noise};
ghost use Rattle.hound_spec.specs.declared.spec.SampleFormat.TheVariants.{Int};

use crate::amplitude::Amplitude;

/// Each integer that has a container is read back from it as the same `i32`, whatever type it was written as.
pub fn integers_come_back()
    ensures taken { (v : ℤ) (bits width : ℕ) (c : List ℕ) → int_container v bits width ≡ Ok c →
        int_rejection 4 Int width bits ≡ None }
    ensures same { (v : ℤ) (bits width : ℕ) (c : List ℕ) → int_container v bits width ≡ Ok c →
        int_meaning width bits c ≡ v }
{}

/// An integer of sixteen bits is its own lowest sixteen bits, so a batch takes it unchanged.
pub fn i16s_are_kept()
    ensures { (v : ℤ) → IsTrue (fits 16 v) → low_i16 v ≡ v }
{}

/// An integer of up to 24 bits is the same again after it was a float of 32 bits whose full scale is 1 (`floats`), and
/// one of up to 32 bits after it was one of 64 (`doubles`). None is clipped.
pub fn scaled_integers_come_back()
    ensures floats { (bits : ℕ) (v : ℤ) → 0 < bits → bits ≤ 24 → IsTrue (fits bits v) →
        ComesBack float_of_int bits v }
    ensures doubles { (bits : ℕ) (v : ℤ) → 0 < bits → bits ≤ 32 → IsTrue (fits bits v) →
        ComesBack double_of_int bits v }
{}

/// Noise is the same in however many calls it is added, if each begins with the state that the one before has left: of
/// samples in two parts it is that of the whole (`same`), and so is the state after them (`state`).
pub fn noise_continues<S: Amplitude>()
    ensures same { (bits state : ℕ) (first second : List S) →
        with_noise S.amplitude bits state (first ++ second) ≡ with_noise S.amplitude bits state first
        ++ with_noise S.amplitude bits (state_after (length first) state) second }
    ensures state { (first second state : ℕ) →
        state_after (first + second) state ≡ state_after second (state_after first state) }
{}
