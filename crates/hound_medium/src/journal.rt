// Bytes in memory as a medium and a source that records every byte written and fails on request.
ghost use Rattle.std.specs.Prelude.{◌≡◌, ℕ, ◌-◌, ◌^◌, ◌<◌, ◌≤◌, ◌↔◌, ◌+ℤ◌, pos, min, true, Some, [], length, drop, refl, IsErr, IfOk, IfErr};
ghost use Rattle.std.specs.Int.{FitsUnsigned, w64};
ghost use Rattle.std.specs.IoError.{error_kind};
ghost use Rattle.std.specs.Io.{ReadsAtMost};
ghost use Rattle.std.specs.Io.KnownBytes.{ReadConsumes};
ghost use Rattle.hound_number.specs.{AreBytes};
ghost use Rattle.hound_medium.specs.State.{overlay, moment, Goes, Shifts, Gets, Puts, Flushes, one_more, faults_after};

use crate::bytes::{copy_from, put_and_keep, replay};
use crate::{Medium, Placed, Source, count_fault};
use hound_spec::{Error, Result};
use std::alloc::Global;
use std::io;
use std::io::ErrorKind;

/// Bytes in memory with a place among them, to read and to write, that record each byte written with its place.
///
/// It shows what a medium has after every byte written, as after a loss of power: the tests of a recorder that makes
/// checkpoints look at [`Journal::bytes_after`] for each count of bytes from [`Journal::flushed`] to
/// [`Journal::taken`]. With [`Journal::fail`] and [`Journal::most`] it also fails, and takes few bytes at once.
///
/// A `put` without memory, or whose end would be above `u64::MAX`, is an `Err` of kind `OutOfMemory`; it allocates all
/// it needs before it changes anything. Every `Err` changes only the count of faults. Its memory grows with each byte
/// written.
///
/// ```
/// journal.fail(0, u64::MAX); // Every call fails from now on.
/// let before = journal.bytes_after(alloc, 46)?; // A header, and half of the data.
/// ```
#[derive(Drop)]
pub struct Journal {
    start: Vec<u8>,
    past: Vec<(u64, u8)>,
    bytes: Vec<u8>,
    place: u64,
    flushed: usize,
    faults: u64,
    calls: u64,
    fail_from: u64,
    fail_to: u64,
    most: usize,
    ghost are_bytes: { AreBytes bytes.items },
    ghost replays: { bytes.items ≡ overlay start.items past.items },
    ghost some: { 1 ≤ most },
}

impl Journal {
    ghost use Rattle.hound_medium.specs.Journal.{FailsAt, calls, greatest_count};

    /// A journal of these bytes, at place 0, with nothing taken yet. It records a copy of them, so it is `OutOfMemory`
    /// if there is no memory for that.
    pub fn new(alloc: Global, bytes: Vec<u8>) -> Result<Journal>
        ensures contents { IfOk result (λ j. (⟦<Journal as Placed>⟧.state j).contents ≡ bytes.items) }
        ensures place { IfOk result (λ j. (⟦<Journal as Placed>⟧.state j).place ≡ 0) }
        ensures faults { IfOk result (λ j. (⟦<Journal as Placed>⟧.state j).faults ≡ 0) }
        ensures start { IfOk result (λ j. (⟦<Journal as Placed>⟧.state j).start ≡ bytes.items) }
        ensures past { IfOk result (λ j. (⟦<Journal as Placed>⟧.state j).past ≡ []) }
        ensures flushed { IfOk result (λ j. (⟦<Journal as Placed>⟧.state j).flushed ≡ 0) }
        ensures calls { IfOk result (λ j. calls j ≡ 0) }
        ensures none_fails { IfOk result (λ j. (number : ℕ) → FailsAt j number → ⊥) }
        ensures no_limit { IfOk result (λ j. greatest_count j ≡ 2 ^ 64 - 1) }
        ensures err { IfErr result (λ e. e ≡ Error.OutOfMemory) }
    {
        Ok(Journal {
            start: bytes.to_vec(alloc)?,
            past: Vec::new(alloc),
            bytes,
            place: 0,
            flushed: 0,
            faults: 0,
            calls: 0,
            fail_from: 1,
            fail_to: 0,
            most: usize::MAX,
        })
    }

    /// Limits the bytes that one `put` takes, and that one `get` or `read` gives, to this many, at least 1. A new
    /// journal has no such limit; a later one replaces it.
    pub fn most(&mut self, n: usize)
        requires { 1 ≤ n }
        ensures state { ⟦<Journal as Placed>⟧.state self.new ≡ ⟦<Journal as Placed>⟧.state self.old }
        ensures most { greatest_count self.new ≡ n }
        ensures calls { calls self.new ≡ calls self.old }
        ensures fails { (number : ℕ) → FailsAt self.new number ↔ FailsAt self.old number }
    {
        self.most = n;
    }

    /// Makes calls fail, by their numbers, from the first to the last, both included.
    ///
    /// Each call of `get` or `read`, `go`, `shift`, `put` and `flush` has a number, the first call 1, whether it fails
    /// or not; the number stays at `u64::MAX` once there. A call that fails is an `Err` of kind `Other`, takes and
    /// gives nothing and doesn't move, and counts a fault. No call of a new journal fails so; a later `fail` replaces
    /// an earlier one.
    pub fn fail(&mut self, from: u64, to: u64)
        ensures state { ⟦<Journal as Placed>⟧.state self.new ≡ ⟦<Journal as Placed>⟧.state self.old }
        ensures fails { (number : ℕ) → FailsAt self.new number ↔ (from ≤ number) × (number ≤ to) }
        ensures calls { calls self.new ≡ calls self.old }
        ensures most { greatest_count self.new ≡ greatest_count self.old }
    {
        self.fail_from = from;
        self.fail_to = to;
    }

    /// How many bytes have been written in all since it was made. A byte written over another counts too, and zeros
    /// that filled a gap don't.
    pub fn taken(&self) -> usize
        ensures { result ≡ length (⟦<Journal as Placed>⟧.state self.now).past }
    {
        self.past.len()
    }

    /// How many bytes had been written at the last Ok `flush`; 0 before the first.
    pub fn flushed(&self) -> usize
        ensures { result ≡ (⟦<Journal as Placed>⟧.state self.now).flushed }
    {
        self.flushed
    }

    /// All of the bytes as they were after the first k of those written: for 0 the bytes that the journal began with,
    /// for [`Journal::taken`] those of now. `k` must be at most `taken()`. `OutOfMemory` if there is no memory for
    /// them.
    pub fn bytes_after(&self, alloc: Global, k: usize) -> Result<Vec<u8>>
        requires { k ≤ length (⟦<Journal as Placed>⟧.state self.now).past }
        ensures moment { let state = ⟦<Journal as Placed>⟧.state self.now in
            IfOk result (λ bytes. bytes.items ≡ moment state.start state.past k) }
        ensures err { IfErr result (λ e. e ≡ Error.OutOfMemory) }
    {
        let mut bytes = self.start.to_vec(alloc)?;
        replay(&mut bytes, &self.past[..k])?;
        Ok(bytes)
    }

    // Numbers a call, and fails it on request.
    fn call(&mut self) -> io::Result<()>
        ensures counts { self.new ≡ record self.old {
          calls = one_more self.old.calls;
          faults = faults_after result self.old.faults;
        } }
        ensures fails { IsErr result ↔ (self.old.fail_from ≤ self.new.calls) × (self.new.calls ≤ self.old.fail_to) }
    {
        self.calls = self.calls.saturating_add(1);
        if self.fail_from <= self.calls && self.calls <= self.fail_to {
            return count_fault(Err(io::Error::from(ErrorKind::Other)), &mut self.faults);
        }
        Ok(())
    }
}

impl Placed for Journal {
    ghost use Rattle.hound_medium.specs.Journal.{FailsAt, IsNumbered, calls};

    ghost tells = { true };

    ghost keeps = { true };

    ghost state = { λ j. record {
      contents = j.bytes.items;
      place = j.place;
      faults = j.faults;
      start = j.start.items;
      past = j.past.items;
      flushed = j.flushed;
    } };

    ghost bytes = { λ j _. j.are_bytes };

    fn go(&mut self, to: u64) -> io::Result<()>
        ensures goes { let state = ⟦<Journal as Placed>⟧.state in Goes to result (state self.old) (state self.new) }
        ensures fails { IsErr result ↔ FailsAt self.old (calls self.new) }
        ensures numbered { IsNumbered self.old self.new }
    {
        self.call()?;
        self.place = to;
        Ok(())
    }

    fn shift(&mut self, by: i64) -> io::Result<()>
        ensures shifts { let state = ⟦<Journal as Placed>⟧.state in Shifts by result (state self.old) (state self.new) }
        ensures fails { FailsAt self.old (calls self.new) → IsErr result }
        ensures moves { (FailsAt self.old (calls self.new) → ⊥) → (IsErr result → ⊥)
            ↔ FitsUnsigned w64 (pos (⟦<Journal as Placed>⟧.state self.old).place +ℤ by) }
        ensures numbered { IsNumbered self.old self.new }
    {
        self.call()?;
        let place = self.place.checked_add_signed(by);
        self.place = count_fault(place.ok_or(ErrorKind::InvalidInput), &mut self.faults)?;
        Ok(())
    }
}

impl Medium for Journal {
    ghost use Rattle.hound_medium.specs.Journal.{FailsAt, IsNumbered, calls, greatest_count};

    ghost replays = { λ j _ _. j.replays };

    #[inline]
    fn put(&mut self, bytes: &[u8]) -> io::Result<usize>
        requires { 0 < length bytes.now }
        ensures bound { IfOk result (λ n. (1 ≤ n) × (n ≤ length bytes.now)) }
        ensures puts { let state = ⟦<Journal as Placed>⟧.state in
            Puts true bytes.now result (state self.old) (state self.new) }
        ensures fails { FailsAt self.old (calls self.new) → IsErr result }
        ensures memory { (FailsAt self.old (calls self.new) → ⊥) →
            IfErr result (λ e. error_kind e ≡ ErrorKind.OutOfMemory) }
        ensures most { IfOk result (λ n. n ≡ min (length bytes.now) (greatest_count self.old)) }
        ensures numbered { IsNumbered self.old self.new }
    {
        self.call()?;
        let n = bytes.len().min(self.most);
        let outcome = put_and_keep(&mut self.bytes, &mut self.past, self.place, &bytes[..n]);
        count_fault(outcome, &mut self.faults)?;
        self.place += n as u64;
        Ok(n)
    }

    fn flush(&mut self) -> io::Result<()>
        ensures flushes { let state = ⟦<Journal as Placed>⟧.state in Flushes result (state self.old) (state self.new) }
        ensures fails { IsErr result ↔ FailsAt self.old (calls self.new) }
        ensures numbered { IsNumbered self.old self.new }
    {
        self.call()?;
        self.flushed = self.taken();
        Ok(())
    }
}

impl io::Read for Journal {
    ghost use Rattle.hound_medium.specs.Journal.{FailsAt, IsNumbered, calls, greatest_count};

    ghost remaining = { λ j. Some (drop j.place j.bytes.items) };

    #[inline]
    fn read(&mut self, buf: &mut [u8]) -> io::Result<usize>
        ensures bound { ReadsAtMost result buf.new }
        ensures bytes { ReadConsumes (⟦<Journal as io::Read>⟧.remaining self.old)
            (⟦<Journal as io::Read>⟧.remaining self.new) result buf.new }
        ensures gets { let state = ⟦<Journal as Placed>⟧.state in
            Gets buf.new result (state self.old) (state self.new) }
        ensures fails { IsErr result ↔ FailsAt self.old (calls self.new) }
        ensures most { let state = ⟦<Journal as Placed>⟧.state self.old in
            IfOk result (λ n. n ≡ min (length (drop state.place state.contents))
            (min (length buf.old) (greatest_count self.old))) }
        ensures numbered { IsNumbered self.old self.new }
    {
        self.get(buf)
    }
}

impl Source for Journal {
    ghost use Rattle.hound_medium.specs.Journal.{FailsAt, IsNumbered, calls, greatest_count};

    ghost left = { λ j _. refl };

    #[inline]
    fn get(&mut self, buf: &mut [u8]) -> io::Result<usize>
        ensures bound { IfOk result (λ n. n ≤ length buf.new) }
        ensures gets { let state = ⟦<Journal as Placed>⟧.state in
            Gets buf.new result (state self.old) (state self.new) }
        ensures fails { IsErr result ↔ FailsAt self.old (calls self.new) }
        ensures most { let state = ⟦<Journal as Placed>⟧.state self.old in
            IfOk result (λ n. n ≡ min (length (drop state.place state.contents))
            (min (length buf.old) (greatest_count self.old))) }
        ensures numbered { IsNumbered self.old self.new }
    {
        self.call()?;
        let room = buf.len().min(self.most);
        let n = copy_from(&self.bytes, self.place, &mut buf[..room]);
        self.place += n as u64;
        Ok(n)
    }
}
