// The traits that readers and writers are generic over, the same for a `&mut`, and the loop over `put`.
ghost use Rattle.std.specs.Prelude.{◌≡◌, ◌+◌, ◌<◌, ◌≤◌, Bool, false, length, drop, Some, IfOk};
ghost use Rattle.hound_number.specs.{AreBytes};
ghost use Rattle.hound_medium.specs.State.{overlay, unknown, MediumState, Goes, Shifts, Gets, Puts, Flushes, WhereTells, WhereKeeps, PutsAll, faults_after};

use std::io;

/// A place among bytes, counted in bytes from 0. It can be past the end.
///
/// Implemented for [`Tape`](crate::Tape), [`Journal`](crate::Journal), `BufReader<File>`, `BufWriter<File>`, and a
/// `&mut` to any such type, so that a medium can be lent.
///
/// If it `tells`, contracts know its bytes; `state` says nothing of any other. Then an `Err` of any call, of `put`,
/// `flush` and `get` too, changes only the count of faults. A new value is at 0, where a writer has to begin; `go(0)`
/// leads there again.
pub trait Placed: Drop {
    /// `tells`: the medium's bytes are known to contracts, as for `Tape` and `Journal`, not files.
    ghost tells: { Bool } = { false };

    /// `keeps`: it records every byte written, with its place, as `Journal` does.
    ghost keeps: { Bool } = { false };

    /// The bytes, the place, the count of faults, and the recorded past, if they are known.
    ghost state: { Self → MediumState } = { λ _. unknown };

    /// Seeks to a place, counted from the beginning. One past the end is allowed; the bytes stay.
    fn go(&mut self, to: u64) -> io::Result<()>
        ensures { WhereTells tells (Goes to result (state self.old) (state self.new)) };

    /// Seeks by this many bytes, back if negative. It is an error if the new place would be below 0 or above
    /// `u64::MAX`.
    fn shift(&mut self, by: i64) -> io::Result<()>
        ensures { WhereTells tells (Shifts by result (state self.old) (state self.new)) };

    /// A law: each of the known bytes is below 256.
    ghost bytes: { (m : Self) → WhereTells tells (AreBytes (state m).contents) };
}

/// A place that bytes are written at: what a `WavWriter` writes into.
///
/// Implemented for [`Tape`](crate::Tape), [`Journal`](crate::Journal), `BufWriter<File>`, and a `&mut` to any such
/// type. Your own needs `put` and `flush`, those of [`Placed`] and their laws, and the writer's contracts hold over it.
pub trait Medium: Placed {
    /// Writes bytes at the place, as many as it takes at once, moves after them, and returns their number, at least 1.
    /// Zeros fill a gap after the old end. `bytes` must not be empty. An `Err` writes none.
    fn put(&mut self, bytes: &[u8]) -> io::Result<usize>
        requires { 0 < length bytes.now }
        ensures bound { IfOk result (λ n. (1 ≤ n) × (n ≤ length bytes.now)) }
        ensures puts { WhereTells Self.tells
            (Puts Self.keeps bytes.now result (Self.state self.old) (Self.state self.new)) };

    /// Passes all bytes written on to what the medium writes into, as a file; the place stays.
    fn flush(&mut self) -> io::Result<()>
        ensures { WhereTells Self.tells (Flushes result (Self.state self.old) (Self.state self.new)) };

    /// A law: the bytes written lead from the first contents to those of now.
    ghost replays: { (m : Self) → WhereKeeps Self.tells Self.keeps
        ((Self.state m).contents ≡ overlay (Self.state m).start (Self.state m).past) };
}

/// A place that bytes are read from: what `WavReader::seek` and the calls that append need.
///
/// Implemented for [`Tape`](crate::Tape), [`Journal`](crate::Journal), `BufReader<File>`, and a `&mut` to any such
/// type. A `BufWriter<File>` is none, so a file is appended to by `WavWriter::append`.
pub trait Source: io::Read + Placed {
    /// Reads bytes at the place into the front of the buffer, moves after them, and returns their number, 0 only at the
    /// end or for an empty buffer. Unlike `read`, its contract gives the place and the count of faults.
    fn get(&mut self, buf: &mut [u8]) -> io::Result<usize>
        ensures bound { IfOk result (λ n. n ≤ length buf.new) }
        ensures gets { WhereTells Self.tells (Gets buf.new result (Self.state self.old) (Self.state self.new)) };

    /// A law: what is left to be read is the contents from the place on.
    ghost left: { (s : Self) → WhereTells Self.tells
        (Self.remaining s ≡ Some (drop (Self.state s).place (Self.state s).contents)) };
}

impl<P: Placed> Placed for &mut P {
    ghost tells = { P.tells };

    ghost keeps = { P.keeps };

    ghost state = { λ m. P.state m.now };

    ghost bytes = { λ m. P.bytes m.now };

    fn go(&mut self, to: u64) -> io::Result<()> {
        Placed::go(&mut **self, to)
    }

    fn shift(&mut self, by: i64) -> io::Result<()> {
        Placed::shift(&mut **self, by)
    }
}

impl<M: Medium> Medium for &mut M {
    ghost replays = { λ m. M.replays m.now };

    #[inline(always)]
    fn put(&mut self, bytes: &[u8]) -> io::Result<usize> {
        Medium::put(&mut **self, bytes)
    }

    fn flush(&mut self) -> io::Result<()> {
        Medium::flush(&mut **self)
    }
}

impl<S: Source> Source for &mut S {
    ghost left = { λ s. S.left s.now };

    #[inline]
    fn get(&mut self, buf: &mut [u8]) -> io::Result<usize> {
        Source::get(&mut **self, buf)
    }
}

/// Writes all of the bytes, in order, or stops at the first `put` that fails.
///
/// At an `Err` a beginning of the bytes may be written, and the place is after it. If there are no bytes, `put` isn't
/// called.
#[inline(always)]
pub fn put_all<M: Medium>(medium: &mut M, bytes: &[u8]) -> io::Result<()>
    ensures { WhereTells M.tells (PutsAll M.keeps bytes.now result (M.state medium.old) (M.state medium.new)) }
{
    let mut at = 0;
    while at < bytes.len() {
        match medium.put(&bytes[at..]) {
            Ok(count) => at += count,
            Err(error) => return Err(error),
        }
    }
    Ok(())
}

/// The same result, where an `Err` has counted a fault; the count stays at `u64::MAX` once there.
#[inline(always)]
pub fn count_fault<T, E>(outcome: Result<T, E>, faults: &mut u64) -> Result<T, E>
    ensures same { outcome ≡ result }
    ensures faults { faults.new ≡ faults_after result faults.old }
{
    if outcome.is_err() {
        *faults = faults.saturating_add(1);
    }
    outcome
}
