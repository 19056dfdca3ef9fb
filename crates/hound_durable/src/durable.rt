// A medium around another that flushes it before it goes back.
ghost use Rattle.std.specs.Prelude.{◌≡◌, ◌+◌, ◌^◌, ◌<◌, ◌≤◌, ◌+ℤ◌, pos, [], length, IfOk, OnOk, MatchResult, SomeIff, unsigned_abs};
ghost use Rattle.std.specs.Int.{FitsUnsigned, w64};
ghost use Rattle.std.specs.Io.{ReadsAtMost};
ghost use Rattle.std.specs.Io.KnownBytes.{ReadConsumes};
ghost use Rattle.hound_medium.specs.{Goes, Shifts, Gets, Puts, Flushes, Stays, WhereTells, WhereKeeps, faults_after, one_more};
ghost use Rattle.hound_durable.specs.Losses.{Ascends, IsBelow, IsItsFault, IsLastBefore, LeadsBack, OnlySyncs, own, left_of, replays_own, left_own};

use hound_medium::{Medium, Placed, Source, count_fault};
use std::io;
use std::io::ErrorKind;

/// A medium around another one, which it flushes before each step to or before a byte that was written since the last
/// flush.
///
/// A `WavWriter` writes samples after all that the file has, and then the sizes before them. So over a `Durable` the
/// samples are flushed before the sizes are written, and again after them, and a loss of power at any time leaves a
/// length that counts no more samples than the file has.
///
/// If the medium within `tells`, so does this one, with the same bytes. Its counts of faults and of flushed bytes are
/// its own: a flush that comes before a step back counts as part of it. If that flush fails, the step is the one fault,
/// and nothing has moved. Each of its faults is one of the medium within, too (`IsItsFault`), so it has counted no more
/// than that one ([`a_durable_medium_ascends`](crate::a_durable_medium_ascends)).
///
/// Its places go up to `i64::MAX`, as those of a file do. A call that leads past that, and one that writes more bytes
/// than 64 bits can count, fails as a step before the first byte does.
#[derive(Drop)]
pub struct Durable<M: Medium> {
    inner: M,
    place: u64,
    // After the highest of the bytes written since the last flush of the medium within.
    end: u64,
    taken: u64,
    flushed: u64,
    faults: u64,
    ghost is_there: { WhereTells M.tells ((M.state inner).place ≡ place) },
    ghost counts: { WhereKeeps M.tells M.keeps (length (M.state inner).past ≡ taken) },
    ghost after: { end ≤ place },
    ghost covered: { WhereKeeps M.tells M.keeps (IsBelow end (M.state inner).past (M.state inner).flushed) },
    ghost last: { WhereKeeps M.tells M.keeps (IsLastBefore end (M.state inner).past (M.state inner).flushed) },
    ghost ascends: { WhereKeeps M.tells M.keeps
        (Ascends (M.state inner).past (M.state inner).flushed (length (M.state inner).past)) },
    ghost marked: { WhereKeeps M.tells M.keeps (flushed ≤ (M.state inner).flushed) },
    ghost known: { WhereKeeps M.tells M.keeps ((M.state inner).flushed ≤ length (M.state inner).past) },
    ghost low: { place < 2 ^ 63 },
    ghost counted: { WhereTells M.tells (faults ≤ (M.state inner).faults) },
}

impl<M: Medium> Durable<M> {
    ghost use Rattle.hound_durable.specs.Durables.{within, synced};

    /// A medium around a new one, at its place 0, into which nothing has been written yet.
    pub fn new(inner: M) -> Durable<M>
        requires place { WhereTells M.tells ((M.state inner).place ≡ 0) }
        requires past { WhereKeeps M.tells M.keeps ((M.state inner).past ≡ []) }
        requires flushed { WhereKeeps M.tells M.keeps ((M.state inner).flushed ≡ 0) }
        ensures contents { (⟦<Durable<M> as Placed>⟧.state result).contents ≡ (M.state inner).contents }
        ensures place { (⟦<Durable<M> as Placed>⟧.state result).place ≡ (M.state inner).place }
        ensures faults { (⟦<Durable<M> as Placed>⟧.state result).faults ≡ 0 }
        ensures start { (⟦<Durable<M> as Placed>⟧.state result).start ≡ (M.state inner).start }
        ensures past { WhereKeeps M.tells M.keeps ((⟦<Durable<M> as Placed>⟧.state result).past ≡ []) }
        ensures flushed { WhereKeeps M.tells M.keeps ((⟦<Durable<M> as Placed>⟧.state result).flushed ≡ 0) }
        ensures within { within result ≡ M.state inner }
    {
        Durable {
            inner,
            place: 0,
            end: 0,
            taken: 0,
            flushed: 0,
            faults: 0,
        }
    }

    /// The medium within, as it is.
    pub fn into_inner(self) -> M
        ensures { M.state result ≡ within self }
    {
        let Durable { inner, .. } = self;
        inner
    }

    // Flushes the medium within.
    fn sync(&mut self) -> io::Result<()>
        ensures stays { WhereTells M.tells (Stays (within self.old) (within self.new)) }
        ensures place { WhereTells M.tells ((within self.new).place ≡ (within self.old).place) }
        ensures taken { self.new.taken ≡ self.old.taken }
        ensures flushed { self.new.flushed ≡ self.old.flushed }
        ensures faults { self.new.faults ≡ faults_after result self.old.faults }
        ensures end { OnOk result (self.new.end ≡ 0) }
        ensures syncs { WhereTells M.tells (MatchResult result (λ _. synced self.new ≡ length (within self.new).past)
            (λ _. synced self.new ≡ synced self.old)) }
        ensures fault { WhereTells M.tells ((within self.new).faults ≡ faults_after result (within self.old).faults) }
    {
        count_fault(Medium::flush(&mut self.inner), &mut self.faults)?;
        self.end = 0;
        Ok(())
    }

    // The fault of a call that no place or count allows: that of a step before the first byte, which the medium within
    // rejects.
    fn fail(&mut self) -> io::Error
        ensures stays { WhereTells M.tells (Stays (within self.old) (within self.new)) }
        ensures place { WhereTells M.tells ((within self.new).place ≡ (within self.old).place) }
        ensures flushed { WhereTells M.tells (synced self.new ≡ synced self.old) }
        ensures fault { WhereTells M.tells ((within self.new).faults ≡ one_more (within self.old).faults) }
        ensures counts { self.new.faults ≡ one_more self.old.faults }
        ensures own_flushed { self.new.flushed ≡ self.old.flushed }
    {
        let outcome = self.inner.shift(i64::MIN);
        self.faults = self.faults.saturating_add(1);
        match outcome {
            Ok(()) => io::Error::from(ErrorKind::InvalidInput),
            Err(error) => error,
        }
    }
}

// The place so many bytes after another one, or before it if negative, if there is one.
fn place_from(place: u64, by: i64) -> Option<u64>
    ensures { SomeIff result (FitsUnsigned w64 (pos place +ℤ by)) (unsigned_abs (pos place +ℤ by)) }
{
    if by < 0 {
        place.checked_sub(by.unsigned_abs())
    } else {
        place.checked_add(by as u64)
    }
}

impl<M: Medium> Placed for Durable<M> {
    ghost use Rattle.hound_durable.specs.Durables.{within, synced};

    ghost tells = { M.tells };

    ghost keeps = { M.keeps };

    ghost state = { λ d. own M.keeps (M.state d.inner) d.faults d.flushed };

    ghost bytes = { λ d. M.bytes d.inner };

    fn go(&mut self, to: u64) -> io::Result<()>
        ensures goes { let state = ⟦<Durable<M> as Placed>⟧.state in
            WhereTells M.tells (Goes to result (state self.old) (state self.new)) }
        ensures barrier { WhereKeeps M.tells M.keeps (LeadsBack to (within self.old).past (synced self.old)
            → OnOk result (synced self.new ≡ length (within self.new).past)) }
        ensures needed { WhereKeeps M.tells M.keeps ((LeadsBack to (within self.old).past (synced self.old) → ⊥)
            → synced self.new ≡ synced self.old) }
        ensures only_syncs { WhereKeeps M.tells M.keeps (OnlySyncs (within self.old) (within self.new)) }
        ensures fault { WhereTells M.tells (IsItsFault result (within self.old) (within self.new)) }
    {
        if to > i64::MAX as u64 {
            return Err(self.fail());
        }
        if to < self.end {
            self.sync()?;
        }
        count_fault(self.inner.go(to), &mut self.faults)?;
        self.place = to;
        Ok(())
    }

    fn shift(&mut self, by: i64) -> io::Result<()>
        ensures shifts { let state = ⟦<Durable<M> as Placed>⟧.state in
            WhereTells M.tells (Shifts by result (state self.old) (state self.new)) }
        ensures barrier { WhereKeeps M.tells M.keeps
            (LeadsBack (within self.new).place (within self.old).past (synced self.old)
            → OnOk result (synced self.new ≡ length (within self.new).past)) }
        ensures needed { WhereKeeps M.tells M.keeps
            ((LeadsBack (within self.new).place (within self.old).past (synced self.old) → ⊥)
            → OnOk result (synced self.new ≡ synced self.old)) }
        ensures only_syncs { WhereKeeps M.tells M.keeps (OnlySyncs (within self.old) (within self.new)) }
        ensures fault { WhereTells M.tells (IsItsFault result (within self.old) (within self.new)) }
    {
        match place_from(self.place, by) {
            Some(to) => self.go(to),
            None => Err(self.fail()),
        }
    }
}

impl<M: Medium> Medium for Durable<M> {
    ghost use Rattle.hound_durable.specs.Durables.{within, synced};

    ghost replays = { λ d tells keeps.
        replays_own M.keeps (M.state d.inner) d.faults d.flushed keeps (M.replays d.inner tells keeps) };

    /// As that of the medium within. It is also an `Err` if the end of the bytes would pass `i64::MAX`, or the count of
    /// all bytes written `u64::MAX`.
    fn put(&mut self, bytes: &[u8]) -> io::Result<usize>
        requires { 0 < length bytes.now }
        ensures bound { IfOk result (λ n. (1 ≤ n) × (n ≤ length bytes.now)) }
        ensures puts { let state = ⟦<Durable<M> as Placed>⟧.state in
            WhereTells M.tells (Puts M.keeps bytes.now result (state self.old) (state self.new)) }
        ensures synced { WhereKeeps M.tells M.keeps (synced self.new ≡ synced self.old) }
        ensures fault { WhereTells M.tells (IsItsFault result (within self.old) (within self.new)) }
    {
        let room = (i64::MAX as u64 - self.place).min(u64::MAX - self.taken);
        if room < bytes.len() as u64 {
            return Err(self.fail());
        }
        let n = count_fault(self.inner.put(bytes), &mut self.faults)?;
        self.place += n as u64;
        self.taken += n as u64;
        self.end = self.place;
        Ok(n)
    }

    fn flush(&mut self) -> io::Result<()>
        ensures flushes { let state = ⟦<Durable<M> as Placed>⟧.state in
            WhereTells M.tells (Flushes result (state self.old) (state self.new)) }
        ensures syncs { WhereKeeps M.tells M.keeps (MatchResult result
            (λ _. synced self.new ≡ length (within self.new).past) (λ _. synced self.new ≡ synced self.old)) }
        ensures fault { WhereTells M.tells (IsItsFault result (within self.old) (within self.new)) }
    {
        self.sync()?;
        self.flushed = self.taken;
        Ok(())
    }
}

impl<M: Medium + Source> io::Read for Durable<M> {
    ghost use Rattle.hound_durable.specs.Durables.{within, synced};

    ghost remaining = { λ d. left_of M.tells (M.state d.inner) };

    #[inline]
    fn read(&mut self, buf: &mut [u8]) -> io::Result<usize>
        ensures bound { ReadsAtMost result buf.new }
        ensures bytes { ReadConsumes (⟦<Durable<M> as io::Read>⟧.remaining self.old)
            (⟦<Durable<M> as io::Read>⟧.remaining self.new) result buf.new }
        ensures gets { let state = ⟦<Durable<M> as Placed>⟧.state in
            WhereTells M.tells (Gets buf.new result (state self.old) (state self.new)) }
        ensures synced { WhereKeeps M.tells M.keeps (synced self.new ≡ synced self.old) }
        ensures fault { WhereTells M.tells (IsItsFault result (within self.old) (within self.new)) }
    {
        self.get(buf)
    }
}

impl<M: Medium + Source> Source for Durable<M> {
    ghost use Rattle.hound_durable.specs.Durables.{within, synced};

    ghost left = { λ d tells. left_own M.tells (M.state d.inner) tells };

    #[inline]
    fn get(&mut self, buf: &mut [u8]) -> io::Result<usize>
        ensures bound { IfOk result (λ n. n ≤ length buf.new) }
        ensures gets { let state = ⟦<Durable<M> as Placed>⟧.state in
            WhereTells M.tells (Gets buf.new result (state self.old) (state self.new)) }
        ensures synced { WhereKeeps M.tells M.keeps (synced self.new ≡ synced self.old) }
        ensures fault { WhereTells M.tells (IsItsFault result (within self.old) (within self.new)) }
    {
        if i64::MAX as u64 - self.place < buf.len() as u64 {
            return Err(self.fail());
        }
        let n = count_fault(Source::get(&mut self.inner, buf), &mut self.faults)?;
        self.place += n as u64;
        Ok(n)
    }
}
