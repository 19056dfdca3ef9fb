// Items: a reader that saves its last fault, and one that counts the bytes that it gives.
ghost use Rattle.std.specs.Prelude.{◌≡◌, ◌<◌, ◌≤◌, List, Option, Result, ℕ, None, IsSome, IfSome, length, take};
ghost use Rattle.hound_sample.specs.{FillsFront, answer_of};
ghost use Rattle.hound_sample.specs.declared.item.SampleError.{SampleError};
ghost use Rattle.hound_reader.specs.Reader.{AnswersReadMany, rejection_at, AnswersRead, taken_without, HasGiven, HasGiven-prop};
ghost use Rattle.std.specs.Borrow.{GName};
ghost use Rattle.std.specs.IoError.{error_kind};
ghost use Rattle.std.specs.declared.io.ErrorKind.TheVariants.{Other};
ghost use Rattle.std.specs.Io.KnownBytes.{Consumes, Keeps};
ghost use Rattle.hound_spec.specs.declared.spec.WavSpecEx.{WavSpecEx};

use hound_number::early_end;
use hound_sample::{ContainerReader, Sample, SampleError, error_of_sample, reason_of};
use hound_spec::WavSpecEx;
use std::{io, marker, result};

/// How many bytes an item without a sample took, of those given for it.
#[inline(always)]
pub(crate) fn taken_without(no_sample: SampleError, given: u64, width: u16) -> u64
    ensures { result ≡ taken_without no_sample given width }
{
    match no_sample {
        SampleError::Failed => given.min(width as u64),
        _ => 0,
    }
}

/// What a block returns for how it ended, with this saved fault.
#[inline(always)]
pub(crate) fn result_of(
    answer: result::Result<(), SampleError>,
    fault: &io::Error,
) -> hound_spec::Result<()>
    ensures { result ≡ answer_of answer fault.now }
{
    match answer {
        Ok(()) => Ok(()),
        Err(no_sample) => Err(error_of_sample(no_sample, fault)),
    }
}

/// The end is saved as a fault.
#[cold]
#[inline(never)]
pub(crate) fn keep_end(fault: &mut io::Error)
    ensures { error_kind fault.new ≡ Other }
{
    *fault = early_end();
}

/// A reader, and the last fault of its reads, or its end, if that came later.
///
/// An `io::Error` is large, and a read that is not inlined passes it in memory. So the one call of `read` returns a
/// number, and the fault goes straight from here to where it is reported.
#[derive(Drop)]
pub(crate) struct SavingReader<R> {
    pub(crate) reader: R,
    pub(crate) fault: io::Error,
}

impl<R: io::Read> SavingReader<R> {
    /// How many bytes a read gives, if it doesn't fail. The fault is saved, and so is the end.
    #[inline(always)]
    pub(crate) fn read_or_save_error(&mut self, buf: &mut [u8]) -> Option<usize>
        ensures within { IfSome result (λ n. n ≤ length buf.new) }
        ensures bytes { IfSome result (λ n.
            Consumes (R.remaining self.old.reader) (R.remaining self.new.reader) (take n buf.new)) }
        ensures failed { result ≡ None → Keeps (R.remaining self.old.reader) (R.remaining self.new.reader) }
    {
        match self.reader.read(buf) {
            Ok(0) => {
                keep_end(&mut self.fault);
                Some(0)
            }
            Ok(count) => Some(count),
            Err(fault) => {
                self.fault = fault;
                None
            }
        }
    }

    // Fills the front of a buffer as `fill` does, by a loop.
    #[cold]
    #[inline(never)]
    fn fill_rest(&mut self, buf: &mut [u8]) -> usize
        ensures within { result ≤ length buf.new }
        ensures bytes { Consumes (R.remaining self.old.reader) (R.remaining self.new.reader) (take result buf.new) }
    {
        let mut at = 0;
        while at < buf.len() {
            match self.read_or_save_error(&mut buf[at..]) {
                None | Some(0) => return at,
                Some(count) => at += count,
            }
        }
        at
    }

    /// Fills the front of a buffer, all of it unless a read fails or the input ends, and returns how many bytes. The
    /// first read mostly fills it, so the others are in a cold call.
    #[inline(always)]
    fn fill(&mut self, buf: &mut [u8]) -> usize
        ensures within { result ≤ length buf.new }
        ensures bytes { Consumes (R.remaining self.old.reader) (R.remaining self.new.reader) (take result buf.new) }
    {
        match self.read_or_save_error(buf) {
            None | Some(0) => 0,
            Some(count) if count == buf.len() => count,
            Some(count) => count + self.fill_rest(&mut buf[count..]),
        }
    }
}

/// Where counting begins, as contracts see it: a generic call leaves of a reader only what is in its type. A `Brand` is
/// one, whose members are chosen where it is passed.
pub(crate) trait CountStart {
    /// The bytes that were left then, if they are known.
    ghost left: { Option (List ℕ) };

    /// The name of the reference to the reader.
    ghost lender: { GName };
}

impl CountStart for marker::Brand {
    ghost left = { None };

    ghost lender = { 0 };
}

/// A reader, and the number of bytes that it gave since counting began, at most `u64::MAX`. A type may read an item
/// however it likes, and a later `seek` has to know what was really taken.
#[derive(Drop)]
pub(crate) struct CountingReader<'a, R: io::Read, B: CountStart> {
    pub(crate) reader: &'a mut SavingReader<R>,
    pub(crate) given: u64,
    pub(crate) since: marker::PhantomData<B>,
    ghost counts: { HasGiven B.left given (R.remaining reader.now.reader) } by { HasGiven-prop B.left given (R.remaining reader.now.reader) },
    ghost stays: { reader.ghost_name ≡ B.lender },
}

impl<R: io::Read, B: CountStart> io::Read for CountingReader<'_, R, B> {
    ghost remaining = { λ c. R.remaining c.reader.now.reader };

    #[inline(always)]
    fn read(&mut self, buf: &mut [u8]) -> io::Result<usize> {
        match self.reader.read_or_save_error(buf) {
            Some(count) if count > 0 || buf.is_empty() => {
                self.given = self.given.saturating_add(count as u64);
                Ok(count)
            }
            // Whatever this one is, callers get the fault that was saved.
            _ => Err(io::ErrorKind::Other.into()),
        }
    }
}

impl<R: io::Read, B: CountStart> CountingReader<'_, R, B> {
    // The next bytes, as many as the array has: a constant number, which needs no call that copies.
    #[inline(always)]
    fn next_array<const N: usize>(&mut self) -> Option<[u8; N]>
        ensures whole { IfSome result (Consumes (R.remaining self.old.reader.now.reader)
            (R.remaining self.new.reader.now.reader)) }
        ensures part { result ≡ None → (taken : List ℕ) × (length taken < N)
            × Consumes (R.remaining self.old.reader.now.reader) (R.remaining self.new.reader.now.reader) taken }
    {
        let mut bytes = [0; N];
        let count = self.reader.fill(&mut bytes);
        self.given = self.given.saturating_add(count as u64);
        if count == N {
            return Some(bytes);
        }
        None
    }
}

impl<R: io::Read, B: CountStart> ContainerReader for CountingReader<'_, R, B> {
    #[inline(always)]
    fn next_container(&mut self, width: u16) -> Option<[u8; 4]> {
        match width {
            1 => {
                let [a] = self.next_array::<1>()?;
                Some([a, 0, 0, 0])
            }
            2 => {
                let [a, b] = self.next_array::<2>()?;
                Some([a, b, 0, 0])
            }
            3 => {
                let [a, b, c] = self.next_array::<3>()?;
                Some([a, b, c, 0])
            }
            _ => self.next_array::<4>(),
        }
    }
}

/// Reads a sample of this spec into `answer`, and returns how many bytes the reader gave for it, where counting begins
/// now. The reference comes back so that contracts know it for the same.
#[inline(always)]
pub(crate) fn read_item_since<'a, R: io::Read, S: Sample, B: CountStart>(
    reader: &'a mut SavingReader<R>,
    spec_ex: WavSpecEx,
    answer: &mut result::Result<S, SampleError>,
) -> (&'a mut SavingReader<R>, u64)
    requires left { B.left ≡ R.remaining reader.now.reader }
    requires lender { B.lender ≡ reader.ghost_name }
    ensures answers { AnswersRead S.rejection S.meaning spec_ex (R.remaining reader.entry.now.reader)
        (R.remaining result.0.now.reader) answer.new }
    ensures untouched { IsSome (rejection_at S.rejection spec_ex) → result.0.now ≡ reader.entry.now }
    ensures given { HasGiven (R.remaining reader.entry.now.reader) result.1 (R.remaining result.0.now.reader) }
    ensures stays { result.0.ghost_name ≡ reader.entry.ghost_name }
{
    let mut counting = CountingReader {
        reader,
        given: 0,
        since: marker::PhantomData::<B>,
    };
    let (format, bits) = (spec_ex.spec.sample_format, spec_ex.spec.bits_per_sample);
    *answer = S::read_item(&mut counting, format, spec_ex.bytes_per_sample, bits);
    (counting.reader, counting.given)
}

// Reads samples as the type's `read_many`, and returns the reason of its error: the kit covers no call with a
// `CountingReader` whose signature has an `Error`, which holds a reference itself.
#[inline(always)]
fn read_many<R: io::Read, S: Sample>(
    reader: &mut R,
    spec_ex: WavSpecEx,
    samples: &mut [S],
) -> (usize, result::Result<(), SampleError>)
    ensures answers { AnswersReadMany S.rejection S.meaning spec_ex (R.remaining reader.old)
        (R.remaining reader.new) (take result.0 samples.new) result.1 }
    ensures front { FillsFront result.0 result.1 samples.old samples.new }
    ensures untouched { IsSome (rejection_at S.rejection spec_ex) → reader.new ≡ reader.old }
{
    let (format, bits) = (spec_ex.spec.sample_format, spec_ex.spec.bits_per_sample);
    let (count, read) = S::read_many(reader, samples, format, spec_ex.bytes_per_sample, bits);
    match read {
        Ok(()) => (count, Ok(())),
        Err(error) => (count, Err(reason_of(error))),
    }
}

/// Reads samples as [`read_item_since`] does, those that are requested at once.
#[inline(always)]
pub(crate) fn read_many_since<'a, R: io::Read, S: Sample, B: CountStart>(
    reader: &'a mut SavingReader<R>,
    spec_ex: WavSpecEx,
    samples: &mut [S],
    answer: &mut (usize, result::Result<(), SampleError>),
) -> (&'a mut SavingReader<R>, u64)
    requires left { B.left ≡ R.remaining reader.now.reader }
    requires lender { B.lender ≡ reader.ghost_name }
    ensures answers { AnswersReadMany S.rejection S.meaning spec_ex
        (R.remaining reader.entry.now.reader) (R.remaining result.0.now.reader)
        (take answer.new.0 samples.new) answer.new.1 }
    ensures front { FillsFront answer.new.0 answer.new.1 samples.old samples.new }
    ensures untouched { IsSome (rejection_at S.rejection spec_ex) → result.0.now ≡ reader.entry.now }
    ensures given { HasGiven (R.remaining reader.entry.now.reader) result.1 (R.remaining result.0.now.reader) }
    ensures stays { result.0.ghost_name ≡ reader.entry.ghost_name }
{
    let mut counting = CountingReader {
        reader,
        given: 0,
        since: marker::PhantomData::<B>,
    };
    *answer = read_many(&mut counting, spec_ex, samples);
    (counting.reader, counting.given)
}
