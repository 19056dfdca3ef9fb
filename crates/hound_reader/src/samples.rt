// The iterators over samples.
ghost use Rattle.std.specs.Prelude.{◌≡◌, IfSome, Some};
ghost use Rattle.std.specs.Iterator.{at_most, UpTo};
ghost use Rattle.std.specs.Iterator.SizeHint.{IsWithinCount};
ghost use Rattle.hound_reader.specs.Reader.{samples_left};

use crate::reader::WavReader;
use hound_sample::Sample;
use hound_spec::{Result, WavSpecEx};
use std::io;
use std::marker::PhantomData;

/// An iterator over the samples that a reader has left; `size_hint` and `len` say how many.
///
/// An `Ok` takes exactly one container. An error of the type takes no byte, and counts as an item. So does a sample
/// that a fault or the end of the input cut, an `IoError`, which leaves the reader after the bytes that were taken:
/// items after it mean nothing until an Ok seek. After the last item comes None, on every call.
#[derive(Drop)]
pub struct WavSamples<'wr, R, S> {
    pub(crate) reader: &'wr mut WavReader<R>,
    // A copy of the reader's, which a loop over the items can keep in registers.
    pub(crate) spec_ex: WavSpecEx,
    pub(crate) phantom_sample: PhantomData<S>,
    ghost same: { spec_ex ≡ reader.now.spec_ex },
}

impl<R: io::Read + Drop, S: Sample> Iterator for WavSamples<'_, R, S> {
    ghost use Rattle.hound_reader.specs.Samples.{lent_reader, LendsNext};

    type Item = Result<S>;

    ghost next_gives = { LendsNext R.remaining S.rejection S.meaning };

    ghost remaining = { λ s. at_most (samples_left (lent_reader s)) };

    #[inline(always)]
    fn next(&mut self) -> Option<Result<S>> {
        let no_sample = match self.reader.next_item(self.spec_ex)? {
            Ok(sample) => return Some(Ok(sample)),
            Err(no_sample) => no_sample,
        };
        Some(Err(self.reader.error_for(no_sample)))
    }

    fn size_hint(&self) -> (usize, Option<usize>)
        ensures lower { IsWithinCount result.0 (at_most (samples_left (lent_reader self.now))) }
        ensures upper { IfSome result.1 (UpTo (at_most (samples_left (lent_reader self.now)))) }
        ensures exact { (result.0 ≡ samples_left (lent_reader self.now))
            × (result.1 ≡ Some (samples_left (lent_reader self.now))) }
    {
        let left = self.len();
        (left, Some(left))
    }
}

impl<R: io::Read + Drop, S: Sample> ExactSizeIterator for WavSamples<'_, R, S> {
    fn len(&self) -> usize {
        self.reader.samples_left() as usize
    }
}

/// The same iterator as [`WavSamples`], which owns its reader.
#[derive(Drop)]
pub struct WavIntoSamples<R, S> {
    pub(crate) reader: WavReader<R>,
    pub(crate) spec_ex: WavSpecEx,
    pub(crate) phantom_sample: PhantomData<S>,
    ghost same: { spec_ex ≡ reader.spec_ex },
}

impl<R: io::Read + Drop, S: Sample> Iterator for WavIntoSamples<R, S> {
    ghost use Rattle.hound_reader.specs.Samples.{taken_reader, TakesNext};

    type Item = Result<S>;

    ghost next_gives = { TakesNext R.remaining S.rejection S.meaning };

    ghost remaining = { λ s. at_most (samples_left (taken_reader s)) };

    #[inline(always)]
    fn next(&mut self) -> Option<Result<S>> {
        let no_sample = match self.reader.next_item(self.spec_ex)? {
            Ok(sample) => return Some(Ok(sample)),
            Err(no_sample) => no_sample,
        };
        Some(Err(self.reader.error_for(no_sample)))
    }

    fn size_hint(&self) -> (usize, Option<usize>)
        ensures exact { (result.0 ≡ samples_left (taken_reader self.now))
            × (result.1 ≡ Some (samples_left (taken_reader self.now))) }
    {
        (self.len(), Some(self.len()))
    }
}

impl<R: io::Read + Drop, S: Sample> ExactSizeIterator for WavIntoSamples<R, S> {
    fn len(&self) -> usize {
        self.reader.samples_left() as usize
    }
}
