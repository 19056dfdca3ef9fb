// The file that a writer writes.
ghost use Rattle.std.specs.Prelude.{◌≡◌, ◌+◌, ◌^◌, ◌≤◌, IsTrue};
ghost use Rattle.hound_spec.specs.{riff_size};
ghost use Rattle.hound_writer.specs.Parts.{IsLimit, IsPublishResult};

use crate::block::{BLOCK_LENGTH, Block};
use crate::end::{patch, put_at_end, put_samples_at_end};
use hound_medium::Medium;
use hound_sample::{Sample, SampleError, check_containers, have_containers, reason_of};
use hound_spec::{Error, Result, WavSpecEx, riff_size, riff_size_fits};
use std::marker::Model;
use std::{io, result};

/// A file that is being written: what a writer has, except for the saved fault.
#[derive(Drop)]
pub(crate) struct Output<W: Medium> {
    // The properties of the audio data, and the bytes of a container.
    spec_ex: WavSpecEx,
    // The medium that the file goes to.
    pub(crate) writer: W,
    // The place of the first data byte.
    data_start: u64,
    // How many bytes of the accepted samples are written.
    data_bytes_written: u32,
    // Whether the medium may be elsewhere than after these.
    may_have_moved: bool,
    // The buffered accepted samples, which are written after these.
    block: Block,
    // Below this many buffered bytes there is room for a sample, in the block and in the file.
    fast_path_limit: usize,
    // The memory that batches use, which later ones reuse.
    pub(crate) batch_memory: Option<Vec<i16>>,
}

impl<W: Medium> Model for Output<W> {
    ghost use Rattle.hound_writer.specs.Writer.{WriterState};
    ghost use Rattle.hound_writer.specs.Parts.{IsConsistent, of_fields, memory_bytes};

    ghost Value = { WriterState W };

    ghost view = { λ w. of_fields w.writer w.spec_ex w.data_start w.data_bytes_written w.block
        (memory_bytes (λ memory. memory.items) w.batch_memory) };

    ghost invariant = { λ w. IsConsistent W.Placed
        (of_fields w.writer w.spec_ex w.data_start w.data_bytes_written w.block
        (memory_bytes (λ memory. memory.items) w.batch_memory)) w.may_have_moved w.fast_path_limit };
}

// Below how many buffered bytes a block has room for a sample of any width, if this many bytes are written: 0 if a
// whole block more might not fit the RIFF size.
fn fast_path_limit_of(data_start: u64, data_bytes_written: u32) -> usize
    requires beyond { 8 ≤ data_start }
    requires small { data_start ≤ 2 ^ 33 }
    ensures room { IsLimit data_start data_bytes_written result }
{
    if riff_size_fits(data_start, data_bytes_written as u64 + BLOCK_LENGTH as u64) {
        BLOCK_LENGTH - 3
    } else {
        0
    }
}

// The result of a call that has patched the header, or met a fault.
fn publish_result(patched: io::Result<()>, are_frames: bool) -> Result<()>
    ensures { IsPublishResult patched are_frames result }
{
    patched?;
    if !are_frames {
        return Err(Error::UnfinishedSample);
    }
    Ok(())
}

impl<W: Medium> Output<W> {
    ghost use Rattle.std.specs.Prelude.{◌≡◌, ◌+◌, ◌*◌, ◌-◌, ◌/◌, ◌%◌, ◌≤◌, ◌^◌, ◌↔◌, [], IsTrue, IsOk, Ok, is_ok, OnOk, length, take};
    ghost use Rattle.hound_spec.specs.{riff_size};
    ghost use Rattle.hound_medium.specs.{WhereTells, WhereKeeps};
    ghost use Rattle.hound_sample.specs.{answer_of};
    ghost use Rattle.hound_writer.specs.Accepting.{Accepts, AcceptsBytes, container_in, containers_in, sample_bytes};
    ghost use Rattle.hound_writer.specs.Parts.{GoesOut, as_error, of_fields, CountsAtMost, Patches, PatchesAtEach};
    ghost use Rattle.hound_writer.specs.Publishing.{PublishesTo, place_after};
    ghost use Rattle.hound_writer.specs.Writer.{AreFrames, HasRoom, block_length, IsPadded, IsSound, IsValid, data_end, data_length, padded_end, sample_count};

    /// A file whose data begin at this place and have this length, with its medium after them.
    pub(crate) fn at_end(
        writer: W,
        spec_ex: WavSpecEx,
        data_start: u64,
        data_length: u32,
    ) -> Output<W>
        requires sound { IsSound (of_fields writer spec_ex data_start data_length [] []) }
        requires at_most { WhereTells W.tells (CountsAtMost spec_ex data_start data_length (W.state writer).contents) }
        requires place { WhereTells W.tells ((W.state writer).place ≡ data_start + data_length) }
        ensures { result ≡ of_fields writer spec_ex data_start data_length [] [] }
    {
        Output {
            spec_ex,
            writer,
            data_start,
            data_bytes_written: data_length,
            may_have_moved: false,
            block: Block::new(),
            fast_path_limit: fast_path_limit_of(data_start, data_length),
            batch_memory: None,
        }
    }

    /// Whether the RIFF size of a file with this many more bytes fits 32 bits.
    #[inline(always)]
    pub(crate) fn has_room(&self, more: u64) -> bool
        requires { more ≤ 2 ^ 34 }
        ensures room { IsTrue result ↔ HasRoom self.now more }
        ensures valid { IsValid W.Placed self.now }
    {
        riff_size_fits(self.data_start, self.data_length() as u64 + more)
    }

    // How many bytes the accepted samples have.
    #[inline(always)]
    fn data_length(&self) -> u32
        ensures { result ≡ data_length self.now }
    {
        self.data_bytes_written + self.block.len() as u32
    }

    // Writes the buffered samples; at an error all of them stay buffered.
    #[inline(never)]
    fn put_block(&mut self) -> io::Result<()>
        ensures { GoesOut W.Placed (data_end self.old) (is_ok result) self.old self.new }
    {
        if self.block.len() == 0 {
            return Ok(());
        }
        let end = self.data_start + self.data_bytes_written as u64;
        let bytes = self.block.as_slice();
        put_at_end(&mut self.writer, &mut self.may_have_moved, end, bytes)?;
        self.data_bytes_written += self.block.len() as u32;
        self.block.clear();
        self.fast_path_limit = fast_path_limit_of(self.data_start, self.data_bytes_written);
        Ok(())
    }

    // Writes the pad byte after data of an odd length, once nothing is buffered. The medium is then elsewhere than
    // where the next sample goes.
    fn put_pad(&mut self) -> io::Result<()>
        requires { self.old.buffered ≡ [] }
        ensures goes { GoesOut W.Placed (padded_end self.old) (is_ok result) self.old self.new }
        ensures padded { WhereTells W.tells (OnOk result (IsPadded self.new (W.state self.new.medium).contents)) }
    {
        if self.data_bytes_written % 2 == 0 {
            return Ok(());
        }
        let end = self.data_start + self.data_bytes_written as u64;
        let result = put_at_end(&mut self.writer, &mut self.may_have_moved, end, &[0]);
        self.may_have_moved = true;
        result
    }

    // Accepts whole containers that the block has room for.
    fn accept_in_block(&mut self, bytes: &[u8])
        requires room { HasRoom self.old (length bytes.now) }
        requires whole { length bytes.now % self.old.spec_ex.bytes_per_sample ≡ 0 }
        requires few { length self.old.buffered + length bytes.now ≤ block_length }
        ensures { AcceptsBytes W.Placed bytes.now (Ok tt) self.old self.new }
    {
        self.block.extend(bytes);
    }

    // Accepts a container if the block, or the file, may have no room for it: the block is written first if it has
    // none. A fault is saved, and the container isn't accepted.
    #[cold]
    #[inline(never)]
    fn accept_slowly(
        &mut self,
        container: [u8; 4],
        fault: &mut io::Error,
    ) -> result::Result<(), SampleError>
        ensures { AcceptsBytes W.Placed
            (take self.old.spec_ex.bytes_per_sample container) (answer_of result fault.new) self.old self.new }
    {
        let width = self.spec_ex.bytes_per_sample as usize;
        if !self.has_room(width as u64) {
            return Err(SampleError::TooLong);
        }
        if width <= BLOCK_LENGTH - self.block.len() {
            self.accept_in_block(&container[..width]);
            return Ok(());
        }
        match self.put_block() {
            Ok(()) => {
                self.accept_in_block(&container[..width]);
                Ok(())
            }
            Err(error) => {
                *fault = error;
                Err(SampleError::Failed)
            }
        }
    }

    /// Accepts a sample, or returns why it doesn't, and saves a fault.
    #[inline(always)]
    pub(crate) fn accept_sample<S: Sample>(
        &mut self,
        sample: S,
        fault: &mut io::Error,
    ) -> result::Result<(), SampleError>
        ensures { Accepts W.Placed
            (container_in S.container self.old.spec_ex sample) (answer_of result fault.new) self.old self.new }
    {
        let width = self.spec_ex.bytes_per_sample;
        match sample.encode(self.spec_ex.spec.bits_per_sample, width) {
            Ok(container) => {
                if self.block.len() < self.fast_path_limit {
                    self.block.push(container, width as usize);
                    return Ok(());
                }
                self.accept_slowly(container, fault)
            }
            Err(rejection) => Err(reason_of(rejection)),
        }
    }

    // Accepts samples, each of which has a container, that the block has room for.
    #[inline(always)]
    fn accept_samples_in_block<S: Sample + Copy>(&mut self, samples: &[S])
        requires have { IsOk (containers_in S.container self.old.spec_ex samples.now) }
        requires room { HasRoom self.old (self.old.spec_ex.bytes_per_sample * length samples.now) }
        requires few { length self.old.buffered
            + self.old.spec_ex.bytes_per_sample * length samples.now ≤ block_length }
        ensures { AcceptsBytes W.Placed
            (sample_bytes S.container self.old.spec_ex samples.now) (Ok tt) self.old self.new }
    {
        let spec = self.spec_ex.spec;
        self.block.extend_by(samples, spec.bits_per_sample, self.spec_ex.bytes_per_sample);
    }

    // Writes samples, each of which has a container, with nothing buffered before them, and then accepts them.
    fn accept_samples_at_once<S: Sample + Copy>(&mut self, samples: &[S]) -> io::Result<()>
        requires have { IsOk (containers_in S.container self.old.spec_ex samples.now) }
        requires room { HasRoom self.old (self.old.spec_ex.bytes_per_sample * length samples.now) }
        requires none_buffered { self.old.buffered ≡ [] }
        ensures { AcceptsBytes W.Placed
            (sample_bytes S.container self.old.spec_ex samples.now) (as_error result) self.old self.new }
    {
        let end = self.data_start + self.data_bytes_written as u64;
        let result = put_samples_at_end(
            &mut self.writer,
            &mut self.may_have_moved,
            end,
            &mut self.block,
            samples,
            self.spec_ex,
        );
        self.block.clear();
        result?;
        self.data_bytes_written += samples.len() as u32 * self.spec_ex.bytes_per_sample as u32;
        self.fast_path_limit = fast_path_limit_of(self.data_start, self.data_bytes_written);
        Ok(())
    }

    // Accepts samples, each of which has a container: in the block, which is written first if it has no room for them.
    // At an error none of them is accepted.
    fn accept_encoded<S: Sample + Copy>(&mut self, samples: &[S]) -> io::Result<()>
        requires have { IsOk (containers_in S.container self.old.spec_ex samples.now) }
        requires room { HasRoom self.old (self.old.spec_ex.bytes_per_sample * length samples.now) }
        ensures { AcceptsBytes W.Placed
            (sample_bytes S.container self.old.spec_ex samples.now) (as_error result) self.old self.new }
    {
        let num_bytes = samples.len() * self.spec_ex.bytes_per_sample as usize;
        if num_bytes <= BLOCK_LENGTH - self.block.len() {
            self.accept_samples_in_block(samples);
            return Ok(());
        }
        self.put_block()?;
        if num_bytes > BLOCK_LENGTH {
            return self.accept_samples_at_once(samples);
        }
        self.accept_samples_in_block(samples);
        Ok(())
    }

    /// Accepts all samples or none, or returns why it doesn't, and saves a fault.
    pub(crate) fn accept_samples<S: Sample + Copy>(
        &mut self,
        samples: &[S],
        fault: &mut io::Error,
    ) -> result::Result<(), SampleError>
        ensures { Accepts W.Placed
            (containers_in S.container self.old.spec_ex samples.now) (answer_of result fault.new) self.old self.new }
    {
        let bits = self.spec_ex.spec.bits_per_sample;
        let width = self.spec_ex.bytes_per_sample;
        if !have_containers(samples, bits, width) {
            return check_containers(samples, bits, width);
        }
        // Few samples need no more than this, as one does.
        if samples.len() < BLOCK_LENGTH
            && self.block.len() + samples.len() * (width as usize) < self.fast_path_limit
        {
            self.accept_samples_in_block(samples);
            return Ok(());
        }
        self.accept_samples_slowly(samples, fault)
    }

    // The same of samples that have containers, where the block, or the file, may have no room for them.
    #[inline(never)]
    fn accept_samples_slowly<S: Sample + Copy>(
        &mut self,
        samples: &[S],
        fault: &mut io::Error,
    ) -> result::Result<(), SampleError>
        requires have { IsOk (containers_in S.container self.old.spec_ex samples.now) }
        ensures { Accepts W.Placed
            (containers_in S.container self.old.spec_ex samples.now) (answer_of result fault.new) self.old self.new }
    {
        let width = self.spec_ex.bytes_per_sample;
        if samples.len() > u32::MAX as usize {
            return Err(SampleError::TooLong);
        }
        if !self.has_room(samples.len() as u64 * width as u64) {
            return Err(SampleError::TooLong);
        }
        match self.accept_encoded(samples) {
            Ok(()) => Ok(()),
            Err(error) => {
                *fault = error;
                Err(SampleError::Failed)
            }
        }
    }

    // Whether the accepted samples are whole frames.
    fn are_frames(&self) -> bool
        ensures { IsTrue result ↔ AreFrames self.now }
    {
        self.len() % self.spec_ex.spec.channels as u32 == 0
    }

    // Writes both sizes, which count what is written, and flushes the medium. It is then where the data begin, or, if
    // the writer continues, at the end of the accepted samples, of which none may be buffered then.
    fn publish(&mut self, continues: bool) -> io::Result<()>
        requires { IsTrue continues → self.old.buffered ≡ [] }
        ensures stays { self.new ≡ record self.old { medium = self.new.medium } }
        ensures sound { IsSound self.old }
        ensures at_most { WhereTells W.tells (CountsAtMost self.old.spec_ex self.old.data_start self.old.bytes_written
            (W.state self.old.medium).contents) }
        ensures patches { WhereTells W.tells (Patches (self.old.data_start - 4)
            (riff_size self.old.data_start self.old.bytes_written) self.old.bytes_written result
            (W.state self.old.medium) (W.state self.new.medium)) }
        ensures place { WhereTells W.tells (OnOk result ((W.state self.new.medium).place
            ≡ place_after continues self.new)) }
        ensures moments { WhereKeeps W.tells W.keeps (PatchesAtEach (self.old.data_start - 4)
            (riff_size self.old.data_start self.old.bytes_written) self.old.bytes_written result
            (W.state self.old.medium) (W.state self.new.medium)) }
    {
        self.may_have_moved = true;
        let length = self.data_bytes_written;
        let riff_size = riff_size(self.data_start, length as u64) as u32;
        patch(&mut self.writer, self.data_start - 4, riff_size, length)?;
        if !continues {
            return Ok(());
        }
        self.writer.go(self.data_start + length as u64)?;
        self.may_have_moved = false;
        Ok(())
    }

    /// Publishes all accepted samples. The medium is then at their end if the writer continues, or else where the data
    /// begin.
    pub(crate) fn publish_all(&mut self, continues: bool) -> Result<()>
        ensures { PublishesTo W.Placed (place_after continues self.new) result self.old self.new }
    {
        self.put_block()?;
        self.put_pad()?;
        let published = self.publish(continues);
        publish_result(published, self.are_frames())
    }

    /// Publishes the samples that are written, where the medium has no room for the buffered ones: a reader finds them,
    /// if they are whole frames. Else nothing changes.
    pub(crate) fn publish_written(&mut self) -> io::Result<()>
        ensures stays { self.new ≡ record self.old { medium = self.new.medium } }
        ensures patches { AreFrames (record self.old { buffered = [] }) → WhereTells W.tells
            (Patches (self.old.data_start - 4) (riff_size self.old.data_start self.old.bytes_written)
            self.old.bytes_written result (W.state self.old.medium) (W.state self.new.medium)) }
        ensures moments { AreFrames (record self.old { buffered = [] }) → WhereKeeps W.tells W.keeps
            (PatchesAtEach (self.old.data_start - 4) (riff_size self.old.data_start self.old.bytes_written)
            self.old.bytes_written result (W.state self.old.medium) (W.state self.new.medium)) }
        ensures untouched { (AreFrames (record self.old { buffered = [] }) → ⊥) → self.new ≡ self.old }
    {
        let samples = self.data_bytes_written / self.spec_ex.bytes_per_sample as u32;
        if samples % self.spec_ex.spec.channels as u32 != 0 {
            return Ok(());
        }
        self.publish(false)
    }

    /// The medium, once the writer is done with it.
    pub(crate) fn into_medium(self) -> W
        ensures { result ≡ self.medium }
    {
        let Output { writer, .. } = self;
        writer
    }

    /// The spec that the file was begun with, with the bytes that a sample takes.
    pub(crate) fn spec_ex(&self) -> WavSpecEx
        ensures spec { result ≡ self.now.spec_ex }
        ensures valid { IsValid W.Placed self.now }
    {
        self.spec_ex
    }

    /// How many samples were accepted.
    pub(crate) fn len(&self) -> u32
        ensures samples { result ≡ sample_count self.now }
        ensures valid { IsValid W.Placed self.now }
    {
        self.data_length() / self.spec_ex.bytes_per_sample as u32
    }
}
