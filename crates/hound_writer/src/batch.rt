// Batches of samples of sixteen bits.
ghost use Rattle.std.specs.Prelude.{◌≡◌, ◌+◌, ◌*◌, ◌^◌, ◌≤◌, ◌<◌, length, max, [], take, IfOk, IfErr, OnOk, Ok, Err, ◌∷◌, ◌++◌, List, ℤ};
ghost use Rattle.std.specs.Borrow.{sem, RestsIfErr};
ghost use Rattle.hound_number.specs.{signed_bytes_of};
ghost use Rattle.hound_spec.specs.declared.error.Error.TheVariants.{OutOfMemory, TooLong};
ghost use Rattle.hound_writer.specs.contracts.write.WavWriter.{the_row};
ghost use Rattle.hound_writer.specs.Accepting.{Accepts, AreI16, mark_of, i16_bytes, whole_containers};
ghost use Rattle.hound_writer.specs.Calls.{Extends, HasSameCalls, made, marked, write};
ghost use Rattle.hound_writer.specs.Writer.{IsSixteen, HasRoom};

use crate::WavWriter;
use crate::output::Output;
use hound_medium::Medium;
use hound_sample::Sample;
use hound_spec::{Error, Result};
use std::alloc::Global;

/// A batch of samples of sixteen bits for a writer, all of which are accepted by one call.
///
/// [`WavWriter::get_i16_writer`] makes it, for a number of samples; write each, and then end it with
/// [`SampleWriter16::flush`]. If it is dropped without that nothing is accepted.
pub struct SampleWriter16<'parent, W: Medium, B: BatchMemory = Vec<i16>> {
    // The writer that the batch goes to.
    pub(crate) parent: &'parent mut WavWriter<W>,
    // The writer's memory for batches, which is returned to it at the end of the batch.
    pub(crate) memory: B,
    // How many samples were written.
    pub(crate) written: usize,
    // How many samples are still to be written.
    pub(crate) left: usize,
    ghost long: { written + left ≤ length (B.samples memory) },
    ghost few: { written + left < 2 ^ 32 },
    ghost fits: { AreI16 (take written (B.samples memory)) },
    ghost bits: { parent.now.spec_ex.spec.bits_per_sample ≡ 16 },
    ghost width: { parent.now.spec_ex.bytes_per_sample ≡ 2 },
}

impl<W: Medium, B: BatchMemory> SampleWriter16<'_, W, B> {
    ghost use Rattle.hound_writer.specs.Batch.{batch_bytes, batch_writer, remaining};

    /// Accepts all samples of a batch that is full, or none of them. It publishes nothing: [`WavWriter::flush`] does
    /// that.
    ///
    /// The batch must be full: [`SampleWriter16::remaining`] must be 0. The one error is `IoError`, if the medium
    /// failed: none of the batch is accepted, and writing can continue.
    #[inline]
    pub fn flush(self) -> Result<()>
        requires { remaining self ≡ 0 }
        ensures accepts { let old = batch_writer self.entry in Accepts W.Placed
            (whole_containers old.spec_ex (batch_bytes self.entry)) result old self.exit.0.now }
        ensures recorded { Extends W.Placed (λ s. made (write (whole_containers s (batch_bytes self.entry))))
            (batch_writer self.entry) self.exit.0.now }
        ensures marked { Extends W.Placed
            (λ s. marked (write (whole_containers s (batch_bytes self.entry))) (mark_of result))
            (batch_writer self.entry) self.exit.0.now }
    {
        let SampleWriter16 {
            parent,
            memory,
            written,
            left: _,
        } = self;
        let memory = memory.into_vec();
        let accepted = parent.write_samples(&memory[..written]);
        parent.output.batch_memory = Some(memory);
        accepted
    }
}

impl<W: Medium, B: BatchMemory> Drop for SampleWriter16<'_, W, B> {
    ghost use Rattle.hound_writer.specs.Batch.{batch_writer};

    // Returns the writer's memory to it, and leaves it as it is: nothing is accepted.
    fn drop(self)
        ensures { self.exit.0.now ≡ batch_writer self.entry }
    {
        let SampleWriter16 {
            parent,
            memory,
            written: _,
            left: _,
        } = self;
        parent.output.batch_memory = Some(memory.into_vec());
    }
}

impl<W: Medium> Output<W> {
    // Lends the memory for batches, with at least this many samples.
    fn lend_memory(&mut self, alloc: Global, num_samples: usize) -> Result<Vec<i16>>
        ensures stays { self.new ≡ record self.old { batch_memory = self.new.batch_memory } }
        ensures lent { OnOk result (self.new.batch_memory ≡ []) }
        ensures long { IfOk result (λ memory. num_samples ≤ length memory.items) }
        ensures length { IfOk result (λ memory. length (i16_bytes memory.items)
            ≡ max (length self.old.batch_memory) (2 * num_samples)) }
        ensures rejected { IfErr result (λ e. (e ≡ OutOfMemory) × (self.new ≡ self.old)
            × (length self.old.batch_memory < 2 * num_samples)) }
    {
        let mut memory = self.batch_memory.take().unwrap_or(Vec::new(alloc));
        if memory.len() >= num_samples {
            return Ok(memory);
        }
        match memory.resize(num_samples, 0) {
            Ok(()) => Ok(memory),
            Err(error) => {
                self.batch_memory = Some(memory);
                Err(Error::from(error))
            }
        }
    }
}

impl<W: Medium> WavWriter<W> {
    ghost use Rattle.hound_writer.specs.Batch.{IsSameFile, batch_bytes, batch_lender, batch_writer, remaining};

    /// A batch of this many samples of sixteen bits, which are accepted by one call. They are samples, not frames: the
    /// channels of a frame follow one another. There may be 0.
    ///
    /// The writer must be one of integers with sixteen bits: [`WavWriter::spec`] must have the format `Int` and 16
    /// bits. A batch takes two bytes of memory a sample, which the writer reuses for later batches. The errors, in
    /// their order: `TooLong`, if the RIFF size of the longer file would pass 4294967295; `OutOfMemory`, if the batch
    /// needs more memory than the writer has and there is none. Either leaves the writer as it was.
    ///
    /// ```
    /// let mut batch = writer.get_i16_writer(alloc, 2)?;
    /// batch.write_sample(5i16);
    /// batch.write_sample(-7i16);
    /// batch.flush()?;
    /// ```
    #[tactic(auto, using(crate::proofs::Recording::recorded_same))]
    pub fn get_i16_writer<'s>(
        &'s mut self,
        alloc: Global,
        num_samples: u32,
    ) -> Result<SampleWriter16<'s, W>>
        requires { IsSixteen self.old.spec_ex }
        ensures* unchanged { sem 𝓛 (RestsIfErr
            (the_row W.row W.Placed) self.entry batch_lender result (λ last. last ≡ self.old)) }
        ensures lender { IfOk result (λ batch. batch_lender batch ≡ self.entry.ghost_name) }
        ensures too_long { (HasRoom self.old (2 * num_samples) → ⊥) → result ≡ Err TooLong }
        ensures room { OnOk result (HasRoom self.old (2 * num_samples)) }
        ensures width { OnOk result (self.old.spec_ex.bytes_per_sample ≡ 2) }
        ensures no_memory { HasRoom self.old (2 * num_samples) → IfErr result (λ e.
            (e ≡ OutOfMemory) × (length self.old.batch_memory < 2 * num_samples)) }
        ensures size { IfOk result (λ batch. (remaining batch ≡ num_samples) × (batch_bytes batch ≡ [])) }
        ensures stays { IfOk result (λ batch. IsSameFile self.old (batch_writer batch)) }
        ensures kept { IfOk result (λ batch. length (batch_writer batch).batch_memory
            ≡ max (length self.old.batch_memory) (2 * num_samples)) }
        ensures recorded { IfOk result (λ batch. HasSameCalls W.Placed self.old (batch_writer batch)) }
    {
        if !self.output.has_room(num_samples as u64 * 2) {
            return Err(Error::TooLong);
        }
        let memory = self.output.lend_memory(alloc, num_samples as usize)?;
        Ok(SampleWriter16 {
            parent: self,
            memory,
            written: 0,
            left: num_samples as usize,
        })
    }
}

impl<'parent, W: Medium, B: BatchMemory> SampleWriter16<'parent, W, B> {
    ghost use Rattle.hound_writer.specs.Batch.{WritesToBatch, remaining};

    /// Writes a sample to the batch: its lowest sixteen bits, as a signed number.
    ///
    /// The batch must have room for it: [`SampleWriter16::remaining`] must be above 0, as it is for as many samples as
    /// the batch was made for. And the sample must have such bits, as `can_cast` says: each `i8`, `i16` and `i32` has.
    /// Higher bits of an `i32` are lost without an error.
    #[inline]
    pub fn write_sample<S: Sample>(&mut self, sample: S)
        requires room { 1 ≤ remaining self.old }
        requires integer { S.can_cast sample }
        ensures { WritesToBatch (signed_bytes_of 2 (S.cast_value sample)) self.old self.new }
    {
        let index = self.written;
        self.written = index + 1;
        self.left -= 1;
        self.memory.store(index, sample.as_i16());
    }

    /// Does what [`SampleWriter16::write_sample`] does, which is safe and checks nothing, under the same conditions. It
    /// is there for code that calls it by that name.
    #[inline]
    pub fn write_sample_unchecked<S: Sample>(&mut self, sample: S)
        requires room { 1 ≤ remaining self.old }
        requires integer { S.can_cast sample }
        ensures { WritesToBatch (signed_bytes_of 2 (S.cast_value sample)) self.old self.new }
    {
        self.write_sample(sample);
    }

    /// How many samples are still to be written to the batch.
    #[inline(always)]
    pub fn remaining(&self) -> u32
        ensures { result ≡ remaining self.now }
    {
        self.left as u32
    }
}

/// Memory of a fixed length that a batch is collected in: a `Vec<i16>`, the only type with this trait.
///
/// A batch has a type parameter for it since contracts follow a `&mut` through a struct that owns memory only where the
/// memory's type is a parameter.
pub trait BatchMemory: Drop {
    /// Its samples.
    ghost samples: { Self → List ℤ };

    /// Stores a sample.
    fn store(&mut self, index: usize, sample: i16)
        requires { index < length (samples self.old) }
        ensures written { take (index + 1) (samples self.new) ≡ take index (samples self.old) ++ sample ∷ [] }
        ensures kept { length (samples self.new) ≡ length (samples self.old) };

    /// The same samples as a `Vec`.
    fn into_vec(self) -> Vec<i16>
        ensures { result.items ≡ samples self };
}

impl BatchMemory for Vec<i16> {
    ghost samples = { λ memory. memory.items };

    #[inline(always)]
    fn store(&mut self, index: usize, sample: i16) {
        self[index] = sample;
    }

    #[inline(always)]
    fn into_vec(self) -> Vec<i16> {
        self
    }
}
