// The writer of samples.
ghost use Rattle.std.specs.Prelude.{◌≡◌, ◌+◌, [], IfOk, MatchResult};
ghost use Rattle.hound_medium.specs.{WhereTells};
ghost use Rattle.hound_writer.specs.Beginning.{Begins, IsNotBegun};
ghost use Rattle.hound_writer.specs.Calls.{Recorded, new_file};
ghost use Rattle.hound_writer.specs.Parts.{CountsAtMost, of_fields};

use crate::output::Output;
use hound_medium::{Medium, put_all};
use hound_sample::{Sample, error_of_sample};
use hound_spec::{Error, Result, WavSpec, WavSpecEx, header_of};
use std::marker::Model;
use std::{io, result};

/// A writer of samples into a medium, as a WAVE file (RIFF, "Waveform Audio File Format").
///
/// The medium is a `Tape`, a `Journal`, a `BufWriter<File>`, a `&mut` to one, or a `Medium` of your own. `create`,
/// `new`, `new_with_spec_ex` and `try_new` begin a file; `append`, `new_append` and `try_append` append to one.
///
/// Up to 4096 bytes of accepted samples are buffered in the writer. They are written when no more fit, and before the
/// sizes are. If the medium fails meanwhile all of them stay buffered, and are written again from the first one on.
/// After an odd number of bytes a pad byte (RIFF, "Chunks") is written before the sizes, and the next sample goes over
/// it.
///
/// A writer that is dropped publishes what was accepted, as [`WavWriter::finalize`] does, and its fault goes unseen:
/// call `finalize` to see it.
///
/// ```
/// let mut writer = WavWriter::new(Tape::new(Vec::new(alloc)), spec)?;
/// writer.write_sample(2i16)?;
/// writer.flush()?; // A reader finds one sample now.
/// writer.write_samples(&[-3i16])?; // All of a slice, or nothing.
/// ```
pub struct WavWriter<W: Medium> {
    // The file that it writes.
    pub(crate) output: Output<W>,
    // The fault of the last call that wrote samples and failed.
    pub(crate) fault: io::Error,
}

impl<W: Medium> Model for WavWriter<W> {
    ghost use Rattle.hound_writer.specs.Writer.{WriterState};

    ghost Value = { WriterState W };

    ghost view = { λ w. w.output };
}

// Writes the header with both sizes 0, and returns where the data begin.
fn begin<W: Medium>(writer: &mut W, spec_ex: WavSpecEx) -> Result<u64>
    requires { WhereTells W.tells ((W.state writer.old).place ≡ 0) }
    ensures begins { MatchResult result (λ start. Begins W.Placed spec_ex (W.state writer.old)
        (of_fields writer.new spec_ex start 0 [] [])) (λ e. IsNotBegun W.Placed spec_ex writer.old writer.new e) }
    ensures recorded { IfOk result (λ start. Recorded W.Placed spec_ex
        (new_file (W.state writer.old)) [] (of_fields writer.new spec_ex start 0 [] [])) }
    ensures at_most { IfOk result (λ start. WhereTells W.tells
        (CountsAtMost spec_ex start 0 (W.state writer.new).contents)) }
    ensures place { IfOk result (λ start. WhereTells W.tells ((W.state writer.new).place ≡ start + 0)) }
{
    if !spec_ex.is_writable() {
        return Err(Error::Unsupported);
    }
    let header = header_of(spec_ex, 0, 0);
    let bytes = header.as_slice();
    put_all(writer, bytes)?;
    Ok(bytes.len() as u64)
}

impl<W: Medium> WavWriter<W> {
    ghost use Rattle.std.specs.Prelude.{◌≡◌, ◌+◌, ◌-◌, ◌/◌, [], Ok, Err, Result, IfOk, MatchResult};
    ghost use Rattle.hound_spec.specs.declared.error.Error.{Error};
    ghost use Rattle.hound_spec.specs.{with_default_width};
    ghost use Rattle.hound_medium.specs.{WhereTells};
    ghost use Rattle.hound_writer.specs.Accepting.{Accepts, mark_of, container_in, containers_in};
    ghost use Rattle.hound_writer.specs.Beginning.{Begins, IsNotBegun};
    ghost use Rattle.hound_writer.specs.Calls.{Ends, Extends, Recorded, returned, made, marked, new_file, publish, write};
    ghost use Rattle.hound_spec.specs.declared.spec.WavSpecEx.{WavSpecEx};
    ghost use Rattle.hound_writer.specs.Publishing.{Checkpoints, Finishes};
    ghost use Rattle.hound_writer.specs.Writer.{IsValid, sample_count};

    /// Begins a file of this spec in a medium that is at 0, as each new one is. A sample takes the bytes that its bits
    /// need: `(bits_per_sample + 7) / 8`, rounded down.
    ///
    /// The errors are those of [`WavWriter::try_new`], which returns the medium too; here it is dropped at an error,
    /// unless it was lent.
    pub fn new(writer: W, spec: WavSpec) -> Result<WavWriter<W>>
        requires { WhereTells W.tells ((W.state writer).place ≡ 0) }
        ensures begins { MatchResult result (Begins W.Placed (with_default_width spec) (W.state writer))
            (λ e. (back : W) × IsNotBegun W.Placed (with_default_width spec) writer back e) }
        ensures recorded { IfOk result (Recorded W.Placed (with_default_width spec) (new_file (W.state writer)) []) }
    {
        WavWriter::new_with_spec_ex(writer, WavSpecEx::from(spec))
    }

    /// Begins a file of this spec, with this many bytes a sample, as [`WavWriter::new`] does with the bytes that the
    /// bits need: condition and errors are the same.
    pub fn new_with_spec_ex(writer: W, spec_ex: WavSpecEx) -> Result<WavWriter<W>>
        requires { WhereTells W.tells ((W.state writer).place ≡ 0) }
        ensures begins { MatchResult result (Begins W.Placed spec_ex (W.state writer))
            (λ e. (back : W) × IsNotBegun W.Placed spec_ex writer back e) }
        ensures recorded { IfOk result (Recorded W.Placed spec_ex (new_file (W.state writer)) []) }
    {
        let mut writer = writer;
        let data_start = begin(&mut writer, spec_ex)?;
        Ok(WavWriter::over(Output::at_end(writer, spec_ex, data_start, 0)))
    }

    /// Begins a file of this spec in a medium that is at its beginning, writes the header with both sizes 0, 44 or 68
    /// bytes, and returns the medium at an error.
    ///
    /// The medium must be at 0, as each new one is; `go(0)` leads there. Nothing is cut off: bytes that it held already
    /// stay, until samples overwrite them.
    ///
    /// The errors, in their order: `Unsupported`, for a spec that can't be written, and the medium is as it was;
    /// `IoError`, if the medium failed, and a beginning of the header may be written. After an error nothing more is
    /// written.
    pub fn try_new(writer: W, spec_ex: WavSpecEx) -> result::Result<WavWriter<W>, (W, Error)>
        requires { WhereTells W.tells ((W.state writer).place ≡ 0) }
        ensures begins { MatchResult result (Begins W.Placed spec_ex (W.state writer))
            (λ rejected. IsNotBegun W.Placed spec_ex writer rejected.0 rejected.1) }
        ensures recorded { IfOk result (Recorded W.Placed spec_ex (new_file (W.state writer)) []) }
    {
        let mut writer = writer;
        match begin(&mut writer, spec_ex) {
            Ok(data_start) => Ok(WavWriter::over(Output::at_end(writer, spec_ex, data_start, 0))),
            Err(error) => Err((writer, error)),
        }
    }

    // A writer of this file, whose medium had no fault yet.
    pub(crate) fn over(output: Output<W>) -> WavWriter<W>
        ensures { result ≡ output }
    {
        WavWriter {
            output,
            fault: io::Error::from(io::ErrorKind::Other),
        }
    }

    /// Writes a sample of one channel; the channels of a frame follow one another. An Ok accepts it: it is in the file
    /// at the next `flush` or end that publishes, and buffered till then.
    ///
    /// The errors, in the order in which they are checked: `Unsupported` or `TooWide`, as in the type's table for the
    /// file's bits and bytes; `TooLong`, if the RIFF size of the longer file would pass 4294967295; `IoError`, if the
    /// medium failed. At each of them nothing is accepted, and writing can continue: the next sample goes where this
    /// one should have gone.
    #[inline(always)]
    pub fn write_sample<S: Sample>(&mut self, sample: S) -> Result<()>
        ensures accepts { Accepts W.Placed (container_in S.container self.old.spec_ex sample) result self.old self.new }
        ensures recorded { Extends W.Placed (λ s. made (write (container_in S.container s sample))) self.old self.new }
        ensures marked { Extends W.Placed
            (λ s. marked (write (container_in S.container s sample)) (mark_of result)) self.old self.new }
    {
        let no_sample = match self.output.accept_sample(sample, &mut self.fault) {
            Ok(()) => return Ok(()),
            Err(no_sample) => no_sample,
        };
        Err(error_of_sample(no_sample, &self.fault))
    }

    /// Writes samples, all of them or none; the channels of a frame follow one another, and a frame can be cut between
    /// two calls. An Ok accepts them as [`WavWriter::write_sample`] of each, one after the other, does. It needs no
    /// memory. With many samples a call takes a small part of the time of single ones.
    ///
    /// The errors, in the order in which they are checked: `Unsupported` or `TooWide`, that of the first sample which
    /// has no container with the file's bits and bytes; `TooLong`, if the RIFF size of the file with all of them would
    /// pass 4294967295; `IoError`, if the medium failed. At each of them none of the samples is accepted, nor those
    /// before a rejected one or a fault, and writing can continue: the next sample goes where the first of these should
    /// have gone.
    #[inline(always)]
    pub fn write_samples<S: Sample + Copy>(&mut self, samples: &[S]) -> Result<()>
        ensures accepts { Accepts W.Placed
            (containers_in S.container self.old.spec_ex samples.now) result self.old self.new }
        ensures recorded { Extends W.Placed
            (λ s. made (write (containers_in S.container s samples.now))) self.old self.new }
        ensures marked { Extends W.Placed
            (λ s. marked (write (containers_in S.container s samples.now)) (mark_of result)) self.old self.new }
    {
        let no_sample = match self.output.accept_samples(samples, &mut self.fault) {
            Ok(()) => return Ok(()),
            Err(no_sample) => no_sample,
        };
        Err(error_of_sample(no_sample, &self.fault))
    }

    /// Publishes the accepted samples: writes the buffered ones, the pad byte after an odd number of bytes, then both
    /// sizes into the header, and flushes the medium, so that a reader finds them all, whatever becomes of the writer,
    /// until it patches the header again. The next sample follows them, over the pad byte.
    ///
    /// The errors, in their order: `IoError`, at the first fault of the medium, after which writing can continue;
    /// `UnfinishedSample`, if the samples are no whole number of frames, although all of them are published and the
    /// medium is flushed. A recorder relies on it for checkpoints. Of a file the system has all bytes then; nothing
    /// here syncs them to the disk.
    pub fn flush(&mut self) -> Result<()>
        ensures checkpoints { Checkpoints W.Placed result self.old self.new }
        ensures recorded { Extends W.Placed (λ _. made publish) self.old self.new }
        ensures marked { Extends W.Placed (λ _. marked publish (mark_of result)) self.old self.new }
        ensures returned { Extends W.Placed (λ _. returned publish result) self.old self.new }
    {
        self.output.publish_all(true)
    }

    /// Publishes the accepted samples and closes the file. After a [`WavWriter::flush`] with nothing accepted since
    /// then it leaves the same bytes.
    ///
    /// The errors are those of [`WavWriter::finalize_into`], which also returns the medium.
    pub fn finalize(self) -> Result<()>
        ensures finishes { (end : W) × Finishes W.Placed self result end }
        ensures left { (end : W) × Ends W.Placed (made publish) self end }
        ensures marked { (end : W) × Ends W.Placed (marked publish (mark_of result)) self end }
        ensures returned { (end : W) × Ends W.Placed (returned publish result) self end }
    {
        let (_, result) = self.finalize_into();
        result
    }

    /// Writes the buffered samples, the pad byte after an odd number of bytes, then both sizes into the header, flushes
    /// the medium, and returns it. If that published, it is where the data begin.
    ///
    /// The errors, in their order: `IoError`, at the first fault of the medium, after which nothing is tried again;
    /// `UnfinishedSample`, if the samples are no whole number of frames, although all of them are published and the
    /// medium is flushed.
    ///
    /// ```
    /// let (tape, result) = writer.finalize_into();
    /// result?;
    /// Ok(tape.into_bytes())
    /// ```
    pub fn finalize_into(self) -> (W, Result<()>)
        ensures finishes { Finishes W.Placed self result.1 result.0 }
        ensures left { Ends W.Placed (made publish) self result.0 }
        ensures marked { Ends W.Placed (marked publish (mark_of result.1)) self result.0 }
        ensures returned { Ends W.Placed (returned publish result.1) self result.0 }
    {
        let WavWriter {
            mut output,
            fault: _,
        } = self;
        let result = output.publish_all(false);
        (output.into_medium(), result)
    }

    /// Does what a drop does, and returns the medium: it publishes the accepted samples as [`WavWriter::finalize_into`]
    /// does, and its error goes unseen.
    pub fn drop_into(self) -> W
        ensures finishes { (answer : Result Unit Error) × Finishes W.Placed self answer result }
        ensures left { Ends W.Placed (made publish) self result }
    {
        let (writer, _) = self.finalize_into();
        writer
    }

    /// The spec that the file was begun with, or that was found in the file that is appended to, with the bytes that a
    /// sample takes.
    pub fn spec_ex(&self) -> WavSpecEx
        ensures spec { result ≡ self.now.spec_ex }
        ensures valid { IsValid W.Placed self.now }
    {
        self.output.spec_ex()
    }

    /// The spec that the file was begun with, or that was found in the file that is appended to. It shows whether
    /// batches can be written: integers of 16 bits.
    pub fn spec(&self) -> WavSpec
        ensures spec { result ≡ self.now.spec_ex.spec }
        ensures valid { IsValid W.Placed self.now }
    {
        self.spec_ex().spec
    }

    /// The number of frames in the file so far, with the buffered ones, rounded down: samples for each channel. Divided
    /// by the sample rate it is the time in seconds.
    pub fn duration(&self) -> u32
        ensures frames { result ≡ sample_count self.now / self.now.spec_ex.spec.channels }
        ensures valid { IsValid W.Placed self.now }
    {
        self.len() / self.spec().channels as u32
    }

    /// The number of samples in the file so far, of all channels together: those that were accepted, whether buffered
    /// or written, and those that a file had before it was appended to.
    pub fn len(&self) -> u32
        ensures samples { result ≡ sample_count self.now }
        ensures valid { IsValid W.Placed self.now }
    {
        self.output.len()
    }
}

impl<W: Medium> Drop for WavWriter<W> {
    ghost use Rattle.std.specs.Prelude.{Result};
    ghost use Rattle.hound_spec.specs.declared.error.Error.{Error};
    ghost use Rattle.hound_writer.specs.Calls.{Ends, made, publish};
    ghost use Rattle.hound_writer.specs.Publishing.{Finishes};

    fn drop(self)
        ensures finishes { (answer : Result Unit Error) × (end : W) × Finishes W.Placed self answer end }
        ensures left { (end : W) × Ends W.Placed (made publish) self end }
    {
        let _ = self.finalize_into();
    }
}
