// The steps of a session.
use hound_sample::FloatBits;
use hound_spec::WavSpecEx;

/// One call of a writer, between its constructor and its end.
#[derive(Clone, Copy, Debug, PartialEq, Eq)]
pub enum Step<'a> {
    /// Writes an integer, by `write_sample` of an `i32`. One that the bits of the spec can't hold is `TooWide`.
    Whole(i32),
    /// Writes a float by its bits, by `write_sample`. If samples haven't 32 bits in four bytes, it is `Unsupported`.
    Bits(FloatBits),
    /// Writes samples of sixteen bits, all of them or none, by `write_samples`. For a writer of other samples nothing
    /// is called, and the step is `Unsupported`.
    Batch(&'a [i16]),
    /// Publishes what was accepted, by `flush`. An unfinished frame is published too, and the result is
    /// `UnfinishedSample`.
    Flush,
}

/// How a session begins.
#[derive(Clone, Copy, Debug, PartialEq, Eq)]
pub enum Begin {
    /// With a new file of this spec, by `try_new`. A spec that can't be written is `Unsupported`, and the medium stays
    /// as it was.
    New(WavSpecEx),
    /// After the data of the existing file, by `try_append`, which reads its header first and returns an error for what
    /// it can't append to.
    Append,
}

/// How a session ends.
#[derive(Clone, Copy, Debug, PartialEq, Eq)]
pub enum End {
    /// By `finalize_into`, whose result is returned: `UnfinishedSample` if the last frame lacks samples, which are in
    /// the file all the same.
    Finalize,
    /// By a drop, which publishes too, and whose error goes unseen.
    Drop,
}
