// Why a call on a reader or a writer failed.
ghost use Rattle.std.specs.Prelude.{◌≡◌};
ghost use Rattle.hound_spec.specs.declared.error.Error.TheVariants.{IoError};

use std::{io, result};
use thiserror::Error as DeriveError;

/// Why a call on a `WavReader`, a `WavWriter` or a `Sample`, or a repair, failed.
///
/// The page of each call says in which order it looks for its errors, and what each leaves.
#[derive(Debug, Drop, DeriveError)]
pub enum Error {
    /// The reader, the writer or the medium failed, with this fault; or the input ended early, and the kind is `Other`.
    #[error(transparent)]
    IoError(io::Error),
    /// The bytes are no WAVE file, for this reason. Only `read_wave_header`, the constructors of readers, those that
    /// append, and repairs return it.
    #[error("Ill-formed WAVE file: {0}")]
    FormatError(&'static str),
    /// The sample has more bits than the type that reads it, or than the file that is written has room for.
    #[error("The sample has more bits than the destination type.")]
    TooWide,
    /// The samples are no whole number of frames: some channel lacks its last sample. All of them are published by
    /// then.
    #[error("The number of samples written is not a multiple of the number of channels.")]
    UnfinishedSample,
    /// The format can't be read or written: a spec, a file's format tag, or bits and bytes that a type of sample
    /// doesn't have.
    #[error("The wave format of the file is not supported.")]
    Unsupported,
    /// The file's samples are integers and floats were requested, or the other way round. Writing doesn't compare the
    /// formats.
    #[error("The sample format differs from the destination format.")]
    InvalidSampleFormat,
    /// The file would get too long for its size fields of 32 bits: its RIFF size would pass 4294967295.
    #[error("The file would be longer than its size fields can say.")]
    TooLong,
    /// An allocation failed. Only calls that take an allocator return it: a `Tape` or `Journal` that can't grow is an
    /// `IoError` of kind `OutOfMemory`.
    #[error("There is not enough memory.")]
    OutOfMemory,
}

/// For `?` on a call that reads or writes: an `IoError` with its fault.
impl From<io::Error> for Error {
    ghost from_gives = { λ e r. r ≡ IoError e };

    fn from(error: io::Error) -> Error {
        Error::IoError(error)
    }
}

/// The result of a call that may fail with an [`Error`].
pub type Result<T> = result::Result<T, Error>;
