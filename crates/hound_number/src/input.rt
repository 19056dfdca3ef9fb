// What bytes are read from, and the loop over `read`.
ghost use Rattle.std.specs.Prelude.{◌≡◌, ℕ, ◌<◌, List, Option, None, length, OnErr, OnOk, IfErr};
ghost use Rattle.std.specs.Io.{ReadsAtMost};
ghost use Rattle.std.specs.IoError.{error_kind};
ghost use Rattle.std.specs.declared.io.ErrorKind.TheVariants.{Other};
ghost use Rattle.std.specs.Io.KnownBytes.{Consumes, IsAtEnd, ReadConsumes};
ghost use Rattle.hound_number.specs.Io.{Account, CountsRead, CountsReads, IfEnded, ReportsEnding};

use std::io;
use std::io::ErrorKind;

/// What bytes are read from: any reader, or one whose failed reads contracts count.
///
/// Implemented for every `io::Read`, whose failed reads contracts don't count, and for `SourceReader` of `hound_walk`,
/// a source whose failed reads they count.
pub trait Input {
    /// The bytes that are left, if they are known.
    ghost left: { Self → Option (List ℕ) };

    /// The type of what no read changes.
    ghost Kept: { Type 0 } = { Unit {0} };

    /// How many reads failed, and what no read changes, if these are known.
    ghost account: { Self → Option (Account Kept) };

    /// Reads bytes into the front of the buffer and returns their number. It is 0 only at the end of the input or if
    /// the buffer is empty. At an `Err` no byte was taken.
    fn read_some(&mut self, buf: &mut [u8]) -> io::Result<usize>
        ensures bound { ReadsAtMost result buf.new }
        ensures bytes { ReadConsumes (left self.old) (left self.new) result buf.new }
        ensures failures { CountsRead (account self.old) (account self.new) result };
}

// Contracts see only the bytes left of a plain reader.
impl<R: io::Read> Input for R {
    ghost left = { λ r. R.remaining r };

    ghost account = { λ _. None };

    #[inline(always)]
    fn read_some(&mut self, buf: &mut [u8]) -> io::Result<usize> {
        self.read(buf)
    }
}

/// Why a buffer could not be filled. As an `io::Error` it is the read's own, or [`early_end`].
#[derive(Debug, Drop)]
pub enum ReadError {
    /// A read failed.
    Failed(io::Error),
    /// The input ended before the buffer was full.
    Ended,
}

/// The error of an input that ended early, of kind `Other`: that of every early end of a file.
#[cold]
#[inline(never)]
pub fn early_end() -> io::Error
    ensures { error_kind result ≡ Other }
{
    io::Error::new(ErrorKind::Other, "Failed to read enough bytes.")
}

impl From<ReadError> for io::Error {
    ghost from_gives = { ReportsEnding };

    #[inline(always)]
    fn from(error: ReadError) -> io::Error {
        match error {
            ReadError::Failed(e) => e,
            ReadError::Ended => early_end(),
        }
    }
}

/// Fills the whole buffer, however the reads are cut; an empty buffer needs no read.
///
/// `Interrupted` is passed on like any other fault. At an `Err`, fewer bytes than the buffer holds were taken.
#[inline(always)]
pub fn read_into<R: Input>(reader: &mut R, buf: &mut [u8]) -> Result<(), ReadError>
    ensures filled { OnOk result (Consumes (R.left reader.old) (R.left reader.new) buf.new) }
    ensures part { OnErr result ((bytes : List ℕ) × (length bytes < length buf.new)
        × Consumes (R.left reader.old) (R.left reader.new) bytes) }
    ensures ended { IfErr result (λ e. IfEnded e (IsAtEnd (R.left reader.new))) }
    ensures failures { CountsReads (R.account reader.old) (R.account reader.new) result }
{
    let mut at = 0;
    while at < buf.len() {
        match reader.read_some(&mut buf[at..]) {
            Ok(0) => return Err(ReadError::Ended),
            Ok(n) => at += n,
            Err(e) => return Err(ReadError::Failed(e)),
        }
    }
    Ok(())
}
