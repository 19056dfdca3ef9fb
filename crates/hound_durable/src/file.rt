// Files on disk whose flush returns once the disk has the bytes, which contracts don't know.
ghost use Rattle.std.specs.Prelude.{◌≡◌, false, IfErr};
ghost use Rattle.std.proofs.lemmas.Bool.{false≢true};

use hound_medium::{Medium, Placed};
use hound_spec::{Error, Result};
use std::alloc::Global;
use std::io::{BufWriter, Write};
use std::{fs, io};

// How many bytes are buffered in memory.
const FILE_BUFFER_SIZE: usize = 65536;

/// A file on disk whose `flush` returns when the disk has what was written.
///
/// Bytes are buffered in memory until there are 64 KiB, or until a `go`, a `shift` or a `flush`. The first `flush`
/// syncs the file with all its metadata, later ones with what is needed to read it.
///
/// After a sync that failed each later `flush` fails too, with a fault of the kind `Other`: the system may have dropped
/// the bytes that it couldn't store, and would report the next sync as done. Which of the bytes since the last Ok
/// `flush` the disk has isn't known then, so a recorder continues in a new file. A write that failed is no such fault:
/// the bytes that the system didn't take stay in the buffer, and the next `flush` writes them again before it syncs.
#[derive(Drop)]
pub struct SyncedFile {
    writer: BufWriter<fs::File>,
    has_synced: bool,
    has_failed: bool,
}

impl SyncedFile {
    /// A medium over this file, at the file's place. `OutOfMemory` if there is no memory for the buffer.
    pub fn new(alloc: Global, file: fs::File) -> Result<SyncedFile>
        ensures { IfErr result (λ e. e ≡ Error.OutOfMemory) }
    {
        let writer = BufWriter::with_capacity(alloc, FILE_BUFFER_SIZE, file);
        Ok(SyncedFile {
            writer: writer.or(Err(Error::OutOfMemory))?,
            has_synced: false,
            has_failed: false,
        })
    }

    // Returns once the disk has what the system was given.
    fn sync(&mut self) -> io::Result<()> {
        let file = self.writer.get_ref();
        let synced = if self.has_synced {
            file.sync_data()
        } else {
            file.sync_all()
        };
        self.has_synced = self.has_synced || synced.is_ok();
        self.has_failed = synced.is_err();
        synced
    }
}

impl Placed for SyncedFile {
    ghost bytes = { λ _ tells. Prim.absurd (false≢true tells) };

    fn go(&mut self, to: u64) -> io::Result<()> {
        Placed::go(&mut self.writer, to)
    }

    fn shift(&mut self, by: i64) -> io::Result<()> {
        Placed::shift(&mut self.writer, by)
    }
}

impl Medium for SyncedFile {
    ghost replays = { λ _ tells. Prim.absurd (false≢true tells) };

    #[inline(always)]
    fn put(&mut self, bytes: &[u8]) -> io::Result<usize> {
        self.writer.put(bytes)
    }

    fn flush(&mut self) -> io::Result<()> {
        if self.has_failed {
            return Err(io::Error::other("an earlier sync of the file failed"));
        }
        Write::flush(&mut self.writer)?;
        self.sync()
    }
}
