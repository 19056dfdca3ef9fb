// Files on disk that are read.
ghost use Rattle.std.specs.Prelude.{◌≡◌, ⊤, IfOk, IfErr, ◌⊎◌};
ghost use Rattle.hound_walk.specs.{IsRejection};
ghost use Rattle.hound_reader.specs.Reader.{HasWholeFrames};
ghost use Rattle.hound_spec.specs.declared.error.Error.TheVariants.{OutOfMemory};

use crate::reader::WavReader;
use hound_spec::{Error, Result};
use std::alloc::Global;
use std::path::Path;
use std::rt::Files;
use std::{fs, io};

impl WavReader<io::BufReader<fs::File>> {
    /// Opens an existing file, which stays as it is, and takes what is before the data, by a buffer of `alloc`. `rt` is
    /// what `main` and each test get; `alloc` is `rt.alloc()`.
    ///
    /// The errors, in their order: `IoError`, if the file can't be opened; `OutOfMemory`, if there is no memory for the
    /// buffer; those of [`WavReader::new`].
    ///
    /// ```
    /// let mut reader = WavReader::open(rt, rt.alloc(), path)?;
    /// let mut block = [0i16; 4096];
    /// let (count, result) = reader.read_samples(&mut block); // 4096, or those before an error.
    /// ```
    pub fn open(
        rt: &impl Files<File = fs::File>,
        alloc: Global,
        path: Path<'_>,
    ) -> Result<WavReader<io::BufReader<fs::File>>>
        ensures fresh { IfOk result (λ r. (r.samples_read ≡ 0) × (r.bytes_read ≡ 0)) }
        ensures sound { IfOk result (λ r. HasWholeFrames r) }
        ensures reported { IfErr result (λ e. (e ≡ OutOfMemory) ⊎ IsRejection e (λ _. ⊤)) }
    {
        let file = fs::open(rt, path)?;
        let Ok(reader) = io::BufReader::new(alloc, file) else {
            return Err(Error::OutOfMemory);
        };
        WavReader::new(reader)
    }
}
