// Files on disk, repaired in place.
ghost use Rattle.std.specs.Prelude.{false, IfErr, IfOk};
ghost use Rattle.std.proofs.lemmas.Bool.{false≢true};
ghost use Rattle.hound_walk.specs.{IsSoundSpec};
ghost use Rattle.hound_writer.specs.{IsFileError};

use crate::look::{Repair, find_damage};
use crate::mend::{repair, repair_to_end};
use hound_medium::{Medium, Placed, Source};
use hound_spec::{Error, Result};
use std::alloc::Global;
use std::io::{BufReader, Read, Seek, Write};
use std::path::Path;
use std::rt::Files;
use std::{fs, io};

// A file that is read through a buffer and written without one.
#[derive(Drop)]
struct FileInPlace {
    reader: BufReader<fs::File>,
}

impl Placed for FileInPlace {
    ghost bytes = { λ _ tells. Prim.absurd (false≢true tells) };

    fn go(&mut self, to: u64) -> io::Result<()> {
        Placed::go(&mut self.reader, to)
    }

    fn shift(&mut self, by: i64) -> io::Result<()> {
        Placed::shift(&mut self.reader, by)
    }
}

impl Read for FileInPlace {
    fn read(&mut self, buf: &mut [u8]) -> io::Result<usize> {
        self.reader.read(buf)
    }
}

impl Source for FileInPlace {
    ghost left = { λ _ tells. Prim.absurd (false≢true tells) };

    fn get(&mut self, buf: &mut [u8]) -> io::Result<usize> {
        self.reader.read(buf)
    }
}

impl Medium for FileInPlace {
    ghost replays = { λ _ tells. Prim.absurd (false≢true tells) };

    // Each write of a repair comes after a `go`, which drops what was read ahead.
    fn put(&mut self, bytes: &[u8]) -> io::Result<usize> {
        let n = self.reader.get_mut().write(bytes)?;
        if n == 0 {
            return Err(io::Error::from(io::ErrorKind::WriteZero));
        }
        Ok(n)
    }

    fn flush(&mut self) -> io::Result<()> {
        self.reader.get_ref().sync_all()
    }
}

// The file within a buffer, unless it is a pipe or a terminal, which have no place.
fn buffered(alloc: Global, file: fs::File) -> Result<BufReader<fs::File>>
    ensures reported { IfErr result IsFileError }
{
    let mut file = file;
    file.stream_position()?;
    BufReader::new(alloc, file).or(Err(Error::OutOfMemory))
}

// A file on disk, opened for reading and writing.
fn open_in_place(
    rt: &impl Files<File = fs::File>,
    alloc: Global,
    path: Path<'_>,
) -> Result<FileInPlace>
    ensures reported { IfErr result IsFileError }
{
    let file = fs::OpenOptions::new()
        .read(true)
        .write(true)
        .open(rt, path)?;
    let reader = buffered(alloc, file)?;
    Ok(FileInPlace { reader })
}

/// Repairs a file on disk as [`repair`] does, and syncs it where it wrote.
///
/// `rt` is what `main` and each test are given, `alloc` is `rt.alloc()`. The errors, in their order: `IoError` if the
/// file can't be opened for reading and writing or has no place, as a pipe; `OutOfMemory` if there is none for the
/// buffer; those of [`repair`].
pub fn repair_file(
    rt: &impl Files<File = fs::File>,
    alloc: Global,
    path: Path<'_>,
) -> Result<Repair>
    ensures sound { IfOk result (λ found. IsSoundSpec found.spec_ex) }
    ensures reported { IfErr result IsFileError }
{
    let (_, found) = repair(open_in_place(rt, alloc, path)?).map_err(|(_, error)| error)?;
    Ok(found)
}

/// Repairs a file on disk as [`repair_to_end`] does: for a recording whose samples look like chunks or a tag.
///
/// It syncs the file as [`repair_file`] does, and its errors are the same.
pub fn repair_file_to_end(
    rt: &impl Files<File = fs::File>,
    alloc: Global,
    path: Path<'_>,
) -> Result<Repair>
    ensures sound { IfOk result (λ found. IsSoundSpec found.spec_ex) }
    ensures reported { IfErr result IsFileError }
{
    let (_, found) = repair_to_end(open_in_place(rt, alloc, path)?).map_err(|(_, error)| error)?;
    Ok(found)
}

/// Looks at a file on disk as [`find_damage`] does, and writes nothing.
///
/// The errors are those of [`repair_file`], in the same order; the file is opened for reading only.
pub fn find_damage_in_file(
    rt: &impl Files<File = fs::File>,
    alloc: Global,
    path: Path<'_>,
) -> Result<Repair>
    ensures sound { IfOk result (λ found. IsSoundSpec found.spec_ex) }
    ensures reported { IfErr result IsFileError }
{
    let reader = buffered(alloc, fs::open(rt, path)?)?;
    let (_, found) = find_damage(reader).map_err(|(_, error)| error)?;
    Ok(found)
}
