// Writers of files on disk.
ghost use Rattle.std.specs.Prelude.{◌≡◌, ◌⊎◌, [], IfOk, IfErr};
ghost use Rattle.hound_spec.specs.declared.error.Error.TheVariants.{OutOfMemory};
ghost use Rattle.hound_spec.specs.{with_default_width};
ghost use Rattle.hound_walk.specs.{IsDataPlace, IsSoundSpec};
ghost use Rattle.hound_writer.specs.Accepting.{IsIoError};
ghost use Rattle.hound_writer.specs.Appending.{IsFileError};
ghost use Rattle.hound_writer.specs.Beginning.{BeginsFile};
ghost use Rattle.hound_writer.specs.Writer.{IsSound};

use crate::WavWriter;
use crate::append::append_at;
use hound_durable::{Durable, SyncedFile};
use hound_spec::{Error, Result, WavSpec, WavSpecEx};
use hound_walk::{FileHead, error_of, read_until_data};
use std::alloc::Global;
use std::io::Seek;
use std::path::Path;
use std::rt::Files;
use std::{fs, io};

// How many bytes a writer to a file buffers.
const FILE_BUFFER_SIZE: usize = 65536;

// A writer to a file, which buffers bytes until there are many.
fn with_buffer(alloc: Global, file: fs::File) -> Result<io::BufWriter<fs::File>>
    ensures { IfErr result (λ e. e ≡ OutOfMemory) }
{
    io::BufWriter::with_capacity(alloc, FILE_BUFFER_SIZE, file).or(Err(Error::OutOfMemory))
}

// Returns once the disk has the name of this file. Where the path is a link, it is the folder of the file itself that
// has this name.
fn sync_folder(rt: &impl Files<File = fs::File>, alloc: Global, path: Path<'_>) -> Result<()>
    ensures { IfErr result (λ e. IsIoError e) }
{
    let file = rt.canonicalize(alloc, path.as_str())?;
    let folder = file.parent().unwrap_or(Path::new("/"));
    fs::open(rt, folder)?.sync_all()?;
    Ok(())
}

// A medium over this file, once the disk has its contents and its name.
fn synced(
    rt: &impl Files<File = fs::File>,
    alloc: Global,
    path: Path<'_>,
    file: fs::File,
) -> Result<Durable<SyncedFile>>
    ensures { IfErr result (λ e. IsIoError e ⊎ (e ≡ OutOfMemory)) }
{
    file.sync_all()?;
    sync_folder(rt, alloc, path)?;
    Ok(Durable::new(SyncedFile::new(alloc, file)?))
}

// A file on disk, opened for reading and writing, and its head. Its place means nothing then.
fn open_until_data(
    rt: &impl Files<File = fs::File>,
    alloc: Global,
    path: Path<'_>,
) -> Result<(fs::File, FileHead)>
    ensures sound { IfOk result (λ found. IsSoundSpec found.1.spec_ex) }
    ensures start { IfOk result (λ found. IsDataPlace found.1.data_start) }
    ensures reported { IfErr result IsFileError }
{
    let mut file = fs::OpenOptions::new()
        .read(true)
        .write(true)
        .open(rt, path)?;

    // A pipe or a terminal has no place, and a read of it may block.
    file.stream_position()?;
    let mut reader = io::BufReader::new(alloc, file).or(Err(Error::OutOfMemory))?;
    let head = read_until_data(&mut reader).map_err(|error| error_of(error))?;
    Ok((reader.into_inner(), head))
}

impl WavWriter<io::BufWriter<fs::File>> {
    /// Creates a file, or empties an existing one, and begins it with this spec, as [`WavWriter::new`] does. `rt` is
    /// what `main` and each test get, `alloc` is `rt.alloc()`.
    ///
    /// The file is created or emptied before the spec is checked, so a bad spec leaves it empty. The errors, in their
    /// order: `IoError`, if the file can't be created; `OutOfMemory`, if there is no memory for the buffer;
    /// `Unsupported`, for a spec that can't be written; `IoError`, if the header can't be written.
    ///
    /// ```
    /// let mut writer = WavWriter::create(rt, rt.alloc(), path, spec)?;
    /// for sample in 0..4800i16 {
    ///     writer.write_sample(sample)?;
    /// }
    /// writer.flush()?; // A reader finds these 4800 now, whatever becomes of the writer.
    /// ```
    pub fn create(
        rt: &impl Files<File = fs::File>,
        alloc: Global,
        path: Path<'_>,
        spec: WavSpec,
    ) -> Result<WavWriter<io::BufWriter<fs::File>>>
        ensures { BeginsFile (with_default_width spec) result }
    {
        WavWriter::create_with_spec_ex(rt, alloc, path, WavSpecEx::from(spec))
    }

    /// Creates a file as [`WavWriter::create`] does, with containers of the width of this spec, as
    /// [`WavWriter::new_with_spec_ex`] does: 24 bits in four bytes, or that of a file that was read.
    pub fn create_with_spec_ex(
        rt: &impl Files<File = fs::File>,
        alloc: Global,
        path: Path<'_>,
        spec_ex: WavSpecEx,
    ) -> Result<WavWriter<io::BufWriter<fs::File>>>
        ensures { BeginsFile spec_ex result }
    {
        let file = fs::create(rt, path)?;
        let writer = with_buffer(alloc, file)?;
        WavWriter::new_with_spec_ex(writer, spec_ex)
    }

    /// Appends to an existing file, which is neither created nor emptied: the next sample goes after its data chunk,
    /// over what may be there.
    ///
    /// An error leaves the file as it was. If the recording was cut off, the sizes may say less than the file holds, or
    /// be torn: `repair_file` of the crate `hound` mends it first. `rt` and `alloc` are those of [`WavWriter::create`].
    /// The errors, in their order: `IoError`, if the file can't be opened for reading and writing or has no place, as a
    /// pipe; `OutOfMemory`, if there is no memory for the buffer of the walk; those of a reader's walk to the data;
    /// `OutOfMemory`, if there is none for the writer's buffer; those of [`WavWriter::try_append`] after the walk.
    pub fn append(
        rt: &impl Files<File = fs::File>,
        alloc: Global,
        path: Path<'_>,
    ) -> Result<WavWriter<io::BufWriter<fs::File>>>
        ensures sound { IfOk result (λ w. IsSound w) }
        ensures fresh { IfOk result (λ w. (w.buffered ≡ []) × (w.batch_memory ≡ [])) }
        ensures reported { IfErr result IsFileError }
    {
        let (file, head) = open_until_data(rt, alloc, path)?;
        let writer = with_buffer(alloc, file)?;
        append_at(writer, head).map_err(|(_, error)| error)
    }
}

impl WavWriter<Durable<SyncedFile>> {
    /// Creates a file as [`WavWriter::create`] does, and syncs it: here until the disk has the empty file and its name,
    /// and at each `flush` first the samples, then the sizes that count them.
    ///
    /// A loss of power before this call returns may leave what was at the path before, and where the file system has no
    /// journal a part of it. After its Ok it leaves an empty file or the new one. After a sync that failed each later
    /// `flush` fails too: see [`SyncedFile`].
    ///
    /// What a loss of power leaves is proved for a [`Durable`] medium whose bytes are known to contracts; for a real
    /// file the order of the calls is tested, and only the errors are proved. They are those of `create`, in the same
    /// order, and after the file was created `IoError` if the file or its folder can't be synced. If the path is a
    /// link, this folder is that of the file that it leads to.
    pub fn create_durable(
        rt: &impl Files<File = fs::File>,
        alloc: Global,
        path: Path<'_>,
        spec: WavSpec,
    ) -> Result<WavWriter<Durable<SyncedFile>>>
        ensures { BeginsFile (with_default_width spec) result }
    {
        WavWriter::create_durable_with_spec_ex(rt, alloc, path, WavSpecEx::from(spec))
    }

    /// Creates a file as [`WavWriter::create_durable`] does, with containers of the width of this spec.
    pub fn create_durable_with_spec_ex(
        rt: &impl Files<File = fs::File>,
        alloc: Global,
        path: Path<'_>,
        spec_ex: WavSpecEx,
    ) -> Result<WavWriter<Durable<SyncedFile>>>
        ensures { BeginsFile spec_ex result }
    {
        let file = fs::create(rt, path)?;
        WavWriter::new_with_spec_ex(synced(rt, alloc, path, file)?, spec_ex)
    }

    /// Appends to a file as [`WavWriter::append`] does, and syncs it at each `flush` as [`WavWriter::create_durable`]
    /// does.
    ///
    /// It first syncs the file as it was found, and its folder, since whoever wrote it may not have. The errors are
    /// those of `append`, in the same order, and before that of the writer's buffer `IoError` if the file or its folder
    /// can't be synced.
    pub fn append_durable(
        rt: &impl Files<File = fs::File>,
        alloc: Global,
        path: Path<'_>,
    ) -> Result<WavWriter<Durable<SyncedFile>>>
        ensures sound { IfOk result (λ w. IsSound w) }
        ensures fresh { IfOk result (λ w. (w.buffered ≡ []) × (w.batch_memory ≡ [])) }
        ensures reported { IfErr result IsFileError }
    {
        let (file, head) = open_until_data(rt, alloc, path)?;
        let writer = synced(rt, alloc, path, file)?;
        append_at(writer, head).map_err(|(_, error)| error)
    }
}
