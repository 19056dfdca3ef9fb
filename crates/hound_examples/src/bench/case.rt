// Which workloads there are.

/// What the samples of a file are.
#[derive(Clone, Copy)]
pub enum Kind {
    Eight,
    Sixteen,
    TwentyFour,
    ThirtyTwo,
    Float,
}

/// Where a file is.
#[derive(Clone, Copy)]
pub enum Place {
    /// In memory of its full size.
    Memory,
    /// In memory that grows with it.
    Growing,
    /// On disk.
    Disk,
    /// On disk, synced at each flush.
    Durable,
}

impl Place {
    pub fn is_on_disk(self) -> bool {
        matches!(self, Place::Disk | Place::Durable)
    }
}

/// How the samples of a file are written or read.
#[derive(Clone, Copy)]
pub enum Call {
    /// One a call.
    Sample,
    /// So many a call.
    Block(u16),
    /// One a call, with a flush after each 4800 samples.
    Flush,
    /// Batches of 1024.
    Batch,
}

/// The samples of a file.
#[derive(Clone, Copy)]
pub struct Samples {
    pub kind: Kind,
    pub channels: u16,
    pub call: Call,
}

/// What is done, over the requested number of samples, of all channels together.
#[derive(Clone, Copy)]
pub enum Work {
    /// A file is written.
    Write(Samples),
    /// A file is read.
    Read(Samples),
    /// The requested number of seeks in a file, to each thousandth frame in turn, with a sample read
    /// there.
    Seek,
    /// A small file, opened as often as requested.
    Open,
}

/// A workload.
#[derive(Clone, Copy)]
pub struct Case {
    pub work: Work,
    pub place: Place,
}

impl Case {
    /// The case of this name: `open_mem`, or what is done, what the samples are, and where the file is, as
    /// in `write_i16_stereo_file` and `flush_i16_durable`.
    pub fn named(name: &str) -> Option<Case> {
        let (name, place) = match name.rsplit_once("_")? {
            ("write_i16_mem", "grow") => ("write_i16", Place::Growing),
            (name, "mem") => (name, Place::Memory),
            (name, "file") => (name, Place::Disk),
            (name, "durable") => (name, Place::Durable),
            _ => return None,
        };
        let work = match (name, place) {
            ("open", Place::Memory) => Work::Open,
            ("seek_f32", _) => Work::Seek,
            ("batch_i16", _) => Work::Write(samples_of(Call::Batch, "i16")?),
            _ => match name.split_once("_")? {
                ("read", samples) => Work::Read(samples_of(Call::Sample, samples)?),
                ("write", samples) => Work::Write(samples_of(Call::Sample, samples)?),
                ("flush", samples) => Work::Write(samples_of(Call::Flush, samples)?),
                _ => return None,
            },
        };
        Some(Case { work, place })
    }
}

// `i16` or `i16_stereo`; `block_i16` for 4096 samples a call, or `block_64_i16` for 64.
fn samples_of(call: Call, name: &str) -> Option<Samples> {
    let (call, name) = match name.strip_prefix("block_") {
        None => (call, name),
        Some(others) => block_of(others)?,
    };
    let (name, channels) = match name.strip_suffix("_stereo") {
        None => (name, 1),
        Some(kind) => (kind, 2),
    };
    let kind = match name {
        "i8" => Kind::Eight,
        "i16" => Kind::Sixteen,
        "i24" => Kind::TwentyFour,
        "i32" => Kind::ThirtyTwo,
        "f32" => Kind::Float,
        _ => return None,
    };
    Some(Samples {
        kind,
        channels,
        call,
    })
}

fn block_of(name: &str) -> Option<(Call, &str)> {
    let (length, name) = name.split_once("_").unwrap_or(("4096", name));
    let length @ 1.. = length.parse().ok()? else {
        return None;
    };
    Some((Call::Block(length), name))
}
