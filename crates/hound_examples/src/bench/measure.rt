// Cases from end to end: what is made before, what is timed, and what is checked after it.
ghost use Rattle.std.specs.Prelude.{◌≡◌, IfOk};

use crate::bench::case::{Call, Case, Kind, Place, Samples, Work};
use crate::bench::pattern::{Eight, Float, Pattern, Sixteen, ThirtyTwo, TwentyFour};
use crate::bench::workloads::{open_often, read_all, seek_often, write_all};
use hound::{FloatBits, Placed, Result, Tape, WavReader, WavSpec, WavWriter};
use std::alloc::Global;
use std::fs;
use std::path::Path;
use std::time::Instant;

/// How many samples the file for seeks has.
const SOUGHT: u32 = 1_000_000;

/// What one run of a case gave.
#[derive(Clone, Copy)]
pub struct Measured {
    /// The bytes that were written or read.
    pub bytes: u64,
    /// The time of the workload only.
    pub nanoseconds: u128,
    /// The sum of the samples that were read, or of the bytes that were written.
    pub check: i64,
}

/// Runs a case with this many samples; the path is that of its file on disk, if it has one.
pub fn measure(rt: &HostRuntime, case: Case, count: u32, path: Path<'_>) -> Result<Measured> {
    let place = case.place;
    match case.work {
        Work::Write(samples) => match samples.kind {
            Kind::Eight => write::<Eight>(rt, samples, place, count, path),
            Kind::Sixteen => write::<Sixteen>(rt, samples, place, count, path),
            Kind::TwentyFour => write::<TwentyFour>(rt, samples, place, count, path),
            Kind::ThirtyTwo => write::<ThirtyTwo>(rt, samples, place, count, path),
            Kind::Float => write::<Float>(rt, samples, place, count, path),
        },
        Work::Read(samples) => match samples.kind {
            Kind::Eight => read::<Eight>(rt, samples, place, count, path),
            Kind::Sixteen => read::<Sixteen>(rt, samples, place, count, path),
            Kind::TwentyFour => read::<TwentyFour>(rt, samples, place, count, path),
            Kind::ThirtyTwo => read::<ThirtyTwo>(rt, samples, place, count, path),
            Kind::Float => read::<Float>(rt, samples, place, count, path),
        },
        Work::Seek => seek(rt, place, count, path),
        Work::Open => open(rt, count),
    }
}

// An empty tape, or in memory of its full size one of zeros, as long as the file of this many samples
// will be.
fn tape_of(alloc: Global, place: Place, spec: WavSpec, count: u32) -> Result<Tape>
    ensures { IfOk result (λ t. (⟦<Tape as Placed>⟧.state t).place ≡ 0) }
{
    let mut bytes = Vec::new(alloc);
    if matches!(place, Place::Memory) {
        let header = spec.into_header_for_infinite_file(alloc)?;
        let width = spec.bits_per_sample.div_ceil(8) as usize;
        let data_length = count as usize * width;
        bytes.resize(header.len() + data_length + data_length % 2, 0)?;
    }
    Ok(Tape::new(bytes))
}

// The file of this many samples, in this many channels.
fn file_of<P: Pattern>(alloc: Global, channels: u16, count: u32) -> Result<Vec<u8>> {
    let mut tape = Tape::new(Vec::new(alloc));
    let writer = WavWriter::new(&mut tape, P::spec(channels))?;
    write_all::<P, _>(writer, alloc, Call::Sample, count, &[])?;
    Ok(tape.into_bytes())
}

// This many samples, by their numbers.
fn samples_of<P: Pattern>(alloc: Global, count: u32) -> Result<Vec<P::Sample>> {
    let mut samples = Vec::new(alloc);
    for index in 0..count {
        samples.push(P::sample(index))?;
    }
    Ok(samples)
}

// What a run gave that wrote these bytes.
fn written(file: &[u8], nanoseconds: u128) -> Measured {
    let mut check = 0i64;
    for byte in file {
        check = check.wrapping_add(*byte as i64);
    }
    Measured {
        bytes: file.len() as u64,
        nanoseconds,
        check,
    }
}

fn write<P: Pattern>(
    rt: &HostRuntime,
    file: Samples,
    place: Place,
    count: u32,
    path: Path<'_>,
) -> Result<Measured> {
    let (alloc, call) = (rt.alloc(), file.call);
    // Blocks are made before they are written.
    let length = if matches!(call, Call::Block(_)) {
        count
    } else {
        0
    };
    let samples = samples_of::<P>(alloc, length)?;
    let spec = P::spec(file.channels);
    let mut tape = tape_of(alloc, place, spec, count)?;
    let start = Instant::now(rt)?;
    match place {
        Place::Memory | Place::Growing => {
            let writer = WavWriter::new(&mut tape, spec)?;
            write_all::<P, _>(writer, alloc, call, count, &samples)?;
        }
        Place::Disk => {
            let writer = WavWriter::create(rt, alloc, path, spec)?;
            write_all::<P, _>(writer, alloc, call, count, &samples)?;
        }
        Place::Durable => {
            let writer = WavWriter::create_durable(rt, alloc, path, spec)?;
            write_all::<P, _>(writer, alloc, call, count, &samples)?;
        }
    }
    let nanoseconds = start.elapsed(rt)?.as_nanos();
    if place.is_on_disk() {
        return Ok(written(&fs::read(rt, path)?, nanoseconds));
    }
    Ok(written(tape.bytes(), nanoseconds))
}

fn read<P: Pattern>(
    rt: &HostRuntime,
    file: Samples,
    place: Place,
    count: u32,
    path: Path<'_>,
) -> Result<Measured> {
    let bytes = file_of::<P>(rt.alloc(), file.channels, count)?;
    let length = if let Call::Block(length) = file.call {
        length
    } else {
        0
    };
    let mut block = samples_of::<P>(rt.alloc(), length as u32)?;
    if place.is_on_disk() {
        fs::write(rt, path, bytes.as_slice())?;
    }
    let start = Instant::now(rt)?;
    let check = if place.is_on_disk() {
        read_all(WavReader::open(rt, rt.alloc(), path)?, &mut block)?
    } else {
        read_all(WavReader::new(bytes.as_slice())?, &mut block)?
    };
    Ok(Measured {
        bytes: bytes.len() as u64,
        nanoseconds: start.elapsed(rt)?.as_nanos(),
        check,
    })
}

// A sample of four bytes is read at each place.
fn seek(rt: &HostRuntime, place: Place, count: u32, path: Path<'_>) -> Result<Measured> {
    let file = file_of::<Float>(rt.alloc(), 1, SOUGHT)?;
    if place.is_on_disk() {
        fs::write(rt, path, file.as_slice())?;
    }
    let start = Instant::now(rt)?;
    let check = if place.is_on_disk() {
        seek_often::<FloatBits, _>(WavReader::open(rt, rt.alloc(), path)?, count)?
    } else {
        seek_often::<FloatBits, _>(WavReader::new(Tape::new(file))?, count)?
    };
    Ok(Measured {
        bytes: 4 * count as u64,
        nanoseconds: start.elapsed(rt)?.as_nanos(),
        check,
    })
}

// The small file has sixteen samples.
fn open(rt: &HostRuntime, count: u32) -> Result<Measured> {
    let file = file_of::<Sixteen>(rt.alloc(), 1, 16)?;
    let start = Instant::now(rt)?;
    let check = open_often(&file, count)?;
    let time = start.elapsed(rt)?;
    Ok(Measured {
        bytes: (file.len() as u64).saturating_mul(count as u64),
        nanoseconds: time.as_nanos(),
        check,
    })
}
