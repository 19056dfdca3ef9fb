// What is timed, over any medium and any reader.
use crate::bench::batches::write_batches;
use crate::bench::case::Call;
use crate::bench::pattern::{Pattern, Summed};
use hound::{Medium, Result, Source, WavReader, WavWriter};
use std::alloc::Global;
use std::io;

/// How many samples are written between two flushes.
const CHECKPOINT: u32 = 4800;

/// How many frames are between two seeks.
const STRIDE: u32 = 1000;

/// Writes this many samples by such calls, and closes the file. Blocks are of these samples.
pub fn write_all<P: Pattern, W: Medium>(
    writer: WavWriter<W>,
    alloc: Global,
    call: Call,
    count: u32,
    samples: &[P::Sample],
) -> Result<()> {
    match call {
        Call::Sample => write_samples::<P, _>(writer, count),
        Call::Flush => write_flushing::<P, _>(writer, count),
        Call::Batch => write_batches(writer, alloc, count),
        Call::Block(length) => write_blocks(writer, samples, length as usize),
    }
}

fn write_samples<P: Pattern, W: Medium>(mut writer: WavWriter<W>, count: u32) -> Result<()> {
    for index in 0..count {
        writer.write_sample(P::sample(index))?;
    }
    writer.finalize()
}

fn write_flushing<P: Pattern, W: Medium>(mut writer: WavWriter<W>, count: u32) -> Result<()> {
    for index in 0..count {
        writer.write_sample(P::sample(index))?;
        if index % CHECKPOINT == CHECKPOINT - 1 {
            writer.flush()?;
        }
    }
    writer.finalize()
}

fn write_blocks<S: Summed, W: Medium>(
    mut writer: WavWriter<W>,
    samples: &[S],
    length: usize,
) -> Result<()> {
    for block in samples.chunks(length.max(1)) {
        writer.write_samples(block)?;
    }
    writer.finalize()
}

/// The sum of all samples, by blocks of as many as the slice has, or one at a time if it has none.
pub fn read_all<S: Summed, R: io::Read + Drop>(
    mut reader: WavReader<R>,
    block: &mut [S],
) -> Result<i64> {
    let mut sum = 0i64;
    if block.is_empty() {
        for sample in reader.samples::<S>() {
            sum = sum.wrapping_add(sample?.value());
        }
        return Ok(sum);
    }
    for _ in 0..u64::MAX {
        let (count, result) = reader.read_samples(block);
        result?;
        if count == 0 {
            break;
        }
        for sample in block.iter().take(count) {
            sum = sum.wrapping_add(sample.value());
        }
    }
    Ok(sum)
}

/// Opens a file in memory this often: the sum of the samples that it has.
pub fn open_often(file: &[u8], count: u32) -> Result<i64> {
    let mut sum = 0i64;
    for _ in 0..count {
        let reader = WavReader::new(file)?;
        sum = sum.wrapping_add(reader.len() as i64);
    }
    Ok(sum)
}

/// Seeks this often, to each thousandth frame in turn, and reads a sample there: the sum of these.
pub fn seek_often<S: Summed, R: Source>(reader: WavReader<R>, count: u32) -> Result<i64> {
    let mut reader = reader;
    let frames = reader.duration();
    let mut sum = 0i64;
    let mut time = 0u32;
    for _ in 0..count {
        reader.seek(time)?;
        if let Some(sample) = reader.samples::<S>().next() {
            sum = sum.wrapping_add(sample?.value());
        }
        time = time.saturating_add(STRIDE);
        if time >= frames {
            time = 0;
        }
    }
    Ok(sum)
}
