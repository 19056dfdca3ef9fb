// The workload of batches.
use crate::bench::pattern::{Pattern, Sixteen};
use hound::{Error, Medium, Result, SampleFormat, WavWriter};
use std::alloc::Global;

/// How many samples a batch has.
const BATCH: u32 = 1024;

// Writes this many samples by one batch, from a number on.
fn write_batch<W: Medium>(
    writer: &mut WavWriter<W>,
    alloc: Global,
    first: u32,
    count: u32,
) -> Result<()> {
    let spec = writer.spec();
    if spec.bits_per_sample != 16 || spec.sample_format != SampleFormat::Int {
        return Err(Error::Unsupported);
    }
    let mut batch = writer.get_i16_writer(alloc, count)?;
    for index in 0..count {
        if batch.remaining() > 0 {
            batch.write_sample(Sixteen::sample(first.wrapping_add(index)));
        }
    }
    if batch.remaining() > 0 {
        return Err(Error::UnfinishedSample);
    }
    batch.flush()
}

/// Writes this many samples of sixteen bits in batches of 1024, and closes the file.
pub fn write_batches<W: Medium>(mut writer: WavWriter<W>, alloc: Global, count: u32) -> Result<()> {
    for first in (0..count).step_by(BATCH as usize) {
        let length = count.saturating_sub(first).min(BATCH);
        write_batch(&mut writer, alloc, first, length)?;
    }
    writer.finalize()
}
