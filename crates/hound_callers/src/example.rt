// What the README shows first.
use hound::{WavReader, WavSpec, WavWriter};
use std::path::Path;

/// Records with a checkpoint, and adds up what is then read.
pub fn record_and_read(rt: &HostRuntime, path: Path<'_>, spec: WavSpec) -> hound::Result<i64> {
    let mut writer = WavWriter::create(rt, rt.alloc(), path, spec)?;
    for sample in 0..4800i16 {
        writer.write_sample(sample)?;
    }
    writer.flush()?; // A reader finds these 4800 now.
    writer.write_samples(&[-1i16, 1, -1])?; // All three, or none.
    writer.finalize()?;
    let mut reader = WavReader::open(rt, rt.alloc(), path)?;
    let mut block = [0i16; 4096];
    let (count, result) = reader.read_samples(&mut block); // 4096, or those before an error.
    let mut sum = 0i64;
    for sample in &block[..count] {
        sum = sum.wrapping_add(*sample as i64);
    }
    result?;
    for sample in reader.into_samples::<i16>() {
        sum = sum.wrapping_add(sample? as i64); // The others one by one.
    }
    Ok(sum)
}
