// stream: reads a WAV file from standard input, as from a pipe.
//
// It prints how many samples came, and the largest magnitude: `5 samples, peak 29`. A reader needs no
// seeking and takes no byte past the samples, so another file, or anything else, may follow. A program
// that writes into a pipe can't know the length: many say a large one, and the stream then ends before
// it, which is no error here.
use hound::{Error, WavReader};
use std::io::{BufReader, ErrorKind};
use std::process::ExitCode;

pub fn main(rt: HostRuntime) -> hound::Result<ExitCode> {
    let mut reader = WavReader::new(BufReader::new(rt.alloc(), rt.stdin())?)?;
    let mut block = vec![in rt.alloc(); 0i32; 4096]?;
    let mut count = 0u64;
    let mut peak = 0u32;
    // Up to a block that isn't full, the last one. A `for` is known to end; a `loop` needs a proof.
    for _ in 0..u64::MAX {
        let (length, result) = reader.read_samples(&mut block);
        for sample in &block[..length] {
            peak = peak.max(sample.unsigned_abs());
        }
        count = count.saturating_add(length as u64);
        match result {
            Err(Error::IoError(error)) if error.kind() == ErrorKind::Other => break,
            result => result?,
        }
        if length < block.len() {
            break;
        }
    }
    println!(rt; "{count} samples, peak {peak}")?;
    Ok(ExitCode::SUCCESS)
}
