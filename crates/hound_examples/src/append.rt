// append FILE NUMBER..: appends numbers to a file of one channel, and prints what it reads of them.
//
// Nothing is written before the file was looked at, and what it holds stays. `seek` leads to the first
// of the new samples; they are printed a line each.
use hound::{WavReader, WavWriter};
use std::alloc::Global;
use std::env;
use std::path::Path;
use std::process::ExitCode;

pub fn main(rt: HostRuntime) -> hound::Result<ExitCode> {
    let words: Vec<String> = env::args(&rt)?.collect(rt.alloc())?;
    run(&rt, &words)
}

fn run(rt: &HostRuntime, words: &[String]) -> hound::Result<ExitCode> {
    let [_, file, numbers @ ..] = words else {
        return usage(rt);
    };
    let Some(samples) = samples_of(rt.alloc(), numbers)? else {
        return usage(rt);
    };
    let path = Path::new(file.as_str());
    let before = append(rt, path, &samples)?;
    show(rt, path, before)?;
    Ok(ExitCode::SUCCESS)
}

fn usage(rt: &HostRuntime) -> hound::Result<ExitCode> {
    eprintln!(rt; "usage: append FILE NUMBER..")?;
    Ok(ExitCode::from(2))
}

// The numbers that the words are, if each is one.
fn samples_of(alloc: Global, words: &[String]) -> hound::Result<Option<Vec<i32>>> {
    let mut samples = Vec::new(alloc);
    for word in words {
        let Ok(sample) = word.parse() else {
            return Ok(None);
        };
        samples.push(sample)?;
    }
    Ok(Some(samples))
}

// Appends samples, and returns how many frames there were before.
fn append(rt: &HostRuntime, path: Path<'_>, samples: &[i32]) -> hound::Result<u32> {
    let mut writer = WavWriter::append(rt, rt.alloc(), path)?;
    let before = writer.duration();
    writer.write_samples(samples)?; // All of them, or none.
    writer.finalize()?;
    Ok(before)
}

// Prints the samples from a frame on.
fn show(rt: &HostRuntime, path: Path<'_>, frame: u32) -> hound::Result<()> {
    let mut reader = WavReader::open(rt, rt.alloc(), path)?;
    reader.seek(frame)?;
    for sample in reader.samples::<i32>() {
        println!(rt; "{}", sample?)?;
    }
    Ok(())
}
