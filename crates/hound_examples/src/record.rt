// record FILE COUNT [channels=N] [rate=N] [bits=N] [durable] [append]: records raw samples.
//
// As in `arecord -t raw -f S24_3LE -c 2 -r 48000 | record FILE 4800 channels=2 rate=48000 bits=24`: the
// samples on standard input are little-endian, with 8 (unsigned), 16, 24 (in three bytes) or 32 bits; one
// channel, 44100 Hz and 16 bits if nothing is said. After each COUNT frames it makes a checkpoint, and
// prints how many samples the file then has. If the program is killed, the file has all of those, and
// what comes after them is found by `mend FILE`. With `durable` each checkpoint syncs the file, so it has
// them after a loss of power too if the disk keeps what it says it has. With `append` it appends to a
// file that is there, whose channels and bits the input has.
//
// After an error it continues: frames that couldn't be written are left out, with a line
// `lost 4800 samples after 9600`, and a checkpoint that failed has no line. The last line, `recorded
// 96000 samples`, counts those that were accepted.
ghost use Rattle.std.specs.Prelude.{◌≤◌, IfOk, length};

use hound::{Error, Medium, Sample, SampleFormat, WavSpec, WavWriter};
use std::io::{BufReader, ErrorKind};
use std::path::Path;
use std::process::ExitCode;
use std::{env, io};

// How samples are recorded.
#[derive(Clone, Copy)]
struct Options {
    spec: WavSpec,
    is_durable: bool,
    is_appended: bool,
}

pub fn main(rt: HostRuntime) -> hound::Result<ExitCode> {
    let words: Vec<String> = env::args(&rt)?.collect(rt.alloc())?;
    run(&rt, &words)
}

fn run(rt: &HostRuntime, words: &[String]) -> hound::Result<ExitCode> {
    let [_, file, count, options @ ..] = words else {
        return usage(rt);
    };
    let (Ok(count @ 1..), Some(options)) = (count.parse::<u32>(), options_of(options)) else {
        return usage(rt);
    };
    let (alloc, path, spec) = (rt.alloc(), Path::new(file.as_str()), options.spec);
    let is_whole = match (options.is_durable, options.is_appended) {
        (false, false) => record(rt, WavWriter::create(rt, alloc, path, spec)?, count)?,
        (false, true) => record(rt, WavWriter::append(rt, alloc, path)?, count)?,
        (true, false) => record(rt, WavWriter::create_durable(rt, alloc, path, spec)?, count)?,
        (true, true) => record(rt, WavWriter::append_durable(rt, alloc, path)?, count)?,
    };
    Ok(ExitCode::from(if is_whole { 0 } else { 1 }))
}

// What the words say, if each is an option.
fn options_of(words: &[String]) -> Option<Options> {
    let mut options = Options {
        spec: WavSpec {
            channels: 1,
            sample_rate: 44100,
            bits_per_sample: 16,
            sample_format: SampleFormat::Int,
        },
        is_durable: false,
        is_appended: false,
    };
    for word in words {
        let (name, number) = match word.split_once("=") {
            Some((name, number)) => (name, Some(number.parse::<u32>())),
            None => (word.as_str(), None),
        };
        match (name, number) {
            ("channels", Some(Ok(number @ 1..=65535))) => options.spec.channels = number as u16,
            ("rate", Some(Ok(number))) => options.spec.sample_rate = number,
            ("bits", Some(Ok(number @ (8 | 16 | 24 | 32)))) => {
                options.spec.bits_per_sample = number as u16;
            }
            ("durable", None) => options.is_durable = true,
            ("append", None) => options.is_appended = true,
            _ => return None,
        }
    }
    Some(options)
}

fn usage(rt: &HostRuntime) -> hound::Result<ExitCode> {
    eprintln!(rt; "usage: record FILE COUNT [channels=N] [rate=N] [bits=N] [durable] [append]")?;
    Ok(ExitCode::from(2))
}

// Records the input up to its end, with a checkpoint after so many frames, and says whether each call
// was Ok. Less than a frame at the end of the input is left out.
fn record<W: Medium>(
    rt: &HostRuntime,
    mut writer: WavWriter<W>,
    count: u32,
) -> hound::Result<bool> {
    let mut input = BufReader::new(rt.alloc(), rt.stdin())?;
    let spec = writer.spec_ex();
    let channels = usize::from(spec.spec.channels.max(1));
    let mut block = vec![in rt.alloc(); 0i32; count as usize * channels]?;
    let mut is_whole = writer.flush().is_ok(); // The header leaves the buffer.
    // Up to a block that isn't full, the last one. A `for` is known to end; a `loop` needs a proof.
    for _ in 0..u64::MAX {
        let count = read(&mut input, spec.spec.bits_per_sample, &mut block)?;
        is_whole &= write(rt, &mut writer, &block[..count - count % channels])?;
        if count < block.len() {
            break;
        }
        is_whole &= checkpoint(rt, &mut writer)?;
    }
    finish(rt, writer, is_whole)
}

// Writes frames, or prints that they are lost.
fn write<W: Medium>(
    rt: &HostRuntime,
    writer: &mut WavWriter<W>,
    frames: &[i32],
) -> hound::Result<bool> {
    if writer.write_samples(frames).is_ok() {
        return Ok(true);
    }
    println!(rt; "lost {} samples after {}", frames.len(), writer.len())?;
    Ok(false)
}

// Makes a checkpoint, and prints how many samples the file then has.
fn checkpoint<W: Medium>(rt: &HostRuntime, writer: &mut WavWriter<W>) -> hound::Result<bool> {
    if writer.flush().is_err() {
        return Ok(false);
    }
    println!(rt; "{}", writer.len())?;
    Ok(true)
}

fn finish<W: Medium>(
    rt: &HostRuntime,
    writer: WavWriter<W>,
    is_whole: bool,
) -> hound::Result<bool> {
    let count = writer.len();
    let is_finalized = writer.finalize().is_ok();
    println!(rt; "recorded {count} samples")?;
    Ok(is_whole && is_finalized)
}

// Fills a block with samples of so many bits, up to the end of the input: how many there were.
fn read<I: io::Read>(input: &mut I, bits: u16, block: &mut [i32]) -> hound::Result<usize>
    ensures { IfOk result (λ count. count ≤ length block.new) }
{
    for at in 0..block.len() {
        match i32::read(input, SampleFormat::Int, bits / 8, bits) {
            Ok(sample) => block[at] = sample,
            Err(Error::IoError(error)) if error.kind() == ErrorKind::Other => return Ok(at),
            Err(error) => return Err(error),
        }
    }
    Ok(block.len())
}
