// mend FILE [--yes | --to-end]: prints what a recording that was cut off holds, and mends it.
//
// With `--yes` the RIFF size and the data length become those of the whole frames that the file holds;
// only a missing pad byte is added. Then the file is read: `5 frames, 1 bytes left over`, `the recording
// was cut off`, `read 5 frames`. A file with half a frame at its end, which every reader rejects, can be
// read after that. A file with chunks after its data wasn't cut off, and stays as it is; `--to-end` takes
// all that follows the data header for samples.
use hound::{Repair, RepairState, WavReader, find_damage_in_file, repair_file, repair_file_to_end};
use std::env;
use std::path::Path;
use std::process::ExitCode;

pub fn main(rt: HostRuntime) -> hound::Result<ExitCode> {
    let words: Vec<String> = env::args(&rt)?.collect(rt.alloc())?;
    run(&rt, &words)
}

fn run(rt: &HostRuntime, words: &[String]) -> hound::Result<ExitCode> {
    let (file, option) = match words {
        [_, file] => (file, None),
        [_, file, option] => (file, Some(option.as_str())),
        _ => return usage(rt),
    };
    let path = Path::new(file.as_str());
    let Some(found) = mend(rt, path, option)? else {
        return usage(rt);
    };
    println!(rt;
        "{} frames, {} bytes left over",
        found.frames, found.left_over
    )?;
    println!(rt; "{}", found.state)?;
    if option.is_some() || found.state != RepairState::CutOff {
        println!(rt; "read {} frames", count_frames(rt, path)?)?;
    }
    Ok(ExitCode::SUCCESS)
}

fn usage(rt: &HostRuntime) -> hound::Result<ExitCode> {
    eprintln!(rt; "usage: mend FILE [--yes | --to-end]")?;
    Ok(ExitCode::from(2))
}

// What a file holds, which is mended if there is an option; none for a word that is no option.
fn mend(rt: &HostRuntime, path: Path<'_>, option: Option<&str>) -> hound::Result<Option<Repair>> {
    let found = match option {
        None => find_damage_in_file(rt, rt.alloc(), path)?,
        Some("--yes") => repair_file(rt, rt.alloc(), path)?,
        Some("--to-end") => repair_file_to_end(rt, rt.alloc(), path)?,
        Some(_) => return Ok(None),
    };
    Ok(Some(found))
}

// How many frames are read.
fn count_frames(rt: &HostRuntime, path: Path<'_>) -> hound::Result<u32> {
    let mut reader = WavReader::open(rt, rt.alloc(), path)?;
    let mut count = 0u32;
    for sample in reader.samples::<i32>() {
        sample?;
        count = count.saturating_add(1);
    }
    Ok(count / u32::from(reader.spec().channels.max(1)))
}
