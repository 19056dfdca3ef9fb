//! The program `hound_tool`: numbers to WAV files. What its commands do is in `hound_commands`.
#![tactic(auto)]

pub use hound_commands::{run, run_append};
use std::io::{BufWriter, ErrorKind};
use std::path::Path;
use std::process::ExitCode;
use std::{env, io};

fn main(rt: HostRuntime) -> io::Result<ExitCode> {
    let alloc = rt.alloc();
    let arguments: Vec<String> = match env::args(&rt) {
        Ok(arguments) => arguments.collect(alloc)?,
        // Words that aren't UTF-8 are none that the program knows.
        Err(fault) if fault.kind() == ErrorKind::InvalidData => Vec::new(alloc),
        Err(fault) => return Err(fault),
    };
    let words: Vec<&str> = arguments
        .iter()
        .skip(1)
        .map(|word| word.as_str())
        .collect(alloc)?;
    let mut input = rt.stdin();
    let mut errors = rt.stderr();
    let status = match words.as_slice() {
        ["append", file] => run_append(&rt, alloc, Path::new(file), &mut input, &mut errors),
        _ => {
            let mut output = BufWriter::new(alloc, rt.stdout())?;
            run(alloc, &words, &mut input, &mut output, &mut errors)
        }
    };
    Ok(ExitCode::from(status))
}
