// bench CASE N FILE: prints how long a workload over N samples took, for scripts/speed/measure.py.
//
// FILE is `-` if the case has no file on disk. The output is one line: the case, the samples, the bytes that were
// written or read, the nanoseconds that the workload took, and a sum over what was read or written.
mod batches;
mod case;
mod measure;
mod pattern;
mod workloads;

use crate::bench::case::Case;
use crate::bench::measure::measure;
use std::env;
use std::path::Path;
use std::process::ExitCode;

pub fn main(rt: HostRuntime) -> hound::Result<ExitCode> {
    let words: Vec<String> = env::args(&rt)?.collect(rt.alloc())?;
    let [_, name, count, file] = words.as_slice() else {
        return usage(&rt);
    };
    let (Some(case), Ok(count)) = (Case::named(name.as_str()), count.parse::<u32>()) else {
        return usage(&rt);
    };
    if case.place.is_on_disk() && file.as_str() == "-" {
        return usage(&rt);
    }
    let found = measure(&rt, case, count, Path::new(file.as_str()))?;
    let (bytes, nanoseconds, check) = (found.bytes, found.nanoseconds, found.check);
    println!(rt; "{name} {count} {bytes} {nanoseconds} {check}")?;
    Ok(ExitCode::SUCCESS)
}

fn usage(rt: &HostRuntime) -> hound::Result<ExitCode> {
    eprintln!(rt; "usage: bench CASE N FILE")?;
    Ok(ExitCode::from(2))
}
