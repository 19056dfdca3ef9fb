//! Examples of programs, a page each, to be copied into `src/main.rt` of a crate of one's own (whose first
//! line is `#![tactic(auto)]`). Here they are one program: the name that it is called by, as `sine` by a
//! link, says which runs. `bench` is no example: it times workloads for `scripts/speed/measure.py`.
#![tactic(auto)]

mod append;
mod bench;
mod convert;
mod faulty;
mod levels;
mod mend;
mod record;
mod sine;
mod stream;

use std::env;
use std::process::ExitCode;

fn main(rt: HostRuntime) -> hound::Result<ExitCode> {
    let Some(program) = env::args(&rt)?.next() else {
        return Ok(ExitCode::from(2));
    };
    match file_name(program.as_str()) {
        "append" => append::main(rt),
        "bench" => bench::main(rt),
        "convert" => convert::main(rt),
        "faulty" => faulty::main(rt),
        "levels" => levels::main(rt),
        "mend" => mend::main(rt),
        "record" => record::main(rt),
        "sine" => sine::main(rt),
        "stream" => stream::main(rt),
        _ => {
            println!(rt; "append convert faulty levels mend record sine stream")?;
            Ok(ExitCode::SUCCESS)
        }
    }
}

// The last name of a path.
fn file_name(path: &str) -> &str {
    match path.rsplit_once("/") {
        Some((_, name)) => name,
        None => path,
    }
}
