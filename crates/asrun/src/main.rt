// Reads a day's cues from standard input and prints the as-run record.

#![tactic(auto)]

mod report;

use report::as_run;
use std::io::Read;
use std::process::ExitCode;

// A fault prints under the program's name, so no `Err` is returned, which would print it once more.
fn main(rt: HostRuntime) -> ExitCode {
    match run(&rt) {
        Ok(()) => ExitCode::SUCCESS,
        Err(fault) => {
            let _ = eprintln!(rt; "asrun: {fault}");
            ExitCode::FAILURE
        }
    }
}

fn run(rt: &HostRuntime) -> anyhow::Result<()> {
    let mut input = Vec::new(rt.alloc());
    rt.stdin().read_to_end(&mut input)?;
    let text = as_run(rt.alloc(), &input)?;
    rt.print(text.as_str())?;
    Ok(())
}
