//! The program `bench`: `monitor::bench` on the host's arguments, input, output and standard error. Read `main` first. Only safety is
//! proved.
#![tactic(auto)]

use std::process::ExitCode;

fn main(rt: HostRuntime) -> ExitCode {
    let status = match first_commands::arguments(&rt) {
        Ok(words) => monitor::bench(
            &rt,
            &words,
            &mut rt.stdin(),
            &mut rt.stdout(),
            &mut rt.stderr(),
        ),
        Err(error) => first_commands::end_without_arguments(&error, &mut rt.stderr()),
    };
    ExitCode::from(status)
}
