//! The program over a runtime's own arguments and streams.

use crate::program::run;
use std::env;
use std::process::ExitCode;

/// Runs the command of the arguments behind the program's own name, over the standard streams. The status is that of
/// [`run`], or 1 where the arguments cannot be had.
pub fn run_on_streams(rt: &HostRuntime) -> ExitCode {
    let alloc = rt.alloc();
    let mut words = Vec::new(alloc);
    match env::args(rt) {
        Ok(given) => {
            for word in given.skip(1) {
                if words.push(word).is_err() {
                    return ExitCode::from(1);
                }
            }
        }
        Err(_) => return ExitCode::from(1),
    }
    let mut reader = rt.stdin();
    let mut writer = rt.stdout();
    let mut errors = rt.stderr();
    ExitCode::from(run(
        alloc,
        words.as_slice(),
        &mut reader,
        &mut writer,
        &mut errors,
    ))
}
