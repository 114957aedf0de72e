//! `smap`: reads, joins, composes and writes source maps at a shell (docs/FORMAT.md, "The program").
//!
//!     smap mappings NAMES SOURCES < mappings.txt
//!     smap normalise < bundle.js.map
//!     smap plan PLAN.. < bundles.txt
//!     smap trace LINE COL < bundle.js.map
//!     smap url < bundle.js.map
//!
//! An error is printed on standard error after `smap: `, and the status is then 2 for bad arguments and 1 for all else. After
//! `smap --where` a second line has the place of the fault in the input, if the error has one, and what is really wrong there, if the
//! error does not say it.
#![tactic(auto)]

use smap_run::{Failure, Port, RunError, read_words, run, run_where, take_where};
use std::alloc::AllocError;
use std::env;
use std::io::ErrorKind;
use std::process::ExitCode;

/// The arguments of the program, without its name. Fails with `Arguments` if one is not UTF-8.
fn arguments_of(rt: &HostRuntime) -> Result<Vec<String>, RunError> {
    let args = match env::args(rt) {
        Ok(args) => args,
        Err(error) if error.kind() == ErrorKind::OutOfMemory => return Err(AllocError.into()),
        Err(_) => return Err(RunError::Arguments),
    };
    let mut arguments = Vec::new(rt.alloc());
    for argument in args.skip(1) {
        arguments.push(argument)?;
    }
    Ok(arguments)
}

fn smap(rt: &HostRuntime) -> Result<(), Failure> {
    let arguments = arguments_of(rt)?;
    let (is_where, words) = take_where(arguments.as_slice());
    let command = read_words(words)?;
    let mut reader = Port::new(rt.stdin());
    let mut writer = Port::new(rt.stdout());
    if is_where {
        return run_where(rt.alloc(), &command, &mut reader, &mut writer);
    }
    run(rt.alloc(), &command, &mut reader, &mut writer)?;
    Ok(())
}

fn main(rt: HostRuntime) -> ExitCode {
    match smap(&rt) {
        Ok(()) => ExitCode::SUCCESS,
        Err(
            Failure {
                error,
                place,
                reason,
            },
        ) => {
            let _ = eprintln!(rt; "smap: {error}");
            let _ = match (place, reason) {
                (Some(place), Some(reason)) => eprintln!(rt; "{place}: {reason}"),
                (Some(place), None) => eprintln!(rt; "{place}"),
                (None, _) => Ok(()),
            };
            ExitCode::from(error.status())
        }
    }
}
