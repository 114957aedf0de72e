//! `sourcemap`: looks positions up in source maps, resolves stack traces, and checks, joins and compares maps.
//!
//! The crate `sourcemap_run` makes what the commands print, and is proved to print what the library answers. `sourcemap_words` has the
//! words of the command line. `sourcemap_files` finds maps. The commands are in `sourcemap_tracing`, `sourcemap_making`,
//! `sourcemap_editing` and `sourcemap_reports`.
#![tactic(auto)]

mod commands;

use clap::{ArgMatches, Error};
use sourcemap_files::{Asked, Status, print, tell};
use sourcemap_texts::push_visible;
use sourcemap_words::{Failure, Outcome, VERSION, program, wrapped};
use std::alloc::{AllocError, Global};
use std::env;
use std::process::ExitCode;

/// Runs the command that was parsed.
fn run<'a>(rt: &'a HostRuntime, name: &str, matches: &'a ArgMatches<'_>) -> Outcome<Status> {
    let asked = Asked::new(rt, matches)?;
    commands::run(name, &asked)
}

/// Reports a failure, and returns its status.
fn tell_failure(rt: &HostRuntime, command: &str, failure: Failure) -> ExitCode {
    match failure {
        Failure::Told(message) => tell(rt, message.as_str()),
        Failure::Library(error) => {
            let _ = eprintln!(rt; "sourcemap: {command}: {error}");
        }
        Failure::Memory => tell(rt, "Out of memory"),
        Failure::Closed => {}
    }
    ExitCode::from(2)
}

/// A text of several lines, its hidden characters escaped.
fn visible_lines(alloc: Global, text: &str) -> Outcome<String> {
    let mut visible = String::new(alloc);
    for (i, line) in text.split('\n').enumerate() {
        if i > 0 {
            visible.push('\n')?;
        }
        push_visible(line, &mut visible)?;
    }
    Ok(visible)
}

/// The width of help, where the terminal's is not known.
const WIDTH: usize = 80;
/// The least width of help.
const LEAST_WIDTH: usize = 40;

/// The width of help: that of the environment variable COLUMNS, if it is a number.
fn width_of_help(rt: &HostRuntime) -> usize {
    let width = match env::var(rt, "COLUMNS") {
        Ok(columns) => columns.as_str().parse().unwrap_or(WIDTH),
        Err(_) => WIDTH,
    };
    width.max(LEAST_WIDTH)
}

/// Prints help or the version; or reports what is wrong with the words of the command line, which is a failure.
fn show(rt: &HostRuntime, error: &Error) -> Outcome<ExitCode> {
    let text = format!(in rt.alloc(); "{error}")?;
    if !error.use_stderr() {
        let text = wrapped(rt.alloc(), text.as_str(), width_of_help(rt))?;
        print(rt, text.as_str())?;
        return Ok(ExitCode::SUCCESS);
    }
    let _ = eprint!(rt; "{}", visible_lines(rt.alloc(), text.as_str())?);
    Ok(ExitCode::from(2))
}

/// Parses the words of the command line, and runs the command.
fn parse_and_run(rt: &HostRuntime, words: &[String]) -> Result<ExitCode, AllocError> {
    let command = program(rt.alloc(), VERSION)?;
    let matches = match command.try_get_matches_from(words) {
        Ok(matches) => matches,
        Err(error) => {
            return Ok(match show(rt, &error) {
                Ok(code) => code,
                Err(failure) => tell_failure(rt, "", failure),
            });
        }
    };
    let Some((name, matches)) = matches.subcommand() else {
        return Ok(ExitCode::from(2));
    };
    Ok(match run(rt, name, matches) {
        Ok(Status::Found) => ExitCode::SUCCESS,
        Ok(Status::Nothing) => ExitCode::from(1),
        Err(failure) => tell_failure(rt, name, failure),
    })
}

/// The words of the command line; alone, the program prints its help.
fn words_of(rt: &HostRuntime) -> Result<Vec<String>, AllocError> {
    let mut words = Vec::new(rt.alloc());
    if let Ok(arguments) = env::args(rt) {
        for word in arguments {
            words.push(word)?;
        }
    }
    if words.len() < 2 {
        words.push(String::from_str(rt.alloc(), "--help")?)?;
    }
    Ok(words)
}

fn main(rt: HostRuntime) -> ExitCode {
    let words = match words_of(&rt) {
        Ok(words) => words,
        Err(_) => return tell_failure(&rt, "", Failure::Memory),
    };
    match parse_and_run(&rt, words.as_slice()) {
        Ok(code) => code,
        Err(_) => tell_failure(&rt, "", Failure::Memory),
    }
}
