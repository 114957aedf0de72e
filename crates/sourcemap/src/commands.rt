//! Running a command by its name.
use sourcemap_editing::{data_urls, debug_id, embed, extract, strip};
use sourcemap_files::{Asked, Status, print};
use sourcemap_making::{bundle, compile, remap};
use sourcemap_reports::{check, coverage, diff, page, size};
use sourcemap_tracing::{resolve, trace};
use sourcemap_words::{Outcome, VERSION, completions_of, manual_of, program};

/// Prints the script with which the given shell completes the words of the program.
fn print_completions(asked: &Asked<'_, '_>) -> Outcome<Status> {
    let alloc = asked.alloc();
    let program = program(alloc, VERSION)?;
    let text = completions_of(alloc, &program, asked.word("SHELL"))?;
    print(asked.rt, text.as_str())?;
    Ok(Status::Found)
}

fn print_manual(asked: &Asked<'_, '_>) -> Outcome<Status> {
    let alloc = asked.alloc();
    let text = manual_of(alloc, &program(alloc, VERSION)?)?;
    print(asked.rt, text.as_str())?;
    Ok(Status::Found)
}

/// Runs the command of this name.
pub fn run(name: &str, asked: &Asked<'_, '_>) -> Outcome<Status> {
    match name {
        "trace" => trace::run(asked),
        "resolve" => resolve::run(asked),
        "check" => check::run(asked),
        "remap" => remap::run(asked),
        "bundle" => bundle::run(asked),
        "compile" => compile::run(asked),
        "extract" => extract::run(asked),
        "embed" => embed::run(asked),
        "strip" => strip::run(asked),
        "inline" => data_urls::inline(asked),
        "external" => data_urls::external(asked),
        "debug-id" => debug_id::run(asked),
        "diff" => diff::run(asked),
        "coverage" => coverage::run(asked),
        "page" => page::run(asked),
        "size" => size::run(asked),
        "completions" => print_completions(asked),
        "man" => print_manual(asked),
        _ => Ok(Status::Nothing),
    }
}
