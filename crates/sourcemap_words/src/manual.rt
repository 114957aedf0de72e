//! `man`: the manual, made from the command line itself.
use crate::arguments::{NOTES, examples_of, takes_value};
use clap::{Arg, Command};
use std::alloc::{AllocError, Global};

/// A name in a section of the manual, and what it means.
#[derive(Clone, Copy)]
struct Entry(&'static str, &'static str);

const STATUSES: [Entry; 3] = [
    Entry("0", "Something was found, and nothing is wrong."),
    Entry(
        "1",
        "Nothing was found, or something is wrong or different.",
    ),
    Entry(
        "2",
        "An error: a message on standard error says where and why.",
    ),
];

const ENVIRONMENT: [Entry; 4] = [
    Entry("COLUMNS", "The width of help, 80 if it is not set."),
    Entry(
        "NO_COLOR",
        "If it is set and not empty, nothing has a colour. Else what `resolve` prints on a terminal has.",
    ),
    Entry(
        "SOURCEMAP_PAGE",
        "The template of `page`, if there is no --template.",
    ),
    Entry(
        "SOURCEMAP_SIZE",
        "The template of `size -o`, if there is no --template.",
    ),
];

const FILES: [Entry; 4] = [
    Entry("CODE.map", "The map of a code that names none."),
    Entry("CODE.map.smc", "The compiled map, as `compile` writes it."),
    Entry(
        "CODE.map.contents.smc",
        "The contents of its sources, if they lie apart.",
    ),
    Entry(
        "../share/sourcemap/page.html, ../share/sourcemap/size.html",
        "The templates of pages, beside the folder of the program.",
    ),
];

/// A text as the formatter of manuals takes it: dashes and backslashes stay, and no line begins a request.
fn push_text(text: &str, out: &mut String) -> Result<(), AllocError> {
    for line in text.split('\n') {
        if line.starts_with('.') || line.starts_with('\'') {
            out.push_str("\\&")?;
        }
        for ch in line.chars() {
            match ch {
                '\\' => out.push_str("\\e")?,
                '-' => out.push_str("\\-")?,
                ch => out.push(ch)?,
            }
        }
        out.push('\n')?;
    }
    Ok(())
}

/// The words of an argument, as `-o, --output <OUT>`.
fn argument_words(alloc: Global, arg: &Arg<'_>) -> Result<String, AllocError> {
    let mut words = String::new(alloc);
    if let Some(short) = arg.get_short() {
        write!(words, "-{short}, ")?;
    }
    match arg.get_long() {
        Some(long) if !takes_value(arg) => write!(words, "--{long}")?,
        _ => write!(words, "{arg}")?,
    }
    Ok(words)
}

fn push_argument(alloc: Global, arg: &Arg<'_>, out: &mut String) -> Result<(), AllocError> {
    out.push_str(".TP\n.B ")?;
    push_text(argument_words(alloc, arg)?.as_str(), out)?;
    push_text(arg.get_help().unwrap_or(""), out)
}

/// The section of a command: what it does, its arguments, and what is shown below its help.
fn push_command(
    alloc: Global,
    command: &Command<'_>,
    below: &str,
    out: &mut String,
) -> Result<(), AllocError> {
    out.push_str(".SS ")?;
    push_text(command.get_name(), out)?;
    push_text(command.get_about().unwrap_or(""), out)?;
    for arg in command.get_arguments() {
        push_argument(alloc, arg, out)?;
    }
    push_below(below, out)
}

/// What is shown below the help of a command: paragraphs, and lines that stay as they are, which begin with a space.
fn push_below(below: &str, out: &mut String) -> Result<(), AllocError> {
    for line in below.split('\n') {
        if line.starts_with(' ') {
            out.push_str(".nf\n")?;
            push_text(line, out)?;
            out.push_str(".fi\n")?;
        } else if !line.is_empty() {
            out.push_str(".PP\n")?;
            push_text(line, out)?;
        }
    }
    Ok(())
}

/// A section of names and what they mean.
fn push_section(title: &str, entries: &[Entry], out: &mut String) -> Result<(), AllocError> {
    out.push_str(".SH ")?;
    out.push_str(title)?;
    out.push('\n')?;
    for Entry(name, meaning) in entries {
        out.push_str(".TP\n.B ")?;
        push_text(name, out)?;
        push_text(meaning, out)?;
    }
    Ok(())
}

/// The manual of the program, for `man`.
pub fn manual_of(alloc: Global, program: &Command<'_>) -> Result<String, AllocError> {
    let version = program.get_version().unwrap_or("");
    let about = program.get_about().unwrap_or("");
    let mut out = format!(in alloc;
        ".TH SOURCEMAP 1 \"\" \"sourcemap {version}\"\n.SH NAME\nsourcemap \\- {about}\n.SH SYNOPSIS\n.B sourcemap\nCOMMAND [OPTION]... [ARGUMENT]...\n.SH COMMANDS\n"
    )?;
    for command in program.get_subcommands() {
        push_command(alloc, command, examples_of(command.get_name()), &mut out)?;
    }
    push_section("EXIT STATUS", &STATUSES, &mut out)?;
    push_section("ENVIRONMENT", &ENVIRONMENT, &mut out)?;
    push_section("FILES", &FILES, &mut out)?;
    out.push_str(".SH NOTES\n")?;
    push_text(NOTES, &mut out)?;
    Ok(out)
}
