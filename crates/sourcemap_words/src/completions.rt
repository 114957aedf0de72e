//! `completions`: what a shell completes, made from the command line itself.
use crate::arguments::takes_value;
use clap::Command;
use std::alloc::{AllocError, Global};

/// The values of the argument of `completions`.
const SHELLS: &str = "bash zsh fish";

/// The options of a command, each with its dashes, and a space after each.
fn options_of(alloc: Global, command: &Command<'_>) -> Result<String, AllocError> {
    let mut words = String::new(alloc);
    for arg in command.get_arguments() {
        if let Some(long) = arg.get_long() {
            write!(words, "--{long} ")?;
        }
        if let Some(short) = arg.get_short() {
            write!(words, "-{short} ")?;
        }
    }
    Ok(words)
}

/// The names of the commands, and a space after each.
fn names_of(alloc: Global, program: &Command<'_>) -> Result<String, AllocError> {
    let mut names = String::new(alloc);
    for command in program.get_subcommands() {
        names.push_str(command.get_name())?;
        names.push(' ')?;
    }
    Ok(names)
}

fn bash(alloc: Global, program: &Command<'_>) -> Result<String, AllocError> {
    let names = names_of(alloc, program)?;
    let mut out = format!(in alloc;
        "_sourcemap() {{
    local word=${{COMP_WORDS[COMP_CWORD]}} words=
    if [ \"$COMP_CWORD\" -eq 1 ]; then
        COMPREPLY=($(compgen -W \"{names}--help --version\" -- \"$word\"))
        return
    fi
    if [ \"${{COMP_WORDS[1]}}\" = completions ]; then
        COMPREPLY=($(compgen -W '{SHELLS}' -- \"$word\"))
        return
    fi
    case ${{COMP_WORDS[1]}} in\n"
    )?;
    for command in program.get_subcommands() {
        let name = command.get_name();
        let options = options_of(alloc, command)?;
        writeln!(out, "        {name}) words=\"{options}\" ;;")?;
    }
    out.push_str(
        "    esac
    case $word in
        -*) COMPREPLY=($(compgen -W \"$words\" -- \"$word\")) ;;
        *) COMPREPLY=($(compgen -f -- \"$word\")) ;;
    esac
}
complete -o filenames -F _sourcemap sourcemap\n",
    )?;
    Ok(out)
}

/// A text between single quotes of a shell. It has none itself but those that are doubled here.
fn quote_for_shell(alloc: Global, text: &str) -> Result<String, AllocError> {
    let mut out = String::from_str(alloc, "'")?;
    for ch in text.chars() {
        match ch {
            '\'' => out.push_str("'\\''")?,
            '[' | ']' | ':' => out.push(' ')?,
            ch => out.push(ch)?,
        }
    }
    out.push('\'')?;
    Ok(out)
}

fn push_zsh_command(
    alloc: Global,
    command: &Command<'_>,
    out: &mut String,
) -> Result<(), AllocError> {
    let name = command.get_name();
    write!(out, "        {name}) _arguments")?;
    for arg in command.get_arguments() {
        let Some(long) = arg.get_long() else {
            continue;
        };
        let help = quote_for_shell(alloc, arg.get_help().unwrap_or(""))?;
        let value = if takes_value(arg) {
            "':value:_files'"
        } else {
            ""
        };
        write!(out, " --{long}\"[\"{help}\"]\"{value}")?;
    }
    if name == "completions" {
        writeln!(out, " ':shell:({SHELLS})' ;;")
    } else {
        out.push_str(" '*:file:_files' ;;\n")
    }
}

fn zsh(alloc: Global, program: &Command<'_>) -> Result<String, AllocError> {
    let mut out = String::from_str(
        alloc,
        "#compdef sourcemap\n_sourcemap() {\n    if (( CURRENT == 2 )); then\n        local -a commands=(",
    )?;
    for command in program.get_subcommands() {
        let (name, about) = (
            command.get_name(),
            quote_for_shell(alloc, command.get_about().unwrap_or(""))?,
        );
        write!(out, "\n            {name}:{about}")?;
    }
    out.push_str(
        "\n        )\n        _describe command commands\n        return\n    fi\n    local command=$words[2]\n    shift words\n    (( CURRENT-- ))\n    case $command in\n",
    )?;
    for command in program.get_subcommands() {
        push_zsh_command(alloc, command, &mut out)?;
    }
    out.push_str("    esac\n}\n_sourcemap \"$@\"\n")?;
    Ok(out)
}

fn push_fish_options(
    alloc: Global,
    command: &Command<'_>,
    out: &mut String,
) -> Result<(), AllocError> {
    let name = command.get_name();
    for arg in command.get_arguments() {
        let Some(long) = arg.get_long() else {
            continue;
        };
        let help = quote_for_shell(alloc, arg.get_help().unwrap_or(""))?;
        let value = if takes_value(arg) { " -r" } else { "" };
        writeln!(
            out,
            "complete -c sourcemap -n '__fish_seen_subcommand_from {name}' -l {long}{value} -d {help}"
        )?;
    }
    Ok(())
}

fn fish(alloc: Global, program: &Command<'_>) -> Result<String, AllocError> {
    let mut out = String::new(alloc);
    for command in program.get_subcommands() {
        let (name, about) = (
            command.get_name(),
            quote_for_shell(alloc, command.get_about().unwrap_or(""))?,
        );
        writeln!(
            out,
            "complete -c sourcemap -f -n __fish_use_subcommand -a {name} -d {about}"
        )?;
        push_fish_options(alloc, command, &mut out)?;
    }
    writeln!(
        out,
        "complete -c sourcemap -f -n '__fish_seen_subcommand_from completions' -a '{SHELLS}'"
    )?;
    Ok(out)
}

/// The script with which a shell (`bash`, `zsh` or else `fish`) completes the words of the program.
pub fn completions_of(
    alloc: Global,
    program: &Command<'_>,
    shell: &str,
) -> Result<String, AllocError> {
    match shell {
        "bash" => bash(alloc, program),
        "zsh" => zsh(alloc, program),
        _ => fish(alloc, program),
    }
}
