//! The arguments after the program's name.
ghost use Rattle.std.specs.Prelude.{◌≡◌, [], map, string_bytes, option_map, IfOk, IfErr, Option};
ghost use Rattle.std.specs.Prelude.{Some, None};
ghost use Rattle.smap_run.specs.Words.{request_of, two_numbers, without_arguments, parsed_command};
ghost use Rattle.smap_run.specs.Words.{command_of, taken_where};

use oxc_sourcemap_plan::{RunError, read_number};

/// What the program is asked to do with its input.
#[derive(Debug, PartialEq, Eq, Drop)]
pub enum Command<'w> {
    /// Read a mappings text, for this many names and sources, and write its canonical text.
    Mappings(u32, u32),
    /// Read a map from its JSON text, and write its JSON text.
    Normalise,
    /// Evaluate the plan of these arguments over the JSON texts of maps, and write the JSON text of its map.
    Plan(&'w [String]),
    /// Read a map from its JSON text, and write its trace at this generated line and column.
    Trace(u32, u32),
    /// Read a map from its JSON text, and write its data URL.
    Url,
}

/// The numbers of exactly two arguments.
fn read_numbers(arguments: &[String]) -> Option<(u32, u32)>
    ensures { result ≡ two_numbers (map string_bytes arguments.now) }
{
    let [a, b] = arguments else {
        return None;
    };
    Some((read_number(a.as_str())?, read_number(b.as_str())?))
}

/// A command, if no arguments follow its name.
fn without_arguments<'w>(command: Command<'w>, arguments: &[String]) -> Option<Command<'w>>
    ensures { option_map request_of result ≡ without_arguments (request_of command.entry)
        (map string_bytes arguments.now) }
{
    match arguments {
        [] => Some(command),
        _ => None,
    }
}

/// The command of this name with these arguments.
fn read_command<'w>(name: &str, arguments: &'w [String]) -> Option<Command<'w>>
    ensures { option_map request_of result ≡ parsed_command name.now
        (map string_bytes arguments.now) }
{
    match name {
        "mappings" => {
            let (names, sources) = read_numbers(arguments)?;
            Some(Command::Mappings(names, sources))
        }
        "normalise" => without_arguments(Command::Normalise, arguments),
        "url" => without_arguments(Command::Url, arguments),
        "trace" => {
            let (line, col) = read_numbers(arguments)?;
            Some(Command::Trace(line, col))
        }
        _ => None,
    }
}

/// The command of the program's arguments: `mappings NAMES SOURCES`, `normalise`, `plan PLAN`, `trace LINE COL` or `url`, each
/// number as `read_number` reads it. The arguments after `plan` are borrowed as they are, and read by `run`.
///
/// Fails with `Arguments` for all other arguments. It takes no memory.
pub fn read_words<'w>(arguments: &'w [String]) -> Result<Command<'w>, RunError>
    ensures command { IfOk result (λ command. command_of (map string_bytes arguments.now)
        ≡ Some (request_of command)) }
    ensures error { IfErr result (λ e. (e ≡ RunError.Arguments)
        × (command_of (map string_bytes arguments.now) ≡ None)) }
{
    let Some((name, arguments)) = arguments.split_first() else {
        return Err(RunError::Arguments);
    };
    if name.as_str() == "plan" {
        return Ok(Command::Plan(arguments));
    }
    read_command(name.as_str(), arguments).ok_or(RunError::Arguments)
}

/// Whether the first of the program's arguments is `--where`, which asks for the place of an error, and the arguments after it.
pub fn take_where<'w>(arguments: &'w [String]) -> (bool, &'w [String])
    ensures { (result.0, map string_bytes result.1.now)
        ≡ taken_where (map string_bytes arguments.now) }
{
    match arguments.split_first() {
        Some((name, others)) if name.as_str() == "--where" => (true, others),
        _ => (false, arguments),
    }
}
