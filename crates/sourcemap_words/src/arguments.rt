//! The commands and their arguments. Help, completions and the manual are made from these texts.
mod examples;

use clap::{Arg, ArgAction, Command};
pub use examples::examples_of;
use std::alloc::{AllocError, Global};

/// The program's version.
pub const VERSION: &str = "2.0.0";

const ABOUT: &str =
    "Looks positions up in source maps, resolves stack traces, and checks, joins and compares maps";
/// What holds for all commands.
pub const NOTES: &str =
    "Lines and columns count from 0, columns in UTF-16 units, unless a command says else. `-` is standard input.";

const STATUS: &str =
    "Lines and columns count from 0, columns in UTF-16 units, unless a command says else. `-` is standard input.

Status: 0 if something was found and nothing is wrong, 1 if nothing was found or something is wrong or different, 2 on an error.";

type Built<'a> = Result<Command<'a>, AllocError>;

/// How an argument of a command is written.
#[derive(Clone, Copy)]
enum Kind {
    /// A flag, `--NAME`.
    Flag,
    /// An option, `--NAME VALUE`.
    Option(&'static str),
    /// An option that may come more than once.
    Options(&'static str),
    /// An option whose value is a number.
    Number(&'static str),
    /// A number of bytes, 256 MB by default.
    Limit,
    /// An option with two values.
    Two(&'static [&'static str]),
    /// An option that has a letter too, `-o OUT`.
    Output,
    /// The same, without which the command does not run.
    NeededOutput,
    /// A file, without which the command does not run.
    File,
    /// One file or more.
    Files,
    /// An optional file.
    Other,
    /// An optional file; without it standard input is read.
    Input,
    /// Any number of words.
    Words,
    /// One of some words.
    OneOf(&'static [&'static str]),
    /// An option whose value is one of some words.
    Which(&'static str, &'static [&'static str]),
}

/// An argument of a command: its name, how it is written, and its help.
#[derive(Clone, Copy)]
struct Word(&'static str, Kind, &'static str);

/// A command: what it does, the help of its option `--json`, and its arguments.
#[derive(Clone, Copy)]
struct Words {
    about: &'static str,
    json: &'static str,
    words: &'static [Word],
}

/// The options of all commands about files.
const COMMON: [Word; 3] = [
    Word(
        "root",
        Kind::Option("DIR"),
        "The folder of the files that codes and traces name [default: .]",
    ),
    Word(
        "maps",
        Kind::Option("DIR"),
        "A folder of maps, each with the path of its code in the root or with its name, and .map at the end",
    ),
    Word("outside", Kind::Flag, "Read files outside of the root too"),
];

/// How sources are named, and whether they are sources of their own maps.
const ABSOLUTE: Word = Word(
    "absolute",
    Kind::Flag,
    "Names sources from the root of the file system",
);

const RAW: Word = Word("raw", Kind::Flag, "Names sources as their maps do");

const FOLLOW: Word = Word(
    "follow",
    Kind::Flag,
    "Leads on through the maps of sources, found beside them, at any depth",
);

const CONTEXT: Word = Word(
    "context",
    Kind::Number("N"),
    "Shows N lines of the original before and after, the column marked, from the map or from its file in the root; below frames in strings none",
);

/// Where codes are that engines name by other paths.
const PREFIX: Word = Word(
    "prefix",
    Kind::Options("PREFIX=DIR"),
    "Looks for what is below PREFIX, a URL or a path, in DIR",
);

const TRACE: Words = Words {
    about: "Traces generated positions to their originals",
    json: "An object a line, with the keys below",
    words: &[
        Word(
            "MAP",
            Kind::File,
            "A map, or a code (a generated file, as .js or .css) whose map is found",
        ),
        Word(
            "POSITION",
            Kind::Words,
            "LINE:COLUMN; without one, or for -, the lines of standard input, each answered as it comes, one without a position by an empty line ({} of --json)",
        ),
        Word(
            "clamped",
            Kind::Flag,
            "Before the first token of a line, that token answers",
        ),
        Word(
            "upper",
            Kind::Flag,
            "The first token at or after a position answers",
        ),
        Word(
            "reverse",
            Kind::Options("SOURCE:LINE:COLUMN"),
            "Finds the generated positions of an original one",
        ),
        Word(
            "one-based",
            Kind::Flag,
            "Lines and columns count from 1, given and printed",
        ),
        CONTEXT,
        FOLLOW,
        ABSOLUTE,
        RAW,
    ],
};

const RESOLVE: Words = Words {
    about: "Resolves the frames of stack traces to the originals, as V8, Firefox, Safari and Hermes print them, in traces and in logs",
    json: "An object a line, with the keys below",
    words: &[
        Word(
            "TRACE",
            Kind::Input,
            "A stack trace, or a log that has some",
        ),
        PREFIX,
        Word(
            "explain",
            Kind::Flag,
            "Says below a frame why it stays as it is, or, if not by its whole path, how its code was found",
        ),
        Word(
            "debug-id-map",
            Kind::Option("FILE"),
            "A JSON object with the debug ids of codes, by the names in frames: maps are found by these in the folder of --maps or else of --root",
        ),
        Word(
            "names",
            Kind::Which("WHICH", &["source", "code"]),
            "The names of functions: those of the source, by the scopes of a map or its mappings, or those of the code [default: source]",
        ),
        CONTEXT,
        FOLLOW,
        ABSOLUTE,
        RAW,
        Word(
            "hide-ignored",
            Kind::Flag,
            "Leaves out frames of sources in the ignore lists of maps, where they are alone in their rows",
        ),
        Word(
            "quiet",
            Kind::Flag,
            "Does not report on standard error how many frames are resolved",
        ),
    ],
};

const CHECK: Words = Words {
    about: "Reports what is wrong in maps, and what they hold",
    json: "An object a line, with the keys below",
    words: &[
        Word(
            "FILE",
            Kind::Files,
            "Maps, and codes whose maps are found; compiled maps are compared with the maps beside them; of a folder all these that are in it; of a pattern with *, ** or ? those that it matches",
        ),
        Word(
            "level",
            Kind::Which("LEVEL", &["error", "warning", "note"]),
            "The lowest level of a finding that makes the status 1 [default: warning]",
        ),
    ],
};

const REMAP: Words = Words {
    about: "Traces a map through the maps of its sources; source roots are applied",
    json: "An object, with the keys below",
    words: &[
        Word(
            "MAP",
            Kind::File,
            "A map, or a code (a generated file, as .js or .css) whose map is found",
        ),
        Word(
            "PATH=MAP",
            Kind::Words,
            "The map of the source with this path, as MAP has it in `sources` behind its source root",
        ),
        Word(
            "follow",
            Kind::Flag,
            "Finds the maps of sources beside them, at any depth",
        ),
        Word("simplify", Kind::Flag, "Leaves out what no position needs"),
        Word(
            "output",
            Kind::Output,
            "The file to write [default: standard output]",
        ),
        LIMIT,
    ],
};

/// The greatest length of a written map.
const LIMIT: Word = Word(
    "limit",
    Kind::Limit,
    "The most bytes that the map may have, as 1000, 64K or 2G; past it nothing is written [default: 256M]",
);

const BUNDLE: Words = Words {
    about: "Joins codes and their maps into one code and one map",
    json: "An object a line, with the keys below",
    words: &[
        Word("FILE", Kind::Files, "Codes, whose maps are found"),
        Word("output", Kind::NeededOutput, "The code to write"),
        Word(
            "wrap",
            Kind::Two(&["BEFORE", "AFTER"]),
            "Lines before and after each code",
        ),
        LIMIT,
    ],
};

const COMPILE: Words = Words {
    about: "Compiles maps, as bytes in which positions are looked up in place",
    json: "An object a line, with the keys below",
    words: &[
        Word(
            "FILE",
            Kind::Files,
            "Maps, and codes whose maps are found; each is written as its map with .smc at the end",
        ),
        Word(
            "contents-apart",
            Kind::Flag,
            "Writes the contents of sources apart, as the map with .contents.smc at the end, which is read where they are needed",
        ),
        Word(
            "no-contents",
            Kind::Flag,
            "Leaves out the contents of sources",
        ),
        Word(
            "output",
            Kind::Output,
            "The folder to write to, which has to be there [default: that of each map]; sources stay relative to that of the map",
        ),
    ],
};

const EXTRACT: Words = Words {
    about: "Writes the contents of sources as files",
    json: "An object a line, with the keys below",
    words: &[
        Word("FILE", Kind::Files, "Maps, and codes whose maps are found"),
        Word(
            "output",
            Kind::NeededOutput,
            "The folder to write to, which is made if it is not there",
        ),
        Word(
            "force",
            Kind::Flag,
            "Overwrites files that have another content",
        ),
    ],
};

const EMBED: Words = Words {
    about: "Puts the contents of sources into a map, from their files",
    json: "An object a line, with the keys below",
    words: &[
        Word(
            "MAP",
            Kind::File,
            "A map, or a code (a generated file, as .js or .css) whose map is found",
        ),
        Word(
            "from",
            Kind::Option("DIR"),
            "The folder that `extract` wrote contents to: sources are read there",
        ),
        EDITED,
    ],
};

const STRIP: Words = Words {
    about: "Takes the contents of sources out of a map",
    json: "An object, with the keys below",
    words: &[
        Word(
            "MAP",
            Kind::File,
            "A map, or a code (a generated file, as .js or .css) whose map is found",
        ),
        EDITED,
    ],
};

const INLINE: Words = Words {
    about: "Puts maps into their codes, as data URLs",
    json: "An object a line, with the keys below",
    words: &[Word(
        "CODE",
        Kind::Files,
        "Codes that name their maps, which are found; each is changed where it lies",
    )],
};

const EXTERNAL: Words = Words {
    about: "Takes maps in data URLs out of their codes, as files",
    json: "An object a line, with the keys below",
    words: &[
        Word(
            "CODE",
            Kind::Files,
            "Codes with maps in data URLs; each is changed where it lies",
        ),
        Word(
            "output",
            Kind::Output,
            "The folder to write maps to, which has to be there [default: that of each code]",
        ),
        Word(
            "force",
            Kind::Flag,
            "Overwrites files that have another content",
        ),
    ],
};

const DEBUG_ID: Words = Words {
    about: "Reports whether codes and their maps have the same debug ids, or gives them the same ones",
    json: "An object a line, with the keys below",
    words: &[
        Word("CODE", Kind::Files, "Codes whose maps are found"),
        Word(
            "inject",
            Kind::Flag,
            "Gives each code and its map one debug id, where they lie",
        ),
        Word(
            "force",
            Kind::Flag,
            "Of two debug ids that differ takes that of the map, and replaces what is no UUID",
        ),
    ],
};

/// Where a changed map is written.
const EDITED: Word = Word(
    "output",
    Kind::Output,
    "The file to write; sources stay as they are [default: the map's own]",
);

const DIFF: Words = Words {
    about: "Reports at how many positions two maps answer differently, and the first of these",
    json: "An object, with the keys below",
    words: &[
        Word(
            "A",
            Kind::File,
            "A map, or a code (a generated file, as .js or .css) whose map is found",
        ),
        Word("B", Kind::File, "Another one"),
        Word(
            "no-contents",
            Kind::Flag,
            "Does not compare contents of sources",
        ),
    ],
};

const COVERAGE: Words = Words {
    about: "Turns V8's block coverage into lines, functions and branches of the originals",
    json: "An object a line, with the keys below",
    words: &[
        Word(
            "V8.json",
            Kind::Files,
            "What V8 wrote, or folders: the files *.json in them and below",
        ),
        PREFIX,
        Word("lcov", Kind::Flag, "Prints it as lcov reads it"),
        Word(
            "html",
            Kind::Flag,
            "Prints a page with the contents that the maps have",
        ),
        Word(
            "check",
            Kind::Options("MEASURE=PERCENT"),
            "Status 1 if a lower percentage ran; MEASURE is lines, functions or branches, PERCENT a whole number from 0 to 100",
        ),
    ],
};

const PAGE: Words = Words {
    about: "Writes a page that shows a code and its originals side by side, for browsers",
    json: "An object, with the keys below",
    words: &[
        Word("CODE", Kind::File, "A code"),
        Word(
            "MAP",
            Kind::Other,
            "Its map, or a code whose map is found [default: the map of CODE]",
        ),
        Word("output", Kind::NeededOutput, "The page to write"),
        Word("template", Kind::Option("FILE"), "The template of the page"),
    ],
};

const SIZE: Words = Words {
    about: "Reports how many bytes of codes come from each source",
    json: "An object a line, with the keys below",
    words: &[
        Word(
            "CODE",
            Kind::Files,
            "Codes, whose maps are found; of --diff the old one and the new one",
        ),
        Word(
            "by",
            Kind::Which("WHAT", &["source", "folder", "package"]),
            "What the bytes are reported for: sources, the folders that they are in, or packages, by the last node_modules/NAME or node_modules/@SCOPE/NAME of a path [default: source]",
        ),
        Word(
            "diff",
            Kind::Flag,
            "Reports what has another number of bytes in the second code than in the first, the greatest change first",
        ),
        Word(
            "gzip",
            Kind::Flag,
            "Divides the bytes of CODE.gz beside each code among the sources, by their shares of the code",
        ),
        Word(
            "output",
            Kind::Output,
            "A page to write, for browsers, which shows the bytes as areas; then only --json prints",
        ),
        Word("template", Kind::Option("FILE"), "The template of the page"),
    ],
};

/// Whether a value follows an option.
pub fn takes_value(arg: &Arg<'_>) -> bool {
    !matches!(
        arg.get_action(),
        ArgAction::SetTrue | ArgAction::Help | ArgAction::Version
    )
}

/// An option `--NAME`, with what its value is called.
fn option<'a>(arg: Arg<'a>, name: &'a str, value: &'a str) -> Arg<'a> {
    arg.long(name).value_name(value).action(ArgAction::Set)
}

fn output<'a>(arg: Arg<'a>) -> Arg<'a> {
    option(arg, "output", "OUT").short('o')
}

fn any_number<'a>(arg: Arg<'a>) -> Arg<'a> {
    arg.num_args(0..).action(ArgAction::Append)
}

fn one_or_more<'a>(arg: Arg<'a>) -> Arg<'a> {
    arg.num_args(1..).action(ArgAction::Append).required(true)
}

fn two<'a>(arg: Arg<'a>, name: &'a str, values: &'a [&'a str]) -> Arg<'a> {
    arg.long(name)
        .num_args(2)
        .value_names(values)
        .action(ArgAction::Set)
}

/// The argument of a word.
fn arg_of<'a>(alloc: Global, word: &Word) -> Arg<'a> {
    let Word(name, kind, help) = *word;
    let arg = Arg::new(alloc, name).help(help);
    match kind {
        Kind::Flag => arg.long(name).action(ArgAction::SetTrue),
        Kind::Option(value) => option(arg, name, value),
        Kind::Options(value) => option(arg, name, value).action(ArgAction::Append),
        // A number below 0 is refused as a value, and not as an unknown option.
        Kind::Number(value) => option(arg, name, value)
            .allow_negative_numbers(true)
            .value_parser(clap::value_parser!(u32)),
        Kind::Limit => option(arg, name, "BYTES")
            .allow_negative_numbers(true)
            .default_value("256M")
            .hide_default_value(true),
        Kind::Two(values) => two(arg, name, values),
        Kind::Output => output(arg),
        Kind::NeededOutput => output(arg).required(true),
        Kind::File => arg.required(true),
        Kind::Files => one_or_more(arg),
        Kind::Other => arg,
        Kind::Input => arg.default_value("-"),
        Kind::Words => any_number(arg),
        Kind::OneOf(words) => arg.required(true).value_parser(words),
        Kind::Which(value, words) => option(arg, name, value).value_parser(words),
    }
}

/// The options that an argument excludes: what `--json` prints has no place for it, or they say another thing.
fn excluded_by(name: &str) -> &'static [&'static str] {
    match name {
        "context" | "lcov" => &["json"],
        "html" => &["json", "lcov"],
        "contents-apart" => &["no-contents"],
        "gzip" => &["diff"],
        "raw" => &["absolute"],
        _ => &[],
    }
}

/// An argument that excludes others.
fn with_excluded<'a>(name: &str, arg: Arg<'a>) -> Result<Arg<'a>, AllocError> {
    let mut arg = arg;
    for other in excluded_by(name) {
        arg = arg.conflicts_with(*other)?;
    }
    Ok(arg)
}

/// A command with these arguments.
fn with_words<'a>(alloc: Global, command: Command<'a>, words: &[Word]) -> Built<'a> {
    let mut command = command;
    for word in words {
        command = command.arg(with_excluded(word.0, arg_of(alloc, word))?)?;
    }
    Ok(command)
}

/// A command about files, with `--json` and the options of where maps are found.
fn command<'a>(alloc: Global, name: &'a str, words: &Words) -> Built<'a> {
    let command = Command::new(alloc, name)
        .about(words.about)
        .after_help(examples_of(name));
    let command = with_words(alloc, command, &[Word("json", Kind::Flag, words.json)])?;
    let command = with_words(alloc, command, &COMMON)?;
    with_words(alloc, command, words.words)
}

/// A command that prints a text made of these words.
fn printer<'a>(alloc: Global, name: &'a str, about: &'a str, words: &[Word]) -> Built<'a> {
    let command = Command::new(alloc, name)
        .about(about)
        .after_help(examples_of(name));
    with_words(alloc, command, words)
}

/// The names of the commands, in the order in which help lists them.
const COMMANDS: [&str; 18] = [
    "trace",
    "resolve",
    "check",
    "remap",
    "bundle",
    "compile",
    "extract",
    "embed",
    "strip",
    "inline",
    "external",
    "debug-id",
    "diff",
    "coverage",
    "page",
    "size",
    "completions",
    "man",
];

const SHELL: [Word; 1] = [Word("SHELL", Kind::OneOf(&["bash", "zsh", "fish"]), "The shell")];

/// The command of a name of `COMMANDS`.
fn command_of<'a>(alloc: Global, name: &'a str) -> Built<'a> {
    match name {
        "trace" => command(alloc, name, &TRACE),
        "resolve" => command(alloc, name, &RESOLVE),
        "check" => command(alloc, name, &CHECK),
        "remap" => command(alloc, name, &REMAP),
        "bundle" => command(alloc, name, &BUNDLE),
        "compile" => command(alloc, name, &COMPILE),
        "extract" => command(alloc, name, &EXTRACT),
        "embed" => command(alloc, name, &EMBED),
        "strip" => command(alloc, name, &STRIP),
        "inline" => command(alloc, name, &INLINE),
        "external" => command(alloc, name, &EXTERNAL),
        "debug-id" => command(alloc, name, &DEBUG_ID),
        "diff" => command(alloc, name, &DIFF),
        "coverage" => command(alloc, name, &COVERAGE),
        "page" => command(alloc, name, &PAGE),
        "size" => command(alloc, name, &SIZE),
        "completions" => printer(alloc, name, "Prints the completions of a shell", &SHELL),
        _ => printer(alloc, name, "Prints the manual", &[]),
    }
}

/// The program's command line; `version` is the program's.
pub fn program<'a>(alloc: Global, version: &'a str) -> Built<'a> {
    let mut program = Command::new(alloc, "sourcemap")
        .version(version)
        .about(ABOUT)
        .after_help(STATUS)
        .subcommand_required(true)
        .propagate_version(true);
    for name in COMMANDS {
        program = program.subcommand(command_of(alloc, name)?)?;
    }
    Ok(program)
}
