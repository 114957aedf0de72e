//! Files, standard input and standard output.
use sourcemap_texts::push_visible;
use sourcemap_words::{Failure, Outcome, failure_of, file_failure};
use std::alloc::Global;
use std::fs;
use std::io::{Read, Write};

/// How a file is named in messages: `-` is standard input.
pub fn shown_name(path: &str) -> &str {
    if path == "-" { "standard input" } else { path }
}

fn read_input(rt: &HostRuntime) -> Outcome<Vec<u8>> {
    let mut bytes = Vec::new(rt.alloc());
    match rt.stdin().read_to_end(&mut bytes) {
        Ok(_) => Ok(bytes),
        Err(error) => Err(file_failure(rt.alloc(), "standard input", error)),
    }
}

/// The bytes of a file, or of standard input for `-`.
pub fn read_bytes(rt: &HostRuntime, path: &str) -> Outcome<Vec<u8>> {
    if path == "-" {
        return read_input(rt);
    }
    match fs::read(rt, path) {
        Ok(bytes) => Ok(bytes),
        Err(error) => Err(file_failure(rt.alloc(), path, error)),
    }
}

/// The text in the bytes of a file.
pub fn text_in(alloc: Global, path: &str, bytes: Vec<u8>) -> Outcome<String> {
    match String::from_utf8(bytes) {
        Ok(text) => Ok(text),
        Err(error) => {
            let at = error.utf8_error().valid_up_to();
            let text = format!(in alloc; "is not UTF-8 at byte {at}: convert it first")?;
            Err(failure_of(alloc, shown_name(path), text.as_str()))
        }
    }
}

/// The text of a file, or of standard input for `-`.
pub fn read_text(rt: &HostRuntime, path: &str) -> Outcome<String> {
    text_in(rt.alloc(), path, read_bytes(rt, path)?)
}

/// Writes bytes to standard output.
pub fn print_bytes(rt: &HostRuntime, bytes: &[u8]) -> Outcome<()> {
    match rt.stdout().write_all(bytes) {
        Ok(()) => Ok(()),
        Err(error) => Err(file_failure(rt.alloc(), "standard output", error)),
    }
}

/// Writes a text to standard output.
pub fn print(rt: &HostRuntime, text: &str) -> Outcome<()> {
    print_bytes(rt, text.as_bytes())
}

/// Prints a message on standard error. If it cannot be printed, that is no failure. Files and arguments that it names may hold control
/// characters: they are escaped.
pub fn tell(rt: &HostRuntime, message: &str) {
    let mut visible = String::new(rt.alloc());
    if push_visible(message, &mut visible).is_err() {
        let _ = eprintln!(rt; "sourcemap: Out of memory");
        return;
    }
    let _ = eprintln!(rt; "sourcemap: {visible}");
}

/// Prints a warning on standard error, as `tell` does.
pub fn warn(rt: &HostRuntime, subject: &str, text: &str) {
    match format!(in rt.alloc(); "{subject}: {text}") {
        Ok(message) => tell(rt, message.as_str()),
        Err(_) => tell(rt, "Out of memory"),
    }
}

/// Whether a file is there, and is no folder.
pub fn is_file(rt: &HostRuntime, path: &str) -> bool {
    match fs::metadata(rt, path) {
        Ok(metadata) => !metadata.is_dir(),
        Err(_) => false,
    }
}

/// Whether a file is there that is read without waiting: neither a pipe nor a device.
pub fn is_regular(rt: &HostRuntime, path: &str) -> bool {
    match fs::metadata(rt, path) {
        Ok(metadata) => metadata.is_file(),
        Err(_) => false,
    }
}

/// The failure of a command whose words do not fit together.
pub fn usage(rt: &HostRuntime, text: &str) -> Failure {
    match String::from_str(rt.alloc(), text) {
        Ok(text) => Failure::Told(text),
        Err(_) => Failure::Memory,
    }
}
