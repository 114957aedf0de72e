//! Writing files, so that each is there whole, as it was or as it is to be.
use crate::asked::Asked;
use crate::input::print_bytes;
use crate::paths::{folder_of, real_name};
use sourcemap_words::{Failure, Outcome, failure_of, file_failure};
use std::fs::{File, OpenOptions};
use std::io::{ErrorKind, Write};
use std::{fs, io};

/// How many names are tried for a file beside another one.
const NAMES: u32 = 1000;

/// Bytes that are to be written to a file.
#[derive(Drop)]
struct Pending<'t> {
    /// How the file was named.
    path: &'t str,
    bytes: &'t [u8],
    /// The file, and the one beside it that has the bytes and is to replace it; None where the file itself is written.
    beside: Option<(String, String)>,
}

/// The failure of writing to a file; where its folder is not there, that of the folder.
fn write_failure(rt: &HostRuntime, path: &str, error: io::Error) -> Failure {
    let folder = folder_of(path);
    let is_lost = !folder.is_empty() && fs::metadata(rt, folder).is_err();
    if is_lost && error.kind() == ErrorKind::NotFound {
        return failure_of(rt.alloc(), folder, "there is no such folder: make it first");
    }
    file_failure(rt.alloc(), path, error)
}

/// A new file in a folder, and its path.
fn new_file(rt: &HostRuntime, folder: &str) -> Outcome<io::Result<(File, String)>> {
    for number in 0..NAMES {
        let path = format!(in rt.alloc(); "{folder}.sourcemap-{number}.tmp")?;
        match File::create_new(rt, path.as_str()) {
            Ok(file) => return Ok(Ok((file, path))),
            Err(error) if error.kind() == ErrorKind::AlreadyExists => {}
            Err(error) => return Ok(Err(error)),
        }
    }
    Ok(Err(io::Error::from(ErrorKind::AlreadyExists)))
}

/// Writes bytes to a new file, with the permissions of the one that it is to replace, through to the disk.
fn fill(rt: &HostRuntime, file: File, target: &str, bytes: &[u8]) -> io::Result<()> {
    let mut file = file;
    if let Ok(old) = fs::metadata(rt, target) {
        file.set_permissions(old.permissions())?;
    }
    file.write_all(bytes)?;
    file.sync_all()
}

/// Whether a file is replaced by another one: a file, and no device, pipe or folder, or nothing at all, and no link to nothing.
fn is_replaced(rt: &HostRuntime, path: &str) -> bool {
    match fs::metadata(rt, path) {
        Ok(metadata) => metadata.is_file(),
        Err(_) => fs::symlink_metadata(rt, path).is_err(),
    }
}

/// Fails where a file is there that may not be written.
fn check_writable(rt: &HostRuntime, path: &str) -> Outcome<()> {
    match OpenOptions::new().write(true).open(rt, path) {
        Ok(_) => Ok(()),
        Err(error) if error.kind() == ErrorKind::NotFound => Ok(()),
        Err(error) => Err(write_failure(rt, path, error)),
    }
}

/// Writes bytes beside their file; `-` and what is no file are left for later. So is a file in a folder that takes no new ones.
fn begin<'t>(rt: &HostRuntime, path: &'t str, bytes: &'t [u8]) -> Outcome<Pending<'t>> {
    let mut pending = Pending {
        path,
        bytes,
        beside: None,
    };
    if path == "-" || !is_replaced(rt, path) {
        return Ok(pending);
    }
    check_writable(rt, path)?;
    let target = real_name(rt, path)?;
    let (file, beside) = match new_file(rt, folder_of(target.as_str()))? {
        Ok(made) => made,
        Err(error) if error.kind() == ErrorKind::PermissionDenied => return Ok(pending),
        Err(error) => return Err(write_failure(rt, path, error)),
    };
    let filled = fill(rt, file, target.as_str(), bytes);
    if let Err(error) = filled {
        let _ = fs::remove_file(rt, beside.as_str());
        return Err(write_failure(rt, path, error));
    }
    pending.beside = Some((target, beside));
    Ok(pending)
}

/// Puts bytes where they are to be.
fn finish(rt: &HostRuntime, pending: &Pending<'_>) -> Outcome<()> {
    let path = pending.path;
    if path == "-" {
        return print_bytes(rt, pending.bytes);
    }
    let done = match &pending.beside {
        Some((target, beside)) => fs::rename(rt, beside.as_str(), target.as_str()),
        None => fs::write(rt, path, pending.bytes),
    };
    match done {
        Ok(()) => Ok(()),
        Err(error) => Err(write_failure(rt, path, error)),
    }
}

/// Removes the files that are left beside others: all, once one could not be written.
fn give_up(rt: &HostRuntime, all: &[Pending<'_>]) {
    for pending in all {
        if let Some((_, beside)) = &pending.beside {
            let _ = fs::remove_file(rt, beside.as_str());
        }
    }
}

fn begin_all<'t>(
    rt: &HostRuntime,
    files: &[(&'t str, &'t [u8])],
    all: &mut Vec<Pending<'t>>,
) -> Outcome<()> {
    for (path, bytes) in files {
        let pending = begin(rt, *path, *bytes)?;
        all.push(pending)?;
    }
    Ok(())
}

/// Puts those where they are to be that replace a file, or those that do not.
fn finish_all(rt: &HostRuntime, all: &[Pending<'_>], replace: bool) -> Outcome<()> {
    for pending in all {
        if pending.beside.is_some() == replace {
            finish(rt, pending)?;
        }
    }
    Ok(())
}

/// Writes bytes to files, or to standard output for `-`: each first to a new file beside the one that it replaces, and only once all are
/// on the disk do they replace these. So where one cannot be written, each file is as it was. A file keeps its permissions; of a link
/// the file that it leads to is replaced. Devices and pipes are written as they are, and so is a file in a folder that takes no new ones:
/// these are written before a file is replaced, since that may fail.
pub fn write_files(rt: &HostRuntime, files: &[(&str, &[u8])]) -> Outcome<()> {
    let mut all = Vec::new(rt.alloc());
    let mut done = begin_all(rt, files, &mut all);
    if done.is_ok() {
        done = finish_all(rt, all.as_slice(), false);
    }
    if done.is_ok() {
        done = finish_all(rt, all.as_slice(), true);
    }
    if done.is_err() {
        give_up(rt, all.as_slice());
    }
    done
}

/// Writes a text to a file, or to standard output for `-`, as `write_files` does.
pub fn write_text(rt: &HostRuntime, path: &str, text: &str) -> Outcome<()> {
    write_files(rt, &[(path, text.as_bytes())])
}

/// Refuses to write over a file that is read.
pub fn refuse_overwriting(asked: &Asked<'_, '_>, read: &str, written: &str) -> Outcome<()> {
    if real_name(asked.rt, read)? != real_name(asked.rt, written)? {
        return Ok(());
    }
    Err(failure_of(
        asked.alloc(),
        read,
        "would be written over: name another file by -o",
    ))
}
