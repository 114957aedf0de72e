//! Lines of bytes: as texts, and with other texts at some places.
ghost use Rattle.std.specs.Prelude.{◌≡◌, ◌++◌, IfOk, Ok, true, false, drop, length, string_bytes};
ghost use Rattle.std.specs.Str.{IsUtf8};
ghost use Rattle.sourcemap_run.specs.Words.{between, spliced, are_in_row, IsMasked};

use oxc_sourcemap_tokens::Memory;
use std::alloc::Global;

/// A line as a text that has NUL for each byte that is not UTF-8.
fn masked(alloc: Global, line: &[u8]) -> Memory<String>
    ensures { IfOk result (λ text. IsMasked line.now (string_bytes text)) }
{
    let mut text = String::new(alloc);
    for chunk in line.utf8_chunks() {
        text.push_str(chunk.valid())?;
        text.push_str("\0".repeat(alloc, chunk.invalid().len())?.as_str())?;
    }
    Ok(text)
}

/// A line as a text, whose bytes are where those of the line are: NUL for each that is not UTF-8.
pub fn text_of(alloc: Global, line: &[u8]) -> Memory<String>
    ensures masked { IfOk result (λ text. IsMasked line.now (string_bytes text)) }
    ensures same { IfOk result (λ text. IsUtf8 line.now → string_bytes text ≡ line.now) }
{
    match std::str::from_utf8(line) {
        Ok(text) => String::from_str(alloc, text),
        Err(_) => masked(alloc, line),
    }
}

/// A place of a line, from byte `start` up to but not including `end`, and the text that replaces it.
#[derive(Clone, Copy)]
pub struct Splice<'t> {
    pub start: usize,
    pub end: usize,
    pub text: &'t str,
}

/// A line from byte `from` on.
fn behind(line: &[u8], from: usize) -> &[u8]
    ensures { result.now ≡ drop from line.now }
{
    line.get(from..).unwrap_or(&[])
}

/// The bytes of a line from `start` up to but not including `end`.
fn between(line: &[u8], start: usize, end: usize) -> &[u8]
    ensures { result.now ≡ between line.now start end }
{
    behind(line.get(..end).unwrap_or(line), start)
}

/// Whether places are in a row from left to right, and in a line with `len` bytes.
fn are_in_row(len: usize, splices: &[Splice<'_>]) -> bool
    ensures { result ≡ are_in_row len 0 splices.now }
{
    let mut from = 0usize;
    for splice in splices {
        if splice.start < from || splice.end < splice.start {
            return false;
        }
        from = splice.end;
    }
    from <= len
}

/// Appends a line, which need not be UTF-8: at each place its text, and all else as it is. Appends nothing and returns false exactly
/// if a place begins before the end of the one ahead of it, or ends before it begins or past the line. If memory runs out, a part may be
/// appended.
pub fn push_spliced(line: &[u8], splices: &[Splice<'_>], out: &mut Vec<u8>) -> Memory<bool>
    ensures spliced { result ≡ Ok true → out.new.items
        ≡ out.old.items ++ spliced line.now 0 splices.now }
    ensures in_row { IfOk result (λ done. done ≡ are_in_row (length line.now) 0 splices.now) }
    ensures unchanged { result ≡ Ok false → out.new.items ≡ out.old.items }
{
    if !are_in_row(line.len(), splices) {
        return Ok(false);
    }
    let mut from = 0usize;
    for splice in splices {
        out.extend_from_slice(between(line, from, splice.start))?;
        out.extend_from_slice(splice.text.as_bytes())?;
        from = splice.end;
    }
    out.extend_from_slice(behind(line, from))?;
    Ok(true)
}
