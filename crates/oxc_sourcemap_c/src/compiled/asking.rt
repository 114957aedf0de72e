//! What compiled maps in handles say.
ghost use Rattle.std.specs.Prelude.{◌≡◌, ◌≢◌, ℕ, Result, Ok, Err, OnOk, OnErr, IfErr, MatchOption};
ghost use Rattle.std.specs.Prelude.{MatchResult};
ghost use Rattle.std.specs.List.{AllZip};
ghost use Rattle.oxc_sourcemap_c.specs.Words.{HoldsCompiled, HasBias, IsCompiledTrace};
ghost use Rattle.oxc_sourcemap_c.specs.Words.{IsCompiledIndex, IsCompiledError, IsCompiledAllError};
ghost use Rattle.oxc_sourcemap_c.specs.Words.{IsCodeOf, position_at, held_compiled, code_of};
ghost use Rattle.oxc_sourcemap_c.specs.Words.{compiled_counts_of, compiled_in, IsCompiledToken};
ghost use Rattle.oxc_sourcemap_c.specs.Words.{IsCompiledText, IsStamp, IsIgnoredFlag, IsWrittenOut};
ghost use Rattle.oxc_sourcemap_c.specs.Words.{asked_of, text_at, lent_item, NullHandle, BadOption};
ghost use Rattle.oxc_sourcemap_c.specs.Words.{CallError, LentText, TokenNumbers};

use crate::answers::write_found;
use crate::holding::{Lent, find_all_compiled, trace_all_compiled, trace_compiled};
use crate::numbers::{CallError, Fault, bias_from};
use crate::reading::asked::Asked;
use crate::reading::getters::flag;
use crate::reading::lookups::have_one_length;
use crate::texts::{Original, Text, TokenNumbers};
use oxc_sourcemap_compiled::CompiledMap;
use oxc_sourcemap_tokens::Position;

/// Writes what a compiled map says of a generated position, by the bias of this number, and nothing on an error.
fn trace<'c>(map: Lent, at: Position, bias: u32, out: &mut Original<'c>) -> Result<(), CallError>
    ensures traced { OnOk result (HoldsCompiled map.held (λ bytes. HasBias bias
        (λ b. IsCompiledTrace b bytes at out.new))) }
    ensures error { IfErr result (IsCompiledError map.held bias) }
    ensures unchanged { OnErr result (out.new ≡ out.old) }
{
    let compiled = map.into_compiled()?;
    let bias = bias_from(bias)?;
    trace_compiled(compiled, at, bias, out);
    Ok(())
}

/// What a compiled map says of a generated position, by the bias of this number, as `proved_trace`.
#[unsafe(no_mangle)]
pub extern "C" fn proved_compiled_trace<'c>(
    map: Lent,
    line: u32,
    column: u32,
    bias: u32,
    out: &mut Original<'c>,
) -> u32
    ensures traced { result ≡ 0 → HoldsCompiled map.held (λ bytes. HasBias bias
        (λ b. IsCompiledTrace b bytes (position_at line column) out.new)) }
    ensures error { result ≢ 0 → (out.new ≡ out.old) × IsCodeOf result
        (IsCompiledError map.held bias) }
{
    code_alone(trace(map, Position { line, column }, bias, out))
}

/// The code of a result that is written already.
#[inline(always)]
fn code_alone(answer: Result<(), CallError>) -> u32
    ensures { MatchResult answer (λ _. result ≡ 0) (λ r. result ≡ code_of r) }
{
    match answer {
        Ok(()) => 0,
        Err(error) => Fault::of(error).code,
    }
}

/// Writes what a compiled map says of many generated positions, by the bias of this number, and nothing on an error.
fn trace_all<'c>(
    map: Lent,
    positions: &[Position],
    bias: u32,
    out: &mut [Original<'c>],
) -> Result<(), CallError>
    ensures traced { OnOk result (HoldsCompiled map.held (λ bytes. HasBias bias
        (λ b. AllZip (IsCompiledTrace b bytes) positions.now out.new))) }
    ensures error { IfErr result (IsCompiledAllError positions.now out.old map.held bias) }
    ensures unchanged { OnErr result (out.new ≡ out.old) }
{
    let compiled = map.into_compiled()?;
    have_one_length(positions.len(), out.len())?;
    let bias = bias_from(bias)?;
    trace_all_compiled(compiled, positions, bias, out);
    Ok(())
}

/// What a compiled map says of generated positions, as `proved_trace_all`.
#[unsafe(no_mangle)]
pub extern "C" fn proved_compiled_trace_all<'c>(
    map: Lent,
    positions: &[Position],
    bias: u32,
    out: &mut [Original<'c>],
) -> u32
    ensures traced { result ≡ 0 → HoldsCompiled map.held (λ bytes. HasBias bias
        (λ b. AllZip (IsCompiledTrace b bytes) positions.now out.new)) }
    ensures error { result ≢ 0 → (out.new ≡ out.old) × IsCodeOf result
        (IsCompiledAllError positions.now out.old map.held bias) }
{
    code_alone(trace_all(map, positions, bias, out))
}

/// Writes the indices of the tokens that answer for many generated positions in a compiled map, and nothing on an error.
fn find_all(map: &Lent, positions: &[Position], bias: u32, out: &mut [u32]) -> Result<(), CallError>
    ensures found { OnOk result (HoldsCompiled map.now.held (λ bytes. HasBias bias
        (λ b. AllZip (IsCompiledIndex b bytes) positions.now out.new))) }
    ensures error { IfErr result (IsCompiledAllError positions.now out.old map.now.held bias) }
    ensures unchanged { OnErr result (out.new ≡ out.old) }
{
    let compiled = map.compiled()?;
    have_one_length(positions.len(), out.len())?;
    let bias = bias_from(bias)?;
    find_all_compiled(compiled, positions, bias, out);
    Ok(())
}

/// The indices of the tokens of a compiled map that answer for generated positions, as `proved_find_all`.
#[unsafe(no_mangle)]
pub extern "C" fn proved_compiled_find_all(
    map: &Lent,
    positions: &[Position],
    bias: u32,
    out: &mut [u32],
) -> u32
    ensures found { result ≡ 0 → HoldsCompiled map.now.held (λ bytes. HasBias bias
        (λ b. AllZip (IsCompiledIndex b bytes) positions.now out.new)) }
    ensures error { result ≢ 0 → (out.new ≡ out.old) × IsCodeOf result
        (IsCompiledAllError positions.now out.old map.now.held bias) }
{
    code_alone(find_all(map, positions, bias, out))
}

/// How many tokens, sources and names a compiled map has, how many entries its ignore list has and whether it has one (1 or 0), and
/// the number of bytes of the text that it was made of.
#[repr(C)]
#[derive(Clone, Copy)]
pub struct CompiledCounts {
    pub tokens: u64,
    pub sources: u64,
    pub names: u64,
    pub ignored: u64,
    pub text_length: u64,
    pub has_ignore_list: u32,
    /// Always 0: the struct has no other bytes.
    pub rest: u32,
}

/// The counts of a compiled map.
fn counts_in(map: &CompiledMap<'_>) -> CompiledCounts
    ensures { result ≡ compiled_counts_of map.now }
{
    let (has_ignore_list, ignored) = match map.ignored_count() {
        Some(count) => (1, count),
        None => (0, 0),
    };
    CompiledCounts {
        tokens: map.token_count() as u64,
        sources: map.source_count() as u64,
        names: map.name_count() as u64,
        ignored: ignored as u64,
        text_length: map.text_length(),
        has_ignore_list,
        rest: 0,
    }
}

/// The counts of the compiled map that is borrowed.
fn counts(map: &Lent) -> Result<CompiledCounts, CallError>
    ensures { MatchOption (held_compiled map.now.held) (result ≡ Err NullHandle)
        (λ bytes. result ≡ Ok (compiled_counts_of bytes)) }
{
    Ok(counts_in(map.compiled()?))
}

/// The counts of a compiled map.
#[unsafe(no_mangle)]
pub extern "C" fn proved_compiled_counts(map: &Lent, out: &mut CompiledCounts) -> u32
    ensures found { MatchOption (held_compiled map.now.held) (result ≡ code_of NullHandle)
        (λ bytes. (result ≡ 0) × (out.new ≡ compiled_counts_of bytes)) }
    ensures unchanged { result ≢ 0 → out.new ≡ out.old }
{
    write_found(counts(map), out)
}

/// A token of the compiled map that is borrowed.
fn token(map: &Lent, index: u32) -> Result<TokenNumbers, CallError>
    ensures { IsCompiledToken map.now.held index result }
{
    match map.compiled()?.get_token(index as usize) {
        Some(token) => Ok(TokenNumbers::of(&token)),
        None => Err(CallError::NoEntry),
    }
}

/// The numbers of a token of a compiled map.
#[unsafe(no_mangle)]
pub extern "C" fn proved_compiled_token(map: &Lent, index: u32, out: &mut TokenNumbers) -> u32
    ensures { (answer : Result TokenNumbers CallError)
        × IsCompiledToken map.now.held index answer
        × IsWrittenOut answer result out.old out.new }
{
    write_found(token(map, index), out)
}

/// Which text is asked for, by its kind: 0 for the name with this id, 1 for the source, 2 for its content, 3 for the file, 4 for the
/// source root and 5 for the debug id. Fails with `BadOption` of another one.
fn asked_from(kind: u32, id: u32) -> Result<Asked, CallError>
    ensures { MatchOption (asked_of kind id) (result ≡ Err BadOption) (λ asked. result ≡ Ok asked) }
{
    match kind {
        0 => Ok(Asked::Name(id)),
        1 => Ok(Asked::Source(id)),
        2 => Ok(Asked::SourceContent(id)),
        3 => Ok(Asked::File),
        4 => Ok(Asked::SourceRoot),
        5 => Ok(Asked::DebugId),
        _ => Err(CallError::BadOption),
    }
}

/// The bytes of the text of a compiled map that is asked for. None if the map has no such text.
fn text_in<'c>(map: &'c CompiledMap<'static>, asked: Asked) -> Option<&'c [u8]>
    ensures { lent_item result ≡ text_at (compiled_in map.now).content asked }
{
    match asked {
        Asked::Name(id) => map.name_bytes(id),
        Asked::Source(id) => map.source_bytes(id),
        Asked::SourceContent(id) => map.source_content_bytes(id),
        Asked::File => map.file_bytes(),
        Asked::SourceRoot => map.source_root_bytes(),
        Asked::DebugId => map.debug_id_bytes(),
    }
}

/// A text of the compiled map that is borrowed.
fn text<'c>(map: Lent, kind: u32, id: u32) -> Result<Text<'c>, CallError>
    ensures { IsCompiledText map.held kind id result }
{
    let compiled = map.into_compiled()?;
    let asked = asked_from(kind, id)?;
    match text_in(compiled, asked) {
        Some(bytes) => Ok(Text::of_bytes(Some(bytes))),
        None => Err(CallError::NoEntry),
    }
}

/// A text of a compiled map, by its kind and its id, borrowed.
#[unsafe(no_mangle)]
pub extern "C" fn proved_compiled_text<'c>(map: Lent, kind: u32, id: u32, out: &mut Text<'c>) -> u32
    ensures { (answer : Result LentText CallError) × IsCompiledText map.held kind id answer
        × IsWrittenOut answer result out.old out.new }
{
    write_found(text(map, kind, id), out)
}

/// The stamp of the compiled map that is borrowed.
fn stamp<'c>(map: Lent) -> Result<Text<'c>, CallError>
    ensures { IsStamp map.held result }
{
    Ok(Text::of_bytes(Some(map.into_compiled()?.stamp())))
}

/// The 32 bytes that a compiled map was made with, borrowed.
#[unsafe(no_mangle)]
pub extern "C" fn proved_compiled_stamp<'c>(map: Lent, out: &mut Text<'c>) -> u32
    ensures { (answer : Result LentText CallError) × IsStamp map.held answer
        × IsWrittenOut answer result out.old out.new }
{
    write_found(stamp(map), out)
}

/// Whether the ignore list of the compiled map that is borrowed has this id: 1 or 0.
fn is_ignored(map: &Lent, id: u32) -> Result<u32, CallError>
    ensures { IsIgnoredFlag map.now.held id result }
{
    let compiled = map.compiled()?;
    Ok(flag(compiled.is_ignored(id)))
}

/// Whether the ignore list of a compiled map has the id of a source.
#[unsafe(no_mangle)]
pub extern "C" fn proved_compiled_is_ignored(map: &Lent, id: u32, out: &mut u32) -> u32
    ensures { (answer : Result ℕ CallError) × IsIgnoredFlag map.now.held id answer
        × IsWrittenOut answer result out.old out.new }
{
    write_found(is_ignored(map, id), out)
}
