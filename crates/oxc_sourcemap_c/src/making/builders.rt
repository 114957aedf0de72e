//! Calls on the builders that handles hold.
ghost use Rattle.std.specs.Prelude.{◌≡◌, ◌≢◌, Some, Err, IsUtf8, IfOk, IfErr, OnOk, OnErr, map};
ghost use Rattle.std.specs.Prelude.{MatchResult, None};
ghost use Rattle.oxc_sourcemap_c.specs.Words.{out_of_memory, nothing_built, no_fault, held_builder};
ghost use Rattle.oxc_sourcemap_c.specs.Words.{held_map, IsErrorAs, token_of, with_tokens};
ghost use Rattle.oxc_sourcemap_c.specs.Words.{with_file, Builds, with_name, with_path};
ghost use Rattle.oxc_sourcemap_c.specs.Words.{with_bare_path, IsStep, IsStepError, IsNameError};
ghost use Rattle.oxc_sourcemap_c.specs.Words.{IsSourceError, IsPathError, IsNotText};
ghost use Rattle.oxc_sourcemap_c.specs.Words.{IsBuilderError, IsFinished, CallError, code_of};

use crate::answers::write_told;
use crate::holding::{Handle, Held, LoadedMap, empty_box, index_of, put};
use crate::numbers::{CallError, Fault};
use crate::texts::{TokenNumbers, text_of, tokens_of};
use oxc_sourcemap_map::{OwnedSourceMap, SourceMapBuilder};
use std::alloc::Global;
use std::mem;

/// What a call adds to a builder, or sets in it. Texts are bytes, which have to be UTF-8.
#[derive(Clone, Copy)]
pub enum Step<'t> {
    Name(&'t [u8]),
    /// A source by its path, without a content.
    Source(&'t [u8]),
    /// A source by its path, with its content.
    SourceAndContent(&'t [u8], &'t [u8]),
    Tokens(&'t [TokenNumbers]),
    File(&'t [u8]),
}

fn add_name(builder: &mut SourceMapBuilder<'static>, name: &[u8]) -> Result<u32, CallError>
    ensures added { IfOk result (λ id. IsUtf8 name.now
        × ((builder.new, id) ≡ with_name builder.old name.now)) }
    ensures error { IfErr result (λ r. (r ≢ out_of_memory) → IsNameError name.now builder.old r) }
    ensures sure { (r : CallError) → IsNameError name.now builder.old r → result ≡ Err r }
    ensures unchanged { OnErr result (builder.new ≡ builder.old) }
{
    let name = text_of(name)?;
    Ok(builder.add_name_copied(name)?)
}

fn add_source(builder: &mut SourceMapBuilder<'static>, path: &[u8]) -> Result<u32, CallError>
    ensures added { IfOk result (λ id. IsUtf8 path.now
        × ((builder.new, id) ≡ with_bare_path builder.old path.now)) }
    ensures error { IfErr result (λ r. (r ≢ out_of_memory) → IsPathError path.now builder.old r) }
    ensures sure { (r : CallError) → IsPathError path.now builder.old r → result ≡ Err r }
    ensures unchanged { OnErr result (builder.new ≡ builder.old) }
{
    let path = text_of(path)?;
    Ok(builder.add_source_copied(path)?)
}

fn add_source_and_content(
    builder: &mut SourceMapBuilder<'static>,
    path: &[u8],
    content: &[u8],
) -> Result<u32, CallError>
    ensures added { IfOk result (λ id. IsUtf8 path.now × IsUtf8 content.now
        × ((builder.new, id) ≡ with_path builder.old path.now content.now)) }
    ensures error { IfErr result (λ r. (r ≢ out_of_memory)
        → IsSourceError path.now content.now builder.old r) }
    ensures sure { (r : CallError) → IsSourceError path.now content.now builder.old r
        → result ≡ Err r }
    ensures unchanged { OnErr result (builder.new ≡ builder.old) }
{
    let path = text_of(path)?;
    let content = text_of(content)?;
    Ok(builder.add_source_and_content_copied(path, content)?)
}

fn add_tokens(
    builder: &mut SourceMapBuilder<'static>,
    alloc: Global,
    tokens: &[TokenNumbers],
) -> Result<u32, CallError>
    ensures added { OnOk result (builder.new
        ≡ with_tokens builder.old (map token_of tokens.now)) }
    ensures error { IfErr result (λ r. r ≡ out_of_memory) }
    ensures unchanged { OnErr result (builder.new ≡ builder.old) }
{
    let tokens = tokens_of(alloc, tokens)?;
    builder.add_tokens(tokens.as_slice())?;
    Ok(0)
}

fn set_file(builder: &mut SourceMapBuilder<'static>, file: &[u8]) -> Result<u32, CallError>
    ensures set { OnOk result (IsUtf8 file.now × (builder.new ≡ with_file builder.old file.now)) }
    ensures error { IfErr result (λ r. (r ≢ out_of_memory) → IsNotText file.now r) }
    ensures sure { (r : CallError) → IsNotText file.now r → result ≡ Err r }
    ensures unchanged { OnErr result (builder.new ≡ builder.old) }
{
    let file = text_of(file)?;
    builder.set_file_copied(file)?;
    Ok(0)
}

/// Makes a step in a builder, and returns the id of what it adds, or 0.
fn make(
    builder: &mut SourceMapBuilder<'static>,
    alloc: Global,
    step: Step<'_>,
) -> Result<u32, CallError>
    ensures made { IfOk result (λ id. IsStep step.entry builder.old builder.new id) }
    ensures error { IfErr result (λ r. (r ≢ out_of_memory)
        → IsStepError step.entry builder.old r) }
    ensures sure { (r : CallError) → IsStepError step.entry builder.old r → result ≡ Err r }
    ensures unchanged { OnErr result (builder.new ≡ builder.old) }
{
    match step {
        Step::Name(name) => add_name(builder, name),
        Step::Source(path) => add_source(builder, path),
        Step::SourceAndContent(path, content) => add_source_and_content(builder, path, content),
        Step::Tokens(tokens) => add_tokens(builder, alloc, tokens),
        Step::File(file) => set_file(builder, file),
    }
}

fn make_held(held: &mut Held, alloc: Global, step: Step<'_>) -> Result<u32, CallError>
    ensures made { IfOk result (λ id. Builds (Some held.old) (Some held.new)
        (λ b c. IsStep step.entry b c id)) }
    ensures error { IfErr result (λ r. (r ≢ out_of_memory)
        → IsBuilderError (Some held.old) (IsStepError step.entry) r) }
    ensures sure { (r : CallError) → IsBuilderError (Some held.old) (IsStepError step.entry) r
        → result ≡ Err r }
    ensures unchanged { OnErr result (held.new ≡ held.old) }
{
    match held {
        Held::Building(builder) => make(builder.as_mut(), alloc, step),
        _ => Err(CallError::NullHandle),
    }
}

/// Makes a step in the builder of a handle, and returns the id of what it adds, or 0. Fails with `NullHandle` if there is none;
/// on an error the builder is as it was.
fn build(alloc: Global, handle: &mut Handle, step: Step<'_>) -> Result<u32, CallError>
    ensures made { IfOk result (λ id. Builds handle.old.held handle.new.held
        (λ b c. IsStep step.entry b c id)) }
    ensures error { IfErr result (λ r. (r ≢ out_of_memory)
        → IsBuilderError handle.old.held (IsStepError step.entry) r) }
    ensures sure { (r : CallError) → IsBuilderError handle.old.held (IsStepError step.entry) r
        → result ≡ Err r }
    ensures unchanged { OnErr result (handle.new.held ≡ handle.old.held) }
{
    match handle.take(alloc) {
        Some(held) => {
            let mut held = held;
            let made = make_held(held.as_mut(), alloc, step);
            handle.put(held);
            made
        }
        None => Err(CallError::NullHandle),
    }
}

/// Adds a name, and writes its id.
#[unsafe(no_mangle)]
pub extern "C" fn proved_builder_add_name(
    alloc: Global,
    builder: &mut Handle,
    name: &[u8],
    id: &mut u32,
    fault: &mut Fault,
) -> u32
    ensures added { result ≡ 0 → Builds builder.old.held builder.new.held
        (λ b c. IsUtf8 name.now × ((c, id.new) ≡ with_name b name.now)) }
    ensures no_error { result ≡ 0 → fault.new ≡ no_fault }
    ensures error { result ≢ 0 → (builder.new.held ≡ builder.old.held) × (id.new ≡ id.old)
        × IsErrorAs result fault.new (IsBuilderError builder.old.held (IsNameError name.now)) }
    ensures sure { (r : CallError) → IsBuilderError builder.old.held (IsNameError name.now) r
        → result ≡ code_of r }
{
    write_told(build(alloc, builder, Step::Name(name)), id, fault)
}

/// Adds a source with its content, and writes its id.
#[unsafe(no_mangle)]
pub extern "C" fn proved_builder_add_source_and_content(
    alloc: Global,
    builder: &mut Handle,
    path: &[u8],
    content: &[u8],
    id: &mut u32,
    fault: &mut Fault,
) -> u32
    ensures added { result ≡ 0 → Builds builder.old.held builder.new.held
        (λ b c. IsUtf8 path.now × IsUtf8 content.now
        × ((c, id.new) ≡ with_path b path.now content.now)) }
    ensures no_error { result ≡ 0 → fault.new ≡ no_fault }
    ensures error { result ≢ 0 → (builder.new.held ≡ builder.old.held) × (id.new ≡ id.old)
        × IsErrorAs result fault.new (IsBuilderError builder.old.held
        (IsSourceError path.now content.now)) }
    ensures sure { (r : CallError) → IsBuilderError builder.old.held
        (IsSourceError path.now content.now) r → result ≡ code_of r }
{
    let added = build(alloc, builder, Step::SourceAndContent(path, content));
    write_told(added, id, fault)
}

/// Adds a source without a content, and writes its id.
#[unsafe(no_mangle)]
pub extern "C" fn proved_builder_add_source(
    alloc: Global,
    builder: &mut Handle,
    path: &[u8],
    id: &mut u32,
    fault: &mut Fault,
) -> u32
    ensures added { result ≡ 0 → Builds builder.old.held builder.new.held
        (λ b c. IsUtf8 path.now × ((c, id.new) ≡ with_bare_path b path.now)) }
    ensures no_error { result ≡ 0 → fault.new ≡ no_fault }
    ensures error { result ≢ 0 → (builder.new.held ≡ builder.old.held) × (id.new ≡ id.old)
        × IsErrorAs result fault.new (IsBuilderError builder.old.held (IsPathError path.now)) }
    ensures sure { (r : CallError) → IsBuilderError builder.old.held (IsPathError path.now) r
        → result ≡ code_of r }
{
    write_told(build(alloc, builder, Step::Source(path)), id, fault)
}

/// Appends tokens, all of them or none.
#[unsafe(no_mangle)]
pub extern "C" fn proved_builder_add_tokens(
    alloc: Global,
    builder: &mut Handle,
    tokens: &[TokenNumbers],
    fault: &mut Fault,
) -> u32
    ensures added { result ≡ 0 → Builds builder.old.held builder.new.held
        (λ b c. c ≡ with_tokens b (map token_of tokens.now)) }
    ensures no_error { result ≡ 0 → fault.new ≡ no_fault }
    ensures error { result ≢ 0 → (builder.new.held ≡ builder.old.held)
        × IsErrorAs result fault.new (IsBuilderError builder.old.held (λ b r. ⊥)) }
    ensures sure { (r : CallError) → IsBuilderError builder.old.held (λ b r. ⊥) r
        → result ≡ code_of r }
{
    let mut none = 0;
    write_told(
        build(alloc, builder, Step::Tokens(tokens)),
        &mut none,
        fault,
    )
}

/// Sets the name of the generated file.
#[unsafe(no_mangle)]
pub extern "C" fn proved_builder_set_file(
    alloc: Global,
    builder: &mut Handle,
    file: &[u8],
    fault: &mut Fault,
) -> u32
    ensures set { result ≡ 0 → Builds builder.old.held builder.new.held
        (λ b c. IsUtf8 file.now × (c ≡ with_file b file.now)) }
    ensures no_error { result ≡ 0 → fault.new ≡ no_fault }
    ensures error { result ≢ 0 → (builder.new.held ≡ builder.old.held)
        × IsErrorAs result fault.new (IsBuilderError builder.old.held (λ b. IsNotText file.now)) }
    ensures sure { (r : CallError) → IsBuilderError builder.old.held (λ b. IsNotText file.now) r
        → result ≡ code_of r }
{
    let mut none = 0;
    write_told(build(alloc, builder, Step::File(file)), &mut none, fault)
}

/// A box with a builder with nothing in it.
fn new_builder(alloc: Global) -> Result<Box<Held>, CallError>
    ensures built { IfOk result (λ held. held_builder (Some held.value) ≡ Some nothing_built) }
    ensures error { IfErr result (λ r. r ≡ out_of_memory) }
{
    let builder = Box::new(alloc, SourceMapBuilder::empty(alloc))?;
    Ok(Box::new(alloc, Held::Building(builder))?)
}

/// Puts a builder with nothing in it into a handle, and returns the code.
fn put_builder(alloc: Global, handle: &mut Handle, fault: &mut Fault) -> u32
    ensures built { result ≡ 0 → (held_builder handle.new.held ≡ Some nothing_built)
        × (fault.new ≡ no_fault) }
    ensures error { result ≢ 0 → (handle.new.held ≡ handle.old.held)
        × IsErrorAs result fault.new (λ r. ⊥) }
{
    let made = new_builder(alloc);
    put(alloc, made, handle, fault)
}

/// Makes a builder with nothing in it.
#[unsafe(no_mangle)]
pub extern "C" fn proved_builder_new(alloc: Global, out: &mut Handle, fault: &mut Fault) -> u32
    ensures built { result ≡ 0 → held_builder out.new.held ≡ Some nothing_built }
    ensures no_error { result ≡ 0 → fault.new ≡ no_fault }
    ensures error { result ≢ 0 → (out.new.held ≡ out.old.held)
        × IsErrorAs result fault.new (λ r. ⊥) }
{
    put_builder(alloc, out, fault)
}

/// The map that a builder has built, in a box. The builder is then as a new one. What takes memory is done before that.
fn finish_builder(
    builder: &mut SourceMapBuilder<'static>,
    alloc: Global,
) -> Result<Box<Held>, CallError>
    ensures map { IfOk result (λ made. held_map (Some made.value) ≡ Some builder.old.map) }
    ensures emptied { OnOk result (builder.new ≡ nothing_built) }
    ensures error { IfErr result (λ r. r ≡ out_of_memory) }
    ensures unchanged { OnErr result (builder.new ≡ builder.old) }
{
    let index = index_of(alloc, builder.get_tokens())?;
    let mut made = empty_box(alloc)?;
    let built = mem::replace(builder, SourceMapBuilder::empty(alloc));
    let map = OwnedSourceMap::from_parts(built.into_parts());
    *made.as_mut() = Held::Map(LoadedMap::with_index(map, index));
    Ok(made)
}

fn finish_held(held: &mut Held, alloc: Global) -> Result<Box<Held>, CallError>
    ensures map { IfOk result (λ made. IsFinished (Some held.old) (Some held.new)
        (Some made.value)) }
    ensures error { IfErr result (λ r. (r ≢ out_of_memory)
        → IsBuilderError (Some held.old) (λ b r. ⊥) r) }
    ensures sure { (r : CallError) → IsBuilderError (Some held.old) (λ b r. ⊥) r
        → MatchResult result (λ _. ⊥) (λ e. e ≡ r) }
    ensures unchanged { OnErr result (held.new ≡ held.old) }
{
    match held {
        Held::Building(builder) => finish_builder(builder.as_mut(), alloc),
        _ => Err(CallError::NullHandle),
    }
}

/// The map that the builder in a handle has built, in a box. The builder is then as a new one. Fails with `NullHandle` if there
/// is none; on an error the builder is as it was.
fn finish(alloc: Global, handle: &mut Handle) -> Result<Box<Held>, CallError>
    ensures map { IfOk result (λ made. IsFinished handle.old.held handle.new.held
        (Some made.value)) }
    ensures error { IfErr result (λ r. (r ≢ out_of_memory)
        → IsBuilderError handle.old.held (λ b r. ⊥) r) }
    ensures sure { (r : CallError) → IsBuilderError handle.old.held (λ b r. ⊥) r
        → MatchResult result (λ _. ⊥) (λ e. e ≡ r) }
    ensures unchanged { OnErr result (handle.new.held ≡ handle.old.held) }
{
    match handle.take(alloc) {
        Some(held) => {
            let mut held = held;
            let made = finish_held(held.as_mut(), alloc);
            handle.put(held);
            made
        }
        None => Err(CallError::NullHandle),
    }
}

/// Makes the map that was built. The builder is then as a new one.
#[unsafe(no_mangle)]
pub extern "C" fn proved_builder_finish(
    alloc: Global,
    builder: &mut Handle,
    out: &mut Handle,
    fault: &mut Fault,
) -> u32
    ensures map { result ≡ 0 → IsFinished builder.old.held builder.new.held out.new.held }
    ensures no_error { result ≡ 0 → fault.new ≡ no_fault }
    ensures error { result ≢ 0 → (builder.new.held ≡ builder.old.held)
        × (out.new.held ≡ out.old.held)
        × IsErrorAs result fault.new (IsBuilderError builder.old.held (λ b r. ⊥)) }
    ensures sure { (r : CallError) → IsBuilderError builder.old.held (λ b r. ⊥) r
        → result ≡ code_of r }
{
    let made = finish(alloc, builder);
    put(alloc, made, out, fault)
}

/// Frees a builder, or nothing.
#[unsafe(no_mangle)]
pub extern "C" fn proved_free_builder(alloc: Global, builder: &mut Handle)
    ensures { builder.new.held ≡ None }
{
    drop(builder.take(alloc));
}
