//! Running a command over a reader and a writer.
ghost use Rattle.std.specs.Prelude.{◌≡◌, ◌≢◌, ◌≤◌, ◌<◌, ◌++◌, ◌∷◌, [], ℕ, take, true, false, ◌↔◌};
ghost use Rattle.std.specs.Prelude.{IfOk, OnOk, OnErr, IfErr, IfSome, List, None, Ok, Err};
ghost use Rattle.std.specs.Prelude.{◌⊎◌, IsErrOf, IsUtf8, string_bytes, map};
ghost use Rattle.std.specs.Vec.{vec_len};
ghost use Rattle.std.specs.Io.KnownBytes.{Appends, Keeps};
ghost use Rattle.smap_run.specs.Words.{out_of_memory, without_line_feed};
ghost use Rattle.smap_run.specs.Words.{mappings_answer, normalised, normalised_url, IsPlanAnswer};
ghost use Rattle.smap_run.specs.Words.{IsPlanError, IsAnswer, FailsWith, AppendsBeginning};
ghost use Rattle.smap_run.specs.Words.{reading, inputs_of, IsInput, of_map, of_plan, traced};
ghost use Rattle.smap_run.specs.Words.{parsed_plan, request_of, Answers, map_text, lent_items};
ghost use Rattle.smap_run.specs.Words.{record_of_parts, IsPlacedBy, IsReadPlace, IsPlanPlaceIn};
ghost use Rattle.smap_run.specs.Words.{IsPlaceOfInput, mappings_place, fault_place_in, Plan};

use crate::arguments::Command;
use crate::failure::Failure;
use crate::port::Port;
use crate::tracing::trace_in;
use oxc_sourcemap_json::{encode_parts_into, encode_parts_to_data_url, read_parts_from_string};
use oxc_sourcemap_mappings::{encode_mappings, read_mappings};
use oxc_sourcemap_parts::SourceMapParts;
use oxc_sourcemap_plan::{
    PlanFault, RunError, canonical_unique, evaluate_where, inputs_of, read_plan,
};
use oxc_sourcemap_tokens::Error;
use std::alloc::{AllocError, Global};
use std::io::{Read, Write};

/// How much room is made for a read.
const PIECE: usize = 65536;

/// Makes room for a piece behind the used bytes, unless there is room for half of one.
fn make_room(input: &mut Vec<u8>, used: usize) -> Result<(), AllocError>
    requires { used ≤ vec_len input.old }
    ensures room { OnOk result (used < vec_len input.new) }
    ensures kept { take used input.new.items ≡ take used input.old.items }
{
    if input.len() - used >= PIECE / 2 {
        return Ok(());
    }
    input.resize(used + PIECE, 0)
}

/// Reads up to the end, by a loop over `read`, into the vector that is returned, with no buffer between. Each byte of it is
/// cleared once.
pub(crate) fn read_all<R: Read>(alloc: Global, reader: &mut Port<R>) -> Result<Vec<u8>, RunError>
    ensures bytes { IfOk result (λ input. IfSome (R.remaining reader.old.inner)
        (λ all. input.items ≡ all)) }
    ensures flag { reader.old.failed ≡ false → IsErrOf result RunError.Read ↔
        (reader.new.failed ≡ true) }
    ensures causes { IfErr result (λ e. (e ≡ RunError.Read) ⊎ (e ≡ out_of_memory)) }
{
    let mut input = Vec::new(alloc);
    let mut used: usize = 0;
    loop {
        make_room(&mut input, used)?;
        match reader.read(&mut input[used..]) {
            Ok(0) => {
                input.truncate(used);
                return Ok(input);
            }
            Ok(n) => used += n,
            Err(_) => return Err(RunError::Read),
        }
    }
}

/// Writes all of the bytes, by a loop over `write`.
pub(crate) fn write_all<W: Write>(bytes: &[u8], writer: &mut Port<W>) -> Result<(), RunError>
    ensures ok { OnOk result (Appends (W.contents writer.old.inner)
        (W.contents writer.new.inner) bytes.now) }
    ensures flag { writer.old.failed ≡ false → IsErrOf result RunError.Write ↔
        (writer.new.failed ≡ true) }
    ensures causes { IfErr result (λ e. e ≡ RunError.Write) }
    ensures begun { OnErr result (AppendsBeginning (W.contents writer.old.inner)
        (W.contents writer.new.inner) bytes.now) }
{
    let mut rest = bytes;
    while !rest.is_empty() {
        match writer.write(rest) {
            Ok(0) => return Err(RunError::Write),
            Ok(n) => rest = &rest[n..],
            Err(_) => return Err(RunError::Write),
        }
    }
    Ok(())
}

/// A text without one line feed at its end.
pub(crate) fn without_last_line_feed(text: &str) -> &str
    ensures { result.now ≡ without_line_feed text.now }
{
    text.strip_suffix('\n').unwrap_or(text)
}

/// The canonical text of a mappings text.
fn rewrite_mappings(alloc: Global, text: &str, names: u32, sources: u32) -> Result<String, Failure>
    ensures text { IfOk result (λ out. mappings_answer (reading text.now names sources)
        ≡ Ok (string_bytes out)) }
    ensures error { IfErr result (λ f. (f.error ≢ out_of_memory)
        → mappings_answer (reading text.now names sources) ≡ Err f.error) }
    ensures place { IfErr result (IsPlacedBy (λ _ place.
        place ≡ mappings_place text.now names sources)) }
{
    let tokens = read_mappings(alloc, text, names as usize, sources as usize)?;
    let mut out = String::new(alloc);
    encode_mappings(tokens.as_slice(), None, &mut out)?;
    Ok(out)
}

/// The JSON text of a map, written over the text of the input, so that there are not both at once.
fn write_over(mut text: String, map: &SourceMapParts<'_>) -> Result<String, Error>
    ensures { Answers string_bytes result (map_text (record_of_parts map.now)) }
{
    text.clear();
    encode_parts_into(map, &mut text)?;
    Ok(text)
}

/// The JSON text of the map of a JSON text, of which the map borrows nothing.
fn normalise(alloc: Global, text: String) -> Result<String, Failure>
    ensures text { IfOk result (λ out. normalised (string_bytes text) ≡ Ok (string_bytes out)) }
    ensures error { IfErr result (λ f. (f.error ≢ out_of_memory)
        → of_map (normalised (string_bytes text)) ≡ Err f.error) }
    ensures place { IfErr result (IsPlacedBy (λ _. IsReadPlace (string_bytes text))) }
{
    let map = read_parts_from_string(alloc, text.as_str())?;
    Ok(write_over(text, &map)?)
}

/// The data URL of the map of a JSON text.
fn data_url(alloc: Global, text: &str) -> Result<String, Failure>
    ensures text { IfOk result (λ out. normalised_url text.now ≡ Ok (string_bytes out)) }
    ensures error { IfErr result (λ f. (f.error ≢ out_of_memory)
        → of_map (normalised_url text.now) ≡ Err f.error) }
    ensures place { IfErr result (IsPlacedBy (λ _. IsReadPlace text.now)) }
{
    let map = read_parts_from_string(alloc, text)?;
    Ok(encode_parts_to_data_url(alloc, &map)?)
}

/// The text of `trace` for the map of a JSON text.
fn trace_text(alloc: Global, text: &str, line: u32, col: u32) -> Result<String, Failure>
    ensures text { IfOk result (λ out. traced text.now line col ≡ Ok (string_bytes out)) }
    ensures error { IfErr result (λ f. (f.error ≢ out_of_memory)
        → of_plan (traced text.now line col) ≡ Err f.error) }
    ensures place { IfErr result (IsPlacedBy (λ _. IsReadPlace text.now)) }
{
    let map = read_parts_from_string(alloc, text)?;
    Ok(trace_in(alloc, &map, line, col)?)
}

/// Why the plan over these inputs fails.
fn plan_failure(inputs: &[&str], fault: &PlanFault<'_>) -> Failure
    ensures error { result.error ≡ Plan fault.now.error }
    ensures place { result.place ≡ fault_place_in (lent_items inputs.now) fault.now }
{
    Failure {
        error: RunError::Plan(fault.error),
        place: fault.place_in(inputs),
        reason: None,
    }
}

/// The JSON text of the map of the plan of these arguments, over the maps of an input. The parts of the plan borrow from it,
/// the map of the plan does not.
fn plan_text(alloc: Global, input: String, arguments: &[String]) -> Result<String, Failure>
    ensures text { let texts = inputs_of (string_bytes input) in
        IfOk result (λ out. IsPlanAnswer (parsed_plan texts (map string_bytes arguments.now))
        (string_bytes out)) }
    ensures error { let texts = inputs_of (string_bytes input) in
        IfErr result (λ f. (f.error ≢ out_of_memory)
        → IsPlanError (parsed_plan texts (map string_bytes arguments.now)) f.error) }
    ensures place { let texts = inputs_of (string_bytes input) in
        IfErr result (IsPlacedBy
        (IsPlanPlaceIn texts (parsed_plan texts (map string_bytes arguments.now)))) }
{
    canonical_unique();
    let map = {
        let inputs = inputs_of(alloc, input.as_str())?;
        let plan = read_plan(alloc, inputs.as_slice(), arguments)?;
        match evaluate_where(alloc, &plan) {
            Ok(map) => map,
            Err(fault) => return Err(plan_failure(inputs.as_slice(), &fault)),
        }
    };
    Ok(write_over(input, &map)?)
}

/// The answer of a command to an input, without its line feed; or its error, and where the input has the fault.
pub(crate) fn answer(
    alloc: Global,
    command: &Command<'_>,
    input: Vec<u8>,
) -> Result<String, Failure>
    ensures text { IfOk result (λ out. IsUtf8 input.items
        × IsAnswer (request_of command.now) input.items (string_bytes out)) }
    ensures error { IfErr result (λ f. (f.error ≢ out_of_memory)
        → FailsWith (request_of command.now) input.items f.error) }
    ensures place { IfErr result (IsPlacedBy
        (IsPlaceOfInput (request_of command.now) input.items)) }
{
    let Ok(text) = String::from_utf8(input) else {
        return Err(Failure::from(RunError::Utf8));
    };
    match command {
        Command::Mappings(names, sources) => {
            rewrite_mappings(
                alloc,
                without_last_line_feed(text.as_str()),
                *names,
                *sources,
            )
        }
        Command::Normalise => normalise(alloc, text),
        Command::Plan(arguments) => plan_text(alloc, text, arguments),
        Command::Trace(line, col) => trace_text(alloc, text.as_str(), *line, *col),
        Command::Url => data_url(alloc, text.as_str()),
    }
}

/// Reads the whole input, and writes the answer of the command and one line feed.
///
/// | Command | Input | Answer |
/// |---|---|---|
/// | `Mappings(names, sources)` | a `mappings` text, with one line feed at its end or none | the canonical text of its tokens |
/// | `Normalise` | the JSON text of a map | its JSON text as `SourceMap::to_json_string` writes it |
/// | `Plan(arguments)` | JSON texts of maps, separated by lines that are exactly `---` | the JSON text of the map of the plan |
/// | `Trace(line, col)` | the JSON text of a map | the text of `trace` for the generated position |
/// | `Url` | the JSON text of a map | its data URL |
///
/// Fails in this order:
/// - `Read` if a read fails, and `Utf8` if the input is not UTF-8;
/// - for a plan, the error of `read_plan` for its arguments, then `Plan(e)` if `evaluate` fails with `e`;
/// - for other commands, `Plan(Map(e))` if a call on the text fails with `e`, and `Plan(Unsorted)` if the map to be traced is
///   not sorted;
/// - `Write` if a write fails or takes none of some bytes; a beginning of the answer and its line feed is then written, and
///   nothing at all before any other error.
///
/// Also `Plan(Map(OutOfMemory))` for want of memory, or if the input has more than 9223372036854775807 bytes.
///
/// Contracts know what a reader has left and what a writer holds only of some, as those in memory (`IsInput`, `Appends`). Of any
/// others there is some input whose answer was appended, or whose error this is.
pub fn run<R: Read, W: Write>(
    alloc: Global,
    command: &Command<'_>,
    reader: &mut Port<R>,
    writer: &mut Port<W>,
) -> Result<(), RunError>
    ensures written { OnOk result ((input : List ℕ) × (out : List ℕ)
        × IsInput (R.remaining reader.old.inner) input × IsUtf8 input
        × IsAnswer (request_of command.now) input out
        × Appends (W.contents writer.old.inner) (W.contents writer.new.inner) (out ++ 10 ∷ [])) }
    ensures error { IfErr result (λ e. (e ≢ out_of_memory) → (e ≢ RunError.Read)
        → (e ≢ RunError.Write) → (input : List ℕ) × IsInput (R.remaining reader.old.inner) input
        × FailsWith (request_of command.now) input e) }
    ensures nothing_written { IfErr result (λ e. (e ≢ RunError.Write)
        → Keeps (W.contents writer.old.inner) (W.contents writer.new.inner)) }
    ensures begun { IsErrOf result RunError.Write → (input : List ℕ) × (out : List ℕ)
        × IsInput (R.remaining reader.old.inner) input × IsUtf8 input
        × IsAnswer (request_of command.now) input out
        × AppendsBeginning (W.contents writer.old.inner) (W.contents writer.new.inner)
        (out ++ 10 ∷ []) }
    ensures read { reader.old.failed ≡ false → IsErrOf result RunError.Read ↔
        (reader.new.failed ≡ true) }
    ensures write { writer.old.failed ≡ false → IsErrOf result RunError.Write ↔
        (writer.new.failed ≡ true) }
{
    let input = read_all(alloc, reader)?;
    let mut out = answer(alloc, command, input)?;
    out.push('\n')?;
    write_all(out.as_bytes(), writer)
}
