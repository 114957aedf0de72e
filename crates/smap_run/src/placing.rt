//! Running a command that reports where its input has a fault, and what is really wrong there.
ghost use Rattle.std.specs.Prelude.{◌≡◌, ◌≢◌, ◌++◌, ◌∷◌, [], ℕ, List, IfErr, OnOk};
ghost use Rattle.std.specs.Prelude.{IsUtf8, true, false};
ghost use Rattle.std.specs.Io.KnownBytes.{Appends, Keeps};
ghost use Rattle.smap_run.specs.Words.{request_of, out_of_memory, IsPlaceOfInput};
ghost use Rattle.smap_run.specs.Words.{IsInput, IsAnswer, FailsWith};

use crate::arguments::Command;
use crate::failure::Failure;
use crate::port::Port;
use crate::running::{answer, read_all, without_last_line_feed, write_all};
use oxc_sourcemap_json::{FaultReason, json_fault_reason, segment_reason};
use oxc_sourcemap_plan::{RunError, inputs_of};
use oxc_sourcemap_tokens::{FaultPlace, FaultSpot};
use std::alloc::Global;
use std::io::{Read, Write};

/// What is really wrong with a mappings text at this place.
fn mappings_reason(
    text: &str,
    names: u32,
    sources: u32,
    place: &FaultPlace,
) -> Option<FaultReason> {
    let FaultSpot::Segment(segment) = place.spot else {
        return None;
    };
    segment_reason(text, names as usize, sources as usize, segment)
}

/// What is really wrong with the input of a plan at this place of it.
fn plan_reason(alloc: Global, input: &str, place: &FaultPlace) -> Option<FaultReason> {
    let inputs = inputs_of(alloc, input).ok()?;
    let text = inputs.get(place.text?)?;
    json_fault_reason(alloc, text, place).ok()?
}

/// What is really wrong with the input of a command at this place of it, which `answer` has. None if there is no place, if the
/// text of the error says it already, and for want of memory.
fn place_reason(
    alloc: Global,
    command: &Command<'_>,
    input: &[u8],
    place: Option<FaultPlace>,
) -> Option<FaultReason> {
    let place = place?;
    let text = std::str::from_utf8(input).ok()?;
    match command {
        Command::Mappings(names, sources) => {
            mappings_reason(without_last_line_feed(text), *names, *sources, &place)
        }
        Command::Plan(_) => plan_reason(alloc, text, &place),
        Command::Normalise => json_fault_reason(alloc, text, &place).ok()?,
        Command::Trace(_, _) => json_fault_reason(alloc, text, &place).ok()?,
        Command::Url => json_fault_reason(alloc, text, &place).ok()?,
    }
}

/// Runs a command as `run` does, and reports where the input has the fault if that fails, and what is really wrong there. There is a
/// place exactly if the error is that of reading a text, unless it is `TooLarge` of a plan that passes a limit. Of a plan it is in the
/// first of its texts that cannot be read, whose number is the K of `@K`: that of the first text of the input with these bytes. The
/// input is kept to the end, so that the memory for it is taken twice.
pub fn run_where<R: Read, W: Write>(
    alloc: Global,
    command: &Command<'_>,
    reader: &mut Port<R>,
    writer: &mut Port<W>,
) -> Result<(), Failure>
    ensures written { OnOk result ((input : List ℕ) × (out : List ℕ)
        × IsInput (R.remaining reader.old.inner) input × IsUtf8 input
        × IsAnswer (request_of command.now) input out
        × Appends (W.contents writer.old.inner) (W.contents writer.new.inner) (out ++ 10 ∷ [])) }
    ensures error { IfErr result (λ f. (f.error ≢ out_of_memory) → (f.error ≢ RunError.Read)
        → (f.error ≢ RunError.Write) → (input : List ℕ)
        × IsInput (R.remaining reader.old.inner) input
        × FailsWith (request_of command.now) input f.error
        × IsPlaceOfInput (request_of command.now) input f.error f.place) }
    ensures nothing_written { IfErr result (λ f. (f.error ≢ RunError.Write)
        → Keeps (W.contents writer.old.inner) (W.contents writer.new.inner)) }
    ensures write { writer.old.failed ≡ false → IfErr result (λ f. f.error ≡ RunError.Write
        → writer.new.failed ≡ true) }
{
    let input = read_all(alloc, reader)?;
    let mut out = match answer(alloc, command, input.as_slice().to_vec(alloc)?) {
        Ok(out) => out,
        Err(failure) => {
            let reason = place_reason(alloc, command, input.as_slice(), failure.place);
            return Err(Failure { reason, ..failure });
        }
    };
    out.push('\n')?;
    write_all(out.as_bytes(), writer)?;
    Ok(())
}
