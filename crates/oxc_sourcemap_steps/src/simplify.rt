//! Maps with no more tokens, names and sources than their traces need.

ghost use Rattle.oxc_sourcemap_steps.specs.Words.{TracesStay, StaysSorted, IsLeast, MappingsStay};
ghost use Rattle.oxc_sourcemap_steps.specs.Words.{DecodedMapOfSimplified, SimplifiedIsSound};

mod firsts;
mod ids;
mod moves;
mod numbering;
mod simplify;
mod sources;
mod tokens;

pub use simplify::simplify_parts;

/// Simplifying is harmless to traces, and nothing smaller would do.
/// - Every trace of a sorted decoded map stays, exact and clamped (`traces`), and it stays sorted (`sorted`).
/// - No sorted decoded map with the same exact traces has fewer mappings (`least`).
/// - Mappings that were simplified stay as they are (`once`).
/// - The decoded map of a simplified map is the simplified decoded map, whatever the map is (`decoded_map`), so all this holds of
///   maps too. A simplified map is sound if the map is sorted, whatever its ids are (`sound`).
pub fn simplifying_harmless()
    ensures traces { TracesStay }
    ensures sorted { StaysSorted }
    ensures least { IsLeast }
    ensures once { MappingsStay }
    ensures decoded_map { DecodedMapOfSimplified }
    ensures sound { SimplifiedIsSound }
{}
