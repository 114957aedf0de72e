//! The laws of maps as they are found.
ghost use Rattle.oxc_sourcemap_found.specs.Words.{ExactIsFound, ExactIsSorted, MendedIsMended};
ghost use Rattle.oxc_sourcemap_found.specs.Words.{FoundIsSound, UnmendedIsExact};

/// Mending harms no map.
/// - A text that the exact reader reads as a sorted map is read as this map, and nothing is mended (`exact`).
/// - A text that the exact reader reads is read as this map with its tokens sorted, and only that they were not is mended: no
///   token is left out (`unsorted`).
/// - A text for which no mend is reported is one that the exact reader reads as this map: the list of mends is complete (`complete`).
/// - The members of a mended object have nothing to mend (`mended`).
/// - A map that is found is sound: sorted, with its ids in range (`sound`).
///
/// ```rust
/// use oxc_sourcemap::laws::mending_harmless;
/// use oxc_sourcemap::{SourceMap, read_found};
///
/// mending_harmless();
/// let text = "{\"version\":3,\"sources\":[\"a.js\"],\"names\":[],\"mappings\":\"AAAA\"}";
/// let found = read_found(alloc, text)?;
/// assert!(rt; found.mends.is_empty());
/// assert!(rt; SourceMap::from_json_string(alloc, text).is_ok());
/// ```
pub fn mending_harmless()
    ensures exact { ExactIsFound }
    ensures unsorted { ExactIsSorted }
    ensures complete { UnmendedIsExact }
    ensures mended { MendedIsMended }
    ensures sound { FoundIsSound }
{}
