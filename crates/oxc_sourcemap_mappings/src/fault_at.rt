//! Where a `mappings` text has its first fault.
ghost use Rattle.std.specs.Prelude.{◌≡◌, ◌≤◌, ◌↔◌, IsSome, IfSome, IsErr};
ghost use Rattle.std.specs.Prelude.{length, option_map};
ghost use Rattle.oxc_sourcemap_mappings.specs.Words.{reading, fault_place};

use crate::decode::Sums;
use oxc_sourcemap_tokens::SegmentPlace;

/// Where the first segment with a fault begins, as `mappings_fault_at` returns it, and the sums of the fields before it.
pub(crate) fn first_fault(text: &str, names: usize, sources: usize) -> Option<(SegmentPlace, Sums)>
    ensures place { option_map (λ found. found.0) result ≡ fault_place text.now names sources }
    ensures within { IfSome result (λ found. found.0.byte ≤ length text.now) }
    ensures fault { IsSome result ↔ IsErr (reading text.now names sources) }
{
    let mut rest = text.as_bytes();
    let mut sums = Sums::new();
    let mut place = SegmentPlace {
        byte: 0,
        line: 0,
        segment: 0,
    };
    while let Some(byte) = rest.first() {
        if *byte == b',' {
            place.byte += 1;
            rest = &rest[1..];
            continue;
        }
        if *byte == b';' {
            if place.line == 4294967295 {
                return Some((place, sums));
            }
            sums.begin_line();
            place.byte += 1;
            place.line += 1;
            place.segment = 0;
            rest = &rest[1..];
            continue;
        }
        let before = sums;
        let Ok((_, len)) = sums.any_token(place.line, rest, names, sources) else {
            return Some((place, before));
        };
        place.byte += len;
        place.segment += 1;
        rest = &rest[len..];
    }
    None
}

/// Where the first segment with a fault begins: the one whose error `decode_mappings` returns. For a `;` that begins line
/// 4294967296 (`TooLarge`) the place of that `;`. None if the text has no fault. Takes no memory.
///
/// ```rust
/// use oxc_sourcemap::{SegmentPlace, mappings_fault_at};
///
/// // The second segment of line 1 has two fields.
/// let place = mappings_fault_at("AAAA;AACA,AA", 0, 1);
/// assert_eq!(rt; place, Some(SegmentPlace { byte: 10, line: 1, segment: 1 }));
/// ```
pub fn mappings_fault_at(text: &str, names: usize, sources: usize) -> Option<SegmentPlace>
    ensures place { result ≡ fault_place text.now names sources }
    ensures fault { IsSome result ↔ IsErr (reading text.now names sources) }
{
    match first_fault(text, names, sources) {
        Some((place, _)) => Some(place),
        None => None,
    }
}
