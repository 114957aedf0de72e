//! The law of the place of a fault.
ghost use Rattle.oxc_sourcemap_plan.specs.Words.{FaultIsThere};

/// The place that `mappings_fault_at` returns is that of the segment whose error `decode_mappings` returns: the segment that
/// begins there gives this error, and each segment before it gives a token. (`TooLarge` has no segment, but the `;` that begins
/// line 4294967296.)
///
/// ```rust
/// use oxc_sourcemap::{Error, decode_mappings, mappings_fault_at};
///
/// // The third segment, at byte 10, has two fields.
/// let text = "AAAA;AACA,AA,A!";
/// assert_eq!(rt; mappings_fault_at(text, 0, 1).map(|place| place.byte), Some(10));
/// assert_eq!(rt; decode_mappings(alloc, text, 0, 1), Err(Error::BadSegmentSize(2)));
/// assert_eq!(rt; decode_mappings(alloc, &text[..9], 0, 1)?.len(), 2);
/// ```
pub fn mappings_fault_is_first()
    ensures { FaultIsThere }
{}
