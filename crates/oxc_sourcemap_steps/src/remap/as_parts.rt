//! What gives a borrow of the parts of a map.
ghost use Rattle.std.specs.Prelude.{◌≡◌};
ghost use Rattle.oxc_sourcemap_steps.specs.Words.{MapRecord, record_of_parts};

use oxc_sourcemap_parts::SourceMapParts;

/// A map of any type that has parts, so that `remap_parts` takes lists of borrowed maps as users have them.
pub trait AsParts {
    ghost as_record: { Self → MapRecord };

    /// The parts, borrowed.
    fn as_parts(&self) -> &SourceMapParts<'_>
        ensures { record_of_parts result.now ≡ as_record self.now };
}

impl<'a> AsParts for SourceMapParts<'a> {
    ghost as_record = { record_of_parts };

    /// These parts.
    fn as_parts(&self) -> &SourceMapParts<'_> {
        self
    }
}
