//! The law of positions and offsets.
ghost use Rattle.oxc_sourcemap_text.specs.Words.{PositionsAndOffsetsInverse};

/// Positions and offsets are each other's inverse: in any text, an offset has this position exactly if the position has this
/// offset. So no two positions have one offset, and no two offsets one position.
pub fn positions_and_offsets_inverse()
    ensures { PositionsAndOffsetsInverse }
{}
