//! The law on the ids of names.
ghost use Rattle.oxc_sourcemap_map.specs.Words.{EqualIdsForEqualNames};

/// Two names that are added to one builder get the same id exactly if they are equal, whatever is called between the two adds.
/// A function without parameters, result or body: its contract is the law, and a caller gets it by calling the function.
pub fn name_ids_unique()
    ensures { EqualIdsForEqualNames }
{}
