//! The law on what compiled maps mean.
ghost use Rattle.oxc_sourcemap_compiled.specs.Words.{CompiledMeansMap, CompiledIsInOrder};
ghost use Rattle.oxc_sourcemap_compiled.specs.Words.{CompiledLooksUp, StoredMeansMap};
ghost use Rattle.oxc_sourcemap_compiled.specs.Words.{CompiledIsTakenApart};

/// The bytes that `compile` makes of a map mean the map (`means`) and are in order (`in_order`): lookups in them find at every
/// position what lookups in the tokens of the map find (`looks_up`), and `decompile` gives it back (`taken_apart`), but for chunks and
/// contents past the last source, which are no part of what it means (`stored`). The premises are those that `compile` promises.
///
/// ```rust
/// use oxc_sourcemap::{SourceMapParts, Token};
/// use oxc_sourcemap_compiled::{CompiledMap, compile, compiled_means_map};
///
/// compiled_means_map();
/// let mut parts = SourceMapParts::empty(alloc)?;
/// parts.tokens = vec![in alloc; Token::new(0, 4, 2, 1, None, None)]?.into_boxed_slice();
/// let bytes = compile(alloc, &parts, 0, &[0; 32])?;
/// let map = CompiledMap::open(&bytes)?;
/// assert_eq!(rt; map.lookup_token(0, 9), Some(Token::new(0, 4, 2, 1, None, None)));
/// ```
pub fn compiled_means_map()
    ensures means { CompiledMeansMap }
    ensures in_order { CompiledIsInOrder }
    ensures looks_up { CompiledLooksUp }
    ensures stored { StoredMeansMap }
    ensures taken_apart { CompiledIsTakenApart }
{}
