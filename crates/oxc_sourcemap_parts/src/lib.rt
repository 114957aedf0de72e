//! The parts of a map: its nine fields, borrowed or owned, with what they mean; the iterators over them; their strings; and
//! whether they are sorted and sound. `SourceMap` is made of these parts. Part of `oxc_sourcemap`.
#![tactic(auto)]

mod iterators;
mod parts;
mod roots;
mod soundness;
mod strings;

pub use iterators::{Contents, Names, Sources, Texts, Tokens, contents_in, texts_in, tokens_in};
pub use parts::{SourceMapParts, owned_parts};
pub use roots::{apply_root, has_scheme};
pub use soundness::{are_sorted, are_sound};
pub use strings::{
    clone_ids, from_optional_strings, from_string, from_strings, into_optional_strings,
    into_owned_text, into_string, into_strings, owned_contents, owned_text, owned_texts,
    to_optional_strings, to_string, to_strings,
};
