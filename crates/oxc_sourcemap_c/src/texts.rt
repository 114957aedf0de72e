//! Texts and lists as C has them.

pub(crate) mod lists;
pub(crate) mod scopes;
pub(crate) mod text;
pub(crate) mod utf8;

pub use lists::{contents_of, texts_of, tokens_of};
pub use scopes::{ChainEntryNumbers, FrameNumbers, RangeNumbers, ScopeNumbers, ScopesCounts};
pub use text::{Counts, Original, PieceNumbers, Text, TokenNumbers, index_or_none};
pub use utf8::text_of;
