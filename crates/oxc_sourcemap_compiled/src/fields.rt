//! Fields of the tokens of a block, bit by bit.
ghost use Rattle.std.specs.Prelude.{◌≡◌, ◌+◌, ◌-◌, ◌*◌, ◌/◌, ◌%◌, ◌^◌, ◌≤◌, ◌<◌, length};
ghost use Rattle.oxc_sourcemap_compiled.specs.Words.{IsField, IsRow, HasRoom, value_at, value_in};
ghost use Rattle.oxc_sourcemap_compiled.specs.Words.{stored_id, token_at, empty_row, empty_field};

use crate::numbers::u64_at;
use oxc_sourcemap_tokens::Token;

/// One field of the tokens of a block: at which bit of a token it begins, how many bits it has, the greatest number of so many
/// bits, and what is added to each value.
#[derive(Clone, Copy)]
pub(crate) struct Field {
    pub(crate) least: u32,
    pub(crate) first: usize,
    pub(crate) width: usize,
    pub(crate) mask: u64,
}

/// How a block is read: where it lies, how many bits a token has, and its fields.
#[derive(Clone, Copy)]
pub(crate) struct Row {
    pub(crate) at: usize,
    pub(crate) stride: usize,
    pub(crate) column: Field,
    pub(crate) source: Field,
    pub(crate) src_line: Field,
    pub(crate) src_col: Field,
    pub(crate) name: Field,
}

/// The greatest number of this many bits.
#[inline(always)]
pub(crate) fn mask_of(bits: usize) -> u64
    requires { bits ≤ 32 }
    ensures { result ≡ 2 ^ bits - 1 }
{
    (1 << bits) - 1
}

/// The id that a stored number stands for: it is one more, and 0 for none.
fn id_from(stored: u32) -> Option<u32>
    ensures { result ≡ stored_id stored }
{
    stored.checked_sub(1)
}

impl Field {
    /// A field without bits, whose values are 0.
    #[inline(always)]
    fn empty() -> Field
        ensures { result ≡ empty_field }
    {
        Field {
            least: 0,
            first: 0,
            width: 0,
            mask: 0,
        }
    }

    /// The value in a word, from a bit on.
    #[inline(always)]
    pub(crate) fn value(self, word: u64, from: usize) -> u32
        requires from { from ≤ 63 }
        requires width { self.width ≤ 32 }
        requires mask { self.mask ≡ 2 ^ self.width - 1 }
        ensures { result ≡ (self.least + word / 2 ^ from % 2 ^ self.width) % 2 ^ 32 }
    {
        self.least.wrapping_add(((word >> from) & self.mask) as u32)
    }
}

impl Row {
    /// A block whose tokens have no bits.
    #[inline(always)]
    pub(crate) fn empty() -> Row
        ensures { result ≡ empty_row }
    {
        let none = Field::empty();
        Row {
            at: 0,
            stride: 0,
            column: none,
            source: none,
            src_line: none,
            src_col: none,
            name: none,
        }
    }

    /// The value of a field that begins at a bit of the block.
    #[inline(always)]
    #[tactic(auto, unfolding(crate::specs::Fields::value_at))]
    pub(crate) fn value_at(&self, bytes: &[u8], field: Field, bit: usize) -> u32
        requires at { self.now.at ≤ 1099511627776 }
        requires small { bit ≤ 4294967295 }
        requires width { field.width ≤ 32 }
        requires mask { field.mask ≡ 2 ^ field.width - 1 }
        requires there { self.now.at + bit / 8 + 8 ≤ length bytes.now }
        ensures { result ≡ value_at bytes.now self.now field bit }
    {
        field.value(u64_at(bytes, self.at + bit / 8), bit % 8)
    }

    /// The value of a field in a token of the block, by the number of the token there.
    #[inline(always)]
    pub(crate) fn value(&self, bytes: &[u8], field: Field, j: usize) -> u32
        requires row { IsRow self.now }
        requires field { IsField self.now.stride field }
        requires few { j < 16384 }
        requires there { HasRoom (length bytes.now) self.now (j + 1) }
        ensures { result ≡ value_in bytes.now self.now field j }
    {
        self.value_at(bytes, field, field.first + j * self.stride)
    }

    /// The token of this number in the block, on a line, field by field.
    #[inline(always)]
    fn token_by_fields(&self, bytes: &[u8], line: u32, j: usize) -> Token
        requires row { IsRow self.now }
        requires few { j < 16384 }
        requires there { HasRoom (length bytes.now) self.now (j + 1) }
        ensures { result ≡ token_at bytes.now self.now line j }
    {
        let source_id = id_from(self.value(bytes, self.source, j));
        let name_id = id_from(self.value(bytes, self.name, j));
        Token::new(
            line,
            self.value(bytes, self.column, j),
            self.value(bytes, self.src_line, j),
            self.value(bytes, self.src_col, j),
            source_id,
            name_id,
        )
    }

    /// The token of this number in the block, on a line.
    // One of at most 56 bits lies in eight bytes, wherever its first bit is.
    #[inline(always)]
    pub(crate) fn token(&self, bytes: &[u8], line: u32, j: usize) -> Token
        requires row { IsRow self.now }
        requires few { j < 16384 }
        requires there { HasRoom (length bytes.now) self.now (j + 1) }
        ensures { result ≡ token_at bytes.now self.now line j }
    {
        if self.stride > 56 {
            return self.token_by_fields(bytes, line, j);
        }
        let bit = j * self.stride;
        let word = u64_at(bytes, self.at + bit / 8) >> (bit % 8);
        let source_id = id_from(self.source.value(word, self.source.first));
        let name_id = id_from(self.name.value(word, self.name.first));
        Token::new(
            line,
            self.column.value(word, self.column.first),
            self.src_line.value(word, self.src_line.first),
            self.src_col.value(word, self.src_col.first),
            source_id,
            name_id,
        )
    }
}
