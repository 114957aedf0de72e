//! Pieces of a range, cut from left to right. Positions stand as numbers here, so that they compare as numbers do.
ghost use Rattle.std.specs.Prelude.{◌≡◌, ◌<◌, ◌≤◌, ◌==◌, nat_le, length, slice_get, false, true};
ghost use Rattle.std.specs.List.{prefix_len};
ghost use Rattle.std.specs.Option.{option_map_or, option_and_then};
ghost use Rattle.oxc_sourcemap_queries.specs.Words.{place, line_of, column_of, piece_of};
ghost use Rattle.oxc_sourcemap_queries.specs.Words.{token_position, holder, line_end, end_before};
ghost use Rattle.oxc_sourcemap_queries.specs.Words.{run_end, cut_at, AreLeft, IsStart};
ghost use Rattle.oxc_sourcemap_queries.specs.Words.{are_tokens_sorted, AreInBounds};

use oxc_sourcemap_tokens::Token;

/// A piece of a range of generated code: from its line and column up to but not including its end, the exact lookup of every
/// position finds this token, or none; `index` is that of the token. Lines and columns count from 0, columns in UTF-16 code units. It ends at column 0 of the
/// next line if it goes to the end of its line, however long that is.
#[derive(Clone, Copy, Debug, PartialEq, Eq)]
pub struct Piece {
    pub line: u32,
    pub col: u32,
    pub end_line: u32,
    pub end_col: u32,
    pub token: Option<Token>,
    pub index: Option<usize>,
}

/// The first piece of what is left of a range: the index of its token, where it ends, and the index of the first token that does
/// not lie before that.
#[derive(Clone, Copy)]
pub(crate) struct Cut {
    pub(crate) found: Option<usize>,
    pub(crate) end: u64,
    pub(crate) next: usize,
}

/// A position as one number.
pub(crate) fn place(line: u32, col: u32) -> u64
    ensures { result ≡ place line col }
{
    u64::from(line) * 4294967296 + u64::from(col)
}

/// The place of a token.
pub fn token_position(token: &Token) -> u64
    ensures { result ≡ token_position token.now }
{
    place(token.get_dst_line(), token.get_dst_col())
}

/// The line of a place.
pub fn line_of(place: u64) -> u32
    ensures { result ≡ line_of place }
{
    (place / 4294967296) as u32
}

/// The column of a place.
pub fn column_of(place: u64) -> u32
    ensures { result ≡ column_of place }
{
    (place % 4294967296) as u32
}

/// Whether there is a token at this index, and it lies at a place.
fn is_at(tokens: &[Token], i: usize, place: u64) -> bool
    ensures { result ≡ option_map_or (λ t. token_position t == place)
        (slice_get tokens.now i) false }
{
    match tokens.get(i) {
        Some(token) => token_position(token) == place,
        None => false,
    }
}

/// Whether there is a token at this index, and it lies on a line.
fn is_on(tokens: &[Token], i: usize, line: u32) -> bool
    ensures { result ≡ option_map_or (λ t. t.dst_line == line) (slice_get tokens.now i) false }
{
    match tokens.get(i) {
        Some(token) => token.get_dst_line() == line,
        None => false,
    }
}

/// The index of the token that the lookup of a place finds, if `next` is that of the first token that does not lie before it.
pub fn holder(tokens: &[Token], next: usize, place: u64) -> Option<usize>
    ensures { result ≡ holder tokens.now next place }
{
    if is_at(tokens, next, place) {
        return Some(next);
    }
    let before = next.checked_sub(1)?;
    if is_on(tokens, before, line_of(place)) {
        Some(before)
    } else {
        None
    }
}

/// Whether a token does not lie after a place.
fn is_passed(token: &Token, place: u64) -> bool
    ensures { result ≡ nat_le (token_position token.now) place }
{
    token_position(token) <= place
}

/// How many tokens at the front do not lie after a place.
pub fn count_passed(tokens: &[Token], place: u64) -> usize
    ensures { result ≡ prefix_len (λ t. nat_le (token_position t) place) tokens.now }
{
    tokens
        .iter()
        .take_while(|token| is_passed(token, place))
        .count()
}

/// The end of a range, or the place of the token at this index if that comes first.
fn end_before(tokens: &[Token], i: usize, end: u64) -> u64
    ensures { result ≡ end_before tokens.now i end }
{
    match tokens.get(i) {
        Some(token) => token_position(token).min(end),
        None => end,
    }
}

/// Where what is found at a place ends: at the token at index `after`, and, if it is a token, at the end of the line.
fn run_end(tokens: &[Token], after: usize, found: Option<usize>, place: u64, end: u64) -> u64
    ensures { result ≡ run_end tokens.now after found place end }
{
    let run_end = end_before(tokens, after, end);
    if found.is_some() {
        let column = place % 4294967296;
        run_end.min(place.saturating_add(4294967296 - column))
    } else {
        run_end
    }
}

/// The first piece of the range from a place on. Several tokens at one place share it: the first is found there, and the last
/// from the next column on.
pub(crate) fn cut_at(tokens: &[Token], next: usize, place: u64, end: u64) -> Cut
    requires within { next ≤ length tokens.now }
    requires some { place < end }
    ensures { result ≡ cut_at tokens.now next place end }
{
    let count = count_passed(&tokens[next..], place);
    let found = holder(tokens, next, place);
    let after = next + count;
    let end = if count > 1 {
        place + 1
    } else {
        run_end(tokens, after, found, place, end)
    };
    Cut {
        found,
        end,
        next: after,
    }
}

/// The token at an index.
pub fn token_at(tokens: &[Token], i: Option<usize>) -> Option<Token>
    ensures { result ≡ option_and_then (slice_get tokens.now) i }
{
    tokens.get(i?).copied()
}

/// The piece from a place to where it is cut.
pub(crate) fn piece_to(tokens: &[Token], start: u64, cut: Cut) -> Piece
    ensures { result ≡ piece_of tokens.now
        (record { start = start; end = cut.end; found = cut.found }) }
{
    Piece {
        line: line_of(start),
        col: column_of(start),
        end_line: line_of(cut.end),
        end_col: column_of(cut.end),
        token: token_at(tokens, cut.found),
        index: cut.found,
    }
}

/// How many tokens lie before a place, found by halving.
pub(crate) fn count_before(tokens: &[Token], place: u64) -> usize
    ensures within { result ≤ length tokens.now }
    ensures start { are_tokens_sorted tokens.now ≡ true → AreInBounds tokens.now
        → IsStart tokens.now place result }
{
    tokens.partition_point(|token: &Token| token_position(token) < place)
}

/// How many pieces the range from a place up to an end has.
pub(crate) fn count_pieces(tokens: &[Token], mut next: usize, mut place: u64, end: u64) -> usize
    requires { next ≤ length tokens.now }
    ensures { AreLeft tokens.now next place end result }
{
    let mut count = 0;
    while place < end {
        let cut = cut_at(tokens, next, place, end);
        next = cut.next;
        place = cut.end;
        count += 1;
    }
    count
}
