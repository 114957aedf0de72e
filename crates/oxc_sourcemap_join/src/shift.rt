//! How the tokens and the ignore list of a map are moved in a join.
ghost use Rattle.std.specs.Prelude.{◌≡◌, ◌↔◌, ◌≤◌, ◌<◌, ◌+◌, ◌++◌, ◌⊎◌, map};
ghost use Rattle.std.specs.Prelude.{length, take, drop, Some, None};
ghost use Rattle.std.specs.Prelude.{false, IsTrue, IfSome, IfErr, IsErrOf, OnOk, OnErr};
ghost use Rattle.std.specs.Prelude.{vec_len};
ghost use Rattle.std.specs.List.{All};
ghost use Rattle.std.specs.Vec.{vec_capacity};
ghost use Rattle.oxc_sourcemap_join.specs.Words.{OutOfMemory, TooLarge, IsInBounds, AreInBounds};
ghost use Rattle.oxc_sourcemap_join.specs.Words.{last, ids_of};
ghost use Rattle.oxc_sourcemap_join.specs.Words.{raised_id};
ghost use Rattle.oxc_sourcemap_join.specs.Words.{shifted_column, shifted, is_same_token};
ghost use Rattle.oxc_sourcemap_join.specs.Words.{without_repeat, raised_ignore_list};
ghost use Rattle.oxc_sourcemap_join.specs.Words.{appended_ignore_lists};
ghost use Rattle.oxc_sourcemap_join.specs.Words.{AreEntriesInBounds};
ghost use Rattle.oxc_sourcemap_join.specs.Words.{all_shifted, IsInReach};
ghost use Rattle.oxc_sourcemap_join.specs.Words.{lent_item, TokenRecord};

use crate::reach::{Reach, id_lanes, is_in_reach, position_lanes};
use oxc_sourcemap_tokens::{Error, Memory, Position, Result, Token};
use std::alloc::Global;
use std::simd::u32x4;

/// How the tokens of a map are moved in a join: its ids are raised by the numbers of names and sources before it, and its code
/// begins at a position.
#[derive(Clone, Copy)]
pub(crate) struct Shift {
    pub(crate) names: u32,
    pub(crate) sources: u32,
    pub(crate) position: Position,
}

/// Whether an id raised by a number is at most 4294967294; none is.
fn is_id_raisable(id: Option<u32>, number: u32) -> bool
    ensures { IsTrue result ↔ IfSome (raised_id number id) (λ i. i < 4294967295) }
{
    match id {
        Some(id) => u64::from(id) + u64::from(number) < 4294967295,
        None => true,
    }
}

/// Whether all of these entries of an ignore list, raised by a number, are at most 4294967294.
fn are_raisable(ids: &[u32], number: u32) -> bool
    ensures { IsTrue result ↔ All (λ id. id < 4294967295) (map (λ id. id + number) ids.now) }
{
    for id in ids {
        if !is_id_raisable(Some(*id), number) {
            return false;
        }
    }
    true
}

impl Shift {
    /// By how much the generated column of a token is moved: only line 0 of a map begins at the column of its position.
    fn column_of(&self, token: &Token) -> u32
        ensures { token.now.dst_col + result
            ≡ shifted_column self.now.position token.now.dst_line token.now.dst_col }
    {
        if self.position.column != 0 && token.get_dst_line() == 0 {
            self.position.column
        } else {
            0
        }
    }

    /// Whether a token is in bounds once it is moved.
    fn fits(self, token: &Token) -> bool
        ensures { IsTrue result
            ↔ IsInBounds (shifted self.names self.sources self.position token.now) }
    {
        is_in_reach(token.get_dst_line(), self.position.line)
            && is_in_reach(token.get_dst_col(), self.column_of(token))
            && is_id_raisable(token.get_source_id(), self.sources)
            && is_id_raisable(token.get_name_id(), self.names)
    }

    /// Whether tokens are in bounds once they are moved.
    fn fits_all(self, tokens: &[Token]) -> bool
        ensures { IsTrue result ↔ AreInBounds (all_shifted self tokens.now) }
    {
        for token in tokens {
            if !self.fits(token) {
                return false;
            }
        }
        true
    }

    /// Whether all tokens of this reach are in bounds once they are moved. Where it is false, they may still be.
    fn fits_reach(self, reach: Reach) -> bool
        ensures { IsTrue result → (t : TokenRecord) → IsInReach reach t
            → IsInBounds (shifted self.names self.sources self.position t) }
    {
        let [line, column, _, _] = reach.positions.to_array();
        let [source, name, _, _] = reach.ids.to_array();
        is_in_reach(line, self.position.line)
            && is_in_reach(column, self.position.column)
            && is_in_reach(source, self.sources)
            && is_in_reach(name, self.names)
    }

    /// Whether all entries of an ignore list, raised by the number of sources before, are at most 4294967294.
    pub(crate) fn fits_ignore_list(&self, list: Option<&[u32]>) -> bool
        ensures { IsTrue result ↔ AreEntriesInBounds
            (raised_ignore_list self.now.sources (lent_item list.entry)) }
    {
        match list {
            Some(ids) => are_raisable(ids, self.sources),
            None => true,
        }
    }

    /// A token with the line, column and ids that it has in the join, if these are in bounds; else any token. An id of
    /// 4294967295 stays, and is none.
    fn shift(&self, token: &Token) -> Token
        ensures { IsInBounds (shifted self.now.names self.now.sources self.now.position token.now)
            → result ≡ shifted self.now.names self.now.sources self.now.position token.now }
    {
        self.shift_by(token, self.column_of(token))
    }

    /// As `shift`, where it is known by how much the column is moved.
    fn shift_by(&self, token: &Token, column: u32) -> Token
        requires { token.now.dst_col + column
            ≡ shifted_column self.now.position token.now.dst_line token.now.dst_col }
        ensures { IsInBounds (shifted self.now.names self.now.sources self.now.position token.now)
            → result ≡ shifted self.now.names self.now.sources self.now.position token.now }
    {
        let moves = u32x4::from_array([self.position.line, column, 0, 0]);
        let raises = u32x4::from_array([self.sources, self.names, 0, 0]);
        let [line, column, src_line, src_col] = (position_lanes(token) + moves).to_array();
        let [source, name, _, _] = raises.saturating_add(id_lanes(token)).to_array();
        Token::new(line, column, src_line, src_col, Some(source), Some(name))
    }

    /// Whether tokens stay as they are.
    fn moves_nothing(self) -> bool
        ensures { IsTrue result → (self.names ≡ 0) × (self.sources ≡ 0)
            × (self.position.line ≡ 0) × (self.position.column ≡ 0) }
    {
        self.names == 0 && self.sources == 0 && self.position.line == 0 && self.position.column == 0
    }

    /// The error of an add that finds no room for these tokens: a limit that they pass comes first.
    #[cold]
    pub(crate) fn error_without_room(self, tokens: &[Token]) -> Error
        ensures too_large { (result ≡ TooLarge) ↔ ¬ (AreInBounds (all_shifted self tokens.now)) }
        ensures error { (result ≡ OutOfMemory) ⊎ (result ≡ TooLarge) }
    {
        if self.fits_all(tokens) {
            Error::OutOfMemory
        } else {
            Error::TooLarge
        }
    }

    /// Whether a token, once it is moved, equals one of the join. Most are not on its line.
    fn repeats(&self, last_token: Token, token: &Token) -> bool
        ensures { result ≡ is_same_token last_token
            (shifted self.now.names self.now.sources self.now.position token.now) }
    {
        let line = u64::from(token.get_dst_line()) + u64::from(self.position.line);
        line == u64::from(last_token.get_dst_line())
            && self.fits(token)
            && last_token == self.shift(token)
    }

    /// How many tokens of a map are left out: one, the first, if that equals the last token so far once it is moved.
    pub(crate) fn skip_len(&self, last_token: Option<Token>, tokens: &[Token]) -> usize
        ensures kept { all_shifted self.now (drop result tokens.now)
            ≡ without_repeat is_same_token last_token (all_shifted self.now tokens.now) }
        ensures within { result ≤ length tokens.now }
    {
        if let (Some(last_token), Some(first)) = (last_token, tokens.first()) {
            if self.repeats(last_token, first) {
                return 1;
            }
        }
        0
    }

    /// Adds the ignore list of a map, if it has one, with its entries raised by the number of sources before. Fails only for
    /// want of memory; the list is then as it was.
    fn add_ignore_list(
        &self,
        alloc: Global,
        list: &mut Option<Vec<u32>>,
        added: Option<&[u32]>,
    ) -> Memory<()>
        requires { AreEntriesInBounds (raised_ignore_list self.now.sources (lent_item added)) }
        ensures added { OnOk result (ids_of list.new
            ≡ appended_ignore_lists (ids_of list.old)
            (raised_ignore_list self.now.sources (lent_item added.entry))) }
        ensures unchanged { OnErr result (ids_of list.new ≡ ids_of list.old) }
    {
        let Some(added) = added else {
            return Ok(());
        };
        match list {
            Some(ids) => {
                ids.reserve(added.len())?;
                push_raised(ids, added, self.sources);
            }
            None => {
                let mut ids = Vec::with_capacity(alloc, added.len())?;
                push_raised(&mut ids, added, self.sources);
                *list = Some(ids);
            }
        }
        Ok(())
    }
}

/// Adds entries of an ignore list, raised by a number.
fn push_raised(list: &mut Vec<u32>, added: &[u32], number: u32)
    requires room { vec_len list.old + length added.now ≤ vec_capacity list.old }
    requires in_bounds { All (λ id. id < 4294967295) (map (λ id. id + number) added.now) }
    ensures { list.new.items ≡ list.old.items ++ map (λ id. id + number) added.now }
{
    for id in added {
        list.push_reserved(*id + number);
    }
}

/// Adds moved tokens whose columns stay as they are, as `push_each` does.
fn push_each_down(tokens: &mut Vec<Token>, shift: Shift, added: &[Token]) -> Reach
    requires room { vec_len tokens.old + length added.now ≤ vec_capacity tokens.old }
    requires column { shift.position.column ≡ 0 }
    ensures front { take (vec_len tokens.old) tokens.new.items ≡ tokens.old.items }
    ensures items { AreInBounds (all_shifted shift added.now)
        → tokens.new.items ≡ tokens.old.items ++ all_shifted shift added.now }
    ensures reach { All (IsInReach result) added.now }
{
    let mut reach = Reach::of_none();
    for token in added {
        reach = reach.with(token);
        tokens.push_reserved(shift.shift_by(token, 0));
    }
    reach
}

/// Adds moved tokens, or as many others where not all are in bounds then, and finds a reach of those that it was given.
fn push_each(tokens: &mut Vec<Token>, shift: Shift, added: &[Token]) -> Reach
    requires { vec_len tokens.old + length added.now ≤ vec_capacity tokens.old }
    ensures front { take (vec_len tokens.old) tokens.new.items ≡ tokens.old.items }
    ensures items { AreInBounds (all_shifted shift added.now)
        → tokens.new.items ≡ tokens.old.items ++ all_shifted shift added.now }
    ensures reach { All (IsInReach result) added.now }
{
    if shift.position.column == 0 {
        return push_each_down(tokens, shift, added);
    }
    let mut reach = Reach::of_none();
    for token in added {
        reach = reach.with(token);
        tokens.push_reserved(shift.shift(token));
    }
    reach
}

/// Every token is in bounds: the contract of a loop that does nothing, and of which no instruction is left.
fn tokens_in_bounds(tokens: &[Token])
    ensures { AreInBounds tokens.now }
{
    for token in tokens {
        let _line = token.get_dst_line();
    }
}

/// Adds moved tokens if all of them are in bounds then, and returns whether they are; otherwise the list is as it was. It adds
/// them first, and takes them away again, since they seldom are not.
#[inline(always)]
fn push_moved(tokens: &mut Vec<Token>, shift: Shift, added: &[Token]) -> bool
    requires { vec_len tokens.old + length added.now ≤ vec_capacity tokens.old }
    ensures fits { IsTrue result ↔ AreInBounds (all_shifted shift added.now) }
    ensures items { IsTrue result
        → tokens.new.items ≡ tokens.old.items ++ all_shifted shift added.now }
    ensures unchanged { result ≡ false → tokens.new.items ≡ tokens.old.items }
{
    if shift.moves_nothing() {
        tokens_in_bounds(added);
        tokens.extend_from_slice(added).unwrap();
        return true;
    }
    let old_len = tokens.len();
    let reach = push_each(tokens, shift, added);
    if shift.fits_reach(reach) || shift.fits_all(added) {
        return true;
    }
    tokens.truncate(old_len);
    false
}

/// Adds moved tokens, and then the ignore list of their map with its entries raised by the number of sources before. Fails with
/// `TooLarge` if a token is not in bounds once it is moved, then with `OutOfMemory`; both lists are then as they were.
#[inline(always)]
pub(crate) fn push_tokens(
    alloc: Global,
    tokens: &mut Vec<Token>,
    ignore_list: &mut Option<Vec<u32>>,
    shift: Shift,
    added: &[Token],
    ignored: Option<&[u32]>,
) -> Result<()>
    requires room { vec_len tokens.old + length added.now ≤ vec_capacity tokens.old }
    requires entries { AreEntriesInBounds (raised_ignore_list shift.sources (lent_item ignored)) }
    ensures tokens { OnOk result
        (tokens.new.items ≡ tokens.old.items ++ all_shifted shift added.now) }
    ensures entries { OnOk result (ids_of ignore_list.new
        ≡ appended_ignore_lists (ids_of ignore_list.old)
        (raised_ignore_list shift.sources (lent_item ignored.entry))) }
    ensures fits { OnOk result (AreInBounds (all_shifted shift added.now)) }
    ensures too_large { IsErrOf result TooLarge ↔ ¬ (AreInBounds (all_shifted shift added.now)) }
    ensures error { IfErr result (λ e. (e ≡ OutOfMemory) ⊎ (e ≡ TooLarge)) }
    ensures unchanged { OnErr result ((tokens.new.items ≡ tokens.old.items)
        × (ids_of ignore_list.new ≡ ids_of ignore_list.old)) }
{
    let len = tokens.len();
    if !push_moved(tokens, shift, added) {
        return Err(Error::TooLarge);
    }
    if ignored.is_none() {
        return Ok(());
    }
    match shift.add_ignore_list(alloc, ignore_list, ignored) {
        Ok(()) => Ok(()),
        Err(_) => {
            tokens.truncate(len);
            Err(Error::OutOfMemory)
        }
    }
}
