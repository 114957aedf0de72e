//! Reading the `mappings` text.
ghost use Rattle.std.specs.Box.{boxed_slice_items};
ghost use Rattle.std.specs.Prelude.{ℕ, List, ◌≡◌, ◌⊎◌, ◌+◌, ◌*◌, ◌%◌, ◌^◌, ◌<◌, ◌≤◌, ◌++◌};
ghost use Rattle.std.specs.Prelude.{length, ◌∷◌, [], drop, not, ℤ, pos, nat_abs, ◌+ℤ◌, ◌<ℤ◌, ◌≤ℤ◌};
ghost use Rattle.std.specs.Prelude.{set, true, false, min, is_some, IfSome, IfNone, OnOk, IfOk};
ghost use Rattle.std.specs.Prelude.{IfErr, Option, Some, None, Result, Ok, Err};
ghost use Rattle.oxc_sourcemap_mappings.specs.Words.{digit, payload, signed};
ghost use Rattle.oxc_sourcemap_mappings.specs.Words.{nothing_before, place, digit_fault};
ghost use Rattle.oxc_sourcemap_mappings.specs.Words.{range_fault, is_id_below, low_bits};
ghost use Rattle.oxc_sourcemap_mappings.specs.Words.{source_fault, place_fault, counts_of};
ghost use Rattle.oxc_sourcemap_mappings.specs.Words.{token_at, segment_result, reading};
ghost use Rattle.oxc_sourcemap_mappings.specs.Words.{ends_segment, front_digits, front_segment};
ghost use Rattle.oxc_sourcemap_mappings.specs.Words.{segments_after, is_over, IsNumberAt};
ghost use Rattle.oxc_sourcemap_mappings.specs.Words.{AreFieldsOf, AreSmall, value, place_of};
ghost use Rattle.oxc_sourcemap_mappings.specs.Words.{source_moved, moved, moved_by, IsFrontOf};
ghost use Rattle.oxc_sourcemap_mappings.specs.Words.{Answers, at_line_start};
ghost use Rattle.oxc_sourcemap_mappings.specs.Words.{Reads, Locates, mappings_place, fault_at};
ghost use Rattle.oxc_sourcemap_mappings.specs.Words.{Segment};

use oxc_sourcemap_tokens::{Error, Fault, FaultSpot, Located, Result, SegmentPlace, Token};
use std::alloc::Global;
use std::boxed::BoxedSlice;

/// The fields of one segment.
#[derive(Drop)]
pub(crate) struct Fields {
    /// The first five numbers, 0 where there are fewer.
    pub(crate) values: [i64; 5],
    /// How many numbers the segment has.
    count: usize,
    /// How many bytes the segment takes.
    len: usize,
}

/// The sums of the fields read so far.
#[derive(Clone, Copy)]
pub(crate) struct Sums {
    pub(crate) dst_col: u32,
    pub(crate) source_id: u32,
    pub(crate) src_line: u32,
    pub(crate) src_col: u32,
    pub(crate) name_id: u32,
}

/// The digit of each byte, and 128 for `,` and `;`.
static DIGITS: [u8; 256] = [
    63, 63, 63, 63, 63, 63, 63, 63, 63, 63, 63, 63, 63, 63, 63, 63, 63, 63, 63, 63, 63, 63, 63, 63,
    63, 63, 63, 63, 63, 63, 63, 63, 63, 63, 63, 63, 63, 63, 63, 63, 63, 63, 63, 62, 128, 63, 63,
    63, 52, 53, 54, 55, 56, 57, 58, 59, 60, 61, 63, 128, 63, 63, 63, 63, 63, 0, 1, 2, 3, 4, 5, 6,
    7, 8, 9, 10, 11, 12, 13, 14, 15, 16, 17, 18, 19, 20, 21, 22, 23, 24, 25, 63, 63, 63, 63, 63,
    63, 26, 27, 28, 29, 30, 31, 32, 33, 34, 35, 36, 37, 38, 39, 40, 41, 42, 43, 44, 45, 46, 47, 48,
    49, 50, 51, 63, 63, 63, 63, 63, 63, 63, 63, 63, 63, 63, 63, 63, 63, 63, 63, 63, 63, 63, 63, 63,
    63, 63, 63, 63, 63, 63, 63, 63, 63, 63, 63, 63, 63, 63, 63, 63, 63, 63, 63, 63, 63, 63, 63, 63,
    63, 63, 63, 63, 63, 63, 63, 63, 63, 63, 63, 63, 63, 63, 63, 63, 63, 63, 63, 63, 63, 63, 63, 63,
    63, 63, 63, 63, 63, 63, 63, 63, 63, 63, 63, 63, 63, 63, 63, 63, 63, 63, 63, 63, 63, 63, 63, 63,
    63, 63, 63, 63, 63, 63, 63, 63, 63, 63, 63, 63, 63, 63, 63, 63, 63, 63, 63, 63, 63, 63, 63, 63,
    63, 63, 63, 63, 63, 63, 63, 63, 63, 63, 63, 63, 63, 63, 63, 63,
];

/// The number that each byte is alone, 32 more than its digit if others follow, and 127 for `,` and `;`.
static NUMBERS: [i8; 256] = [
    95, 95, 95, 95, 95, 95, 95, 95, 95, 95, 95, 95, 95, 95, 95, 95, 95, 95, 95, 95, 95, 95, 95, 95,
    95, 95, 95, 95, 95, 95, 95, 95, 95, 95, 95, 95, 95, 95, 95, 95, 95, 95, 95, 94, 127, 95, 95,
    95, 84, 85, 86, 87, 88, 89, 90, 91, 92, 93, 95, 127, 95, 95, 95, 95, 95, 0, 0, 1, -1, 2, -2, 3,
    -3, 4, -4, 5, -5, 6, -6, 7, -7, 8, -8, 9, -9, 10, -10, 11, -11, 12, -12, 95, 95, 95, 95, 95,
    95, 13, -13, 14, -14, 15, -15, 64, 65, 66, 67, 68, 69, 70, 71, 72, 73, 74, 75, 76, 77, 78, 79,
    80, 81, 82, 83, 95, 95, 95, 95, 95, 95, 95, 95, 95, 95, 95, 95, 95, 95, 95, 95, 95, 95, 95, 95,
    95, 95, 95, 95, 95, 95, 95, 95, 95, 95, 95, 95, 95, 95, 95, 95, 95, 95, 95, 95, 95, 95, 95, 95,
    95, 95, 95, 95, 95, 95, 95, 95, 95, 95, 95, 95, 95, 95, 95, 95, 95, 95, 95, 95, 95, 95, 95, 95,
    95, 95, 95, 95, 95, 95, 95, 95, 95, 95, 95, 95, 95, 95, 95, 95, 95, 95, 95, 95, 95, 95, 95, 95,
    95, 95, 95, 95, 95, 95, 95, 95, 95, 95, 95, 95, 95, 95, 95, 95, 95, 95, 95, 95, 95, 95, 95, 95,
    95, 95, 95, 95, 95, 95, 95, 95, 95, 95, 95, 95, 95, 95, 95, 95, 95,
];

/// The digit of a byte, and 128 for `,` and `;`, which end a segment.
#[inline(always)]
fn mapping_of(byte: u8) -> u8
    ensures digit { result < 64 → (ends_segment byte ≡ false) × (result ≡ digit byte) }
    ensures mark { 64 ≤ result → ends_segment byte ≡ true }
{
    DIGITS[byte as usize]
}

/// The number that a byte is alone, 32 more than its digit if others follow, and 127 for `,` and `;`.
#[inline(always)]
fn byte_number(byte: u8) -> i8
    ensures number { result <ℤ pos 64 → (ends_segment byte ≡ false) × (digit byte < 32)
        × (result ≡ signed (digit byte)) }
    ensures more { pos 64 ≤ℤ result → result <ℤ pos 96 → (ends_segment byte ≡ false)
        × (32 ≤ digit byte) × (result ≡ pos (digit byte + 32)) }
    ensures mark { pos 96 ≤ℤ result → ends_segment byte ≡ true }
{
    NUMBERS[byte as usize]
}

/// The digit at an index of a text; None at a `,`, a `;` and the end.
#[inline(always)]
fn digit_at(text: &[u8], at: usize) -> Option<u8>
    ensures end { IfNone result (front_digits (drop at text.now) ≡ []) }
    ensures digit { IfSome result (λ d. front_digits (drop at text.now) ≡ d
        ∷ front_digits (drop (at + 1) text.now)) }
    ensures within { IfSome result (λ d. at < length text.now) }
{
    let entry = mapping_of(*text.get(at)?);
    if entry < 64 { Some(entry) } else { None }
}

/// The number that a raw number stands for: its half, negative if it is odd.
#[inline(always)]
fn signed_of(raw: u64) -> i64
    requires { raw < 2 ^ 63 }
    ensures value { result ≡ signed raw }
    ensures small { nat_abs result < 2 ^ 62 }
{
    let magnitude = (raw / 2) as i64;
    if raw % 2 == 1 { -magnitude } else { magnitude }
}

/// Whether this digit, at this exponent of 32, makes a run that does not fit.
fn is_too_far(exponent: u32, digit: u8) -> bool
    ensures { result ≡ is_over exponent digit }
{
    exponent > 12 || (exponent == 12 && digit % 32 > 7)
}

/// A raw number with one more digit, at this exponent of 32.
fn with_digit(raw: u64, exponent: u32, digit: u8) -> u64
    requires exponent { is_over exponent digit ≡ false }
    requires raw { raw < 32 ^ exponent }
    ensures value { result ≡ raw + payload digit * 32 ^ exponent }
    ensures below { result < 32 ^ (exponent + 1) }
    ensures fits { result < 2 ^ 63 }
{
    raw + (u64::from(digit % 32) << (5 * exponent))
}

/// Stores field k if it is one of the first five. Of further ones only the number counts.
fn keep(values: &mut [i64; 5], k: usize, number: i64)
    ensures { values.new ≡ set values.old k number }
{
    if k < 5 {
        values[k] = number;
    }
}

/// The number at an index of a text, and how many digits it has; None if it has more than three, or if there is none.
#[inline(always)]
fn read_number_at(text: &[u8], at: usize) -> Option<(i64, usize)>
    requires { at + 3 ≤ length text.now }
    ensures number { IfSome result (λ read. IsNumberAt text.now at read.0 read.1) }
    ensures len { IfSome result (λ read. (0 < read.1) × (read.1 ≤ 3)) }
{
    let number = byte_number(text[at]);
    if number < 64 {
        return Some((i64::from(number), 1));
    }
    let second = mapping_of(text[at + 1]);
    if number > 95 || second >= 64 {
        return None;
    }
    let low = u64::from((number - 64) as u8) + u64::from(second % 32) * 32;
    if second < 32 {
        return Some((signed_of(low), 2));
    }
    let third = mapping_of(text[at + 2]);
    if third >= 32 {
        return None;
    }
    Some((signed_of(low + u64::from(third) * 1024), 3))
}

/// The fields of the segment at the front of a text, digit by digit, or the fault of its digits.
// A call of its own, so that the loop of `decode_mappings` is short.
#[inline(never)]
pub(crate) fn any_segment(text: &[u8]) -> Result<Fields>
    ensures fields { IfOk result (λ fields. AreFieldsOf (front_segment text.now) fields) }
    ensures len { IfOk result (λ fields. fields.len ≡ length (front_digits text.now)) }
    ensures within { IfOk result (λ fields. fields.len ≤ length text.now) }
    ensures small { IfOk result AreSmall }
    ensures fault { IfErr result (λ e. digit_fault (front_segment text.now) ≡ Some e) }
{
    let mut values = [0i64; 5];
    let mut count: usize = 0;
    let mut len: usize = 0;
    let mut raw: u64 = 0;
    let mut exponent: u32 = 0;
    while let Some(digit) = digit_at(text, len) {
        if is_too_far(exponent, digit) {
            return Err(Error::VlqOverflow);
        }
        let sum = with_digit(raw, exponent, digit);
        if digit < 32 {
            keep(&mut values, count, signed_of(sum));
            count += 1;
            raw = 0;
            exponent = 0;
        } else {
            raw = sum;
            exponent += 1;
        }
        len += 1;
    }
    if exponent > 0 {
        return Err(Error::VlqLeftover);
    }
    Ok(Fields { values, count, len })
}

/// A line or column moved by a field; an error if it leaves 0 to 4294967295.
#[inline(always)]
fn add_within(sum: u32, by: i64) -> Result<u32>
    requires { nat_abs by < 2 ^ 62 }
    ensures value { IfOk result (λ n. pos n ≡ pos sum +ℤ by) }
    ensures clean { IfOk result (λ n. range_fault (pos sum +ℤ by) ≡ None) }
    ensures fault { IfErr result (λ e. range_fault (pos sum +ℤ by) ≡ Some e) }
{
    let moved = i64::from(sum) + by;
    if moved < 0 {
        return Err(Error::BadSegmentSize(0));
    }
    if moved > 4294967295 {
        return Err(Error::VlqOverflow);
    }
    Ok(moved as u32)
}

/// Whether a sum is a line or a column: 0 to 4294967295.
#[inline(always)]
fn is_in_range(sum: i64) -> bool
    ensures low { result ≡ true → pos 0 ≤ℤ sum }
    ensures high { result ≡ true → sum ≤ℤ pos 4294967295 }
{
    sum >= 0 && sum <= 4294967295
}

/// An id moved by a field; None if it is negative, not below the count, or 4294967295.
#[inline(always)]
fn add_below(id: u32, by: i64, count: usize) -> Option<u32>
    requires { nat_abs by < 2 ^ 62 }
    ensures value { IfSome result (λ n. pos n ≡ pos id +ℤ by) }
    ensures below { is_some result ≡ is_id_below (pos id +ℤ by) (min count 4294967295) }
    ensures small { IfSome result (λ n. n < 4294967295) }
{
    let moved = i64::from(id) + by;
    if moved < 0 || moved as usize >= count.min(4294967295) {
        None
    } else {
        Some(moved as u32)
    }
}

/// The low 32 bits of an id moved by a field.
fn low_bits_of(id: u32, by: i64) -> u32
    requires { nat_abs by < 2 ^ 62 }
    ensures { result ≡ low_bits (pos id +ℤ by) }
{
    (i64::from(id) + by).rem_euclid(4294967296) as u32
}

impl Sums {
    /// The sums before the first segment.
    pub(crate) fn new() -> Self
        ensures { place_of result ≡ place nothing_before }
    {
        Self {
            dst_col: 0,
            source_id: 0,
            src_line: 0,
            src_col: 0,
            name_id: 0,
        }
    }

    /// Goes to the start of the next line.
    pub(crate) fn begin_line(&mut self)
        ensures { place_of self.new ≡ at_line_start (place_of self.old) }
    {
        self.dst_col = 0;
    }

    /// Adds the fields of a segment to the source id, line and column. After an `Err` some of them are moved.
    #[inline(always)]
    fn move_source(&mut self, fields: &Fields, names: usize, sources: usize) -> Result<()>
        requires small { AreSmall fields.now }
        ensures place { OnOk result (place_of self.new
            ≡ source_moved (place_of self.old) (value fields.now)) }
        ensures id { OnOk result (self.new.source_id < 4294967295) }
        ensures clean { let here = source_moved (place_of self.old) (value fields.now) in
            OnOk result (source_fault (counts_of names sources) (place_of self.old) here ≡ None) }
        ensures fault { let here = source_moved (place_of self.old) (value fields.now) in
            IfErr result (λ e. source_fault (counts_of names sources) (place_of self.old) here
            ≡ Some e) }
    {
        let Some(source_id) = add_below(self.source_id, fields.values[1], sources) else {
            return Err(Error::BadSourceReference(self.source_id));
        };
        self.src_line = add_within(self.src_line, fields.values[2])?;
        self.src_col = add_within(self.src_col, fields.values[3])?;
        self.source_id = source_id;
        Ok(())
    }

    /// Moves the sums by the fields of a segment, and makes its token. After an `Err` some of them are moved.
    #[tactic(auto, unfolding(crate::specs::Faults::place_fault))]
    #[inline(always)]
    pub(crate) fn step(
        &mut self,
        line: u32,
        fields: &Fields,
        names: usize,
        sources: usize,
    ) -> Result<Token>
        requires small { AreSmall fields.now }
        ensures place { let here = moved (place_of self.old) fields.now.count (value fields.now) in
            OnOk result (place_of self.new ≡ here) }
        ensures token { IfOk result (λ t. t ≡ token_at line fields.now.count (place_of self.new)) }
        ensures clean { let here = moved (place_of self.old) fields.now.count (value fields.now) in
            let counts = counts_of names sources in
            OnOk result (place_fault counts (place_of self.old) fields.now.count here ≡ None) }
        ensures fault { let here = moved (place_of self.old) fields.now.count (value fields.now) in
            let counts = counts_of names sources in
            IfErr result (λ e. place_fault counts (place_of self.old) fields.now.count here
            ≡ Some e) }
    {
        self.dst_col = add_within(self.dst_col, fields.values[0])?;
        match fields.count {
            1 => Ok(self.token(line, None, None)),
            4 => {
                self.move_source(fields, names, sources)?;
                Ok(self.token(line, Some(self.source_id), None))
            }
            5 => {
                self.move_source(fields, names, sources)?;
                let by = fields.values[4];
                let Some(name_id) = add_below(self.name_id, by, names) else {
                    return Err(Error::BadNameReference(low_bits_of(self.name_id, by)));
                };
                self.name_id = name_id;
                Ok(self.token(line, Some(self.source_id), Some(name_id)))
            }
            n => Err(Error::BadSegmentSize(n.min(4294967295) as u32)),
        }
    }

    /// These sums, the lines and columns moved by their fields; None if one leaves 0 to 4294967295. For speed there is one
    /// test for all three.
    #[inline(always)]
    fn with_position(&self, dst_col: i64, src_line: i64, src_col: i64) -> Option<Self>
        requires dst_col { nat_abs dst_col < 2 ^ 62 }
        requires src_line { nat_abs src_line < 2 ^ 62 }
        requires src_col { nat_abs src_col < 2 ^ 62 }
        ensures dst_col { IfSome result (λ sums. pos sums.dst_col
            ≡ pos self.now.dst_col +ℤ dst_col) }
        ensures src_line { IfSome result (λ sums. pos sums.src_line
            ≡ pos self.now.src_line +ℤ src_line) }
        ensures src_col { IfSome result (λ sums. pos sums.src_col
            ≡ pos self.now.src_col +ℤ src_col) }
        ensures others { IfSome result (λ sums. (sums.source_id ≡ self.now.source_id)
            × (sums.name_id ≡ self.now.name_id)) }
        ensures clean { is_some result ≡ true
            → (range_fault (pos self.now.dst_col +ℤ dst_col) ≡ None)
            × (range_fault (pos self.now.src_line +ℤ src_line) ≡ None)
            × (range_fault (pos self.now.src_col +ℤ src_col) ≡ None) }
    {
        let dst_col = i64::from(self.dst_col) + dst_col;
        let src_line = i64::from(self.src_line) + src_line;
        let src_col = i64::from(self.src_col) + src_col;
        if !(is_in_range(dst_col) & is_in_range(src_line) & is_in_range(src_col)) {
            return None;
        }
        Some(Self {
            dst_col: dst_col as u32,
            src_line: src_line as u32,
            src_col: src_col as u32,
            ..*self
        })
    }

    /// Reads the segment at the front of a text if it has four or five fields, each of one to three digits, and no fault:
    /// moves the sums by it, and gives its token and the number of its bytes. For every other text it gives None and moves
    /// no sum. For speed there is no loop, so the text needs the 16 bytes that may be looked at.
    #[inline(always)]
    fn usual_token(
        &mut self,
        line: u32,
        text: &[u8],
        names: usize,
        sources: usize,
    ) -> Option<(Token, usize)>
        ensures token { IfSome result (λ read. IsFrontOf (counts_of names sources) line
            (place_of self.old) text.now (place_of self.new) read.0 read.1) }
        ensures some { IfSome result (λ read. 0 < read.1) }
        ensures unchanged { IfNone result (self.new ≡ self.old) }
    {
        if text.len() < 16 {
            return None;
        }
        let (dst_col, a) = read_number_at(text, 0)?;
        let (source_id, b) = read_number_at(text, a)?;
        let (src_line, c) = read_number_at(text, a + b)?;
        let (src_col, d) = read_number_at(text, a + b + c)?;
        let len = a + b + c + d;
        let source_id = add_below(self.source_id, source_id, sources)?;
        let moved = self.with_position(dst_col, src_line, src_col)?;
        if byte_number(text[len]) > 95 {
            *self = Self { source_id, ..moved };
            return Some((self.token(line, Some(source_id), None), len));
        }
        let (by, e) = read_number_at(text, len)?;
        let name_id = add_below(self.name_id, by, names)?;
        if byte_number(text[len + e]) < 96 {
            return None;
        }
        *self = Self {
            source_id,
            name_id,
            ..moved
        };
        Some((self.token(line, Some(source_id), Some(name_id)), len + e))
    }

    /// Reads the segment at the front of a text digit by digit and field by field: moves the sums by it, and gives its token and
    /// the number of its bytes. After an `Err` some of the sums are moved.
    // Put into its callers, so that the sums of `decode_mappings` stay in registers.
    #[inline(always)]
    pub(crate) fn any_token(
        &mut self,
        line: u32,
        text: &[u8],
        names: usize,
        sources: usize,
    ) -> Result<(Token, usize)>
        ensures token { IfOk result (λ read. IsFrontOf (counts_of names sources) line
            (place_of self.old) text.now (place_of self.new) read.0 read.1) }
        ensures fault { let s = front_segment text.now in
            IfErr result (λ e. segment_result (counts_of names sources) line
            (place_of self.old) s (moved_by (place_of self.old) s) ≡ Err e) }
    {
        let fields = any_segment(text)?;
        let token = self.step(line, &fields, names, sources)?;
        Ok((token, fields.len))
    }

    #[inline(always)]
    fn token(&self, line: u32, source_id: Option<u32>, name_id: Option<u32>) -> Token
        requires source { IfSome source_id (λ n. n < 4294967295) }
        requires name { IfSome name_id (λ n. n < 4294967295) }
        ensures { result ≡ record {
          dst_line = line;
          dst_col = self.now.dst_col;
          src_line = self.now.src_line;
          src_col = self.now.src_col;
          source_id = source_id;
          name_id = name_id;
        } }
    {
        Token::new(
            line,
            self.dst_col,
            self.src_line,
            self.src_col,
            source_id,
            name_id,
        )
    }
}

/// The line after this one.
fn next_line(line: u32) -> Option<u32>
    ensures line { IfSome result (λ next. next ≡ line + 1) }
    ensures last { IfNone result (line ≡ 4294967295) }
{
    line.checked_add(1)
}

/// The fault of the segment, or of the `;`, that begins at this byte, behind so many segments of its line.
// A call of its own: it is rare.
#[inline(never)]
fn fault_of(error: Error, byte: usize, line: u32, segment: usize) -> Fault
    ensures { result ≡ fault_at error
        (Segment (record { byte = byte; line = line; segment = segment })) }
{
    let place = SegmentPlace {
        byte,
        line,
        segment,
    };
    Fault::at(error, FaultSpot::Segment(place))
}

/// Whether a byte belongs to a segment: all but `,` and `;`.
fn is_in_segment(byte: u8) -> bool
    ensures { result ≡ not (ends_segment byte) }
{
    (byte != b',') & (byte != b';')
}

/// How many segments begin in at most 255 bytes. `is_inside` is whether the byte before them belongs to a segment, and then
/// whether their last byte does. Counted in eight bits and without a branch, which lets the compiler take many bytes at once.
fn segments_in_block(block: &[u8], is_inside: &mut bool) -> u8
    requires { length block.now ≤ 255 }
    ensures { (rest : List ℕ) → segments_after is_inside.old (block.now ++ rest)
        ≡ result + segments_after is_inside.new rest }
{
    let mut count: u8 = 0;
    for byte in block {
        let was_inside = *is_inside;
        *is_inside = is_in_segment(*byte);
        count += u8::from(*is_inside & !was_inside);
    }
    count
}

/// How many segments a text has, empty ones left out.
fn segment_count(text: &[u8]) -> usize
    ensures { result ≡ segments_after false text.now }
{
    let mut count: usize = 0;
    let mut is_inside = false;
    let mut rest = text;
    while rest.len() > 128 {
        let (block, more) = rest.split_at(128);
        count += usize::from(segments_in_block(block, &mut is_inside));
        rest = more;
    }
    count + usize::from(segments_in_block(rest, &mut is_inside))
}

/// The text without the `,` at its front, if it has one.
#[inline(always)]
fn after_comma(text: &[u8]) -> &[u8]
    ensures { (text.now ≡ result.now) ⊎ (text.now ≡ 44 ∷ result.now) }
{
    match text.first() {
        Some(b',') => &text[1..],
        _ => text,
    }
}

/// Reads a `mappings` text as `decode_mappings` does, and an error has its place: the segment that `mappings_fault_at` returns.
pub fn read_mappings(
    alloc: Global,
    text: &str,
    names: usize,
    sources: usize,
) -> Located<BoxedSlice<Token>>
    ensures tokens { Reads boxed_slice_items result (reading text.now names sources) }
    ensures place { Locates result (mappings_place text.now names sources) }
{
    let mut rest = text.as_bytes();
    let mut tokens = Vec::with_capacity(alloc, segment_count(rest))?;
    let mut sums = Sums::new();
    let mut line = 0;
    let mut before = 0; // tokens on the lines before
    while let Some(byte) = rest.first() {
        // In an arm of its own, the token goes from registers to its place.
        if let Some((token, len)) = sums.usual_token(line, rest, names, sources) {
            tokens.push_reserved(token);
            rest = after_comma(&rest[len..]);
            continue;
        }
        let at = text.len() - rest.len();
        match *byte {
            b';' => {
                let Some(next) = next_line(line) else {
                    return Err(fault_of(Error::TooLarge, at, line, tokens.len() - before));
                };
                line = next;
                before = tokens.len();
                sums.dst_col = 0;
                rest = &rest[1..];
            }
            b',' => rest = &rest[1..],
            _ => {
                let (token, len) = match sums.any_token(line, rest, names, sources) {
                    Ok(read) => read,
                    Err(error) => return Err(fault_of(error, at, line, tokens.len() - before)),
                };
                tokens.push_reserved(token);
                rest = after_comma(&rest[len..]);
            }
        }
    }
    Ok(tokens.into_boxed_slice())
}

/// Reads a `mappings` text into tokens, in the order of the text (docs/FORMAT.md, "Reading"; ECMA-426, "Mappings
/// structure"). `names` and `sources` are the lengths of the lists that its ids refer to; more than 4294967295 are taken as
/// 4294967295.
///
/// ```rust
/// use oxc_sourcemap::{Token, decode_mappings};
///
/// let tokens = decode_mappings(alloc, "AAKG,I", 0, 1)?;
/// let wanted = [Token::new(0, 0, 5, 3, Some(0), None), Token::new(0, 4, 5, 3, None, None)];
/// assert_eq!(rt; tokens.as_slice(), wanted.as_slice());
/// ```
///
/// Empty segments are skipped. A segment of one field is an unmapped token, with the source line and column reached so far.
/// A byte outside the base64 alphabet is a digit of value 63.
///
/// Fails with the first error in the text, or, for want of memory, with `OutOfMemory`. Line 4294967296 is `TooLarge` at
/// the `;` that begins it. In a segment these are checked in this order:
/// - each number: `VlqOverflow` for a 14th digit or a 13th with a payload above 7, `VlqLeftover` if the last digit has the
///   continuation bit;
/// - the generated column: `BadSegmentSize(0)` if negative, `VlqOverflow` above 4294967295;
/// - n, the number of fields: `BadSegmentSize(n)` unless 1, 4 or 5;
/// - the source id: `BadSourceReference`, with the source id before, if negative or not below `sources`;
/// - the source line, then the source column: as the generated column;
/// - the name id: `BadNameReference`, with its low 32 bits, if negative or not below `names`.
pub fn decode_mappings(
    alloc: Global,
    text: &str,
    names: usize,
    sources: usize,
) -> Result<BoxedSlice<Token>>
    ensures { Answers boxed_slice_items result (reading text.now names sources) }
{
    Ok(read_mappings(alloc, text, names, sources)?)
}
