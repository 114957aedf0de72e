//! What was mended, as numbers.
ghost use Rattle.std.specs.Prelude.{◌≡◌, map, length, MatchOption, IsOk, OnErr, Err, ◌≢◌, Some};
ghost use Rattle.std.specs.Prelude.{None, Ok};
ghost use Rattle.oxc_sourcemap_c.specs.Words.{numbers_of_kind, numbers_of_mend, kind_of_numbers};
ghost use Rattle.oxc_sourcemap_c.specs.Words.{mend_of_numbers, filled, kind_numbers, held_mends};
ghost use Rattle.oxc_sourcemap_c.specs.Words.{lent_item, NullHandle, found, code_of};

use crate::holding::{Held, Lent};
use crate::numbers::{CallError, Fault, number_told, told_number};
use oxc_sourcemap_found::{Mend, MendKind};

/// The kind of a mend, the number of the section, and the number that the kind has; 18446744073709551615 stands for no section.
#[repr(C)]
#[derive(Clone, Copy)]
pub struct MendNumbers {
    pub kind: u32,
    pub section: u64,
    pub number: u64,
}

impl MendNumbers {
    fn with(kind: u32, number: usize) -> MendNumbers
        ensures { result ≡ kind_numbers kind number }
    {
        MendNumbers {
            kind,
            section: 0,
            number: number as u64,
        }
    }

    fn of_kind(kind: MendKind) -> MendNumbers
        ensures { result ≡ numbers_of_kind kind }
    {
        match kind {
            MendKind::ByteOrderMark => MendNumbers::with(1, 0),
            MendKind::JsonPrefix => MendNumbers::with(2, 0),
            MendKind::DataUrl => MendNumbers::with(3, 0),
            MendKind::Version => MendNumbers::with(4, 0),
            MendKind::NoSources => MendNumbers::with(5, 0),
            MendKind::NullSource(k) => MendNumbers::with(6, k),
            MendKind::NoContents => MendNumbers::with(7, 0),
            MendKind::BadContent(k) => MendNumbers::with(8, k),
            MendKind::NullNames => MendNumbers::with(9, 0),
            MendKind::NoIgnoreList => MendNumbers::with(10, 0),
            MendKind::BadIgnoredId(k) => MendNumbers::with(11, k),
            MendKind::NoGoogleIgnoreList => MendNumbers::with(12, 0),
            MendKind::BadGoogleIgnoredId(k) => MendNumbers::with(13, k),
            MendKind::SourceIds(count) => MendNumbers::with(14, count),
            MendKind::NameIds(count) => MendNumbers::with(15, count),
            MendKind::Unsorted => MendNumbers::with(16, 0),
            MendKind::Cut(count) => MendNumbers::with(17, count),
        }
    }

    /// The numbers of a mend.
    pub fn of(mend: &Mend) -> MendNumbers
        ensures { result ≡ numbers_of_mend mend.now }
    {
        MendNumbers {
            section: number_told(mend.section),
            ..MendNumbers::of_kind(mend.kind)
        }
    }

    fn mend_kind(&self) -> Option<MendKind>
        ensures { result ≡ kind_of_numbers self.now }
    {
        let number = self.number as usize;
        match self.kind {
            1 => Some(MendKind::ByteOrderMark),
            2 => Some(MendKind::JsonPrefix),
            3 => Some(MendKind::DataUrl),
            4 => Some(MendKind::Version),
            5 => Some(MendKind::NoSources),
            6 => Some(MendKind::NullSource(number)),
            7 => Some(MendKind::NoContents),
            8 => Some(MendKind::BadContent(number)),
            9 => Some(MendKind::NullNames),
            10 => Some(MendKind::NoIgnoreList),
            11 => Some(MendKind::BadIgnoredId(number)),
            12 => Some(MendKind::NoGoogleIgnoreList),
            13 => Some(MendKind::BadGoogleIgnoredId(number)),
            14 => Some(MendKind::SourceIds(number)),
            15 => Some(MendKind::NameIds(number)),
            16 => Some(MendKind::Unsorted),
            17 => Some(MendKind::Cut(number)),
            _ => None,
        }
    }

    /// The mend with these numbers. None if there is none.
    pub fn mend(&self) -> Option<Mend>
        ensures { result ≡ mend_of_numbers self.now }
    {
        Some(Mend {
            section: told_number(self.section),
            kind: self.mend_kind()?,
        })
    }
}

/// Writes the numbers of as many mends as there is room for.
fn write_mends(mends: &[Mend], out: &mut [MendNumbers])
    ensures { out.new ≡ filled (map numbers_of_mend mends.now) out.old }
{
    for i in 0..mends.len().min(out.len()) {
        out[i] = MendNumbers::of(&mends[i]);
    }
}

fn list_held(
    held: Option<&Held>,
    out: &mut [MendNumbers],
    count: &mut usize,
) -> Result<(), CallError>
    ensures found { MatchOption (held_mends (lent_item held.entry)) (result ≡ Err NullHandle)
        (λ ms. IsOk result × (count.new ≡ length ms)
        × (out.new ≡ filled (map numbers_of_mend ms) out.old)) }
    ensures unchanged { OnErr result ((out.new ≡ out.old) × (count.new ≡ count.old)) }
{
    match held {
        Some(Held::Mended(mends)) => {
            write_mends(mends.as_slice(), out);
            *count = mends.len();
            Ok(())
        }
        _ => Err(CallError::NullHandle),
    }
}

/// Writes the numbers of as many of the mends that are borrowed as there is room for, and the number of all.
fn list_mends(mends: &Lent, out: &mut [MendNumbers], count: &mut usize) -> Result<(), CallError>
    ensures found { MatchOption (held_mends mends.now.held) (result ≡ Err NullHandle)
        (λ ms. IsOk result × (count.new ≡ length ms)
        × (out.new ≡ filled (map numbers_of_mend ms) out.old)) }
    ensures unchanged { OnErr result ((out.new ≡ out.old) × (count.new ≡ count.old)) }
{
    list_held(mends.get(), out, count)
}

/// Lists what was mended: as many as there is room for, and the number of all.
#[unsafe(no_mangle)]
pub extern "C" fn proved_get_mends(mends: &Lent, out: &mut [MendNumbers], count: &mut usize) -> u32
    ensures found { MatchOption (held_mends mends.now.held) (result ≡ code_of NullHandle)
        (λ ms. (result ≡ 0) × (count.new ≡ length ms)
        × (out.new ≡ filled (map numbers_of_mend ms) out.old)) }
    ensures unchanged { result ≢ 0 → (out.new ≡ out.old) × (count.new ≡ count.old) }
{
    match list_mends(mends, out, count) {
        Ok(()) => 0,
        Err(error) => Fault::of(error).code,
    }
}
