//! Numbers, written as bytes.
ghost use Rattle.std.specs.Prelude.{◌≡◌, ◌++◌, OnOk};
ghost use Rattle.std.specs.List.{flat_map};
ghost use Rattle.oxc_sourcemap_compiled.specs.Words.{bytes_of, table};

use oxc_sourcemap_tokens::Memory;

/// Appends a number as this many bytes, the lowest first.
#[inline(always)]
pub(crate) fn push_number(out: &mut Vec<u8>, number: u64, width: usize) -> Memory<()>
    ensures { OnOk result (out.new.items ≡ out.old.items ++ bytes_of width number) }
{
    let mut rest = number;
    for _ in 0..width {
        out.push((rest & 255) as u8)?;
        rest = rest >> 8;
    }
    Ok(())
}

/// Appends a number as four bytes.
pub(crate) fn push_u32(out: &mut Vec<u8>, number: usize) -> Memory<()>
    ensures { OnOk result (out.new.items ≡ out.old.items ++ bytes_of 4 number) }
{
    push_number(out, number as u64, 4)
}

/// Appends numbers as four bytes each.
pub(crate) fn push_table(out: &mut Vec<u8>, numbers: &[u32]) -> Memory<()>
    ensures { OnOk result (out.new.items ≡ out.old.items ++ table numbers.now) }
{
    for number in numbers {
        push_u32(out, *number as usize)?;
    }
    Ok(())
}
