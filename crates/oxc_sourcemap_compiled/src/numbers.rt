//! Numbers in bytes, the lowest byte first.
ghost use Rattle.std.specs.Prelude.{◌≡◌, ◌+◌, ◌≤◌, length};
ghost use Rattle.oxc_sourcemap_compiled.specs.Words.{number_at};

/// The number of the four bytes from here on.
#[inline(always)]
#[tactic(auto, unfolding(crate::specs::Numbers::number_at))]
pub(crate) fn u32_at(bytes: &[u8], at: usize) -> u32
    requires { at + 4 ≤ length bytes.now }
    ensures { result ≡ number_at 4 bytes.now at }
{
    let four = &bytes[at..at + 4];
    u32::from_le_bytes([four[0], four[1], four[2], four[3]])
}

/// The number of the eight bytes from here on.
#[inline(always)]
#[tactic(auto, unfolding(crate::specs::Numbers::number_at))]
pub(crate) fn u64_at(bytes: &[u8], at: usize) -> u64
    requires { at + 8 ≤ length bytes.now }
    ensures { result ≡ number_at 8 bytes.now at }
{
    let eight = &bytes[at..at + 8];
    u64::from_le_bytes([
        eight[0], eight[1], eight[2], eight[3], eight[4], eight[5], eight[6], eight[7],
    ])
}
