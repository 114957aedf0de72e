//! The gzip files of codes, and their bytes divided by sources.
use sourcemap_files::{Asked, is_regular, read_bytes, usage};
use sourcemap_words::{Outcome, failure_of};

/// A CRC-32, further by the eight bits of a byte.
fn next_crc(crc: u32, byte: u8) -> u32 {
    let mut crc = crc ^ u32::from(byte);
    for _ in 0..8 {
        let carry = if crc & 1 == 1 { 0xedb8_8320 } else { 0 };
        crc = crc >> 1 ^ carry;
    }
    crc
}

/// The end of the gzip file of a text: the text's CRC-32, and the lowest 32 bits of its length.
fn gzip_end(text: &str) -> [u8; 8] {
    let mut crc = u32::MAX;
    for byte in text.bytes() {
        crc = next_crc(crc, byte);
    }
    let [a, b, c, d] = (!crc).to_le_bytes();
    let [e, f, g, h, ..] = (text.len() as u64).to_le_bytes();
    [a, b, c, d, e, f, g, h]
}

/// How many bytes the gzip file beside a code with this text has.
pub fn gzip_len(asked: &Asked<'_, '_>, code: &str, text: &str) -> Outcome<usize> {
    let (rt, alloc) = (asked.rt, asked.alloc());
    if code == "-" {
        return Err(usage(rt, "--gzip reads the file beside a code: name the code"));
    }
    let name = format!(in alloc; "{code}.gz")?;
    if !is_regular(rt, name.as_str()) {
        return Err(failure_of(
            alloc,
            name.as_str(),
            "is not there: gzip -k makes it of the code",
        ));
    }
    let bytes = read_bytes(rt, name.as_str())?;
    let end = gzip_end(text);
    if bytes.as_slice().starts_with(&[0x1f, 0x8b]) && bytes.as_slice().ends_with(end.as_slice()) {
        return Ok(bytes.len());
    }
    Err(failure_of(
        alloc,
        name.as_str(),
        "is not of this code: gzip -kf makes it anew",
    ))
}

/// Divides a number of bytes in the proportion of others. Each share is rounded so that all of them make the number; if the others are 0, the
/// last share is the number.
pub fn divide(sizes: &mut [usize], bytes: usize) {
    let mut all = 0u128;
    for size in sizes.iter() {
        all = all.saturating_add(*size as u128);
    }
    let (mut before, mut given) = (0u128, 0u128);
    for size in sizes.iter_mut() {
        before = before.saturating_add(*size as u128);
        let end = before
            .saturating_mul(bytes as u128)
            .checked_div(all)
            .unwrap_or(0);
        *size = usize::try_from(end.saturating_sub(given)).unwrap_or(usize::MAX);
        given = end;
    }
    if let Some(last) = sizes.last_mut()
        && all == 0
    {
        *last = bytes;
    }
}
