//! Bytes as texts.
ghost use Rattle.std.specs.Prelude.{◌≡◌, IfOk, IfErr, IsUtf8};
ghost use Rattle.oxc_sourcemap_c.specs.Words.{IsNotText};

use crate::numbers::call_error::CallError;

/// Bytes as a text. Fails with `NotUtf8` if they are not UTF-8.
pub fn text_of(bytes: &[u8]) -> Result<&str, CallError>
    ensures text { IfOk result (λ text. (text.now ≡ bytes.now) × IsUtf8 bytes.now) }
    ensures error { IfErr result (IsNotText bytes.now) }
{
    match std::str::from_utf8(bytes) {
        Ok(text) => Ok(text),
        Err(error) => Err(CallError::NotUtf8(error.valid_up_to())),
    }
}
