//! What a call borrows from C for reading.
ghost use Rattle.std.specs.Prelude.{Option, List, ℕ};
ghost use Rattle.oxc_sourcemap_c.specs.declared.holding.held.Held.{Held};
ghost use Rattle.oxc_sourcemap_c.specs.Handles.{held_coded};
ghost use Rattle.oxc_sourcemap_c.specs.Lent.{lent_owns};

use crate::holding::held::{Held, LoadedMap};
use crate::numbers::call_error::CallError;
use oxc_sourcemap_compiled::CompiledMap;
use oxc_sourcemap_found::Mend;
use oxc_sourcemap_map::OwnedSourceMap;
use oxc_sourcemap_scopes::Scopes;
use std::marker::Model;
use std::ops::Deref;

/// What a call borrows from C: null, or a shared borrow of what a handle holds, for the lifetime `life`.
#[repr(C)]
#[derive(Drop)]
pub struct Lent {
    at: *const (),
    pub ghost life: { List ℕ },
    pub ghost held: { Option Held } by { held_coded },
}

impl Model for Lent {
    ghost also_owns = { λ l. lent_owns l.life l.at l.held };
}

impl Lent {
    ghost use Rattle.std.specs.Prelude.{◌≡◌, option_map, Err, MatchOption, MatchResult};
    ghost use Rattle.oxc_sourcemap_c.specs.Holding.{held_map, held_loaded, held_text};
    ghost use Rattle.oxc_sourcemap_c.specs.Holding.{held_mends, held_compiled, held_scopes};
    ghost use Rattle.oxc_sourcemap_c.specs.declared.numbers.call_error.CallError.TheVariants.{NullHandle};

    /// What is borrowed. None for null.
    pub fn get(&self) -> Option<&Held>
        ensures { option_map (λ r. r.now) result ≡ self.now.held }
    {
        let at = self.at;
        if at.is_null() {
            None
        } else {
            Some(unsafe { &*(at as *const Held) })
        }
    }

    /// What is borrowed, for as long as is asked for: the share of the token of its lifetime is kept for so long. None for null.
    pub fn into_held<'c>(self) -> Option<&'c Held>
        ensures { option_map (λ r. r.now) result ≡ self.held }
    {
        let Lent { at } = self;
        if at.is_null() {
            None
        } else {
            Some(unsafe { &*(at as *const Held) })
        }
    }

    /// The map that is borrowed, as by `into_held`. Fails with `NullHandle` if there is none.
    #[inline(always)]
    pub fn into_map<'c>(self) -> Result<&'c LoadedMap, CallError>
        ensures map { MatchOption (held_map self.held) (result ≡ Err NullHandle)
            (λ m. MatchResult result (λ loaded. loaded.now.map ≡ m) (λ _. ⊥)) }
        ensures loaded { MatchOption (held_loaded self.held) (result ≡ Err NullHandle)
            (λ l. MatchResult result (λ loaded. loaded.now ≡ l) (λ _. ⊥)) }
    {
        match self.into_held() {
            Some(Held::Map(loaded)) => Ok(loaded),
            Some(Held::Shared(shared)) => Ok(shared.deref()),
            _ => Err(CallError::NullHandle),
        }
    }

    /// The bytes of the text that is borrowed, or those of a compiled map, as by `into_held`. Fails with `NullHandle` if there are none.
    pub fn into_text<'c>(self) -> Result<&'c [u8], CallError>
        ensures { MatchOption (held_text self.held) (result ≡ Err NullHandle)
            (λ t. MatchResult result (λ text. text.now ≡ t) (λ _. ⊥)) }
    {
        match self.into_held() {
            Some(Held::Written(text)) => Ok(text.as_bytes()),
            Some(Held::Bytes(bytes)) => Ok(bytes.as_slice()),
            _ => Err(CallError::NullHandle),
        }
    }

    /// The compiled map that is borrowed, as by `into_held`. Fails with `NullHandle` if there is none.
    #[inline(always)]
    pub fn into_compiled<'c>(self) -> Result<&'c CompiledMap<'static>, CallError>
        ensures { MatchOption (held_compiled self.held) (result ≡ Err NullHandle)
            (λ bytes. MatchResult result (λ map. map.now ≡ bytes) (λ _. ⊥)) }
    {
        match self.into_held() {
            Some(Held::Compiled(map)) => Ok(map),
            _ => Err(CallError::NullHandle),
        }
    }

    /// The compiled map that is borrowed. Fails with `NullHandle` if there is none.
    pub fn compiled(&self) -> Result<&CompiledMap<'static>, CallError>
        ensures { MatchOption (held_compiled self.now.held) (result ≡ Err NullHandle)
            (λ bytes. MatchResult result (λ map. map.now ≡ bytes) (λ _. ⊥)) }
    {
        match self.get() {
            Some(Held::Compiled(map)) => Ok(map),
            _ => Err(CallError::NullHandle),
        }
    }

    /// The map that is borrowed. Fails with `NullHandle` if there is none.
    pub fn map(&self) -> Result<&LoadedMap, CallError>
        ensures map { MatchOption (held_map self.now.held) (result ≡ Err NullHandle)
            (λ m. MatchResult result (λ loaded. loaded.now.map ≡ m) (λ _. ⊥)) }
        ensures loaded { MatchOption (held_loaded self.now.held) (result ≡ Err NullHandle)
            (λ l. MatchResult result (λ loaded. loaded.now ≡ l) (λ _. ⊥)) }
    {
        match self.get() {
            Some(Held::Map(loaded)) => Ok(loaded),
            Some(Held::Shared(shared)) => Ok(shared.deref()),
            _ => Err(CallError::NullHandle),
        }
    }

    /// The map that is borrowed, without its indices. Fails with `NullHandle` if there is none.
    pub fn source_map(&self) -> Result<&OwnedSourceMap, CallError>
        ensures { MatchOption (held_map self.now.held) (result ≡ Err NullHandle)
            (λ m. MatchResult result (λ map. map.now ≡ m) (λ _. ⊥)) }
    {
        Ok(self.map()?.map())
    }

    /// The mends that are borrowed. Fails with `NullHandle` if there are none.
    pub fn mends(&self) -> Result<&[Mend], CallError>
        ensures { MatchOption (held_mends self.now.held) (result ≡ Err NullHandle)
            (λ ms. MatchResult result (λ mends. mends.now ≡ ms) (λ _. ⊥)) }
    {
        match self.get() {
            Some(Held::Mended(mends)) => Ok(mends.as_slice()),
            _ => Err(CallError::NullHandle),
        }
    }

    /// The scopes that are borrowed. Fails with `NullHandle` if there are none.
    pub fn scopes(&self) -> Result<&Scopes, CallError>
        ensures { MatchOption (held_scopes self.now.held) (result ≡ Err NullHandle)
            (λ s. MatchResult result (λ scopes. scopes.now ≡ s) (λ _. ⊥)) }
    {
        match self.get() {
            Some(Held::Scopes(scopes)) => Ok(scopes),
            _ => Err(CallError::NullHandle),
        }
    }
}

// Several threads may read a `Held`.
unsafe impl Send for Lent {}

unsafe impl Sync for Lent {}
