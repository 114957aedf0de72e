//! Changes of the map in a `LoadedMap`. Those of tokens take the index by original positions away.
ghost use Rattle.std.specs.Prelude.{◌≡◌, ◌≢◌, Some, IsUtf8, IfOk, IfErr, OnOk, OnErr, Ok, Err};
ghost use Rattle.std.specs.Prelude.{IsOk, true, false};
ghost use Rattle.oxc_sourcemap_c.specs.Words.{out_of_memory, rooted, IsNotText, IsNotTexts};
ghost use Rattle.oxc_sourcemap_c.specs.Words.{IsNotContents, AreTexts, sorted_map};
ghost use Rattle.oxc_sourcemap_c.specs.Words.{simplification, AreContents, known_texts};
ghost use Rattle.oxc_sourcemap_c.specs.Words.{lent_items, IsSimplifyError, IsUnsorted};
ghost use Rattle.oxc_sourcemap_c.specs.Words.{are_tokens_sorted};
ghost use Rattle.oxc_sourcemap_c.specs.Words.{CallError};

use crate::holding::held::LoadedMap;
use crate::numbers::call_error::CallError;
use crate::texts::lists::{contents_of, texts_of};
use crate::texts::utf8::text_of;
use oxc_sourcemap_tokens::PlanError;
use std::alloc::Global;

impl LoadedMap {
    /// Sets the name of the generated file. Fails with `NotUtf8`, or for want of memory.
    pub fn set_file(&mut self, alloc: Global, file: &[u8]) -> Result<(), CallError>
        ensures set { OnOk result (IsUtf8 file.now
            × (self.new ≡ record self.old { map = record self.old.map { file = Some file.now } })) }
        ensures error { IfErr result (λ r. (r ≢ out_of_memory) → IsNotText file.now r) }
        ensures sure { (r : CallError) → IsNotText file.now r → result ≡ Err r }
        ensures unchanged { OnErr result (self.new ≡ self.old) }
    {
        let file = text_of(file)?;
        self.map.set_file(alloc, file)?;
        Ok(())
    }

    /// Sets the source root. Fails with `NotUtf8`, or for want of memory.
    pub fn set_source_root(&mut self, alloc: Global, root: &[u8]) -> Result<(), CallError>
        ensures set { OnOk result (IsUtf8 root.now
            × (self.new ≡ record self.old {
              map = record self.old.map { source_root = Some root.now };
            })) }
        ensures error { IfErr result (λ r. (r ≢ out_of_memory) → IsNotText root.now r) }
        ensures sure { (r : CallError) → IsNotText root.now r → result ≡ Err r }
        ensures unchanged { OnErr result (self.new ≡ self.old) }
    {
        let root = text_of(root)?;
        self.map.set_source_root(alloc, root)?;
        Ok(())
    }

    /// Sets the debug id. Fails with `NotUtf8`, or for want of memory.
    pub fn set_debug_id(&mut self, alloc: Global, id: &[u8]) -> Result<(), CallError>
        ensures set { OnOk result (IsUtf8 id.now
            × (self.new ≡ record self.old {
              map = record self.old.map { debug_id = Some id.now };
            })) }
        ensures error { IfErr result (λ r. (r ≢ out_of_memory) → IsNotText id.now r) }
        ensures sure { (r : CallError) → IsNotText id.now r → result ≡ Err r }
        ensures unchanged { OnErr result (self.new ≡ self.old) }
    {
        let id = text_of(id)?;
        self.map.set_debug_id(alloc, id)?;
        Ok(())
    }

    /// Sets the ignore list. Its ids are not compared with the sources. Fails only for want of memory.
    pub fn set_ignore_list(&mut self, alloc: Global, ids: &[u32]) -> Result<(), CallError>
        ensures set { OnOk result (self.new
            ≡ record self.old { map = record self.old.map { ignore_list = Some ids.now } }) }
        ensures error { IfErr result (λ r. r ≡ out_of_memory) }
        ensures unchanged { OnErr result (self.new ≡ self.old) }
    {
        let mut list = Vec::new(alloc);
        list.extend_from_slice(ids)?;
        self.map.set_ignore_list(list);
        Ok(())
    }

    /// Sets the sources. Fails with `NotUtf8` for the first that is no text, or for want of memory.
    pub fn set_sources(&mut self, alloc: Global, sources: &[&[u8]]) -> Result<(), CallError>
        ensures set { OnOk result (AreTexts (lent_items sources.now)
            × (self.new ≡ record self.old {
              map = record self.old.map { sources = lent_items sources.now };
            })) }
        ensures error { IfErr result (λ r. (r ≢ out_of_memory)
            → IsNotTexts (lent_items sources.now) r) }
        ensures unchanged { OnErr result (self.new ≡ self.old) }
    {
        let texts = texts_of(alloc, sources)?;
        self.map.set_sources(alloc, texts.into_iter())?;
        Ok(())
    }

    /// Sets the contents; one whose flag is 0, or has no flag, is not known. Fails with `NotUtf8` for the first known one that is no text,
    /// or for want of memory.
    pub fn set_source_contents(
        &mut self,
        alloc: Global,
        contents: &[&[u8]],
        known: &[u8],
    ) -> Result<(), CallError>
        ensures set { OnOk result (AreContents (known_texts (lent_items contents.now) known.now)
            × (self.new ≡ record self.old {
              map = record self.old.map {
                source_contents = known_texts (lent_items contents.now) known.now;
              };
            })) }
        ensures error { IfErr result (λ r. (r ≢ out_of_memory)
            → IsNotContents (known_texts (lent_items contents.now) known.now) r) }
        ensures unchanged { OnErr result (self.new ≡ self.old) }
    {
        let texts = contents_of(alloc, contents, known)?;
        self.map.set_source_contents(alloc, texts)?;
        Ok(())
    }

    /// Puts the source root before each source, and takes it away. Fails only for want of memory.
    pub fn apply_source_root(&mut self, alloc: Global) -> Result<(), CallError>
        ensures rooted { OnOk result (self.new ≡ record self.old { map = rooted self.old.map }) }
        ensures error { IfErr result (λ r. r ≡ out_of_memory) }
        ensures unchanged { OnErr result (self.new ≡ self.old) }
    {
        self.map.apply_source_root(alloc)?;
        Ok(())
    }

    /// Sorts a clone, which replaces the map when all is done. A map that is sorted stays. Fails only for want of memory.
    pub fn sort(&mut self, alloc: Global) -> Result<(), CallError>
        ensures sorted { OnOk result ((self.new.map ≡ sorted_map self.old.map)
            × (self.new.has_order ≡ false)) }
        ensures no_memory { are_tokens_sorted self.old.map.tokens ≡ true → IsOk result }
        ensures error { IfErr result (λ r. r ≡ out_of_memory) }
        ensures unchanged { OnErr result (self.new ≡ self.old) }
    {
        if self.map.as_source_map().is_sorted() {
            self.order = None;
            return Ok(());
        }
        let mut map = self.map.clone(alloc)?;
        map.sort(alloc)?;
        *self = LoadedMap::new(alloc, map)?;
        Ok(())
    }

    /// Puts a map in the place of this one, which is dropped.
    fn replace(&mut self, made: LoadedMap)
        ensures { self.new ≡ made }
    {
        *self = made;
    }

    /// Simplifies a clone, which replaces the map when all is done. Fails with the errors of simplifying, or for want of memory.
    pub fn simplify(&mut self, alloc: Global) -> Result<(), CallError>
        ensures simplified { OnOk result ((simplification self.old.map ≡ Ok self.new.map)
            × (self.new.has_order ≡ false)) }
        ensures error { IfErr result (λ r. (r ≢ out_of_memory) → IsSimplifyError self.old.map r) }
        ensures sure { (r : CallError) → IsUnsorted self.old.map r → result ≡ Err r }
        ensures unchanged { OnErr result (self.new ≡ self.old) }
    {
        if !self.map.as_source_map().is_sorted() {
            return Err(CallError::Plan(PlanError::Unsorted));
        }
        let mut map = self.map.clone(alloc)?;
        map.simplify(alloc)?;
        let made = LoadedMap::new(alloc, map)?;
        self.replace(made);
        Ok(())
    }
}
