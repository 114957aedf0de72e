//! A boxed value as one word that C keeps.
ghost use Rattle.std.specs.Prelude.{◌≡◌, Option, None, Some, option_map};
ghost use Rattle.oxc_sourcemap_c.specs.declared.holding.held.Held.{Held};
ghost use Rattle.oxc_sourcemap_c.specs.Handles.{handle_owns, held_coded};

use crate::holding::held::Held;
use crate::holding::loose::Loose;
use std::alloc::Global;
use std::marker::Model;
use std::mem;
use std::ptr::null_mut;

/// An empty handle is a null pointer. C keeps it, and passes a pointer to it.
#[repr(C)]
#[derive(Drop)]
pub struct Handle {
    at: *mut (),
    alloc: Global,
    pub ghost held: { Option Held } by { held_coded },
}

impl Model for Handle {
    ghost also_owns = { λ h. handle_owns h.alloc h.at h.held };
}

impl Handle {
    fn empty(alloc: Global) -> Handle
        ensures { result.held ≡ None }
    {
        Handle {
            at: null_mut(),
            alloc,
        }
    }

    fn full(loose: Loose<Held, Global>) -> Handle
        ensures { result.held ≡ Some loose.value }
    {
        let Loose { at, alloc } = loose;
        Handle {
            at: at as *mut (),
            alloc,
        }
    }

    fn into_loose(self) -> Option<Loose<Held, Global>>
        ensures { option_map (λ l. l.value) result ≡ self.held }
    {
        let Handle { at, alloc } = self;
        if at.is_null() {
            None
        } else {
            Some(Loose {
                at: at as *mut Held,
                alloc,
            })
        }
    }

    /// Puts a box into this handle. What the handle held before is not freed.
    pub fn put(&mut self, held: Box<Held>)
        ensures { self.new.held ≡ Some held.value }
    {
        *self = Handle::full(Loose::of(held));
    }

    /// The box that this handle holds, taken out of it. The handle is then empty.
    pub fn take(&mut self, alloc: Global) -> Option<Box<Held>>
        ensures was { option_map (λ b. b.value) result ≡ self.old.held }
        ensures emptied { self.new.held ≡ None }
    {
        match mem::replace(self, Handle::empty(alloc)).into_loose() {
            Some(loose) => Some(loose.into_box()),
            None => None,
        }
    }
}

unsafe impl Send for Handle {}
