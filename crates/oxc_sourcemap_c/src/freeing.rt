//! Giving back what handles hold.
ghost use Rattle.std.specs.Prelude.{◌≡◌, None, map};

use crate::holding::Handle;
use std::alloc::Global;

/// Frees a map. The handle is then empty.
#[unsafe(no_mangle)]
pub extern "C" fn proved_free_map(alloc: Global, map: &mut Handle)
    ensures { map.new.held ≡ None }
{
    drop(map.take(alloc));
}

/// Frees a text. The handle is then empty.
#[unsafe(no_mangle)]
pub extern "C" fn proved_free_string(alloc: Global, string: &mut Handle)
    ensures { string.new.held ≡ None }
{
    drop(string.take(alloc));
}

/// Frees what was mended. The handle is then empty.
#[unsafe(no_mangle)]
pub extern "C" fn proved_free_mends(alloc: Global, mends: &mut Handle)
    ensures { mends.new.held ≡ None }
{
    drop(mends.take(alloc));
}

/// Frees a compiled map, but not the bytes that it was opened in. The handle is then empty.
#[unsafe(no_mangle)]
pub extern "C" fn proved_free_compiled(alloc: Global, compiled: &mut Handle)
    ensures { compiled.new.held ≡ None }
{
    drop(compiled.take(alloc));
}

/// Frees scopes. The handle is then empty.
#[unsafe(no_mangle)]
pub extern "C" fn proved_free_scopes(alloc: Global, scopes: &mut Handle)
    ensures { scopes.new.held ≡ None }
{
    drop(scopes.take(alloc));
}
