//! What a handle holds may pass to another thread, and may be read by several.
use crate::holding::handle::Handle;
use crate::holding::held::Held;
use crate::holding::lent::Lent;

fn is_sent<T: Send>() {}

fn is_shared<T: Sync>() {}

fn handles_are_sent() {
    is_sent::<Held>();
    is_shared::<Held>();
    is_sent::<Handle>();
    is_sent::<Lent>();
}
