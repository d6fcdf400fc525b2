//! Places that take four bytes. Used by `text_list`, `set_lists` and the lines of a catalogue.

ghost use Rattle.std.specs.Prelude.{◌≡◌, IfOk};

use std::alloc::AllocError;

/// A count as a place. A list has fewer than 2^32 elements, and refuses one more as it does for want of
/// memory.
pub fn place_of(count: usize) -> Result<u32, AllocError>
    ensures { IfOk result (λ place. place ≡ count) }
{
    if count >= 4_294_967_296 {
        return Err(AllocError);
    }
    Ok(count as u32)
}
