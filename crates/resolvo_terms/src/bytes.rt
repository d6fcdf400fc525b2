//! Bytes, four or eight of them at once as a number. Used by `hash` and `text_ids`.

ghost use Rattle.std.specs.Prelude.{◌≡◌, ◌<◌, ◌≤◌, ◌+◌, length};
ghost use Rattle.std.specs.Str.{bytes_eq};
ghost use Rattle.resolvo_terms.specs.Hash.{eight_at, four_at};

/// Whether two lists of bytes are the same.
pub fn same_bytes(first: &[u8], other: &[u8]) -> bool
    ensures { result ≡ bytes_eq first.now other.now }
{
    let length = first.len();
    if length != other.len() {
        return false;
    }
    if length >= 8 {
        return same_eights(first, other);
    }
    if length >= 4 {
        return same_fours(first, other);
    }
    first == other
}

/// Whether eight bytes or more are the same.
#[inline(always)]
fn same_eights(first: &[u8], other: &[u8]) -> bool
    requires long { 8 ≤ length first.now }
    requires same { length other.now ≡ length first.now }
    ensures { result ≡ bytes_eq first.now other.now }
{
    let last = first.len() - 8;
    for eight in 0..(last + 7) / 8 {
        if eight_at(first, eight * 8) != eight_at(other, eight * 8) {
            return false;
        }
    }
    eight_at(first, last) == eight_at(other, last)
}

/// Whether four to seven bytes are the same.
#[inline(always)]
fn same_fours(first: &[u8], other: &[u8]) -> bool
    requires long { 4 ≤ length first.now }
    requires short { length first.now < 8 }
    requires same { length other.now ≡ length first.now }
    ensures { result ≡ bytes_eq first.now other.now }
{
    let last = first.len() - 4;
    if four_at(first, 0) != four_at(other, 0) {
        return false;
    }
    four_at(first, last) == four_at(other, last)
}

/// Eight bytes from a place on, as a number.
pub fn eight_at(bytes: &[u8], at: usize) -> usize
    requires { at + 8 ≤ length bytes.now }
    ensures { result ≡ eight_at bytes.now at }
{
    four_at(bytes, at) + four_at(bytes, at + 4) * 4_294_967_296
}

/// Four bytes from a place on, as a number.
pub fn four_at(bytes: &[u8], at: usize) -> usize
    requires { at + 4 ≤ length bytes.now }
    ensures number { result ≡ four_at bytes.now at }
    ensures small { result < 4294967296 }
{
    let low = bytes[at] as usize + bytes[at + 1] as usize * 256;
    let high = bytes[at + 2] as usize + bytes[at + 3] as usize * 256;
    low + high * 65_536
}
