//! Hashes of bytes and of numbers, by which values are sorted or guessed. Whoever uses one compares
//! the values too. Used by `text_ids`, `key_index` and `unions`.

ghost use Rattle.std.specs.Prelude.{◌≡◌};
ghost use Rattle.resolvo_terms.specs.Hash.{few_of, last_of, mix, numbers_hash};

use crate::bytes::{eight_at, four_at};

/// A hash of bytes: of eight at a time as one number, then of the last ones, and of how many there
/// are.
#[tactic(auto, unfolding(crate::specs::Hash::numbers_hash))]
pub fn hash_of_all(bytes: &[u8]) -> usize
    ensures { result ≡ numbers_hash bytes.now }
{
    let eights = bytes.len() / 8;
    let mut hash = 0;
    for eight in 0..eights {
        hash = mixed(hash, eight_at(bytes, eight * 8));
    }
    let whole = mixed(hash, last_of(bytes));
    mixed(whole, bytes.len())
}

/// The last eight bytes as a number. Of less than eight, all of them.
fn last_of(bytes: &[u8]) -> usize
    ensures { result ≡ last_of bytes.now }
{
    let length = bytes.len();
    if length >= 8 {
        return eight_at(bytes, length - 8);
    }
    if length >= 4 {
        return four_at(bytes, 0) + four_at(bytes, length - 4) * 4_294_967_296;
    }
    few_of(bytes)
}

/// The first byte, the one in the middle and the last one as a number: of less than four bytes, all.
fn few_of(bytes: &[u8]) -> usize
    ensures { result ≡ few_of bytes.now }
{
    let length = bytes.len();
    if length == 0 {
        return 0;
    }
    let low = bytes[0] as usize + bytes[length / 2] as usize * 256;
    low + bytes[length - 1] as usize * 65_536
}

/// The hash of what a hash is of, and one number more.
pub fn mixed(hash: usize, number: usize) -> usize
    ensures { result ≡ mix hash number }
{
    let product = (hash ^ number).wrapping_mul(0x9E37_79B9_7F4A_7C15);
    product ^ (product >> 32)
}
