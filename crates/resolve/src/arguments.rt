//! The program's arguments, each as a text where it is UTF-8.
ghost use Rattle.std.specs.Prelude.{◌≡◌, IfOk, MatchOption, string_bytes};
ghost use Rattle.std.specs.Str.{IsUtf8};

use resolve_run::RunFault;
use std::alloc::Global;
use std::env::{Env, FillError};

/// The most bytes of an argument that are read. A longer one is no word of the usage line, and no
/// file is opened by such a name.
const MOST: usize = 4_096;

/// The arguments after the program's name. One that isn't UTF-8, or is too long for a path, is
/// `None`.
pub fn read_arguments(rt: &HostRuntime) -> Result<Vec<Option<String>>, RunFault> {
    let mut words = Vec::new(rt.alloc());
    let mut bytes = [0u8; MOST];
    for number in 1..usize::MAX {
        match rt.arg(number, &mut bytes) {
            Ok(length) => words.push(text_of(rt.alloc(), &bytes[..length])?)?,
            Err(FillError::TooLong) => words.push(None)?,
            Err(FillError::NotPresent) => break,
        }
    }
    Ok(words)
}

/// The bytes as a text, if they are UTF-8.
fn text_of(alloc: Global, bytes: &[u8]) -> Result<Option<String>, RunFault>
    ensures { IfOk result
        (λ t. MatchOption t (¬ (IsUtf8 bytes.now)) (λ s. string_bytes s ≡ bytes.now)) }
{
    let Ok(text) = str::from_utf8(bytes) else {
        return Ok(None);
    };
    Ok(Some(String::from_str(alloc, text)?))
}
