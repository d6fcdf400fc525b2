//! The result of a call beside the bytes in the caller's buffer.

ghost use Rattle.resolve_c.specs.CallResult.{Leaves};

/// How a call ended, and how long its text is. C knows it as `resolve_result`.
#[repr(C)]
#[derive(Clone, Copy)]
pub struct CallResult {
    pub ending: u32,
    pub length: u64,
}

/// Writes as much of the text as fits into the caller's buffer, and nothing else there.
pub(crate) fn write_text(ending: u32, text: &[u8], room: &mut [u8]) -> CallResult
    ensures { Leaves ending text.now room.old room.new result }
{
    let count = text.len().min(room.len());
    room[..count].copy_from_slice(&text[..count]);
    CallResult {
        ending,
        length: text.len() as u64,
    }
}
