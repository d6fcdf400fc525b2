//! The bytes of lines, counted down from a bound. No byte is kept, and no line for longer than
//! it takes to count it.
ghost use Rattle.std.specs.Prelude.{◌≡◌, ◌-◌, length, IfOk, IfSome, IsOkUnless};
ghost use Rattle.resolvo_pool_core.specs.declared.want.Want.TheVariants.{Memory};
ghost use Rattle.resolvo_graph.specs.Message.{text_of};
ghost use Rattle.resolvo_graph.specs.Words.{meaning_by};

use crate::display_line::MessageLine;
use crate::display_unsat::DisplayUnsat;
use crate::sink::LineSink;
use resolvo_pool_core::provider::Interner;
use resolvo_pool_core::want::{R, Want};
use std::fmt;
use std::fmt::Write;

/// A writer that keeps no byte, and only how many more there may be.
#[derive(Drop)]
struct Room {
    left: u64,
}

impl fmt::Write for Room {
    ghost write_str_gives = { λ s bs t. t.left ≡ s.left - length bs };

    fn write_str(&mut self, s: &str) -> fmt::Result {
        self.left = self.left.saturating_sub(s.as_bytes().len() as u64);
        Ok(())
    }
}

/// How many bytes more lines may have.
#[derive(Drop)]
pub(crate) struct Count<'a, I: Interner> {
    /// The lines that were counted last.
    pub(crate) page: DisplayUnsat<'a, I>,
    pub(crate) left: u64,
}

impl<I: Interner> LineSink<I::SolvableId> for Count<'_, I> {
    ghost took = { λ start lines end.
        (end.page.interner.now ≡ start.page.interner.now)
        × (end.left
        ≡ start.left - length
        (text_of
        (meaning_by I.Interner start.page.interner.now)
        lines)) };

    fn take(&mut self, lines: &mut Vec<MessageLine<I::SolvableId>>) -> R<()> {
        self.page.lines.clear();
        self.page.lines.append(lines)?;
        self.left = left_after(self.left, &self.page)?;
        Ok(())
    }

    fn is_full(&self) -> bool {
        self.left == 0
    }
}

/// How many bytes more there may be after the text of a value.
fn left_after<D: fmt::Display>(left: u64, value: &D) -> R<u64>
    ensures left { IfOk result
        (λ n. IfSome (D.output value.now) (λ text. n ≡ left - length text)) }
    ensures refusal { IsOkUnless result Memory }
{
    let mut room = Room { left };
    match room.write(value) {
        Ok(()) => Ok(room.left),
        Err(_) => Err(Want::Memory),
    }
}
