//! What takes the lines of a message: a list keeps them, and a `Count` adds up their bytes.
ghost use Rattle.std.specs.Prelude.{◌≡◌, ◌++◌, [], true, OnOk, IsOkUnless};
ghost use Rattle.resolvo_pool_core.specs.declared.want.Want.TheVariants.{Memory};
ghost use Rattle.resolvo_graph.specs.Sink.{Adds, Stays};

use crate::display_line::MessageLine;
use resolvo_pool_core::want::R;
use std::vec::Vec;

/// What takes lines, some at a time.
pub(crate) trait LineSink<S: Copy> {
    ghost use Rattle.std.specs.Prelude.{List};
    ghost use Rattle.resolvo_graph.specs.declared.display_line.MessageLine.{MessageLine};

    /// Its state before some lines, these lines, and its state after them.
    ghost took: { Self → List (MessageLine S) → Self → Type 0 };

    /// Takes these lines, and leaves none.
    fn take(&mut self, lines: &mut Vec<MessageLine<S>>) -> R<()>
        ensures took { OnOk result (Adds took self.old lines.old.items self.new) }
        ensures left { OnOk result (lines.new.items ≡ []) }
        ensures refusal { IsOkUnless result Memory };

    /// Whether no further line changes it.
    fn is_full(&self) -> bool
        ensures { result ≡ true → Stays took self.now };
}

impl<S: Copy> LineSink<S> for Vec<MessageLine<S>> {
    ghost took = { λ start lines end. end.items ≡ start.items ++ lines };

    fn take(&mut self, lines: &mut Vec<MessageLine<S>>) -> R<()> {
        self.append(lines)?;
        Ok(())
    }

    fn is_full(&self) -> bool {
        false
    }
}
