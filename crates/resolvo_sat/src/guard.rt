//! The level of the true literals that guard false ones. A true literal at no higher level than the
//! false one beside it stays assigned as long as that one. A clause that was added late may have a
//! guard at a higher level, so the highest such level is recorded. A jump to it, or above it,
//! unassigns no guard without its false literal.
ghost use Rattle.std.specs.Prelude.{◌≡◌, true};
ghost use Rattle.resolvo_store_core.specs.Signed.{has};
ghost use Rattle.resolvo_sat.specs.Entries.{made_true};
ghost use Rattle.resolvo_sat.specs.State.{IsState, history};
ghost use Rattle.resolvo_sat.specs.Propagation.{RecordsGuard};

use crate::state::SatState;
use resolvo_store_core::literal::Literal;

impl SatState {
    /// Records the level of a true literal that guards a false one of a lower level.
    pub(crate) fn record_guard(&mut self, fallen: Literal, guard: Literal)
        requires state { IsState self.old }
        requires present { has (made_true (history self.old)) guard ≡ true }
        ensures { RecordsGuard fallen guard self.old self.new }
    {
        let level = self.tracker.level(guard.variable());
        if self.guard_level < level && self.tracker.level(fallen.variable()) < level {
            self.guard_level = level;
        }
    }
}
