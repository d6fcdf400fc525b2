//! Final analysis: why a variable is false before its turn, by a walk back along the trail from its
//! reason.
ghost use Rattle.std.specs.Prelude.{◌≡◌, ◌<◌, ◌+◌, ◌∷◌, length, false, IfOk, IsOkUnless};
ghost use Rattle.resolvo_pool_core.specs.declared.want.Want.TheVariants.{Memory};
ghost use Rattle.resolvo_store_core.specs.Signed.{has};
ghost use Rattle.resolvo_store_core.specs.Clauses.{no};
ghost use Rattle.resolvo_sat.specs.Entries.{before, literal_of, made_true, top_level};
ghost use Rattle.resolvo_sat.specs.State.{IsState, history};
ghost use Rattle.resolvo_sat.specs.Analysis.{IsReason, IsRefuted};

use crate::analyze::{FinalConflict, literal_made_true, mark_seen, with_first_last};
use crate::marks::Marks;
use crate::state::SatState;
use resolvo_pool_core::id::VariableId;
use resolvo_pool_core::want::R;
use resolvo_store_core::decision::Entry;
use std::alloc::Global;

impl SatState {
    /// Why a variable is false, before a turn has assigned anything. It is a clause that denies the
    /// variable and decisions of earlier turns, with its antecedents in the order of a RUP check.
    /// None where the variable isn't false.
    pub fn analyze_final(&self, alloc: Global, variable: VariableId) -> R<Option<FinalConflict>>
        requires state { IsState self.now }
        requires above { top_level (history self.now) < self.now.base_level }
        ensures refuted { IfOk result (IsRefuted self.now variable) }
        ensures refusal { IsOkUnless result Memory }
    {
        if !self.is_denied(variable) {
            return Ok(None);
        }
        let mut place = self.tracker.stack().len();
        while place > 0 {
            place -= 1;
            let entry = self.entry(place);
            if entry.decision.variable == variable && !entry.decision.value {
                let reason = self.reason(alloc, place, entry)?;
                return Ok(Some(reason));
            }
        }
        Ok(None)
    }

    /// Whether a variable is false.
    fn is_denied(&self, variable: VariableId) -> bool
        requires { IsState self.now }
        ensures { result ≡ has (made_true (history self.now)) (no variable) }
    {
        match self.tracker.map().value(variable) {
            Some(value) => !value,
            None => false,
        }
    }

    /// Walks back along the trail from the reason of an entry. Each marked entry is resolved with
    /// its reason, except decisions, which the clause denies. The entry's own literal comes last.
    fn reason(&self, alloc: Global, place: usize, entry: Entry) -> R<FinalConflict>
        requires state { IsState self.now }
        requires above { top_level (history self.now) < self.now.base_level }
        requires in_range { place < length self.now.tracker.trail }
        requires next { before self.now.tracker.trail (place + 1) ≡ entry ∷ before self.now.tracker.trail place }
        requires fell { entry.decision.value ≡ false }
        // After an answer.
        ensures reason { IfOk result (λ r. IsReason self.now (literal_of entry) r.literals.items r.causes.items) }
        // After a refusal.
        ensures refusal { IsOkUnless result Memory }
    {
        let mut seen = Marks::new(alloc);
        let mut met = Vec::new(alloc);
        let values = self.tracker.map();
        let reason = self.literals(entry.decision.derived_from);
        // The entry's own variable is among those of its reason.
        let first = mark_seen(&mut seen, &mut met, reason.0, reason.1, values, 0)?;
        let begun = first.passed();
        let mut marked = begun;
        let mut causes = Vec::new(alloc);
        causes.push(entry.decision.derived_from)?;
        let mut kept = Vec::new(alloc);
        kept.push(literal_made_true(entry))?;
        let mut at = place;
        while at > 0 && marked.all > 0 {
            at -= 1;
            let earlier = self.entry(at);
            if seen.contains(earlier.decision.variable) {
                marked = marked.passed();
                if self.is_decision(at, earlier) {
                    kept.push(literal_made_true(earlier).negate())?;
                } else {
                    causes.push(earlier.decision.derived_from)?;
                    let reason = self.literals(earlier.decision.derived_from);
                    let more = mark_seen(&mut seen, &mut met, reason.0, reason.1, values, 0)?;
                    marked = marked.plus(more);
                }
            }
        }
        causes.reverse();
        Ok(FinalConflict {
            literals: with_first_last(kept)?,
            causes,
        })
    }
}
