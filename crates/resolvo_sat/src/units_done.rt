//! Notes of the unit clauses that are true. A backjump ends those that it may make false.
ghost use Rattle.std.specs.Prelude.{◌≡◌, ◌-◌, length, slice_get, IfOk, IsOkUnless};
ghost use Rattle.resolvo_pool_core.specs.declared.want.Want.TheVariants.{Memory};
ghost use Rattle.resolvo_sat.specs.UnitsDone.{DropsDone, IsLastDone, NotesDone};

use crate::watch_lists::{UnitsDone, WatchLists};
use resolvo_pool_core::want::R;

impl WatchLists {
    /// The last note that holds where so many entries are propagated. Later ones are dropped.
    pub(crate) fn last_done(&mut self, propagated: usize) -> UnitsDone
        ensures dropped { DropsDone self.old self.new }
        ensures last { IsLastDone propagated self.new.units_done.items result }
    {
        while let Some(done) = self.newest_done() {
            if done.entries <= propagated {
                return done;
            }
            self.units_done.pop();
        }
        UnitsDone {
            entries: 0,
            assertions: 0,
            learnt: 0,
        }
    }

    /// The newest note.
    fn newest_done(&self) -> Option<UnitsDone>
        ensures { result
            ≡ slice_get self.now.units_done.items (length self.now.units_done.items - 1) }
    {
        self.units_done.as_slice().last().copied()
    }

    /// Notes that this many entries make all unit clauses true, if the last note has fewer.
    pub(crate) fn note_done(&mut self, entries: usize, last: UnitsDone) -> R<()>
        ensures noted { IfOk result (λ _. NotesDone entries self.old self.new) }
        ensures refusal { IsOkUnless result Memory }
    {
        let assertions = self.assertions.len();
        let learnt = self.learnt.len();
        if last.assertions < assertions || last.learnt < learnt {
            self.units_done.push(UnitsDone {
                entries,
                assertions,
                learnt,
            })?;
        }
        Ok(())
    }
}
