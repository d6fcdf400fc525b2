//! How many candidates of a clause are true, and how many are false. An entry that is added to the
//! trail, or removed from it, changes them by one for each candidate of its variable.

ghost use Rattle.std.specs.Prelude.{◌≡◌, ◌+◌, ◌-◌};
ghost use Rattle.resolvo_decide.specs.CandidateCounts.{changed, one_more};

/// What an entry of the trail does to a candidate.
#[derive(Clone, Copy)]
pub enum CandidateChange {
    /// It makes the candidate true.
    MadeTrue,
    /// It makes the candidate false.
    MadeFalse,
    /// It is removed, and had made the candidate true.
    UndoneTrue,
    /// It is removed, and had made the candidate false.
    UndoneFalse,
}

/// The candidates of a clause under the trail.
#[derive(Clone, Copy)]
pub struct CandidateCount {
    /// How many candidates there are.
    pub total: usize,
    /// How many are true.
    pub trues: usize,
    /// How many are false.
    pub falses: usize,
    /// So many of the first ones are false.
    pub passed: usize,
}

impl CandidateCount {
    /// How many candidates are undecided.
    pub fn undecided(self) -> usize
        ensures { result ≡ self.total - (self.trues + self.falses) }
    {
        self.total
            .saturating_sub(self.trues)
            .saturating_sub(self.falses)
    }

    /// After a change of the candidate at this place.
    pub fn changed(self, change: CandidateChange, place: usize) -> CandidateCount
        ensures { result ≡ changed change place self }
    {
        let CandidateCount {
            total,
            trues,
            falses,
            passed,
        } = self;
        match change {
            CandidateChange::MadeTrue => CandidateCount {
                total,
                trues: one_more(total, trues),
                falses,
                passed,
            },
            CandidateChange::MadeFalse => CandidateCount {
                total,
                trues,
                falses: one_more(total, falses),
                passed,
            },
            CandidateChange::UndoneTrue => CandidateCount {
                total,
                trues: trues.saturating_sub(1),
                falses,
                passed,
            },
            CandidateChange::UndoneFalse => CandidateCount {
                total,
                trues,
                falses: falses.saturating_sub(1),
                passed: passed.min(place),
            },
        }
    }
}

/// One more, up to the total.
fn one_more(total: usize, count: usize) -> usize
    ensures { result ≡ one_more total count }
{
    if count < total { count + 1 } else { count }
}
