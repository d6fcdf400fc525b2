//! The scores of packages, with an upper bound that is bumped and decays as they do. It is 0 until
//! a conflict bumps a score, so the first undecided clause that offers a decision is the pick.
ghost use Rattle.std.specs.Prelude.{◌≡◌, ◌≤◌, ◌*◌, ◌/◌, nat_lt, IsOkUnless};
ghost use Rattle.std.specs.List.{filter};
ghost use Rattle.resolvo_pool_core.specs.declared.want.Want.TheVariants.{Memory};
ghost use Rattle.resolvo_decide.specs.HotNames.{AreHot};

use resolvo_pool_core::id::Exact;
use resolvo_pool_core::id_map::ScoreMap;
use resolvo_pool_core::want::R;
use std::alloc::Global;

/// The scores of packages.
#[derive(Drop)]
pub struct Scores<N: Copy + Exact, C: ScoreMap<N>> {
    map: C,
    /// The upper bound of the scores.
    most: u64,
    /// The packages with a score above 0.
    hot: Vec<N>,
    ghost bounded: { (name : N) → C.score_of map name ≤ most },
    ghost are_hot: { AreHot (C.score_of map) hot.items },
}

impl<N: Copy + Exact, C: ScoreMap<N>> Scores<N, C> {
    /// All scores are 0.
    pub fn new(alloc: Global) -> Scores<N, C>
        ensures { result.most ≡ 0 }
    {
        Scores {
            map: <C as ScoreMap<N>>::new(alloc),
            most: 0,
            hot: Vec::new(alloc),
        }
    }

    /// The scores, without their bound.
    pub fn map(&self) -> &C
        ensures { result.now ≡ self.now.map }
    {
        &self.map
    }

    /// The upper bound of the scores.
    pub fn most(&self) -> u64
        ensures most { result ≡ self.now.most }
        ensures bounded { (name : N) → C.score_of self.now.map name ≤ result }
    {
        self.most
    }

    /// The packages with a score above 0.
    pub fn hot(&self) -> &[N]
        ensures { AreHot (C.score_of self.now.map) result.now }
    {
        self.hot.as_slice()
    }

    /// Bumps the score of a package, to the highest number at most.
    pub fn bump(&mut self, name: N, added: u64) -> R<()>
        ensures { IsOkUnless result Memory }
    {
        let score = self.map.get(name).saturating_add(added);
        self.raise_bound(score);
        self.raise(name, score)?;
        Ok(())
    }

    /// Raises the upper bound to this score.
    fn raise_bound(&mut self, score: u64)
        ensures bound { score ≤ self.new.most }
        ensures map { self.new.map ≡ self.old.map }
    {
        if self.most < score {
            self.most = score;
        }
    }

    /// Raises the score of a package.
    fn raise(&mut self, name: N, score: u64) -> R<()>
        requires raised { C.score_of self.old.map name ≤ score }
        requires bounded { score ≤ self.old.most }
        ensures { IsOkUnless result Memory }
    {
        let before = self.map.get(name);
        self.hot.reserve(1)?;
        self.map.set(name, score)?;
        if before == 0 && score > 0 {
            self.hot.push_reserved(name);
        }
        Ok(())
    }

    /// Decays each score to this number of millionths.
    pub fn decay(&mut self, per_million: u64)
        requires { per_million ≤ 1000000 }
    {
        self.map.scale(per_million);
        self.most = scaled(self.most, per_million);
        keep_scored(&mut self.hot, &self.map);
    }
}

/// Drops the names with score 0.
fn keep_scored<N: Copy + Exact, C: ScoreMap<N>>(names: &mut Vec<N>, map: &C)
    ensures { names.new.items
        ≡ filter (λ name. nat_lt 0 (C.score_of map.now name)) names.old.items }
{
    names.retain(|name| map.get(*name) > 0);
}

/// So many millionths of a score, rounded down.
fn scaled(score: u64, per_million: u64) -> u64
    requires { per_million ≤ 1000000 }
    ensures { result ≡ (score * per_million) / 1000000 }
{
    let product = u128::from(score) * u128::from(per_million);
    (product / 1_000_000) as u64
}
