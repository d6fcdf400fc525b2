//! Atoms: what variables represent.
ghost use Rattle.std.specs.Prelude.{◌≡◌, ◌<◌, refl};
ghost use Rattle.std.proofs.lemmas.Bool.{and_parts, eqb-true};
ghost use Rattle.resolvo_state.specs.AtomLaws.{alone_atom, even_index, fourth_index, gate_index, indexed_atom, one_atom, one_requirement};
ghost use Rattle.resolvo_state.specs.Atoms.{kind_of};
ghost use Rattle.resolvo_state.specs.declared.atom.ProofAtom.TheVariants.{Gate};

use resolvo_pool_core::id::{Exact, VersionSetId};
use resolvo_pool_core::requirement::Requirement;
use resolvo_sat::state::VariableKind;

/// What a variable other than the root's represents.
#[derive(Clone, Copy, PartialEq, Eq, Hash, Debug)]
pub enum ProofAtom<N, S> {
    /// The solvable is chosen.
    Solvable(S),
    /// A candidate of the package is chosen.
    AtLeastOne(N),
    /// A chosen solvable has the requirement, without condition.
    Gate(Requirement),
    /// A candidate that is outside the version set is chosen.
    Outside(VersionSetId),
    /// A candidate that matches the version set is chosen. Its package is marked `many`.
    Matches(VersionSetId),
    /// A binary digit of the place of the package's chosen solvable, counted from the lowest.
    Bit(N, u32),
}

impl<N: Copy, S: Copy> ProofAtom<N, S> {
    /// The kind of its variable in the search.
    pub fn kind(self) -> VariableKind
        ensures { result ≡ kind_of self }
    {
        match self {
            ProofAtom::Solvable(_) => VariableKind::Solvable,
            _ => VariableKind::Helper,
        }
    }
}

impl<N: Exact, S: Exact> Exact for ProofAtom<N, S> {
    ghost indexed = { indexed_atom S.indexed N.indexed };

    ghost alone = { alone_atom S.indexed N.indexed S.alone N.alone };

    fn index(&self) -> Option<u32> {
        match self {
            ProofAtom::Solvable(solvable) => even_index(solvable.index()),
            ProofAtom::Gate(requirement) => gate_index(*requirement),
            ProofAtom::AtLeastOne(name) => fourth_index(name.index(), 3),
            _ => None,
        }
    }

    ghost exact = { one_atom Self.eq
        (λ s t h. S.exact s t h)
        (λ m n h. N.exact m n h)
        (λ q r h.
        one_requirement (λ a b. Self.eq (Gate a) (Gate b)) (λ v w e. eqb-true v.0 w.0 e)
        (λ v w e. eqb-true v.0 w.0 e) (λ v w. (refl, refl)) q r h)
        (λ v w h. eqb-true v.0 w.0 h)
        (λ v w h. eqb-true v.0 w.0 h)
        (λ m n a b h. (N.exact m n (and_parts _ _ h).0, eqb-true a b (and_parts _ _ h).1))
        (λ s. (λ n. refl, λ r. refl, λ v. refl, λ v. refl, λ n b. refl))
        (λ m. (λ s. refl, λ r. refl, λ v. refl, λ v. refl, λ n b. refl))
        (λ q. (λ s. refl, λ n. refl, λ v. refl, λ v. refl, λ n b. refl))
        (λ u. (λ s. refl, λ n. refl, λ r. refl, λ v. refl, λ n b. refl))
        (λ u. (λ s. refl, λ n. refl, λ r. refl, λ v. refl, λ n b. refl))
        (λ m a. (λ s. refl, λ n. refl, λ r. refl, λ v. refl, λ v. refl)) };
}

/// The index of a solvable's atom: it is even. One that is too large is none.
fn even_index(index: Option<u32>) -> Option<u32>
    ensures { result ≡ even_index index }
{
    match index {
        None => None,
        Some(index) => {
            if index < 1_073_741_824 {
                Some(2 * index)
            } else {
                None
            }
        }
    }
}

/// The index of an atom of another kind: every fourth from `first` on. One that is too large is
/// none.
fn fourth_index(index: Option<u32>, first: u32) -> Option<u32>
    requires { first < 4 }
    ensures { result ≡ fourth_index first index }
{
    match index {
        None => None,
        Some(index) => {
            if index < 1_073_741_824 {
                Some(4 * index + first)
            } else {
                None
            }
        }
    }
}

/// The index of a gate's atom.
fn gate_index(requirement: Requirement) -> Option<u32>
    ensures { result ≡ gate_index requirement }
{
    match requirement {
        Requirement::Single(version_set) => fourth_index(Some(version_set.0), 1),
        Requirement::Union(_) => None,
    }
}
