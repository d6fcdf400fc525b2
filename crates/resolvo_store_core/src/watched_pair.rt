//! The watched literals of a clause, if it has any, in eight bytes.
ghost use Rattle.std.specs.Prelude.{◌≡◌, false, IfSome};
ghost use Rattle.resolvo_store_core.specs.Signed.{same_literal};

use crate::literal::Literal;
use crate::watched_literals::WatchedLiterals;
use resolvo_pool_core::id::VariableId;
use std::marker::Model;

/// The two literals that a clause watches, or none.
/// Its model is the optional two. They are kept without a tag, since there is one for each clause.
#[derive(Clone, Copy, Debug)]
pub struct WatchedPair {
    /// It differs from the second one. Where there are none, both are the first variable.
    first: Literal,
    second: Literal,
}

impl Model for WatchedPair {
    ghost use Rattle.std.specs.Prelude.{Option};
    ghost use Rattle.resolvo_store_core.specs.Pairs.{pair_in, first_in, second_in, IsKeptPair};
    ghost use Rattle.resolvo_store_core.specs.PairLaws.{pair_round_trip};
    ghost use Rattle.resolvo_store_core.specs.declared.watched_literals.WatchedLiterals.{WatchedLiterals};

    ghost Value = { Option WatchedLiterals };

    ghost view = { λ p. pair_in p.first p.second };

    ghost invariant = { λ p. IsKeptPair p.first p.second };

    ghost inverse = { λ o. record { first = first_in o; second = second_in o } };

    ghost inverse_ok = { λ p kept. λ i. record {
      first = (pair_round_trip p.first p.second kept).0 i;
      second = (pair_round_trip p.first p.second kept).1 i;
    } };
}

impl WatchedPair {
    /// The literals that a clause watches, which differ; or none.
    #[inline(always)]
    pub fn of(watched: Option<WatchedLiterals>) -> WatchedPair
        requires { IfSome watched (λ p. same_literal p.first p.second ≡ false) }
        ensures { result ≡ watched }
    {
        match watched {
            Some(WatchedLiterals { first, second }) => WatchedPair { first, second },
            None => WatchedPair {
                first: Literal::new(VariableId(0), false),
                second: Literal::new(VariableId(0), false),
            },
        }
    }

    /// The literals that a clause watches, if there are any.
    #[inline(always)]
    pub fn get(self) -> Option<WatchedLiterals>
        ensures { result ≡ self }
    {
        if self.first == self.second {
            None
        } else {
            Some(WatchedLiterals {
                first: self.first,
                second: self.second,
            })
        }
    }
}
