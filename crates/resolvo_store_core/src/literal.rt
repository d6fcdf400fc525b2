//! A literal: a variable or its negation.
//! Its model is the variable with the sign. It is kept as its index, since clauses, watches and learnt
//! lists are made of literals.
ghost use Rattle.std.specs.Prelude.{◌≡◌, ◌<◌, ℕ, Bool, not};
ghost use Rattle.resolvo_pool_core.specs.declared.id.VariableId.{VariableId};
ghost use Rattle.resolvo_store_core.specs.Signed.{Signed, negation, value_under, is_false, is_true, is_open, index_in, literal_at};
ghost use Rattle.resolvo_store_core.specs.Clauses.{is_in_range};
ghost use Rattle.resolvo_store_core.specs.Values.{value_at};
ghost use Rattle.resolvo_store_core.specs.SignLaws.{index_round_trip, index_distinct, same_is_index};

use crate::decision_map::DecisionMap;
use resolvo_pool_core::id::{DenseIndex, VariableId};
use std::marker::Model;

/// A variable, or its negation.
#[derive(Clone, Copy, Debug)]
pub struct Literal {
    /// Twice the variable's number, and one more for a negation.
    index: u32,
}

impl Model for Literal {
    ghost use Rattle.resolvo_store_core.specs.Signed.{Signed, index_in, literal_at};
    ghost use Rattle.resolvo_store_core.specs.SignLaws.{index_round_trip};

    ghost Value = { Signed };

    ghost view = { λ l. literal_at l.index };

    ghost inverse = { λ l. record { index = index_in l } };

    ghost inverse_ok = { λ a _. λ i. record { index = index_round_trip a.index i } };
}

impl PartialEq for Literal {
    ghost use Rattle.resolvo_store_core.specs.Signed.{same_literal};
    ghost use Rattle.std.specs.Cmp.{partial_equiv_from_equiv};
    ghost use Rattle.resolvo_store_core.specs.SignLaws.{same_literal_laws};

    ghost eq = { same_literal };

    ghost laws = { partial_equiv_from_equiv same_literal_laws };

    fn eq(&self, other: &Literal) -> bool {
        self.index == other.index
    }
}

impl Eq for Literal {
    ghost use Rattle.resolvo_store_core.specs.SignLaws.{same_literal_laws};

    ghost laws = { same_literal_laws };
}

impl Literal {
    /// The variable, or with `negate` its negation.
    pub fn new(variable: VariableId, negate: bool) -> Literal
        requires { variable.0 < 2147483648 }
        ensures { result ≡ record { variable = variable; positive = not negate } }
    {
        let double = variable.0 * 2;
        Literal {
            index: if negate { double + 1 } else { double },
        }
    }

    /// The literal of the other sign.
    pub fn negate(self) -> Literal
        ensures { result ≡ negation self }
    {
        Literal {
            index: if self.index % 2 == 0 {
                self.index + 1
            } else {
                self.index - 1
            },
        }
    }

    /// The variable.
    pub fn variable(self) -> VariableId
        ensures variable { result ≡ self.variable }
        ensures in_range { result.0 < 2147483648 }
    {
        VariableId(self.index / 2)
    }

    /// The value of the variable that makes this literal true.
    pub fn satisfying_value(self) -> bool
        ensures { result ≡ self.positive }
    {
        self.index % 2 == 0
    }
}

impl Literal {
    /// The value of this literal, if its variable has one.
    pub fn eval(self, values: &DecisionMap) -> Option<bool>
        ensures { result ≡ value_under (value_at values.now) self }
    {
        let positive = self.satisfying_value();
        values.value(self.variable()).map(|value| value == positive)
    }
}

impl Literal {
    /// Whether this literal is false.
    pub fn is_false(self, values: &DecisionMap) -> bool
        ensures { result ≡ is_false (value_under (value_at values.now) self) }
    {
        match self.eval(values) {
            Some(value) => !value,
            None => false,
        }
    }
}

impl Literal {
    /// Whether this literal is true.
    pub fn is_true(self, values: &DecisionMap) -> bool
        ensures { result ≡ is_true (value_under (value_at values.now) self) }
    {
        match self.eval(values) {
            Some(value) => value,
            None => false,
        }
    }

    /// Whether this literal has no value.
    pub fn is_undecided(self, values: &DecisionMap) -> bool
        ensures { result ≡ is_open (value_under (value_at values.now) self) }
    {
        self.eval(values).is_none()
    }
}

impl DenseIndex for Literal {
    ghost index_of = { index_in };

    ghost id_at = { literal_at };

    ghost round_trip = { λ i h. index_round_trip i };

    ghost distinct = { λ x y h. index_distinct x y h };

    ghost eq_by_index = { λ x y. same_is_index x y };

    fn from_index(index: usize) -> Literal {
        Literal {
            index: index as u32,
        }
    }

    fn to_index(self) -> usize {
        self.index as usize
    }
}

/// Whether the variable is in the range of literals.
pub fn is_in_range(variable: VariableId) -> bool
    ensures { result ≡ is_in_range variable }
{
    variable.0 < 2_147_483_648
}
