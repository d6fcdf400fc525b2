//! The binary at-most-one encoding: clauses that tie each variable to the binary digits of its
//! place.
//! The model is the list of tracked variables and the list of helpers. The k-th variable, counted
//! from 0, is tied to the digits of k: where it is true, each helper has the value of its digit.
//! There are just enough helpers to distinguish the places.
ghost use Rattle.std.specs.Prelude.{◌≡◌, ◌==◌, ◌&&◌, ◌+◌, ◌*◌, ◌^◌, ◌++◌, ◌∷◌, [], ◌↔◌, Bool, ℕ, not, true, false, is_some, length, map, IfOk, OnOk, OnErr, IsOkUnless};
ghost use Rattle.std.specs.List.{list_any, count_by};
ghost use Rattle.std.specs.Option.{option_to_list};
ghost use Rattle.resolvo_pool_core.specs.declared.want.Want.TheVariants.{Memory};
ghost use Rattle.resolvo_store_core.specs.AtMostOne.{among, needs_helper, tracked, ties, tie_all, new_ties, all_ties, IsLeastCount, IsPrefixOf, IsMet, IsAtMostOne};

use crate::small_set::SmallSet;
use resolvo_pool_core::want::R;
use std::alloc::Global;
use std::hash::Hash;
use std::marker::Model;

/// The variables of which at most one may be true, with their helpers.
#[derive(Drop)]
pub struct AtMostOnceTracker<V: Eq + Hash> {
    variables: SmallSet<V>,
    helpers: Vec<V>,
}

impl<V: Eq + Hash> Model for AtMostOnceTracker<V> {
    ghost use Rattle.std.specs.Prelude.{length};
    ghost use Rattle.resolvo_store_core.specs.AtMostOne.{Tracking, IsLeastCount};

    ghost Value = { Tracking V };

    ghost view = { λ t. record { variables = t.variables; helpers = t.helpers.items } };

    ghost invariant = { λ t. IsLeastCount (length t.helpers.items) (length t.variables) };
}

impl<V: Copy + Eq + Hash + Drop> AtMostOnceTracker<V> {
    /// An empty tracker.
    pub fn new(alloc: Global) -> AtMostOnceTracker<V>
        ensures { result ≡ record { variables = []; helpers = [] } }
    {
        AtMostOnceTracker {
            variables: SmallSet::new(alloc),
            helpers: Vec::new(alloc),
        }
    }

    /// The tracked variables, in the order of insertion.
    pub fn variables(&self) -> &[V]
        ensures { result.now ≡ self.now.variables }
    {
        self.variables.as_slice()
    }

    /// The helpers, from the lowest digit on: no more than are needed.
    pub fn helpers(&self) -> &[V]
        ensures helpers { result.now ≡ self.now.helpers }
        ensures least { IsLeastCount (length self.now.helpers) (length self.now.variables) }
    {
        self.helpers.as_slice()
    }

    /// Whether a variable is tracked.
    pub fn contains(&self, variable: V) -> bool
        ensures { result ≡ among V.eq self.now variable }
    {
        self.variables.contains(variable)
    }

    /// Whether tracking a variable needs a new helper: it is new, and all places of the helpers are
    /// used.
    pub fn needs_helper(&self, variable: V) -> bool
        ensures { result ≡ needs_helper V.eq self.now variable }
    {
        self.is_full() && !self.variables.contains(variable)
    }

    /// Whether all places that the helpers distinguish are used.
    fn is_full(&self) -> bool
        ensures { result ≡ (length self.now.variables == 2 ^ length self.now.helpers) }
    {
        // There are fewer than 2^64 variables, so 64 helpers at most.
        let count = self.variables.len() as u128;
        count >> self.helpers.len() == 1
    }

    /// Tracks a variable, with a new helper where it needs one. The clauses that tie it, and the
    /// others to the new helper, are appended to `out`. Each is a variable, a helper, and the
    /// helper's value where the variable is true. Returns false where the variable is tracked
    /// already.
    pub fn add(&mut self, variable: V, helper: Option<V>, out: &mut Vec<(V, V, bool)>) -> R<bool>
        requires { is_some helper ≡ needs_helper V.eq self.old variable }
        // After an answer.
        ensures answer { IfOk result (λ new. new ≡ not (among V.eq self.old variable)) }
        ensures tracker { OnOk result (self.new ≡ tracked V.eq self.old variable helper) }
        ensures ties { OnOk result (out.new.items ≡ out.old.items
            ++ new_ties V.eq self.old variable helper) }
        // After a refusal.
        ensures err { OnErr result (self.new ≡ self.old) }
        ensures err_out { OnErr result (out.new.items ≡ out.old.items) }
        ensures refusal { IsOkUnless result Memory }
    {
        if self.variables.contains(variable) {
            return Ok(false);
        }
        let before = out.len();
        let variables = self.variables.as_slice();
        match tie(variables, self.helpers.as_slice(), variable, helper, out) {
            Ok(()) => {}
            Err(want) => {
                out.truncate(before);
                return Err(want);
            }
        }
        match self.track(variable, helper) {
            Ok(()) => Ok(true),
            Err(want) => {
                out.truncate(before);
                Err(want)
            }
        }
    }

    /// Tracks a variable that isn't tracked, with a new helper where it needs one. The caller adds
    /// the clauses.
    pub fn track(&mut self, variable: V, helper: Option<V>) -> R<()>
        requires new { among V.eq self.old variable ≡ false }
        requires helper { is_some helper ≡ needs_helper V.eq self.old variable }
        ensures tracker { OnOk result (self.new ≡ tracked V.eq self.old variable helper) }
        ensures err { OnErr result (self.new ≡ self.old) }
        ensures refusal { IsOkUnless result Memory }
    {
        self.helpers.reserve(count_of(helper))?;
        self.variables.push(variable)?;
        match helper {
            None => Ok(()),
            Some(helper) => {
                self.helpers.push(helper).unwrap();
                Ok(())
            }
        }
    }
}

impl<V: Copy + Eq + Hash + Drop> AtMostOnceTracker<V> {
    /// The law of the clauses: there are as many as variables times helpers. Some values of the
    /// helpers satisfy them exactly if at most one of the variables is true.
    pub fn at_most_one_law(&self)
        ensures count { length (all_ties self.now) ≡ length self.now.variables *
            length self.now.helpers }
        ensures exact { (value : V → Bool)
            → ((w : ℕ → Bool) × IsMet value w self.now) ↔ IsAtMostOne value self.now.variables }
    {
        let _count = self.helpers.len();
    }

    /// The law of `add`: the clauses of the tracker after it are those before it and the new ones,
    /// as multisets.
    pub fn add_law(&self, variable: V, helper: Option<V>)
        requires { is_some helper ≡ needs_helper V.eq self.now variable }
        ensures { (p : V × V × Bool → Bool)
            → count_by p (all_ties (tracked V.eq self.now variable helper))
            ≡ count_by p (all_ties self.now) + count_by p (new_ties V.eq self.now variable helper) }
    {
        let _count = self.helpers.len();
    }
}

/// How many helpers are new.
fn count_of<V: Drop>(helper: Option<V>) -> usize
    ensures { result ≡ length (option_to_list helper) }
{
    match helper {
        None => 0,
        Some(_) => 1,
    }
}

/// The clauses that tie a new variable to the helpers, and all variables to a new helper.
fn tie<V: Copy + Drop>(
    variables: &[V],
    helpers: &[V],
    variable: V,
    helper: Option<V>,
    out: &mut Vec<(V, V, bool)>,
) -> R<()>
    ensures prefix { IsPrefixOf out.old.items out.new.items }
    ensures ties { OnOk result
        (out.new.items ≡ out.old.items ++ tie_all variables.now helpers.now variable helper) }
    ensures refusal { IsOkUnless result Memory }
{
    match helper {
        None => tie_variable(variable, variables.len(), helpers, out),
        Some(helper) => {
            tie_to_helper(variables, helper, out)?;
            tie_variable(variable, variables.len(), helpers, out)?;
            out.push((variable, helper, true))?;
            Ok(())
        }
    }
}

/// Ties the earlier variables to the new helper, at which the digit of each of their places is 0.
fn tie_to_helper<V: Copy + Drop>(variables: &[V], helper: V, out: &mut Vec<(V, V, bool)>) -> R<()>
    ensures prefix { IsPrefixOf out.old.items out.new.items }
    ensures ties { OnOk result (out.new.items ≡ out.old.items ++ map (λ x. (x, helper, false))
        variables.now) }
    ensures refusal { IsOkUnless result Memory }
{
    for variable in variables {
        out.push((*variable, helper, false))?;
    }
    Ok(())
}

/// Ties a variable to the helpers by the digits of its place, from the lowest on.
fn tie_variable<V: Copy + Drop>(
    variable: V,
    place: usize,
    helpers: &[V],
    out: &mut Vec<(V, V, bool)>,
) -> R<()>
    ensures prefix { IsPrefixOf out.old.items out.new.items }
    ensures ties { OnOk result (out.new.items ≡ out.old.items ++ ties place variable helpers.now) }
    ensures refusal { IsOkUnless result Memory }
{
    let mut rest = place;
    for helper in helpers {
        out.push((variable, *helper, rest % 2 == 1))?;
        rest /= 2;
    }
    Ok(())
}
