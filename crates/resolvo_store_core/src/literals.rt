//! An iterator over the literals of a clause.
//! Its model is the list of the literals that are left.
ghost use Rattle.std.specs.Prelude.{◌≡◌};
ghost use Rattle.std.specs.Iterator.{YieldsFirst, item_count};
ghost use Rattle.resolvo_store_core.specs.ReadClause.{rest_of, listed, named};

use crate::lists::Candidate;
use crate::literal::Literal;

/// The literals of a clause that are left: two at most, then those of lists.
#[derive(Drop)]
pub struct Literals<'a, N> {
    pub first: Option<Literal>,
    pub second: Option<Literal>,
    pub listed: Option<&'a [Literal]>,
    pub candidates: Option<&'a [Candidate<N>]>,
}

impl<'a, N: Copy> Literals<'a, N> {
    ghost use Rattle.resolvo_store_core.specs.ReadClause.{TakesFirst};

    /// The first literal of the list, if one is left.
    fn next_listed(&mut self) -> Option<Literal>
        ensures first { TakesFirst (listed self.old.listed) (listed self.new.listed) result }
        ensures others { (self.new.first ≡ self.old.first)
            × (self.new.second ≡ self.old.second)
            × (self.new.candidates ≡ self.old.candidates) }
    {
        let (literal, rest) = self.listed?.split_first()?;
        self.listed = Some(rest);
        Some(*literal)
    }

    /// The first candidate's literal, if one is left.
    fn next_candidate(&mut self) -> Option<Literal>
        ensures first { TakesFirst (named self.old.candidates) (named self.new.candidates) result }
        ensures others { (self.new.first ≡ self.old.first)
            × (self.new.second ≡ self.old.second)
            × (self.new.listed ≡ self.old.listed) }
    {
        let (candidate, rest) = self.candidates?.split_first()?;
        self.candidates = Some(rest);
        Some(candidate.literal)
    }
}

impl<'a, N: Copy> Iterator for Literals<'a, N> {
    type Item = Literal;

    ghost next_gives = { YieldsFirst rest_of };

    ghost remaining = { item_count rest_of };

    fn next(&mut self) -> Option<Literal> {
        if let Some(literal) = self.first.take() {
            return Some(literal);
        }
        if let Some(literal) = self.second.take() {
            return Some(literal);
        }
        if let Some(literal) = self.next_listed() {
            return Some(literal);
        }
        self.next_candidate()
    }
}
