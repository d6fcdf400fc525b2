//! The texts of steps and their parts, as a report writes them.
//!
//! Each text is the one of specs/Text.antt. The writer of reports calls these.

ghost use Rattle.std.specs.Prelude.{Some};
ghost use Rattle.std.specs.List.{join_with_byte};
ghost use Rattle.resolvo_text.specs.Spelling.{spec_words, alternatives_words};
ghost use Rattle.resolvo_text.specs.View.{version_of, spec_of, specs_of};
ghost use Rattle.resolvo_report.specs.View.{place_of, atom_of, literal_of, literals_of, step_of};
ghost use Rattle.resolvo_report.specs.Text.{version_text, place_text, atom_text, literal_text, clause_text, step_text};
ghost use Rattle.resolvo_report.specs.Pieces.{spaced, causes_text};

use crate::step::{Atom, Literal, Place, Step};
use resolvo_text::{Span, Spec, Version};
use std::fmt;

/// A version, as one word.
#[derive(Clone, Copy)]
struct OneWord<'a>(&'a Version);

impl fmt::Display for OneWord<'_> {
    ghost output = { λ w. Some (version_text (version_of w.0.now)) };

    fn fmt<W: fmt::Write>(&self, f: &mut fmt::Formatter<W>) -> fmt::Result {
        let name = self.0.name.as_str();
        let number = self.0.number;
        write!(f, "{name}={number}")
    }
}

/// A SPEC.
#[derive(Clone, Copy)]
struct Asked<'a>(&'a Spec);

impl fmt::Display for Asked<'_> {
    ghost output = { λ a. Some (join_with_byte 32 (spec_words (spec_of a.0.now))) };

    fn fmt<W: fmt::Write>(&self, f: &mut fmt::Formatter<W>) -> fmt::Result {
        let name = self.0.name.as_str();
        match self.0.span {
            Span::Any => write!(f, "{name}"),
            Span::One(number) => write!(f, "{name} {number}"),
            Span::Range(low, high) => write!(f, "{name} {low}..{high}"),
        }
    }
}

/// SPECs, separated by `|`, after a space.
#[derive(Clone, Copy)]
struct Alternatives<'a>(&'a [Spec]);

impl fmt::Display for Alternatives<'_> {
    ghost output = { λ a. Some (spaced (alternatives_words (specs_of a.0.now))) };

    fn fmt<W: fmt::Write>(&self, f: &mut fmt::Formatter<W>) -> fmt::Result {
        if let Some((spec, others)) = self.0.split_first() {
            write!(f, " {}", Asked(spec))?;
            for spec in others {
                write!(f, " | {}", Asked(spec))?;
            }
        }
        Ok(())
    }
}

impl fmt::Display for Place {
    ghost output = { λ p. Some (place_text (place_of p)) };

    fn fmt<W: fmt::Write>(&self, f: &mut fmt::Formatter<W>) -> fmt::Result {
        match self {
            Place::Request => write!(f, "request"),
            Place::Version(version) => write!(f, "{}", OneWord(version)),
        }
    }
}

impl fmt::Display for Atom {
    ghost output = { λ a. Some (atom_text (atom_of a)) };

    fn fmt<W: fmt::Write>(&self, f: &mut fmt::Formatter<W>) -> fmt::Result {
        match self {
            Atom::Version(version) => write!(f, "{}", OneWord(version)),
            Atom::Any { name } => {
                let name = name.as_str();
                write!(f, "any {name}")
            }
            Atom::Shared { alternatives } => write!(f, "shared{}", Alternatives(alternatives)),
            Atom::Outside { spec } => write!(f, "outside {}", Asked(spec)),
            Atom::Matches { spec } => write!(f, "matches {}", Asked(spec)),
            Atom::Bit { bit, name } => {
                let name = name.as_str();
                write!(f, "bit {bit} of {name}")
            }
        }
    }
}

impl fmt::Display for Literal {
    ghost output = { λ l. Some (literal_text (literal_of l)) };

    fn fmt<W: fmt::Write>(&self, f: &mut fmt::Formatter<W>) -> fmt::Result {
        let atom = &self.atom;
        if self.positive {
            write!(f, "{atom}")
        } else {
            write!(f, "not {atom}")
        }
    }
}

/// A clause, in brackets.
#[derive(Clone, Copy)]
struct Clause<'a>(&'a [Literal]);

impl fmt::Display for Clause<'_> {
    ghost output = { λ c. Some (clause_text (literals_of c.0.now)) };

    fn fmt<W: fmt::Write>(&self, f: &mut fmt::Formatter<W>) -> fmt::Result {
        let Some((first, others)) = self.0.split_first() else {
            return write!(f, "[]");
        };
        write!(f, "[{first}")?;
        for literal in others {
            write!(f, "; {literal}")?;
        }
        write!(f, "]")
    }
}

/// The numbers of steps, a space before each.
#[derive(Clone, Copy)]
struct Causes<'a>(&'a [u32]);

impl fmt::Display for Causes<'_> {
    ghost output = { λ c. Some (causes_text c.0.now) };

    fn fmt<W: fmt::Write>(&self, f: &mut fmt::Formatter<W>) -> fmt::Result {
        for number in self.0 {
            write!(f, " {number}")?;
        }
        Ok(())
    }
}

impl fmt::Display for Step {
    ghost output = { λ s. Some (step_text (step_of s)) };

    fn fmt<W: fmt::Write>(&self, f: &mut fmt::Formatter<W>) -> fmt::Result {
        match self {
            Step::Need { place, line, case } => write!(f, "need {place} line {line} case {case}"),
            Step::Gate { version, line } => write!(f, "gate {} line {line}", OneWord(version)),
            Step::LimitBars {
                place,
                line,
                version,
            } => write!(f, "limit {place} line {line} bars {}", OneWord(version)),
            Step::Limit { place, line } => write!(f, "limit {place} line {line}"),
            Step::Lock { line, version } => {
                write!(f, "lock line {line} bars {}", OneWord(version))
            }
            Step::Exclude { line } => write!(f, "exclude line {line}"),
            Step::Unknown { line } => write!(f, "unknown line {line}"),
            Step::Derive { literals, causes } => {
                write!(f, "derive {} by{}", Clause(literals), Causes(causes))
            }
            Step::Shared { .. }
            | Step::Outside { .. }
            | Step::Matches { .. }
            | Step::Digit { .. }
            | Step::Any { .. } => self.write_definition(f),
        }
    }
}

impl Step {
    ghost use Rattle.std.specs.Fmt.{WritesOnOk};
    ghost use Rattle.resolvo_report.specs.Pieces.{definition_text};

    /// Writes a step that defines an atom; of any other step nothing.
    // split for the prover
    fn write_definition<W: fmt::Write>(&self, f: &mut fmt::Formatter<W>) -> fmt::Result
        ensures { WritesOnOk W.write_str_gives f.old result (definition_text (step_of self.now)) f.new }
    {
        match self {
            Step::Shared { alternatives } => write!(f, "shared{}", Alternatives(alternatives)),
            Step::Outside { spec, version } => {
                write!(f, "outside {} holds {}", Asked(spec), OneWord(version))
            }
            Step::Matches { spec, version } => {
                write!(f, "matches {} holds {}", Asked(spec), OneWord(version))
            }
            Step::Digit {
                version,
                place,
                bit,
            } => write!(f, "digit {} place {place} bit {bit}", OneWord(version)),
            Step::Any { version } => write!(f, "any {}", OneWord(version)),
            _ => Ok(()),
        }
    }
}
