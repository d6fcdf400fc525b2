//! An answer as lines: what is chosen, left out and deferred, the questions of the provider, and
//! the message of a conflict.

use resolvo_pool::{Interner, R, SolvableIdOrRoot, SparseId};
use resolvo_test_providers::test_provider::{Question, TestProvider};
use std::alloc::Global;
use std::fmt;

/// A solver's answer to a case: at first, and where it was stopped, when it is asked again; its
/// provider's questions; and why it refuses.
pub struct Answer {
    pub first: String,
    pub again: String,
    pub asked: String,
    pub why: String,
}

impl Drop for Answer {
    fn drop(self) {
        let Answer {
            first: _,
            again: _,
            asked: _,
            why: _,
        } = self;
    }
}

impl Answer {
    pub fn new(alloc: Global) -> Answer {
        Answer {
            first: String::new(alloc),
            again: String::new(alloc),
            asked: String::new(alloc),
            why: String::new(alloc),
        }
    }

    pub fn clear(&mut self) {
        self.first.clear();
        self.again.clear();
        self.asked.clear();
        self.why.clear();
    }

    /// Whether the solver lacked memory.
    pub fn lacks_memory(&self) -> bool {
        self.first.as_str() == NO_MEMORY || self.again.as_str() == NO_MEMORY
    }
}

/// The answer of a solver that lacks memory.
pub const NO_MEMORY: &str = "no memory\n";

/// A package, to be written.
#[derive(Drop)]
struct Package<'a, I: Interner> {
    interner: &'a I,
    name: I::NameId,
}

impl<I: Interner> fmt::Display for Package<'_, I> {
    fn fmt<W: fmt::Write>(&self, f: &mut fmt::Formatter<W>) -> fmt::Result {
        self.interner.display_name(self.name, f)
    }
}

/// Writes what is shown.
pub fn write_shown<D: fmt::Display>(text: &mut String, shown: &D) -> R<()> {
    Ok(write!(text, "{shown}")?)
}

fn write_line<D: fmt::Display>(text: &mut String, front: &str, shown: &D) -> R<()> {
    Ok(writeln!(text, "{front}{shown}")?)
}

fn write_name<I: Interner>(text: &mut String, interner: &I, name: I::NameId) -> R<()> {
    write_line(text, "", &Package { interner, name })
}

/// Writes a version on a line, behind these words.
pub fn write_version<I: Interner>(
    text: &mut String,
    interner: &I,
    front: &str,
    version: I::SolvableId,
) -> R<()> {
    let shown = SolvableIdOrRoot::from(version).display(interner);
    write_line(text, front, &shown)
}

/// Writes versions, a line each.
pub fn write_versions<I: Interner>(
    text: &mut String,
    interner: &I,
    versions: &[I::SolvableId],
) -> R<()> {
    for version in versions {
        write_version(text, interner, "", *version)?;
    }
    Ok(())
}

/// Writes how many cases of conditions wait, if any does.
pub fn write_waiting(text: &mut String, count: usize) -> R<()> {
    match count {
        0 => Ok(()),
        1 => Ok(text.push_str("1 waits\n")?),
        count => Ok(writeln!(text, "{count} wait")?),
    }
}

/// A provider that records its questions.
pub trait Recorder {
    /// Writes its questions so far.
    fn write_asked(&self, text: &mut String) -> R<()>;
}

fn write_question<I: Interner>(
    text: &mut String,
    source: &TestProvider<I>,
    question: &Question<I::NameId, I::SolvableId>,
) -> R<()> {
    match question {
        Question::Candidates(name) => write_name(text, source, SparseId::from_raw(*name)),
        Question::Dependencies(solvable) => {
            write_version(text, source, "", SparseId::from_raw(*solvable))
        }
    }
}

fn write_questions<I: Interner>(
    text: &mut String,
    source: &TestProvider<I>,
    asked: &[Question<I::NameId, I::SolvableId>],
) -> R<()> {
    for question in asked {
        write_question(text, source, question)?;
    }
    Ok(())
}

impl<I: Interner> Recorder for TestProvider<I> {
    fn write_asked(&self, text: &mut String) -> R<()> {
        match self.asked.try_borrow() {
            Ok(asked) => write_questions(text, self, asked.as_slice()),
            Err(_) => Ok(()),
        }
    }
}
