//! Calls as lines spell them: a word and numbers.

use resolvo_pool::{
    ClauseId, DisjunctionId, LearntClauseId, NameId, Requirement, StringId, VariableId,
    VersionSetId, VersionSetUnionId,
};
use resolvo_store::{Clause, Literal, StoreCall, WatchedLiterals};
use std::alloc::{AllocError, Global};

/// The numbers of a text. Other words are passed over.
fn numbers(alloc: Global, text: &str) -> Result<Vec<u64>, AllocError> {
    let mut numbers = Vec::new(alloc);
    for word in text.split(' ') {
        if let Ok(number) = word.parse::<u64>() {
            numbers.push(number)?;
        }
    }
    Ok(numbers)
}

/// The number at a place; 0 where there is none.
fn number(numbers: &[u64], place: usize) -> u64 {
    numbers.get(place).copied().unwrap_or(0)
}

/// The number at a place, as an id.
fn id(numbers: &[u64], place: usize) -> u32 {
    u32::try_from(number(numbers, place)).unwrap_or(u32::MAX)
}

/// The numbers from a place on.
fn behind(numbers: &[u64], place: usize) -> &[u64] {
    numbers.get(place..).unwrap_or(&[])
}

fn variable(numbers: &[u64], place: usize) -> VariableId {
    VariableId(id(numbers, place))
}

/// The literal of a number: twice the variable, and one more where the literal is negative.
fn literal(number: u64) -> Literal {
    let number = u32::try_from(number).unwrap_or(u32::MAX);
    Literal::new(VariableId(number / 2), number % 2 == 1)
}

/// The literal of a number less one; none of 0.
fn literal_if_any(number: u64) -> Option<Literal> {
    match number.checked_sub(1) {
        Some(number) => Some(literal(number)),
        None => None,
    }
}

/// A version set where the first number is 0, and else a union.
fn requirement(numbers: &[u64], place: usize) -> Requirement {
    let id = id(numbers, place.saturating_add(1));
    if number(numbers, place) == 0 {
        Requirement::Single(VersionSetId(id))
    } else {
        Requirement::Union(VersionSetUnionId(id))
    }
}

/// The condition of a number less one; none of 0.
fn condition(numbers: &[u64], place: usize) -> Option<DisjunctionId> {
    match id(numbers, place).checked_sub(1) {
        Some(number) => Some(DisjunctionId::from_raw(number)),
        None => None,
    }
}

fn watched(numbers: &[u64]) -> Option<WatchedLiterals> {
    let first = literal_if_any(number(numbers, 0))?;
    let second = literal_if_any(number(numbers, 1))?;
    Some(WatchedLiterals { first, second })
}

/// The clause of a kind and its ids.
fn clause(n: &[u64]) -> Clause<NameId> {
    let (one, two, set) = (variable(n, 1), variable(n, 2), VersionSetId(id(n, 3)));
    match number(n, 0) {
        0 => Clause::InstallRoot,
        1 => Clause::Requires(one, condition(n, 2), requirement(n, 3)),
        2 => Clause::ForbidMultipleInstances(
            one,
            literal(number(n, 2)),
            NameId::from_raw(id(n, 3)),
        ),
        3 => Clause::Constrains(one, two, set),
        4 => Clause::ConstrainsParent(one, two, set),
        5 => Clause::ConstrainsExcluded(one, two, set),
        6 => Clause::Lock(one, two),
        7 => Clause::Excluded(one, StringId(id(n, 2))),
        8 => Clause::AnyOf(one, two),
        _ => Clause::Learnt(LearntClauseId::from_raw(id(n, 1))),
    }
}

fn literals(alloc: Global, numbers: &[u64]) -> Result<Vec<Literal>, AllocError> {
    let mut literals = Vec::new(alloc);
    for number in numbers {
        literals.push(literal(*number))?;
    }
    Ok(literals)
}

fn moves(alloc: Global, numbers: &[u64]) -> Result<Vec<Option<Literal>>, AllocError> {
    let mut moves = Vec::new(alloc);
    for number in numbers {
        moves.push(literal_if_any(*number))?;
    }
    Ok(moves)
}

fn variables(alloc: Global, numbers: &[u64]) -> Result<Vec<VariableId>, AllocError> {
    let mut variables = Vec::new(alloc);
    for place in 0..numbers.len() {
        variables.push(variable(numbers, place))?;
    }
    Ok(variables)
}

/// Adds the package that the text names first, with the versions that it names then.
fn put_group(
    alloc: Global,
    text: &str,
    groups: &mut Vec<(NameId, Vec<VariableId>)>,
) -> Result<(), AllocError> {
    let numbers = numbers(alloc, text)?;
    let package = NameId::from_raw(id(&numbers, 0));
    groups.push((package, variables(alloc, behind(&numbers, 1))?))?;
    Ok(())
}

/// The packages with their versions, each after a `;`.
fn groups(alloc: Global, text: &str) -> Result<Vec<(NameId, Vec<VariableId>)>, AllocError> {
    let mut groups = Vec::new(alloc);
    for part in text.split(';').skip(1) {
        put_group(alloc, part, &mut groups)?;
    }
    Ok(groups)
}

/// A call without lists.
fn plain_call(word: u8, n: &[u64]) -> Option<StoreCall<NameId>> {
    match word {
        b'a' => Some(StoreCall::AddClause(clause(behind(n, 2)), watched(n))),
        b'r' => Some(StoreCall::Register {
            parent: variable(n, 0),
            requirement: requirement(n, 1),
            condition: condition(n, 3),
            clause: ClauseId(id(n, 4)),
        }),
        b's' => Some(StoreCall::Assign {
            variable: variable(n, 0),
            value: number(n, 1) == 1,
            clause: ClauseId(id(n, 2)),
            level: id(n, 3),
        }),
        b'u' => Some(StoreCall::UndoLast),
        b'j' => Some(StoreCall::UndoUntil(id(n, 0))),
        b'b' => Some(StoreCall::BumpName(NameId::from_raw(id(n, 0)), number(n, 1))),
        b'd' => Some(StoreCall::Decay(number(n, 0))),
        b'f' => Some(StoreCall::Falsified),
        b'n' => Some(StoreCall::NextDecision),
        _ => None,
    }
}

fn call_of(
    alloc: Global,
    word: u8,
    text: &str,
    n: &[u64],
) -> Result<Option<StoreCall<NameId>>, AllocError> {
    match word {
        b'o' => {
            let groups = groups(alloc, text)?;
            Ok(Some(StoreCall::FixCandidates(requirement(n, 0), groups)))
        }
        b'c' => Ok(Some(StoreCall::FixDisjunction(literals(alloc, n)?))),
        b'l' => Ok(Some(StoreCall::FixLearnt(literals(alloc, n)?))),
        b'w' => Ok(Some(StoreCall::Walk {
            literal: literal(number(n, 0)),
            moves: moves(alloc, behind(n, 1))?,
        })),
        _ => Ok(plain_call(word, n)),
    }
}

/// The call that a text spells, by the first letter of its word; none where there is none.
pub fn call_in(alloc: Global, text: &str) -> Result<Option<StoreCall<NameId>>, AllocError> {
    let Some(word) = text.as_bytes().first() else {
        return Ok(None);
    };
    call_of(alloc, *word, text, &numbers(alloc, text)?)
}
