//! The indent of a line of the message. For each level it holds whether the entry there has further
//! siblings. Levels in a row that have one sign are kept, and written, together. The model is the
//! list of the levels.
ghost use Rattle.std.specs.Prelude.{◌≡◌, ◌==◌, ◌++◌, ◌∷◌, ◌*◌, [], IfOk, IsOkUnless, length, replicate, Some};
ghost use Rattle.std.specs.List.{flat_map};
ghost use Rattle.std.specs.Fmt.{WritesOnOk};
ghost use Rattle.resolvo_pool_core.specs.declared.want.Want.TheVariants.{Memory};
ghost use Rattle.resolvo_graph.specs.declared.indenter.ChildOrder.{ChildOrder};
ghost use Rattle.resolvo_graph.specs.Indent.{own_sign, sign_above, levels_in, shown_levels, signs, indent_text, level_below};

use resolvo_pool_core::want::R;
use std::alloc::Global;
use std::fmt;
use std::marker::Model;

/// Signs sixteen times.
macro_rules! sixteen_times {
    ($signs:literal) => {
        concat!(
            $signs, $signs, $signs, $signs, $signs, $signs, $signs, $signs, $signs, $signs, $signs,
            $signs, $signs, $signs, $signs, $signs
        )
    };
}

/// Whether an entry is the last of its siblings.
#[derive(Clone, Copy, Debug, PartialEq, Eq)]
pub enum ChildOrder {
    HasRemainingSiblings,
    Last,
}

impl ChildOrder {
    /// The sign of the level of the line itself.
    fn sign(self) -> &'static str
        ensures { result.now ≡ own_sign self }
    {
        match self {
            ChildOrder::HasRemainingSiblings => "├─ ",
            ChildOrder::Last => "└─ ",
        }
    }

    /// The sign of a level above the line.
    fn sign_above(self) -> &'static str
        ensures { result.now ≡ sign_above self }
    {
        match self {
            ChildOrder::HasRemainingSiblings => "│  ",
            ChildOrder::Last => "   ",
        }
    }

    /// The signs of sixteen levels above the line.
    fn sixteen_above(self) -> &'static str
        ensures { result.now ≡ flat_map sign_above (replicate 16 self) }
    {
        match self {
            ChildOrder::HasRemainingSiblings => "│  │  │  │  │  │  │  │  │  │  │  │  │  │  │  │  ",
            ChildOrder::Last => "                                                ",
        }
    }

    /// The signs of as many levels above the line as a stretch may have.
    fn signs_above(self) -> &'static str
        ensures { result.now ≡ flat_map sign_above (replicate 256 self) }
    {
        match self {
            ChildOrder::HasRemainingSiblings => {
                sixteen_times!("│  │  │  │  │  │  │  │  │  │  │  │  │  │  │  │  ")
            }
            ChildOrder::Last => sixteen_times!("                                                "),
        }
    }
}

/// How many levels more than one a stretch may have.
const MOST: u8 = 255;

/// Levels in a row that have one sign: one, and as many more.
#[derive(Clone, Copy, Debug)]
struct Stretch {
    order: ChildOrder,
    more: u8,
}

impl Stretch {
    /// Writes the signs of these levels above a line.
    #[tactic(auto, using(crate::proofs::IndentLemmas::full))]
    fn write_above<W: fmt::Write>(self, f: &mut fmt::Formatter<W>) -> fmt::Result
        ensures { WritesOnOk W.write_str_gives f.old result
            (flat_map sign_above (levels_in self))
            f.new }
    {
        if self.more == MOST {
            return f.write_str(self.order.signs_above());
        }
        f.write_str(self.order.sign_above())?;
        write_each(self.order, self.more, f)
    }

    /// Writes the signs of these levels, the last of which is the line's own.
    fn write_last<W: fmt::Write>(self, f: &mut fmt::Formatter<W>) -> fmt::Result
        ensures { WritesOnOk W.write_str_gives f.old result (signs (levels_in self)) f.new }
    {
        write_each(self.order, self.more, f)?;
        f.write_str(self.order.sign())
    }
}

/// Writes the signs of some levels above a line, sixteen at a time.
fn write_each<W: fmt::Write>(order: ChildOrder, count: u8, f: &mut fmt::Formatter<W>) -> fmt::Result
    ensures { WritesOnOk W.write_str_gives f.old result
        (flat_map sign_above (replicate count order))
        f.new }
{
    write_sixteens(order, count / 16, f)?;
    write_rest(order, count % 16, f)
}

/// Writes the signs of so many times sixteen levels above a line.
fn write_sixteens<W: fmt::Write>(
    order: ChildOrder,
    count: u8,
    f: &mut fmt::Formatter<W>,
) -> fmt::Result
    ensures { WritesOnOk W.write_str_gives f.old result
        (flat_map sign_above (replicate (16 * count) order))
        f.new }
{
    for _ in 0..count {
        f.write_str(order.sixteen_above())?;
    }
    Ok(())
}

/// Writes the signs of some levels above a line, one by one.
fn write_rest<W: fmt::Write>(order: ChildOrder, count: u8, f: &mut fmt::Formatter<W>) -> fmt::Result
    ensures { WritesOnOk W.write_str_gives f.old result
        (flat_map sign_above (replicate count order))
        f.new }
{
    for _ in 0..count {
        f.write_str(order.sign_above())?;
    }
    Ok(())
}

/// The first level of a line.
#[derive(Clone, Copy, Debug)]
enum FirstLevel {
    /// It has a sign, as the others.
    Shown,
    /// It has no sign.
    Hidden(ChildOrder),
    /// It will have no sign, and is not there yet.
    Awaited,
}

/// The levels of a line. Without an indent at the top the first level has no sign.
#[derive(Drop)]
pub struct Indenter {
    first: FirstLevel,
    /// The levels that have a sign.
    stretches: Vec<Stretch>,
}

impl Model for Indenter {
    ghost use Rattle.resolvo_graph.specs.Indent.{Indent, levels_with, has_sign};

    ghost Value = { Indent };

    ghost view = { λ i. record {
      levels = levels_with i.first i.stretches.items;
      top_level_indent = has_sign i.first;
    } };
}

impl Indenter {
    /// No level.
    pub fn new(alloc: Global, top_level_indent: bool) -> Indenter
        ensures { result ≡ record { levels = []; top_level_indent = top_level_indent } }
    {
        let first = if top_level_indent {
            FirstLevel::Shown
        } else {
            FirstLevel::Awaited
        };
        Indenter {
            first,
            stretches: Vec::new(alloc),
        }
    }

    /// Whether there is one level.
    pub fn is_at_top_level(&self) -> bool
        ensures { result ≡ (length self.now.levels == 1) }
    {
        match self.first {
            FirstLevel::Shown => is_one(self.stretches.as_slice()),
            FirstLevel::Hidden(_) => is_none(self.stretches.as_slice()),
            FirstLevel::Awaited => false,
        }
    }

    /// A copy of the indent.
    pub fn clone(&self, alloc: Global) -> R<Indenter>
        ensures same { IfOk result (λ i. i ≡ self.now) }
        ensures refusal { IsOkUnless result Memory }
    {
        Ok(Indenter {
            first: self.first,
            stretches: Vec::from_slice(alloc, self.stretches.as_slice())?,
        })
    }

    /// These levels with one more below them.
    pub fn push_level(&self, alloc: Global, order: ChildOrder) -> R<Indenter>
        ensures levels { IfOk result (λ i. i ≡ level_below self.now order) }
        ensures refusal { IsOkUnless result Memory }
    {
        match self.first {
            FirstLevel::Awaited => Ok(Indenter {
                first: FirstLevel::Hidden(order),
                stretches: Vec::new(alloc),
            }),
            first => Ok(Indenter {
                first,
                stretches: one_more(alloc, self.stretches.as_slice(), order)?,
            }),
        }
    }

    /// The levels that have a sign.
    fn shown(&self) -> &[Stretch]
        ensures { flat_map levels_in result.now ≡ shown_levels self.now }
    {
        match self.first {
            FirstLevel::Awaited => &[],
            _ => self.stretches.as_slice(),
        }
    }
}

/// Whether these are one level.
fn is_one(stretches: &[Stretch]) -> bool
    ensures { result ≡ (length (flat_map levels_in stretches.now) == 1) }
{
    match stretches {
        [stretch] => stretch.more == 0,
        _ => false,
    }
}

/// Whether no level is below the first one.
fn is_none(stretches: &[Stretch]) -> bool
    ensures { (first : ChildOrder) → result ≡ (length (first ∷ flat_map levels_in stretches.now) == 1) }
{
    stretches.is_empty()
}

/// These levels with one more below them.
fn one_more(alloc: Global, stretches: &[Stretch], order: ChildOrder) -> R<Vec<Stretch>>
    ensures levels { IfOk result
        (λ v.
        flat_map levels_in v.items ≡ flat_map levels_in stretches.now ++ order ∷ []) }
    ensures refusal { IsOkUnless result Memory }
{
    let (before, last) = end_with(stretches, order);
    let mut all = Vec::with_capacity(alloc, before.len() + 1)?;
    all.extend_from_slice(before)?;
    all.push(last)?;
    Ok(all)
}

/// The last stretch with one level more, or a new one, and the stretches before it.
fn end_with(stretches: &[Stretch], order: ChildOrder) -> (&[Stretch], Stretch)
    ensures { flat_map levels_in (result.0.now ++ result.1 ∷ [])
        ≡ flat_map levels_in stretches.now ++ order ∷ [] }
{
    if let Some((last, before)) = stretches.split_last() {
        if last.order == order && last.more < MOST {
            let more = last.more + 1;
            return (before, Stretch { order, more });
        }
    }
    (stretches, Stretch { order, more: 0 })
}

impl fmt::Display for Indenter {
    ghost output = { λ i. Some (indent_text i) };

    fn fmt<W: fmt::Write>(&self, f: &mut fmt::Formatter<W>) -> fmt::Result {
        let Some((last, above)) = self.shown().split_last() else {
            return Ok(());
        };
        for stretch in above {
            stretch.write_above(f)?;
        }
        last.write_last(f)
    }
}
