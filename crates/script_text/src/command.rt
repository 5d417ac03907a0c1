// The meaning of a line.
ghost use Rattle.std.specs.Prelude.{◌≡◌, IfOk, map};
ghost use Rattle.script_text.specs.Directions.{line_in, operand_in, term_in};
ghost use Rattle.script_text.specs.View.{linear_view, operand_view, term_view, terms_view};

use crate::words::{Align, AttrWord, Direction};
use frac_core::{Frac, OutOfMemory};
use problem_core::Rel;
use span_text::Object;
use std::alloc::Global;
use std::slice;
use vfl_text::Format;

/// The operand of a term, which the term is a multiple of.
#[derive(Clone, Copy)]
pub enum Operand<'a> {
    /// An attribute of the view of this name.
    Attr { view: &'a str, word: AttrWord },
    /// The metric of this name.
    Metric { name: &'a str },
    /// The number 1.
    One,
}

/// A term of an expression: so many times the operand, with the sign of the term.
#[derive(Clone, Copy)]
pub struct ExprTerm<'a> {
    pub by: Frac,
    pub of: Operand<'a>,
}

// The operand, by the word that names its attribute in both directions.
fn operand_in(of: Operand<'_>, to: Direction) -> Operand<'_>
    ensures { operand_view result ≡ operand_in to (operand_view of.entry) }
{
    match of {
        Operand::Attr { view, word } => Operand::Attr {
            view,
            word: word.turned(to),
        },
        other => other,
    }
}

impl<'a> ExprTerm<'a> {
    /// The meaning of this term in this direction, by words that mean the same in both.
    pub fn turned(&self, to: Direction) -> ExprTerm<'a>
        ensures { term_view result ≡ term_in to (term_view self.now) }
    {
        ExprTerm {
            by: self.by,
            of: operand_in(self.of, to),
        }
    }
}

// The meaning of the terms in this direction.
fn terms_in<'a>(
    alloc: Global,
    terms: &[ExprTerm<'a>],
    to: Direction,
) -> Result<Vec<ExprTerm<'a>>, OutOfMemory>
    ensures { IfOk result (λ out. terms_view out.items ≡ map (term_in to) (terms_view terms.now)) }
{
    let mut out = Vec::with_capacity(alloc, terms.len())?;
    for term in terms {
        let turned = term.turned(to);
        out.extend_from_slice(slice::from_ref(&turned))?;
    }
    Ok(out)
}

/// A linear constraint. The terms of both sides are in the order of the text. If no weight is written, the
/// weight is 1.
#[derive(Drop)]
pub struct Linear<'a> {
    pub left: Vec<ExprTerm<'a>>,
    pub rel: Rel,
    pub right: Vec<ExprTerm<'a>>,
    pub priority: Option<Object<'a>>,
    pub weight: u64,
}

impl<'a> Linear<'a> {
    /// The meaning of this constraint in this direction, by words that mean the same in both.
    pub fn turned(&self, alloc: Global, to: Direction) -> Result<Linear<'a>, OutOfMemory>
        ensures { IfOk result (λ line. linear_view line ≡ line_in to (linear_view self.now)) }
    {
        let left = terms_in(alloc, &self.left, to)?;
        let right = terms_in(alloc, &self.right, to)?;
        Ok(Linear {
            left,
            rel: self.rel,
            right,
            priority: self.priority,
            weight: self.weight,
        })
    }

    /// The terms of the left side.
    pub fn left(&self) -> &[ExprTerm<'a>]
        ensures { result.now ≡ self.now.left.items }
    {
        &self.left
    }

    /// The terms of the right side.
    pub fn right(&self) -> &[ExprTerm<'a>]
        ensures { result.now ≡ self.now.right.items }
    {
        &self.right
    }
}

/// Views that come. Each name is a slice of its line, here and below.
#[derive(Drop)]
pub enum Coming<'a> {
    /// A view, and its parent. If no parent is written, the window is the parent.
    View {
        name: &'a str,
        parent: Option<&'a str>,
    },
    /// A tree of views: its text, which isn't read here, and the offset of that text in the line.
    Tree {
        text: &'a [u8],
        start: usize,
    },
}

/// A metric, a size, a line or a suggestion that is new or gets another value.
#[derive(Drop)]
pub enum Updating<'a> {
    Metric {
        name: &'a str,
        value: Frac,
    },
    Window {
        width: Frac,
        height: Frac,
    },
    /// A format of a group, and the alignment of its views.
    Vfl {
        group: &'a str,
        align: Option<Align>,
        format: Format<'a>,
    },
    Constrain {
        group: &'a str,
        line: Linear<'a>,
    },
    /// The attribute of this view gets this value, as far as the priority lets it.
    Suggest {
        view: &'a str,
        word: AttrWord,
        value: Frac,
        priority: Option<Object<'a>>,
    },
    /// The size that a view would like to have. It hugs at the priority of not being larger, and resists at
    /// the priority of not being smaller.
    Size {
        name: &'a str,
        width: Frac,
        height: Frac,
        hug: Option<Object<'a>>,
        resist: Option<Object<'a>>,
    },
}

/// What leaves the scene.
#[derive(Clone, Copy)]
pub enum Leaving<'a> {
    /// A view, with all below it.
    Drop { name: &'a str },
    /// The lines of a group.
    Remove { group: &'a str },
    /// The suggestion for an attribute of the view.
    Release { view: &'a str, word: AttrWord },
    /// The size that a view would like to have.
    Unsize { name: &'a str },
}

/// A command that asks for another scene. `why` may precede these commands and no other.
#[derive(Drop)]
pub enum Change<'a> {
    Views(Coming<'a>),
    Update(Updating<'a>),
    Leave(Leaving<'a>),
    /// Later lines and suggestions have this direction.
    Turn { to: Direction },
    /// This view stays where it is before all others, if a row moves one of them.
    Keep { name: &'a str },
}

/// Any other command: it goes back, sets the budget, or asks what holds in the scene.
#[derive(Clone, Copy)]
pub enum Plain {
    /// Go back to the scene before the latest change.
    Undo,
    /// The greatest number of exchanges of each later run.
    Budget { exchanges: u64 },
    Frames,
    Rows,
    /// Which lines the values leave unmet, and which values are undecided.
    Diagnose,
    /// The values, and a certificate that they are the best.
    Certify,
    /// The best values for each width of the window between these.
    Sweep { from: Frac, to: Frac },
}

/// A command.
#[derive(Drop)]
pub enum Command<'a> {
    Change(Change<'a>),
    Plain(Plain),
}

/// The reading of a line.
#[derive(Drop)]
pub enum Reading<'a> {
    /// A blank line or a comment.
    Nothing,
    Command(Command<'a>),
    /// The question why this change would clash.
    Why(Change<'a>),
}
