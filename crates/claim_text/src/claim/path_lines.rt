// The lines of paths.
ghost use Rattle.std.specs.Prelude.{◌≡◌, ◌++◌, ◌∷◌, [], Bool, IfSome, IfNone, decimal};
ghost use Rattle.problem_core.specs.Corners as corners;
ghost use Rattle.problem_core.specs.declared.parts.Mark.{Mark};
ghost use Rattle.problem_core.specs.declared.stops.Quantity as quantity;
ghost use Rattle.problem_core.specs.declared.stops.What as what;
ghost use Rattle.claim_writing.specs.Names.{IsRowName};
ghost use Rattle.claim_text.specs.Paths.PathForms.{SaysPart, part_word};
ghost use Rattle.claim_text.specs.declared.claim.path_lines.Part.{Part};
ghost use Rattle.claim_writing.specs.PathTexts.{kind_word, kind_words, in_words, swap_words, what_words};
ghost use Rattle.claim_writing.specs.PathTexts.{quantity_words, unfit_words};
ghost use Rattle.claim_writing.specs.PathTexts.{IsSwapName, IsWhatName, IsCount, IsQuantityName};
ghost use Rattle.problem_reading.specs.Words.{words};
ghost use Rattle.claim_text.specs.declared.claim.path_lines.PathLine as item;

use crate::claim::fields::{level_name, mark, next_mark};
use cert_core::Swap;
use problem_core::{Mark, NUMBER_LIMIT, Quantity, What};
use problem_reading::{Words, natural, next_is, next_number};

/// A line of a path after the first.
#[derive(Clone, Copy)]
pub(crate) enum PathLine {
    OfIn(Mark),
    OfSwap(Swap),
    OfUnfit(Quantity),
}

// Whether the word is the kind of dual paths, if it is a kind.
fn is_dual(word: &[u8]) -> Option<bool>
    ensures some { IfSome result (λ dual. word.now ≡ kind_word dual) }
    ensures none { IfNone result ((dual : Bool) → word.now ≡ kind_word dual → ⊥) }
{
    if word == b"dual".as_slice() {
        Some(true)
    } else if word == b"primal".as_slice() {
        Some(false)
    } else {
        None
    }
}

/// Whether the path is a dual one, if the line is a path's first line.
pub(crate) fn read_kind(line: &[u8]) -> Option<bool>
    ensures some { IfSome result (λ dual. words line.now ≡ kind_words dual) }
    ensures none { IfNone result ((dual : Bool) → words line.now ≡ kind_words dual → ⊥) }
{
    let mut words = Words::of(line);
    if !next_is(&mut words, b"path") {
        return None;
    }
    let kind = words.next()?;
    match words.next() {
        None => is_dual(kind),
        Some(_) => None,
    }
}

// The inside mark in a line.
fn read_in(line: &[u8]) -> Option<Mark>
    ensures some { IfSome result (λ m. IsRowName m.row × (words line.now ≡ in_words m)) }
    ensures none { IfNone result ((m : Mark) → IsRowName m.row → words line.now ≡ in_words m → ⊥) }
{
    let mut words = Words::of(line);
    if !next_is(&mut words, b"in") {
        return None;
    }
    let mark = next_mark(&mut words)?;
    match words.next() {
        None => Some(mark),
        Some(_) => None,
    }
}

// The exchange in a line.
fn read_swap(line: &[u8]) -> Option<Swap>
    ensures some { IfSome result (λ s. IsSwapName s × (words line.now ≡ swap_words s)) }
    ensures none { IfNone result ((s : corners.Swap) → IsSwapName s → words line.now ≡ swap_words s → ⊥) }
{
    let mut words = Words::of(line);
    if !next_is(&mut words, b"swap") {
        return None;
    }
    let enter = next_mark(&mut words)?;
    let leave = next_mark(&mut words)?;
    match words.next() {
        None => Some(Swap { enter, leave }),
        Some(_) => None,
    }
}

// The attribute, mark or level that these two words name.
fn what_of(kind: &[u8], name: &[u8]) -> Option<What>
    ensures some { IfSome result (λ w. IsWhatName w × (kind.now ∷ name.now ∷ [] ≡ what_words w)) }
    ensures none { IfNone result ((w : what.What) → IsWhatName w
        → kind.now ∷ name.now ∷ [] ≡ what_words w → ⊥) }
{
    if kind == b"attr".as_slice() {
        let attr = natural(name, 1, NUMBER_LIMIT as u64)?;
        Some(What::Attr(attr as u32))
    } else if kind == b"mark".as_slice() {
        Some(What::Mark(mark(name)?))
    } else if kind == b"level".as_slice() {
        Some(What::Level(level_name(name)?))
    } else {
        None
    }
}

// A partial sum: of first terms, of first rows, or of first changed constants.
#[derive(Clone, Copy)]
enum Part {
    Terms,
    Rows,
    Shifts,
}

fn part_of(word: &[u8]) -> Option<Part>
    ensures some { IfSome result (λ p. word.now ≡ part_word p) }
    ensures none { IfNone result ((p : Part) → word.now ≡ part_word p → ⊥) }
{
    if word == b"terms".as_slice() {
        Some(Part::Terms)
    } else if word == b"rows".as_slice() {
        Some(Part::Rows)
    } else if word == b"shifts".as_slice() {
        Some(Part::Shifts)
    } else {
        None
    }
}

// The partial sum of so many, if the attribute, mark or level has such sums.
fn of_part(what: What, part: Part, first: u32) -> Option<Quantity>
    requires what { IsWhatName what }
    requires first { IsCount first }
    ensures some { IfSome result (λ q. IsQuantityName q
        × (what_words what ++ part_word part ∷ decimal first ∷ [] ≡ quantity_words q)) }
    ensures none { IfNone result ((q : quantity.Quantity)
        → what_words what ++ part_word part ∷ decimal first ∷ [] ≡ quantity_words q → ⊥) }
{
    match part {
        Part::Terms => match what {
            What::Mark(mark) => Some(Quantity::Terms { mark, first }),
            _ => None,
        },
        Part::Rows => match what {
            What::Level(level) => Some(Quantity::Rows { level, first }),
            _ => None,
        },
        Part::Shifts => Some(Quantity::Shifts { what, first }),
    }
}

// The quantity of an attribute, mark or level and of the words after it.
fn quantity_of(what: What, words: &mut Words) -> Option<Quantity>
    requires { IsWhatName what }
    ensures some { IfSome result (λ q. IsQuantityName q
        × (what_words what ++ words.old ≡ quantity_words q)) }
    ensures none { IfNone result ((q : quantity.Quantity) → IsQuantityName q
        → what_words what ++ words.old ≡ quantity_words q → ⊥) }
{
    let Some(word) = words.next() else {
        return Some(Quantity::Plain(what));
    };
    let first = next_number(words, 1, u32::MAX as u64)?;
    if words.next().is_some() {
        return None;
    }
    of_part(what, part_of(word)?, first as u32)
}

// The quantity in a line, which says that it doesn't fit.
fn read_unfit(line: &[u8]) -> Option<Quantity>
    ensures some { IfSome result (λ q. IsQuantityName q × (words line.now ≡ unfit_words q)) }
    ensures none { IfNone result ((q : quantity.Quantity) → IsQuantityName q
        → words line.now ≡ unfit_words q → ⊥) }
{
    let mut words = Words::of(line);
    if !next_is(&mut words, b"unfit") {
        return None;
    }
    let kind = words.next()?;
    let name = words.next()?;
    quantity_of(what_of(kind, name)?, &mut words)
}

/// The line of a path, if it is in the form.
pub(crate) fn read_path_line(line: &[u8]) -> Option<PathLine>
    ensures some { IfSome result (SaysPart line.now) }
    ensures none { IfNone result ((l : item.PathLine) → SaysPart line.now l → ⊥) }
{
    if let Some(swap) = read_swap(line) {
        return Some(PathLine::OfSwap(swap));
    }
    if let Some(mark) = read_in(line) {
        return Some(PathLine::OfIn(mark));
    }
    if let Some(quantity) = read_unfit(line) {
        return Some(PathLine::OfUnfit(quantity));
    }
    None
}
