// The words of the grammar, by tables.
ghost use Rattle.std.specs.Prelude.{◌≡◌};
ghost use Rattle.span_text.specs.Gives.{Gives};
ghost use Rattle.span_text.specs.Reading.{tried};
ghost use Rattle.script_text.specs.Directions.{leading, trailing, turned};
ghost use Rattle.script_text.specs.Grammar.{alignments, all_plain_words, attributes, change_words};
ghost use Rattle.script_text.specs.Grammar.{changing_words, directions, new_change_words, over, plain_words};
ghost use Rattle.script_text.specs.Grammar.{word_text, words_of};
ghost use Rattle.script_text.specs.FoundWords.{GivesBefore, GivesFirst};

use span_text::pieces::or_else;

/// The word of a change.
#[derive(Clone, Copy)]
pub enum ChangeWord {
    View,
    Tree,
    Metric,
    Window,
    Vfl,
    Constrain,
    Suggest,
    Size,
    Drop,
    Remove,
    Release,
    Unsize,
    Direction,
    Keep,
}

/// The word of any other command.
#[derive(Clone, Copy)]
pub enum PlainWord {
    Undo,
    Budget,
    Frames,
    Rows,
    Diagnose,
    Certify,
    Sweep,
}

/// The first word of a line: the word of a command, or `why`, which asks why a change would clash.
#[derive(Clone, Copy)]
pub enum FirstWord {
    Change(ChangeWord),
    Plain(PlainWord),
    Why,
}

/// The version of a script, which says what commands there are.
#[derive(Clone, Copy)]
pub enum Version {
    One,
    Two,
}

/// The side from which views follow each other, as a text is read: from the left, or from the right.
#[derive(Clone, Copy)]
pub enum Direction {
    Ltr,
    Rtl,
}

/// The edges and middles that an alignment may name.
#[derive(Clone, Copy)]
pub enum Align {
    Left,
    Right,
    Top,
    Bottom,
    CenterX,
    CenterY,
}

/// The attributes of a view that an expression may name.
#[derive(Clone, Copy, PartialEq, Eq)]
pub enum AttrWord {
    Left,
    Top,
    Width,
    Height,
    Right,
    Bottom,
    CenterX,
    CenterY,
    Leading,
    Trailing,
}

// The edge at which a text begins.
fn leading(to: Direction) -> AttrWord
    ensures { result ≡ leading to }
{
    match to {
        Direction::Ltr => AttrWord::Left,
        Direction::Rtl => AttrWord::Right,
    }
}

// The edge at which a text ends.
fn trailing(to: Direction) -> AttrWord
    ensures { result ≡ trailing to }
{
    match to {
        Direction::Ltr => AttrWord::Right,
        Direction::Rtl => AttrWord::Left,
    }
}

impl AttrWord {
    /// The same attribute in this direction, by the word that names it in both: `leading` and `trailing` are
    /// left or right.
    pub fn turned(self, to: Direction) -> AttrWord
        ensures { result ≡ turned to self }
    {
        match self {
            AttrWord::Leading => leading(to),
            AttrWord::Trailing => trailing(to),
            word => word,
        }
    }

    /// The word as it is written.
    pub fn text(self) -> &'static str
        ensures { result.now ≡ word_text self }
    {
        match self {
            AttrWord::Left => "left",
            AttrWord::Top => "top",
            AttrWord::Width => "width",
            AttrWord::Height => "height",
            AttrWord::Right => "right",
            AttrWord::Bottom => "bottom",
            AttrWord::CenterX => "centerX",
            AttrWord::CenterY => "centerY",
            AttrWord::Leading => "leading",
            AttrWord::Trailing => "trailing",
        }
    }
}

// The word of a change of both versions, and the text right after it. If the text begins with none, the
// answer of the other words.
fn change_word<'a>(
    text: &'a [u8],
    other: Result<(ChangeWord, &'a [u8]), usize>,
) -> Result<(ChangeWord, &'a [u8]), usize>
    ensures { GivesBefore other.entry result (over change_words text.now) }
{
    let found = or_else(b"release", ChangeWord::Release, text, other);
    let found = or_else(b"suggest", ChangeWord::Suggest, text, found);
    let found = or_else(b"remove", ChangeWord::Remove, text, found);
    let found = or_else(b"constrain", ChangeWord::Constrain, text, found);
    let found = or_else(b"vfl", ChangeWord::Vfl, text, found);
    let found = or_else(b"window", ChangeWord::Window, text, found);
    let found = or_else(b"metric", ChangeWord::Metric, text, found);
    let found = or_else(b"drop", ChangeWord::Drop, text, found);
    let found = or_else(b"tree", ChangeWord::Tree, text, found);
    or_else(b"view", ChangeWord::View, text, found)
}

// The word of a change that only version 2 has, and the text right after it.
fn new_change_word(text: &[u8]) -> Result<(ChangeWord, &[u8]), usize>
    ensures { Gives (λ p. (p.0, p.1.now)) result (tried new_change_words text.now) }
{
    let found = or_else(b"keep", ChangeWord::Keep, text, Err(text.len()));
    let found = or_else(b"unsize", ChangeWord::Unsize, text, found);
    let found = or_else(b"size", ChangeWord::Size, text, found);
    or_else(b"direction", ChangeWord::Direction, text, found)
}

/// The word of a change of version 2, and the text right after it.
pub fn changing_word(text: &[u8]) -> Result<(ChangeWord, &[u8]), usize>
    ensures { Gives (λ p. (p.0, p.1.now)) result (tried changing_words text.now) }
{
    change_word(text, new_change_word(text))
}

// The word of another command of both versions, and the text right after it. If the text begins with none,
// the answer of the other words.
fn plain_word<'a>(
    text: &'a [u8],
    other: Result<(PlainWord, &'a [u8]), usize>,
) -> Result<(PlainWord, &'a [u8]), usize>
    ensures { GivesBefore other.entry result (over plain_words text.now) }
{
    let found = or_else(b"certify", PlainWord::Certify, text, other);
    let found = or_else(b"diagnose", PlainWord::Diagnose, text, found);
    let found = or_else(b"rows", PlainWord::Rows, text, found);
    let found = or_else(b"frames", PlainWord::Frames, text, found);
    let found = or_else(b"budget", PlainWord::Budget, text, found);
    or_else(b"undo", PlainWord::Undo, text, found)
}

// The word of another command of version 2, and the text right after it.
fn any_plain_word(text: &[u8]) -> Result<(PlainWord, &[u8]), usize>
    ensures { Gives (λ p. (p.0, p.1.now)) result (tried all_plain_words text.now) }
{
    let found = or_else(b"sweep", PlainWord::Sweep, text, Err(text.len()));
    plain_word(text, found)
}

// The first word of a line: the word of a change if there is one, or else the word of another command.
fn first_of<'a>(
    change: Result<(ChangeWord, &'a [u8]), usize>,
    plain: Result<(PlainWord, &'a [u8]), usize>,
) -> Result<(FirstWord, &'a [u8]), usize>
    ensures { GivesFirst change.entry plain.entry result }
{
    match change {
        Ok((word, rest)) => Ok((FirstWord::Change(word), rest)),
        Err(left) => match plain {
            Ok((word, rest)) => Ok((FirstWord::Plain(word), rest)),
            Err(less) => Err(left.min(less)),
        },
    }
}

/// The first word of a line of this version, and the text right after it.
pub fn first_word(text: &[u8], version: Version) -> Result<(FirstWord, &[u8]), usize>
    ensures { Gives (λ p. (p.0, p.1.now)) result (tried (words_of version) text.now) }
{
    match version {
        Version::One => {
            let change = change_word(text, Err(text.len()));
            first_of(change, plain_word(text, Err(text.len())))
        }
        Version::Two => {
            let command = first_of(changing_word(text), any_plain_word(text));
            or_else(b"why", FirstWord::Why, text, command)
        }
    }
}

/// The direction's word and the text right after it.
pub fn direction_word(text: &[u8]) -> Result<(Direction, &[u8]), usize>
    ensures { Gives (λ p. (p.0, p.1.now)) result (tried directions text.now) }
{
    let found = or_else(b"rtl", Direction::Rtl, text, Err(text.len()));
    or_else(b"ltr", Direction::Ltr, text, found)
}

/// The attribute's word and the text right after it.
pub fn attribute_word(text: &[u8]) -> Result<(AttrWord, &[u8]), usize>
    ensures { Gives (λ p. (p.0, p.1.now)) result (tried attributes text.now) }
{
    let found = or_else(b"trailing", AttrWord::Trailing, text, Err(text.len()));
    let found = or_else(b"leading", AttrWord::Leading, text, found);
    let found = or_else(b"centerY", AttrWord::CenterY, text, found);
    let found = or_else(b"centerX", AttrWord::CenterX, text, found);
    let found = or_else(b"bottom", AttrWord::Bottom, text, found);
    let found = or_else(b"right", AttrWord::Right, text, found);
    let found = or_else(b"height", AttrWord::Height, text, found);
    let found = or_else(b"width", AttrWord::Width, text, found);
    let found = or_else(b"top", AttrWord::Top, text, found);
    or_else(b"left", AttrWord::Left, text, found)
}

/// The alignment's word and the text right after it.
pub fn align_word(text: &[u8]) -> Result<(Align, &[u8]), usize>
    ensures { Gives (λ p. (p.0, p.1.now)) result (tried alignments text.now) }
{
    let found = or_else(b"centerY", Align::CenterY, text, Err(text.len()));
    let found = or_else(b"centerX", Align::CenterX, text, found);
    let found = or_else(b"bottom", Align::Bottom, text, found);
    let found = or_else(b"top", Align::Top, text, found);
    let found = or_else(b"right", Align::Right, text, found);
    or_else(b"left", Align::Left, text, found)
}
