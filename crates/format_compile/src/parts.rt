// A format as one list of parts.
use script_text::AttrWord;
use vfl_text::Pred;

/// The owner of an end's attribute.
#[derive(Clone, Copy)]
pub(crate) enum Owner {
    Itself,
    Parent,
}

/// An attribute of the view of this name, or of that view's parent.
#[derive(Clone, Copy)]
pub(crate) struct End<'a> {
    pub owner: Owner,
    pub view: &'a str,
    pub word: AttrWord,
}

/// The measure of a row: the first end less the second, or the first alone, which is then a size.
#[derive(Clone, Copy)]
pub(crate) struct Span<'a> {
    pub plus: End<'a>,
    pub minus: Option<End<'a>>,
}

/// One part of a format's text.
#[derive(Clone, Copy)]
pub(crate) enum Part<'a> {
    /// The name of a view.
    View { name: &'a str },
    /// The parent's bar beside the view of this name.
    Bar { view: &'a str },
    /// A row that the format asks for.
    Asks { span: Span<'a>, pred: Pred<'a> },
}

/// The way in which a format's views follow each other.
#[derive(Clone, Copy)]
pub(crate) enum Course {
    Rightwards,
    Leftwards,
    Downwards,
}
