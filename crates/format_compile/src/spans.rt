// The measures of a format's rows.
ghost use Rattle.std.specs.Prelude.{◌≡◌};
ghost use Rattle.format_compile.specs.FormatParts as parts;
ghost use Rattle.format_compile.specs.FormatViews.{end_view, span_view};

use crate::parts::{Course, End, Owner, Span};
use script_text::{Align, AttrWord, Direction};
use vfl_text::Axis;

/// The course of a format along this axis.
pub(crate) fn course_of(direction: Direction, axis: Axis) -> Course
    ensures { result ≡ parts.course_of direction axis }
{
    match axis {
        Axis::H => course_across(direction),
        Axis::V => Course::Downwards,
    }
}

fn course_across(direction: Direction) -> Course
    ensures { result ≡ parts.course_across direction }
{
    match direction {
        Direction::Ltr => Course::Rightwards,
        Direction::Rtl => Course::Leftwards,
    }
}

fn near(course: Course) -> AttrWord
    ensures { result ≡ parts.near course }
{
    match course {
        Course::Rightwards => AttrWord::Left,
        Course::Leftwards => AttrWord::Right,
        Course::Downwards => AttrWord::Top,
    }
}

fn far(course: Course) -> AttrWord
    ensures { result ≡ parts.far course }
{
    match course {
        Course::Rightwards => AttrWord::Right,
        Course::Leftwards => AttrWord::Left,
        Course::Downwards => AttrWord::Bottom,
    }
}

fn extent(course: Course) -> AttrWord
    ensures { result ≡ parts.extent course }
{
    match course {
        Course::Rightwards | Course::Leftwards => AttrWord::Width,
        Course::Downwards => AttrWord::Height,
    }
}

/// The attribute that an alignment names.
pub(crate) fn aligned_word(align: Align) -> AttrWord
    ensures { result ≡ parts.aligned_word align }
{
    match align {
        Align::Left => AttrWord::Left,
        Align::Right => AttrWord::Right,
        Align::Top => AttrWord::Top,
        Align::Bottom => AttrWord::Bottom,
        Align::CenterX => AttrWord::CenterX,
        Align::CenterY => AttrWord::CenterY,
    }
}

fn own(view: &str, word: AttrWord) -> End<'_>
    ensures { end_view result ≡ parts.own view.now word }
{
    End {
        owner: Owner::Itself,
        view,
        word,
    }
}

fn parents(view: &str, word: AttrWord) -> End<'_>
    ensures { end_view result ≡ parts.parents view.now word }
{
    End {
        owner: Owner::Parent,
        view,
        word,
    }
}

// The distance from one end on to the other: the greater less the lesser.
fn onwards<'a>(course: Course, from: End<'a>, to: End<'a>) -> Span<'a>
    ensures { span_view result ≡ parts.onwards course (end_view from.entry) (end_view to.entry) }
{
    match course {
        Course::Rightwards | Course::Downwards => Span {
            plus: to,
            minus: Some(from),
        },
        Course::Leftwards => Span {
            plus: from,
            minus: Some(to),
        },
    }
}

/// From the parent to its view.
pub(crate) fn inside_near(course: Course, view: &str) -> Span<'_>
    ensures { span_view result ≡ parts.inside_near course view.now }
{
    let edge = near(course);
    onwards(course, parents(view, edge), own(view, edge))
}

/// From one view to the next.
pub(crate) fn between<'a>(course: Course, before: &'a str, view: &'a str) -> Span<'a>
    ensures { span_view result ≡ parts.between course before.now view.now }
{
    onwards(course, own(before, far(course)), own(view, near(course)))
}

/// From the view to its parent.
pub(crate) fn inside_far(course: Course, view: &str) -> Span<'_>
    ensures { span_view result ≡ parts.inside_far course view.now }
{
    let edge = far(course);
    onwards(course, own(view, edge), parents(view, edge))
}

/// The view along the format.
pub(crate) fn size(course: Course, view: &str) -> Span<'_>
    ensures { span_view result ≡ parts.size course view.now }
{
    Span {
        plus: own(view, extent(course)),
        minus: None,
    }
}

/// The offset of a view from the one before it.
pub(crate) fn off<'a>(word: AttrWord, before: &'a str, view: &'a str) -> Span<'a>
    ensures { span_view result ≡ parts.off word before.now view.now }
{
    Span {
        plus: own(view, word),
        minus: Some(own(before, word)),
    }
}
