// The meaning of each cause of a refusal, and the form of each command: texts whose lines are rows.
use span_text::first_word;

/// A cause: the mark that shows it in the line, and what it means and what to do. `{}` is the place of a
/// limit's number, which the crate of that limit defines.
#[derive(Clone, Copy)]
pub struct Cause {
    pub mark: &'static str,
    pub why: &'static str,
}

// NAME~MARK~WHY. The first row counts whose name the reply's words after the number begin with. So `limit
// lines` comes before `limit line`.
const CAUSES: &str = "\
syntax~~
unknown~~nothing has this name: make it first, or mend the name
taken~~a view or a metric has this name, or it is the window's: take another one
limit lines~~groups have at most {} lines together: remove some
limit line~~a line has at most {} bytes: break it in two
limit name~~a name has at most {} bytes
limit views~~there are at most {} views, the window among them
limit depth~~views stand in each other at most {} deep, the window counted
limit metrics~~there are at most {} metrics
limit rows~~there are at most {} rows: remove some lines
limit terms~~a line has at most {} terms: break it in two
limit attributes~~a row has at most {} attributes: break the line in two
limit coefficient~~a multiplier is too large: take fractions with smaller parts
limit constant~~a constant's parts are too large: take one with smaller parts
limit budget~~a budget is at least 1 and at most 10^{}
kind align~align~the alignment runs along the format: take one across, as centerY for H:
kind parent~|~the window has no parent: leave the bar beside it out
kind object~~a view stands where a number must stand: name one of its attributes, or a metric
kind priority~@~a priority is a whole number from 1 to {}, a metric's value too
kind weight~weight~a weight is a whole number from 1 to {}
kind window~window~the window can't be dropped: leave the line out
kind suggested~@~a second suggestion of these words says no priority, or release first
kind sized~~a second size of a view says no priority, or unsize first
kind tree~{~an object has `name`, maybe `children`, a list of such; the first maybe `in`
kind sweep~~the first width is above the second, or no `window` line has said the size
conflict~~these rows, so many times each, add up to something false
overflow~~an exact number has grown too large: take fractions with smaller parts
spent~~the run made as many exchanges as the budget allows: raise it by `budget`
undo~~no change is left to take back";

// The cure if a tree's text is no JSON: TEXT~CURE, by the text at the place where it goes wrong.
const JSON: &str = "\
'~texts stand in `\"`
\u{201c}~texts stand in the `\"` of the keyboard
\u{201d}~texts stand in the `\"` of the keyboard
#~no comment stands there: it has a line of its own
//~no comment stands there: it has a line of its own
,~one tree stands in a line: write a line for each
{~a `,` is missing, or a second tree stands there, which has a line of its own
\"~a `,` is missing in front of it
=~between a key and what it has stands a `:`
;~between two keys stands a `,`
}~a `}` stands there too early, or behind a `,`
]~a `]` stands there too early, or behind a `,`
~keys and names are texts, in `\"`; between two stands a `,`, and each `{` and `[` is closed";

// The form of each command, as in `docs/LANGUAGE.md`.
const FORMS: &str = "\
view NAME (in NAME)?
tree JSON
drop NAME
metric NAME (-)? NUMBER
window NUMBER NUMBER
vfl NAME (align ALIGN)? format
constrain NAME expr rel expr (@ priority)? (weight WHOLE)?
remove NAME
suggest NAME.ATTR (-)? NUMBER (@ priority)?
release NAME.ATTR
undo
budget WHOLE
frames
rows
diagnose
certify
direction (ltr | rtl)
size NAME NUMBER NUMBER (hug priority)? (resist priority)?
unsize NAME
keep NAME
sweep width NUMBER NUMBER
why change";

// The text after the first `~` of the first row whose text before it begins the given one.
fn row_for(rows: &'static str, text: &str) -> &'static str {
    for row in rows.lines() {
        match row.split_once('~') {
            Some((head, rest)) if text.starts_with(head) => return rest,
            _ => (),
        }
    }
    ""
}

/// The cause that the reply's words after its number begin with.
pub fn cause_of(words: &str) -> Cause {
    match row_for(CAUSES, words).split_once('~') {
        Some((mark, why)) => Cause { mark, why },
        None => Cause { mark: "", why: "" },
    }
}

/// The form of the line's command; empty if its first word is no command.
pub fn form_of(line: &[u8]) -> &'static str {
    let (word, _) = first_word(line).unwrap_or((b"", b""));
    for form in FORMS.lines() {
        match first_word(form.as_bytes()) {
            Some((first, _)) if first == word => return form,
            _ => (),
        }
    }
    ""
}

/// The cure of a tree's text that is no JSON from here on.
pub(crate) fn json_cure(rest: &str) -> &'static str {
    if rest.is_empty() {
        "the text ends too early: each `{`, `[` and `\"` is closed by another"
    } else {
        row_for(JSON, rest)
    }
}
