// A script cut into lines, and a line cut into tokens.
ghost use Rattle.std.specs.Prelude.{◌≡◌};
ghost use Rattle.std.specs.Str.Lines.{lines};
ghost use Rattle.span_text.specs.TextCuts.Lines.{lines_left};

use crate::line::Lines;
use crate::token::Tokens;

/// The lines in order. Byte 10 ends a line, and one byte 13 before it is dropped.
pub fn lines<'a>(script: &'a [u8]) -> Lines<'a>
    ensures lines { lines_left result ≡ lines script.now }
    ensures script { result.script.now ≡ script.now }
{
    Lines {
        script,
        rest: script,
        start: 0,
    }
}

/// The tokens in order: the longest runs of letters, digits and `_`, the relations `==`, `<=` and `>=`, and
/// other characters one by one. Between them stand spaces alone.
pub fn tokens<'a>(line: &'a str) -> Tokens<'a>
    ensures line { result.line.now ≡ line.now }
    ensures rest { result.rest.now ≡ line.now }
{
    Tokens { line, rest: line }
}
