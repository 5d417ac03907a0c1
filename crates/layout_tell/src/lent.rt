// What a session lends to an explanation. The functions know no kind of tableau, which makes them cheap to prove.
use corner_view::Tableau;
use frac_core::Frac;
use problem_core::Problem;
use session_undo::{BUDGET_LIMIT, Session};
use span_text::{first_word, lines};
use tell_mend::{Reader, Word, group_of, word_of};
use tell_refusals::{Most, Parts};

/// What only some explanations need.
#[derive(Clone, Copy)]
pub enum Needs {
    Nothing,
    Problem,
    Groups,
    Values,
}

/// What is lent for that.
#[derive(Clone, Copy)]
pub struct Lent<'a> {
    pub problem: Option<&'a Problem>,
    pub groups: &'a [&'a [u8]],
    pub values: &'a [(u32, Frac)],
}

impl<'a> Lent<'a> {
    /// Nothing.
    pub fn nothing() -> Lent<'a> {
        Lent {
            problem: None,
            groups: &[],
            values: &[],
        }
    }
}

/// What the explanation of a line with this reply needs.
pub fn need_of(line: &[u8], reply: &[u8]) -> Needs {
    if reply.starts_with(b"refused 6 ") {
        Needs::Problem
    } else if reply.starts_with(b"refused ") {
        match word_of(line).0 {
            Word::Remove => Needs::Groups,
            _ => Needs::Nothing,
        }
    } else {
        match first_word(line) {
            Some((b"diagnose", _)) => Needs::Values,
            _ => Needs::Nothing,
        }
    }
}

/// The groups in a script that hold lines.
pub fn groups_of<'s, T: Tableau>(
    reader: &mut Reader,
    session: &Session<T>,
    script: &'s [u8],
) -> Vec<&'s [u8]> {
    let mut groups = Vec::new(reader.alloc());
    for line in lines(script) {
        let group = group_of(line.bytes);
        if !group.is_empty() && session.state().has_group(group) {
            reader.fail_if(groups.push(group).is_err());
        }
    }
    groups
}

/// The parts of a session that explanations read.
pub fn parts_of<'a, T: Tableau>(session: &'a Session<T>, lent: Lent<'a>) -> Parts<'a> {
    let limits = session.limits();
    Parts {
        tree: session.state().tree(),
        metrics: session.state().metrics(),
        rows: session.engine().rows(),
        most: Most {
            lines: limits.lines,
            rows: limits.rows,
            views: limits.views,
            budget: BUDGET_LIMIT,
        },
        problem: lent.problem,
        groups: lent.groups,
        values: lent.values,
    }
}
