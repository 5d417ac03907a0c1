// Compiled lines: rows whose constants are computed when the metrics' values are known.
ghost use Rattle.std.specs.Prelude.{◌≡◌, ◌++◌, map, nat_eq, IfOk};
ghost use Rattle.std.specs.List.{list_any};
ghost use Rattle.constraint_compile.specs.Inside.{form_view, compiled_line, AreForms};

use compile_parts::Step;
use frac_core::OutOfMemory;
use problem_core::{Rel, Term};
use std::alloc::Global;
use std::marker::Model;
use view_tree::ViewId;

/// A row without its constant. The steps name metrics by the places of their names.
#[derive(Drop)]
pub struct RowForm {
    pub id: u32,
    pub rank: u16,
    pub weight: u16,
    pub rel: Rel,
    pub terms: Vec<Term>,
    pub names: Vec<String>,
    pub steps: Vec<Step>,
}

/// The rows of a line, each with its constant as a sum of numbers and of multiples of metrics, and the views
/// in the line's text.
#[derive(Drop)]
pub struct Compiled {
    rows: Vec<RowForm>,
    views: Vec<ViewId>,
}

impl Model for Compiled {
    ghost use Rattle.constraint_compile.specs.Compiled.{CompiledLine};
    ghost use Rattle.constraint_compile.specs.Inside.{compiled_line, AreForms};

    ghost Value = { CompiledLine };

    ghost view = { λ c. compiled_line c.rows.items c.views.items };

    ghost invariant = { λ c. AreForms c.rows.items };
}

impl Compiled {
    /// The rows and the views of just these parts.
    pub fn of(rows: Vec<RowForm>, views: Vec<ViewId>) -> Compiled
        requires { AreForms rows.items }
        ensures { result ≡ compiled_line rows.items views.items }
    {
        Compiled { rows, views }
    }

    /// The rows without their constants.
    pub(crate) fn forms(&self) -> &[RowForm]
        ensures rows { map form_view result.now ≡ self.now.rows }
        ensures kept { AreForms result.now }
    {
        &self.rows
    }

    /// Whether the line's text names the view, even if the view has no part in a row.
    pub fn names_view(&self, view: ViewId) -> bool
        ensures { result ≡ list_any (λ v. nat_eq v view.0) self.now.views }
    {
        has_view(&self.views, view)
    }

    /// Appends the numbers of the rows.
    pub fn push_numbers(&self, numbers: &mut Vec<u32>) -> Result<(), OutOfMemory>
        ensures { IfOk result (λ _. numbers.new.items ≡ numbers.old.items ++ map (λ f. f.id) self.now.rows) }
    {
        let forms = self.forms();
        for form in forms {
            numbers.push(form.id)?;
        }
        Ok(())
    }
}

fn has_view(views: &[ViewId], view: ViewId) -> bool
    ensures { result ≡ list_any (λ v. nat_eq v.0 view.0) views.now }
{
    for v in views {
        if v.0 == view.0 {
            return true;
        }
    }
    false
}
