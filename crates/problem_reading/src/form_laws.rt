// A law of the reader, the contract of a function that does nothing.
ghost use Rattle.problem_reading.specs.ProblemForms.{ProblemsAreTheForm};

/// The lines that `read_problem` reads as a problem are exactly that problem's lines, with some that are
/// passed over, and the line at which it stops is the first outside the form.
pub fn problems_are_the_form()
    ensures { ProblemsAreTheForm }
{}
