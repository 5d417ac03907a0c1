// Laws of the readers, each the contract of a function that does nothing.
ghost use Rattle.claim_text.specs.Claims.ClaimForms.{ClaimsAreTheForm};
ghost use Rattle.claim_text.specs.FormExamples.{SomeAreOutside};
ghost use Rattle.claim_text.specs.Paths.PathExamples.{SomePathsAreInside, SomePathsAreOutside};

/// The lines that `read_claim` reads as a claim are exactly that claim's lines, and the line at which it
/// stops is the first outside the form.
pub fn claims_are_the_form()
    ensures { ClaimsAreTheForm }
{}

/// No lines at all are a problem, and no claim, because `best` is missing. A line of another byte is no
/// problem. Some lines are paths, and each rule of their form puts some others outside.
pub fn some_lines_are_outside()
    ensures some { SomeAreOutside }
    ensures inside { SomePathsAreInside }
    ensures outside { SomePathsAreOutside }
{}
