// The check of a claim on a problem.
ghost use Rattle.std.specs.Prelude.{◌≡◌, ◌<◌, ◌-◌, ◌++◌, ◌∷◌, [], IfOk, decimal, length};
ghost use Rattle.std.specs.Str.Lines.{lines};
ghost use Rattle.span_text.specs.Bytes.{newline};
ghost use Rattle.claim_text.specs.Claims.ClaimTexts.{HasNoMoreParts};
ghost use Rattle.problem_reading.specs.declared.limits.TheConstants.{TEXT_LIMIT};
ghost use Rattle.claim_check.specs.Checks.{IsAnswerTo, IsCheckOf, IsClaimAnswer, IsJudgedAs, IsVerdictOn};
ghost use Rattle.claim_check.specs.Checks.{answer_text, is_yes, verdict_of};

use cert_checker::{Verdict, check_best, check_conflict};
use claim_text::{cut_input, read_claim};
use claim_writing::Claim;
use frac_core::{OutOfMemory, Stop};
use path_claims::{PathVerdict, check_path};
use problem_core::Problem;
use problem_reading::{BadLine, read_problem};
use std::alloc::Global;

/// The line that a check writes, and whether it is `yes`.
#[derive(Drop)]
pub(crate) struct Output {
    pub text: Vec<u8>,
    pub is_good: bool,
}

/// What the check of an input answers.
#[derive(Clone, Copy, PartialEq, Eq)]
pub(crate) enum Answer {
    /// The checker's verdict.
    Judged(Verdict),
    /// The first line outside the form, counted from 1.
    Bad(u64),
}

impl Answer {
    fn is_yes(self) -> bool
        ensures { result ≡ is_yes self }
    {
        self == Answer::Judged(Verdict::Yes)
    }
}

// What is said of a path, as of other claims.
fn verdict_of(verdict: PathVerdict) -> Verdict
    ensures { result ≡ verdict_of verdict }
{
    match verdict {
        PathVerdict::Yes => Verdict::Yes,
        PathVerdict::No(clause) => Verdict::No(clause),
        PathVerdict::NoRoom(exchanges) => Verdict::NoRoom(exchanges),
    }
}

fn verdict_on(alloc: Global, p: &Problem, claim: &Claim) -> Result<Verdict, OutOfMemory>
    requires { HasNoMoreParts claim.now (TEXT_LIMIT - 1) }
    ensures { IfOk result (IsVerdictOn p.now claim.now) }
{
    match claim {
        Claim::IsBest { values, best } => check_best(alloc, p, values, best),
        Claim::IsConflict(conflict) => check_conflict(alloc, p, conflict),
        Claim::IsPath { path, unfit } => Ok(verdict_of(check_path(alloc, p, path, *unfit)?)),
    }
}

// What is answered to a claim that is read.
fn judged(alloc: Global, p: &Problem, claim: &Claim) -> Result<Answer, OutOfMemory>
    requires { HasNoMoreParts claim.now (TEXT_LIMIT - 1) }
    ensures { IfOk result (IsJudgedAs p.now claim.now) }
{
    Ok(Answer::Judged(verdict_on(alloc, p, claim)?))
}

// What is answered to the lines of a claim on the problem, behind so many other lines.
fn claim_answer(alloc: Global, p: &Problem, text: &[u8], before: u32) -> Result<Answer, OutOfMemory>
    requires { length text.now < TEXT_LIMIT }
    ensures { IfOk result (IsClaimAnswer p.now (lines text.now) before) }
{
    match read_claim(alloc, text) {
        Ok(claim) => judged(alloc, p, &claim),
        Err(Stop::Refused(BadLine(line))) => Ok(Answer::Bad(u64::from(before) + u64::from(line))),
        Err(Stop::OutOfMemory) => Err(OutOfMemory),
    }
}

// What the check of an input answers.
fn answer_to(alloc: Global, input: &[u8]) -> Result<Answer, OutOfMemory>
    requires { length input.now < TEXT_LIMIT }
    ensures { IfOk result (IsAnswerTo (lines input.now)) }
{
    let cut = cut_input(input);
    match read_problem(alloc, cut.problem) {
        Ok(problem) => claim_answer(alloc, &problem, cut.claim, cut.lines_before),
        Err(Stop::Refused(BadLine(line))) => Ok(Answer::Bad(u64::from(line))),
        Err(Stop::OutOfMemory) => Err(OutOfMemory),
    }
}

// Some words, a number and the end of the line.
fn number_line(alloc: Global, front: &str, number: u64) -> Result<Vec<u8>, OutOfMemory>
    ensures { IfOk result (λ v. v.items ≡ front.now ++ (decimal number ++ newline ∷ [])) }
{
    let mut text = String::new(alloc);
    writeln!(text, "{front}{number}")?;
    Ok(text.into_bytes())
}

// The line of an answer.
fn answer_line(alloc: Global, answer: Answer) -> Result<Vec<u8>, OutOfMemory>
    ensures { IfOk result (λ v. v.items ≡ answer_text answer) }
{
    match answer {
        Answer::Judged(Verdict::Yes) => Ok(b"yes\n".to_vec(alloc)?),
        Answer::Judged(Verdict::No(clause)) => number_line(alloc, "no ", u64::from(clause)),
        Answer::Judged(Verdict::NoRoom(place)) => number_line(alloc, "no room ", u64::from(place)),
        Answer::Bad(line) => number_line(alloc, "bad ", line),
    }
}

/// The line that the check of an input answers, and whether it is `yes`.
pub(crate) fn check_input(alloc: Global, input: &[u8]) -> Result<Output, OutOfMemory>
    requires { length input.now < TEXT_LIMIT }
    ensures { IfOk result (λ output. IsCheckOf input.now output.text.items output.is_good) }
{
    let answer = answer_to(alloc, input)?;
    Ok(Output {
        text: answer_line(alloc, answer)?,
        is_good: answer.is_yes(),
    })
}
