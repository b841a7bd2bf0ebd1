// Grading: the search for a grid's completions; where there is one, the techniques one after the other, with one ceiling for the sum of
// their trials.
//
//     grade      the grading call, with its refusals
//     Verdict    how a grading ends, and with how many trials, a Rating
#![tactic(auto)]

ghost use Rattle.std.specs.Prelude.{◌≡◌, cond, suc, ◌<◌, Ok, OnErr, IfOk};
ghost use Rattle.std.specs.Result.{result_err};
ghost use Rattle.grid.specs.Refusals.{first_broken};
ghost use Rattle.clauses.specs.Models.{truth_of};
ghost use Rattle.trials.specs.Known.{CompletionOk};
ghost use Rattle.grading.specs.Grade.{number_of, ladder, rate_from, MarksOf, grade_of, grade_rules, grade_call};
ghost use Rattle.grading.specs.Says.{GradingSays};

use closure::Outcome;
use exploration::{Found, find};
use grid::{Refusal, keyed};
use inference::job::run_with;
use orders::order::Order;
use orders::technique::Technique;

// How a grading ends: the grid has no legal completion, or several; the weakest technique that finishes it; none does; or the ceiling stops
// one.
#[derive(Clone, Copy, Debug, PartialEq, Eq)]
pub enum Verdict {
    NoCompletion,
    Finished(Technique),
    Unfinished,
    Stopped,
    SeveralCompletions,
}

impl Verdict {
    // The number that hosts and listings are told. It is a method, since `u32::from` would not say which number.
    pub fn number(self) -> u32
        ensures { result ≡ number_of self }
    {
        match self {
            Verdict::NoCompletion => 0,
            Verdict::Finished(technique) => technique.number(),
            Verdict::Unfinished => 5,
            Verdict::Stopped => 6,
            Verdict::SeveralCompletions => 7,
        }
    }
}

// A verdict with the trial total.
#[derive(Clone, Copy, Debug, PartialEq, Eq)]
pub struct Rating {
    pub verdict: Verdict,
    pub trials: u32,
}

// The techniques that a grading tries, in order.
fn ladder() -> [Technique; 4]
    ensures { result ≡ ladder }
{
    [
        Technique::unit_minimal(),
        Technique::unit_extended(),
        Technique::trials_minimal(),
        Technique::trials_extended(),
    ]
}

// The mark of a place of a completion: its digits are true, and all others false.
fn mark_of(completion: &[u8; 81], p: usize) -> u8
    requires { p < 729 }
    ensures { result ≡ cond (truth_of completion.now (suc p)) 1 2 }
{
    if completion[p / 9] == b'1' + (p % 9) as u8 {
        1
    } else {
        2
    }
}

// The marks of a completion.
fn marks_of(completion: &[u8; 81]) -> [u8; 729]
    ensures { MarksOf completion.now result }
{
    std::array::from_fn(|p| mark_of(completion, p))
}

// The rating of a grid with one completion, whose literals are known to succeed: each technique gets what the earlier ones left of the ceiling.
fn climb(grid: &[u8; 81], order: &Order, ceiling: u32, possible: &[u8; 729]) -> Rating
    requires { CompletionOk grid.now possible.now }
    ensures { result ≡ rate_from grid.now order.now.entries.now ceiling ladder 0 }
{
    let techniques = ladder();
    let mut trials = 0;
    for technique in &techniques {
        let ended = run_with(*technique, grid, order, ceiling - trials, possible);
        let end = ended.end;
        trials += end.count;
        match end.outcome {
            Outcome::Solved => {
                return Rating {
                    verdict: Verdict::Finished(*technique),
                    trials,
                };
            }
            Outcome::Stopped => {
                return Rating {
                    verdict: Verdict::Stopped,
                    trials,
                };
            }
            Outcome::Open | Outcome::Contradiction => {}
        }
    }
    Rating {
        verdict: Verdict::Unfinished,
        trials,
    }
}

// A grading that is not refused.
fn rate(grid: &[u8; 81], order: &Order, ceiling: u32, completion: &mut [u8; 81]) -> Rating
    ensures { (Ok result, completion.new) ≡ grade_of grid.now order.now.entries.now ceiling }
{
    let verdict = match find(grid) {
        Found::One(only) => {
            *completion = only;
            return climb(grid, order, ceiling, &marks_of(&only));
        }
        Found::Nothing => Verdict::NoCompletion,
        Found::Several(_, _) => Verdict::SeveralCompletions,
    };
    *completion = [0; 81];
    Rating { verdict, trials: 0 }
}

// The grading call, where 81 bytes are lent.
#[tactic(auto, unfolding(crate::specs::Grade::grade_call))]
fn checked_grade(
    grid: &[u8],
    order: &[i16],
    ceiling: u32,
    completion: &mut [u8; 81],
) -> Result<Rating, Refusal>
    ensures { (result, completion.new) ≡ grade_call grid.now order.now ceiling completion.old }
{
    let keyed_grid = keyed(grid)?;
    let checked = Order::checked(order)?;
    Ok(rate(keyed_grid, &checked, ceiling, completion))
}

/// The grading call, which is lent an order of 1,458 literals and 81 bytes for the completion. It refuses with 42, 11, 12, 22, 23 and 24, tested in this
/// order.
#[tactic(auto, unfolding(crate::specs::Grade::grade_call))]
pub fn grade(
    grid: &[u8],
    order: &[i16],
    ceiling: u32,
    completion: &mut [u8],
) -> Result<Rating, Refusal>
    ensures exact { (result, completion.new) ≡ grade_call grid.now order.now ceiling completion.old }
    ensures refused { result_err result ≡ first_broken (grade_rules grid.now order.now completion.old) }
    ensures err { OnErr result (completion.new ≡ completion.old) }
    ensures ok { IfOk result (λ rating. GradingSays grid.now order.now ceiling
        (number_of rating.verdict) rating.trials completion.new) }
{
    let Some(completion) = completion.as_mut_array() else {
        return Err(Refusal::BufferLength);
    };
    checked_grade(grid, order, ceiling, completion)
}
