// The job call: the unit closure of a grid's givens, then trials, after the checks of what is lent.
ghost use Rattle.std.specs.Prelude.{◌≡◌, Ok, OnErr, IfOk};
ghost use Rattle.std.specs.Result.{result_err};
ghost use Rattle.grid.specs.Refusals.{first_broken};
ghost use Rattle.closure.specs.Job.{outcome_number};
ghost use Rattle.trials.specs.Known.{CompletionOk};
ghost use Rattle.trials.specs.Steps.{end, end_of};
ghost use Rattle.inference.specs.Call.{finished, job_end_of, job_rules, job_call};
ghost use Rattle.inference.specs.Job.{JobSays, OfTechnique};

use closure::Outcome;
use grid::{Refusal, keyed};
use orders::order::Order;
use orders::technique::Technique;
use propagation::close::close_givens;
use trials::trial::{End, Job};
use worklist::acting::Worklist;

// The end of a job, and the marks of its state, which after a contradiction mean nothing.
#[derive(Drop)]
pub struct Ended {
    pub end: End,
    pub marks: [u8; 729],
}

// The end of a job in which no trial is made.
fn untried(outcome: Outcome) -> End
    ensures { result ≡ end outcome 0 }
{
    End { outcome, count: 0 }
}

// A job that is not refused, where the trials of some literals are known to succeed. Order and ceiling are two parameters: the order stays, and the
// ceiling falls from job to job.
pub fn run_with(
    technique: Technique,
    grid: &[u8; 81],
    order: &Order,
    ceiling: u32,
    possible: &[u8; 729],
) -> Ended
    requires { CompletionOk grid.now possible.now }
    ensures { end_of result.end result.marks ≡ job_end_of technique order.now.entries.now grid.now ceiling }
{
    let mut list = Worklist::new();
    let Ok(mut state) = close_givens(technique.set, grid, &mut list) else {
        return Ended {
            end: untried(Outcome::Contradiction),
            marks: [0; 729],
        };
    };
    let end = if state.decided == 729 {
        untried(Outcome::Solved)
    } else if technique.trials {
        let job = Job {
            set: technique.set,
            order: *order,
            ceiling,
            possible,
        };
        job.passes(&mut state, &mut list)
    } else {
        untried(Outcome::Open)
    };
    Ended {
        end,
        marks: state.marks,
    }
}

// A job that is not refused.
pub fn run(technique: Technique, grid: &[u8; 81], order: &Order, ceiling: u32) -> Ended
    ensures { end_of result.end result.marks ≡ job_end_of technique order.now.entries.now grid.now ceiling }
{
    let none = [0u8; 729];
    run_with(technique, grid, order, ceiling, &none)
}

// The end of a job, whose marks are written out: all 0 after a contradiction.
pub fn finish(ended: Ended, marks: &mut [u8; 729]) -> End
    ensures { (Ok result, marks.new) ≡ finished (end_of ended.end ended.marks) }
{
    match ended.end.outcome {
        Outcome::Contradiction => marks.fill(0),
        _ => marks.copy_from_slice(&ended.marks),
    }
    ended.end
}

// The job call, where 729 marks are lent.
#[tactic(auto, unfolding(crate::specs::Call::job_call, crate::specs::Call::job_of))]
fn checked_job(
    grid: &[u8],
    technique: u32,
    order: &[i16],
    ceiling: u32,
    marks: &mut [u8; 729],
) -> Result<End, Refusal>
    ensures { (result, marks.new) ≡ job_call grid.now technique order.now ceiling marks.old }
{
    let keyed_grid = keyed(grid)?;
    let known = Technique::try_from(technique)?;
    let checked = Order::checked(order)?;
    let ended = run(known, keyed_grid, &checked, ceiling);
    Ok(finish(ended, marks))
}

/// The job call, which is lent 729 marks and an order of 1,458 literals; the technique comes as its number. It refuses with 41, 11, 12, 21, 22, 23 and 24,
/// tested in this order.
#[tactic(auto, unfolding(crate::specs::Call::job_call))]
pub fn job(
    grid: &[u8],
    technique: u32,
    order: &[i16],
    ceiling: u32,
    marks: &mut [u8],
) -> Result<End, Refusal>
    ensures exact { (result, marks.new) ≡ job_call grid.now technique order.now ceiling marks.old }
    ensures refused { result_err result ≡ first_broken (job_rules grid.now technique order.now marks.old) }
    ensures err { OnErr result (marks.new ≡ marks.old) }
    ensures ok { IfOk result (λ end. OfTechnique technique (λ t.
        JobSays t grid.now order.now ceiling (outcome_number end.outcome) end.count marks.new)) }
{
    let Some(marks) = marks.as_mut_array() else {
        return Err(Refusal::MarksLength);
    };
    checked_job(grid, technique, order, ceiling, marks)
}
