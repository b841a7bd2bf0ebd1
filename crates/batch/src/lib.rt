// Batches: grids end to end, one technique and order, and one ceiling for the sum of the trials. Each job gets what the earlier ones left of
// the ceiling; its marks go into its own part of the lent marks, its outcome and count into two numbers of the answer list.
//
//     batch    the batch call, with its refusals
#![tactic(auto)]

ghost use Rattle.std.specs.Prelude.{◌≡◌, ◌+◌, ◌*◌, ◌-◌, ◌≤◌, length, Ok, OnOk, OnErr};
ghost use Rattle.std.specs.Result.{result_err};
ghost use Rattle.grid.specs.Refusals.{first_broken};
ghost use Rattle.inference.specs.Call.{job_end_of};
ghost use Rattle.inference.specs.Job.{OfTechnique};
ghost use Rattle.batch.specs.Call.{is_batch, lent_check, jobs_of, batch_rules, batch_call};
ghost use Rattle.batch.specs.Parts.{Lent, Filled, AllFilled};
ghost use Rattle.batch.specs.Says.{BatchSays};

use grid::{Refusal, check_bytes};
use inference::job::{finish, run};
use orders::order::Order;
use orders::technique::Technique;

// 1 to 64 grids, end to end.
fn is_batch(bytes: usize) -> bool
    ensures { result ≡ is_batch bytes }
{
    81 <= bytes && bytes <= 5184 && bytes % 81 == 0
}

// The check of what the host lends, by lengths.
#[tactic(auto, using(crate::proofs::Checks::batch_bytes), unfolding(crate::specs::Call::lent_check))]
fn check_lent(bytes: usize, marks: usize, numbers: usize) -> Result<(), Refusal>
    ensures { result ≡ lent_check bytes marks numbers }
{
    if !is_batch(bytes) {
        return Err(Refusal::BatchLength);
    }
    let grids = bytes / 81;
    if marks != 729 * grids {
        return Err(Refusal::MarksLength);
    }
    if numbers != 2 * grids {
        return Err(Refusal::AnswersLength);
    }
    Ok(())
}

// One job of a batch, in its part of the marks and of the answer list: it gets what the trials made before it left of the ceiling. The
// trials made with it are given back. Marks and numbers stay slices, as hosts lend them.
fn run_one(
    technique: Technique,
    grid: &[u8; 81],
    order: &Order,
    ceiling: u32,
    made: u32,
    marks: &mut [u8],
    numbers: &mut [u32],
) -> u32
    requires { (made ≤ ceiling) × (length marks.old ≡ 729) × (length numbers.old ≡ 2) }
    ensures { Filled (job_end_of technique order.now.entries.now grid.now (ceiling - made)) made marks.new numbers.new result }
{
    let ended = run(technique, grid, order, ceiling - made);
    let end = finish(ended, marks.as_mut_array().unwrap());
    numbers[0] = end.outcome.number();
    numbers[1] = end.count;
    made + end.count
}

// The jobs of a batch that is not refused.
fn run_each(
    technique: Technique,
    grids: &[u8],
    order: &Order,
    ceiling: u32,
    marks: &mut [u8],
    numbers: &mut [u32],
)
    requires { Lent (length grids.now) (length marks.old) (length numbers.old) }
    ensures { AllFilled (jobs_of technique order.now.entries.now grids.now ceiling) marks.new numbers.new }
{
    let mut made = 0;
    // Each job receives its part of the lent buffers as a range of them, so that the range is counted.
    for i in 0..grids.len() / 81 {
        let m = 729 * i;
        let n = 2 * i;
        made = run_one(
            technique,
            grids[81 * i..].first_chunk().unwrap(),
            order,
            ceiling,
            made,
            &mut marks[m..m + 729],
            &mut numbers[n..n + 2],
        );
    }
}

// The batch call, where what is lent has its lengths.
#[tactic(auto, using(crate::proofs::Checks::lent_accepted), unfolding(crate::specs::Call::batch_call))]
fn checked_batch(
    grids: &[u8],
    technique: u32,
    order: &[i16],
    ceiling: u32,
    marks: &mut [u8],
    answers: &mut [u32],
) -> Result<(), Refusal>
    requires { lent_check (length grids.now) (length marks.old) (length answers.old) ≡ Ok tt }
    ensures { (result, marks.new, answers.new)
        ≡ batch_call grids.now technique order.now ceiling marks.old answers.old }
{
    check_bytes(grids)?;
    let known = Technique::try_from(technique)?;
    let checked = Order::checked(order)?;
    run_each(known, grids, &checked, ceiling, marks, answers);
    Ok(())
}

/// The batch call, which is lent 1 to 64 grids end to end, 729 marks and two numbers a grid, and an order of 1,458 literals; the technique comes as its
/// number. It refuses with 47, 41, 48, 12, 21, 22, 23 and 24, tested in this order; the place of 12 is one in the whole batch.
#[tactic(auto, unfolding(crate::specs::Call::batch_call))]
pub fn batch(
    grids: &[u8],
    technique: u32,
    order: &[i16],
    ceiling: u32,
    marks: &mut [u8],
    answers: &mut [u32],
) -> Result<(), Refusal>
    ensures exact { (result, marks.new, answers.new)
        ≡ batch_call grids.now technique order.now ceiling marks.old answers.old }
    ensures refused { result_err result
        ≡ first_broken (batch_rules grids.now technique order.now marks.old answers.old) }
    ensures err { OnErr result ((marks.new ≡ marks.old) × (answers.new ≡ answers.old)) }
    ensures ok { OnOk result (OfTechnique technique (λ t.
        BatchSays t grids.now order.now ceiling marks.new answers.new)) }
{
    check_lent(grids.len(), marks.len(), answers.len())?;
    checked_batch(grids, technique, order, ceiling, marks, answers)
}
