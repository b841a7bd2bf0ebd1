// The calls as C functions, for hosts to link. A slice passes as a pointer and a length, an array as a pointer. Each is one call of what
// stands below, whose answer is packed into one number where it may refuse, so that the toolchain proves it with no proof of ours.
//
//     grader_check_grid       the keyer's check of a grid
//     grader_is_completion    the test of a legal completion
//     grader_clause           the clause call
//     grader_job              the job call
//     grader_search           the search call
//     grader_grade            the grading call
//     grader_batch            the batch call
//     grader_read_job_file    the reading of a job file
//     grader_header           the header of a listing
//     grader_list_line        an output line of a listing
#![tactic(auto)]

ghost use Rattle.std.specs.Prelude.{◌≡◌};
ghost use Rattle.grid.specs.Completion.{completion_call};
ghost use Rattle.grid.specs.Refusals.{grid_check};
ghost use Rattle.clauses.specs.Call.{clause_call};
ghost use Rattle.inference.specs.Call.{job_call};
ghost use Rattle.search.specs.Call.{search_call};
ghost use Rattle.grading.specs.Grade.{grade_call};
ghost use Rattle.batch.specs.Call.{batch_call};
ghost use Rattle.jobfile.specs.Call.{read_call};
ghost use Rattle.listing.specs.Listing.{header_line, listed, Writes};
ghost use Rattle.packing.specs.Packed.{packed_check, packed_tested, packed_given, packed_run, packed_found, packed_graded, packed_ran, packed_file};

use packing::pack;

#[unsafe(no_mangle)]
pub extern "C" fn grader_check_grid(grid: &[u8]) -> u64
    ensures { result ≡ packed_check (grid_check grid.now) }
{
    pack(grid::check_grid(grid))
}

#[unsafe(no_mangle)]
pub extern "C" fn grader_is_completion(grid: &[u8], candidate: &[u8]) -> u64
    ensures { result ≡ packed_tested (completion_call grid.now candidate.now) }
{
    pack(grid::legal::is_completion(grid, candidate))
}

#[unsafe(no_mangle)]
pub extern "C" fn grader_clause(set: u32, number: u32, literals: &mut [i16]) -> u64
    ensures { (result, literals.new) ≡ packed_given (clause_call set number literals.old) }
{
    pack(clauses::clause(set, number, literals))
}

#[unsafe(no_mangle)]
pub extern "C" fn grader_job(
    grid: &[u8],
    technique: u32,
    order: &[i16],
    ceiling: u32,
    marks: &mut [u8],
) -> u64
    ensures { (result, marks.new) ≡ packed_run (job_call grid.now technique order.now ceiling marks.old) }
{
    pack(inference::job::job(grid, technique, order, ceiling, marks))
}

#[unsafe(no_mangle)]
pub extern "C" fn grader_search(grid: &[u8], first: &mut [u8], second: &mut [u8]) -> u64
    ensures { (result, first.new, second.new)
        ≡ packed_found (search_call grid.now first.old second.old) }
{
    pack(search::search(grid, first, second))
}

#[unsafe(no_mangle)]
pub extern "C" fn grader_grade(
    grid: &[u8],
    order: &[i16],
    ceiling: u32,
    completion: &mut [u8],
) -> u64
    ensures { (result, completion.new) ≡ packed_graded (grade_call grid.now order.now ceiling completion.old) }
{
    pack(grading::grade(grid, order, ceiling, completion))
}

#[unsafe(no_mangle)]
pub extern "C" fn grader_batch(
    grids: &[u8],
    technique: u32,
    order: &[i16],
    ceiling: u32,
    marks: &mut [u8],
    answers: &mut [u32],
) -> u64
    ensures { (result, marks.new, answers.new)
        ≡ packed_ran (batch_call grids.now technique order.now ceiling marks.old answers.old) }
{
    pack(batch::batch(grids, technique, order, ceiling, marks, answers))
}

#[unsafe(no_mangle)]
pub extern "C" fn grader_read_job_file(file: &[u8], grid: &mut [u8], order: &mut [i16]) -> u64
    ensures { (result, grid.new, order.new)
        ≡ packed_file (read_call file.now grid.old order.old) }
{
    pack(jobfile::read(file, grid, order))
}

#[unsafe(no_mangle)]
pub extern "C" fn grader_header(out: &mut [u8; 64]) -> usize
    ensures { Writes header_line out.old out.new result }
{
    listing::header(out)
}

#[unsafe(no_mangle)]
pub extern "C" fn grader_list_line(number: u64, line: &[u8], out: &mut [u8; 64]) -> usize
    ensures { Writes (listed number line.now) out.old out.new result }
{
    listing::list_line(number, line, out)
}
