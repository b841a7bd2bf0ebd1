// Closures of literals over a clause set, as least sets; the steps of a job, as definitions; and what holds of every job, along whatever order and
// under whatever ceiling. The crates above prove their code against this one.
//
//     Outcome          how a job ends
//     unit_closures    what the sweeps of the clauses come to
//     job_ends         what a job's end says of the closure of its givens
//     ceilings         where a ceiling stops a job
#![tactic(auto)]

ghost use Rattle.std.specs.Prelude.{◌≡◌};
ghost use Rattle.closure.specs.Job.{outcome_number};
ghost use Rattle.closure.specs.Laws.{UnitClosures, JobEnds, Ceilings};

// How a job ends: all variables are decided; nothing more follows; the ceiling stops it; or the givens contradict each other.
#[derive(Clone, Copy, Debug, PartialEq, Eq)]
pub enum Outcome {
    Solved,
    Open,
    Stopped,
    Contradiction,
}

impl Outcome {
    // The number that hosts are told. It is a method, since `u32::from` would not say which number.
    pub fn number(self) -> u32
        ensures { result ≡ outcome_number self }
    {
        match self {
            Outcome::Solved => 1,
            Outcome::Open => 2,
            Outcome::Stopped => 3,
            Outcome::Contradiction => 4,
        }
    }
}

/// The sweeps come to the unit closure of any literals, over both clause sets.
pub fn unit_closures()
    ensures { UnitClosures }
{}

/// Every job ends with the closure of its givens under the rules of its technique, or within it where it is stopped.
pub fn job_ends()
    ensures { JobEnds }
{}

/// A ceiling stops a job exactly where the job would make more trials.
pub fn ceilings()
    ensures { Ceilings }
{}
