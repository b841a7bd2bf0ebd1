// The bench table: its jobs, shown of the definitions.
//
//     bench_table    every row holds, along every order that is accepted
#![tactic(auto)]

ghost use Rattle.bench_table.specs.Bench.{BenchTable};

/// The rows of the bench table hold: grids under a technique and a ceiling, with the outcome, the count and the marks that are expected.
pub fn bench_table()
    ensures { BenchTable }
{}
