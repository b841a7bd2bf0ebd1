// The four techniques, each a clause set with or without trials.
ghost use Rattle.std.specs.Prelude.{◌≡◌, [], ◌∷◌, IfOk};
ghost use Rattle.std.specs.Result.{result_err};
ghost use Rattle.grid.specs.Refusals.{first_broken};
ghost use Rattle.orders.specs.Technique.{unit_minimal, unit_extended, trials_minimal, trials_extended, number_of, technique_rule, technique_of, AtLeastTable};

use clauses::ClauseSet;
use grid::Refusal;

// A technique: its clause set, and whether it makes trials.
#[derive(Clone, Copy, Debug, PartialEq, Eq)]
pub struct Technique {
    pub set: ClauseSet,
    pub trials: bool,
}

// Each is a constant and a function: a function promises what it is, as a constant cannot.
impl Technique {
    // 1: unit on clause set 1.
    pub const UNIT_MINIMAL: Technique = Technique {
        set: ClauseSet::Minimal,
        trials: false,
    };
    // 2: unit on clause set 2.
    pub const UNIT_EXTENDED: Technique = Technique {
        set: ClauseSet::Extended,
        trials: false,
    };
    // 3: trials on clause set 1.
    pub const TRIALS_MINIMAL: Technique = Technique {
        set: ClauseSet::Minimal,
        trials: true,
    };
    // 4: trials on clause set 2.
    pub const TRIALS_EXTENDED: Technique = Technique {
        set: ClauseSet::Extended,
        trials: true,
    };

    pub fn unit_minimal() -> Technique
        ensures { result ≡ unit_minimal }
    {
        Technique::UNIT_MINIMAL
    }

    pub fn unit_extended() -> Technique
        ensures { result ≡ unit_extended }
    {
        Technique::UNIT_EXTENDED
    }

    pub fn trials_minimal() -> Technique
        ensures { result ≡ trials_minimal }
    {
        Technique::TRIALS_MINIMAL
    }

    pub fn trials_extended() -> Technique
        ensures { result ≡ trials_extended }
    {
        Technique::TRIALS_EXTENDED
    }

    // Its number, 1 to 4. It is a method, since `u32::from` would not say which number.
    pub fn number(self) -> u32
        ensures { result ≡ number_of self }
    {
        match (self.set, self.trials) {
            (ClauseSet::Minimal, false) => 1,
            (ClauseSet::Extended, false) => 2,
            (ClauseSet::Minimal, true) => 3,
            (ClauseSet::Extended, true) => 4,
        }
    }
}

// The technique of a number: 21 where there is none.
impl TryFrom<u32> for Technique {
    type Error = Refusal;

    ghost try_from_gives = { λ number answer. answer ≡ technique_of number };

    #[tactic(auto, unfolding(crate::specs::Technique::technique_of))]
    fn try_from(number: u32) -> Result<Self, Refusal>
        ensures exact { result ≡ technique_of number }
        ensures refused { result_err result ≡ first_broken (technique_rule number ∷ []) }
        ensures ok { IfOk result (λ technique. number_of technique ≡ number) }
    {
        match number {
            1 => Ok(Technique::unit_minimal()),
            2 => Ok(Technique::unit_extended()),
            3 => Ok(Technique::trials_minimal()),
            4 => Ok(Technique::trials_extended()),
            _ => Err(Refusal::Technique),
        }
    }
}

/// "At least as strong" by the numbers of the techniques: the same, 1 below 2, 3 and 4, 2 below 4, 3 below 4. 2 and 3 are not compared.
pub fn at_least_table()
    ensures { AtLeastTable }
{}
