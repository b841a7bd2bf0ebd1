// What holds of the clause sets as a whole, over the same lists that the clause call reads. The functions do nothing: their promises are the theorems.
ghost use Rattle.clauses.specs.Models.{ModelsAreCompletions};
ghost use Rattle.clauses.specs.Numbers.{FamilyNumbers, ShapeNumbers};
ghost use Rattle.clauses.specs.declared.ClauseSet.{ClauseSet};

/// The numbers of the families F1 to F9: from 0 to 80, from 81 to 2,996, and so on to 11,987.
pub fn family_numbers()
    ensures { FamilyNumbers }
{}

/// Numbers and shapes: each number of a set tells the shape of its clause, and each shape of a set has a number.
pub fn shape_numbers()
    ensures { (s : ClauseSet) → ShapeNumbers s }
{}

/// The models of either set with a grid's givens are precisely the grid's legal completions.
pub fn models_are_completions()
    ensures { ModelsAreCompletions }
{}
