//! Laws of the definitions, each a function without parameters whose contract is the law.

ghost use Rattle.linear_solver.specs.Laws.{EliminationIsSound};
ghost use Rattle.linear_solver.specs.Sizes.{SizesAreSaid};

/// Elimination is sound: no whole numbers solve a system that it refutes.
pub fn law_elimination_sound()
    ensures { EliminationIsSound }
{}

/// Elimination ends at these numbers.
pub fn law_sizes()
    ensures { SizesAreSaid }
{}
