//! Functions that do nothing: their contracts are theorems about the definitions that the other contracts cite.
ghost use Rattle.makes.specs.Figures.{Figures};
ghost use Rattle.makes.specs.Theorems.{MakesLawful};

/// Both makes keep the laws.
pub fn makes_are_lawful()
    ensures { MakesLawful }
{}

/// The figures worked by hand, all together.
pub fn figures_are_as_worked()
    ensures { Figures }
{}
