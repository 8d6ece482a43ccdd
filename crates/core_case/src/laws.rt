ghost use Rattle.core_case.specs.Laws.{StatedCasesAreWhole};

/// The law of stated cases: the case that bytes state keeps the ranges and the references of a well-formed one.
pub fn stated_case_law()
    ensures { StatedCasesAreWhole }
{}
