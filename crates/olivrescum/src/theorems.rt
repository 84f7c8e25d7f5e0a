// What is proved of the promises and of the definitions that they stand on. Each function does nothing: its contract is
// the theorem. specs/Theorems.antt has the statements.
ghost use Rattle.olivrescum.specs.Theorems.{ChartCheckExact, FlatCheckExact, Determinate};

// A chart table is accepted exactly when it keeps the rules, and else answered with the lowest rule that it breaks, at the lowest
// place; each rule has the number and the places that the document gives it.
pub fn chart_check_exact()
    ensures { ChartCheckExact }
{}

// The same of a flat table.
pub fn flat_check_exact()
    ensures { FlatCheckExact }
{}

// What is promised of each call leaves it one answer, and one word for every word lent; but for the table that flattening writes.
pub fn determinate()
    ensures { Determinate }
{}
