// What is proved of the promises for C. The function does nothing: its contract is the theorem, and it calls what the
// theorem follows from. specs/Theorems.antt has the statement.
ghost use Rattle.capi.specs.Theorems.{DeterminateForC};

// What is promised of each call leaves it one number, one report, and one word for every word lent, but for the flat
// table that flattening writes.
pub fn determinate()
    ensures { DeterminateForC }
{
    olivrescum::theorems::determinate();
}
