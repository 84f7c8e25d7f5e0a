// What a flat table means: definitions in specs/, and what is proved of them as the contracts of functions that do nothing.
#![tactic(auto)]

ghost use Rattle.flat_meaning.specs.Theorems.{GuardsMean, FlatStartIsState, FlatRunLeavesState};

// A guard is true just where its literals hold.
pub fn guards_mean()
    ensures { GuardsMean }
{}

// The start state of an accepted flat table is a state of it.
pub fn flat_start_is_state()
    ensures { FlatStartIsState }
{}

// What a run leaves of a state is a state.
pub fn flat_run_leaves_state()
    ensures { FlatRunLeavesState }
{}
