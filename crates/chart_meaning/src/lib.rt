// What is proved of the meaning of charts. Each function does nothing: its contract is the theorem. specs/Theorems.antt
// has the statements.
#![tactic(auto)]

ghost use Rattle.chart_meaning.specs.Theorems.{Configured, StartIsState, RunLeavesState, ScopeIsNearest};
ghost use Rattle.chart_meaning.specs.Theorems.{StateHasChildren, MicrostepKeepsChildren, SameInTurn};
ghost use Rattle.chart_meaning.specs.Examples.{Examples};

// The active states of a state are a configuration.
pub fn configured()
    ensures { Configured }
{}

// The start state is a state.
pub fn start_is_state()
    ensures { StartIsState }
{}

// What a run leaves of a state is a state.
pub fn run_leaves_state()
    ensures { RunLeavesState }
{}

// A transition's scope is the nearest or-state above its source and every target.
pub fn scope_is_nearest()
    ensures { ScopeIsNearest }
{}

// The words of a state are children of their or-states.
pub fn state_has_children()
    ensures { StateHasChildren }
{}

// They stay so in a microstep.
pub fn microstep_keeps_children()
    ensures { MicrostepKeepsChildren }
{}

// Carrying out the taken transitions one after another is reading the microstep's start for all.
pub fn same_in_turn()
    ensures { SameInTurn }
{}

// The document's examples: the aid chart's start and seven steps, and the adds.
pub fn examples()
    ensures { Examples }
{}
