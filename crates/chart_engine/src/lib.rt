// The chart engine: the calls that start and run a chart. It takes any table, state, event and words for outputs.
#![tactic(auto)]

ghost use Rattle.std.specs.Prelude.{◌≡◌};
ghost use Rattle.table.specs.Answers.{told};
ghost use Rattle.effects.specs.Lent.{start_told};
ghost use Rattle.chart.specs.Shown.{shown};
ghost use Rattle.chart_check.specs.Answer.{chart_answer};
ghost use Rattle.chart_meaning.specs.Calls.{started_on, start_chart, ran_on, ran_accepted, run_chart};
ghost use Rattle.states.specs.Cells.{cells};
ghost use Rattle.chart_macrostep.specs.Tried.{Lent};
ghost use Rattle.chart_engine.specs.Told.{ran_told, finished_counts};

use answers::Counts;
use chart::Table;
use chart_rules::Accepted;
use effects::{Counted, Progress};
use states::StateSet;
use table::{Refusal, Trigger};

// What is reported of a finished macrostep.
fn finished_counts(n: Progress) -> Counts
    ensures { result ≡ finished_counts n }
{
    Counts {
        microsteps: n.count(Counted::Microstep),
        taken: n.count(Counted::Fired),
        left: n.count(Counted::Left),
        entered: n.count(Counted::Entered),
        outputs: n.count(Counted::Output),
    }
}

// One event on a state of an accepted chart. `ors` are its or-states, `words` is their number.
fn run_state(
    t: Accepted,
    ors: StateSet,
    words: usize,
    state: &mut [u16],
    event: Trigger,
    outputs: &mut [u16],
) -> Result<Counts, Refusal>
    requires { Lent (shown t.table) (cells ors) words state.old }
    ensures { ran_told result state.new outputs.new ≡ ran_on (shown t.entry.table) state.old event.0 outputs.old }
{
    let n = chart_macrostep::run(t.table.words, ors, words, state, event, outputs);
    if n.is_stopped() {
        return Err(n.refusal());
    }
    Ok(finished_counts(n))
}

// One event on a lent state, where the chart is accepted.
fn run_accepted(
    t: Accepted,
    state: &mut [u16],
    event: u32,
    outputs: &mut [u16],
) -> Result<Counts, Refusal>
    ensures { ran_told result state.new outputs.new ≡ ran_accepted (shown t.entry.table) state.old event outputs.old }
{
    let ors = chart_active::or_states(t.table.words);
    let words = chart_active::count(t, ors);
    if !chart_state::is_state(t, ors, words, state) {
        return Err(Refusal::State);
    }
    if t.table.head(chart::EVENTS) <= event as usize {
        return Err(Refusal::NoEvent);
    }
    run_state(t, ors, words, state, Trigger(event), outputs)
}

// The check's answer to a chart, in a call of its own: what it takes on the stack is free again for the run.
fn checked(t: &[u16]) -> Result<(), Refusal>
    ensures { told result ≡ chart_answer t.now }
{
    chart_check::check(t)
}

// One event on a chart, as document 01 says it for anything at all.
pub fn run(t: &[u16], state: &mut [u16], event: u32, outputs: &mut [u16]) -> Result<Counts, Refusal>
    ensures { ran_told result state.new outputs.new ≡ run_chart t.now state.old event outputs.old }
{
    checked(t)?;
    let table = Table { words: t };
    run_accepted(Accepted { table }, state, event, outputs)
}

// The start state of an accepted chart, where `state` has its length.
fn start_accepted(t: Accepted, state: &mut [u16]) -> Result<(), Refusal>
    ensures { start_told result state.new ≡ started_on (shown t.entry.table) state.old }
{
    let words = chart_active::count(t, chart_active::or_states(t.table.words));
    if state.len() != words + t.table.head(chart::VARIABLES) {
        return Err(Refusal::State);
    }
    chart_state::lay_initials(t, state);
    copies::clear(state, words);
    Ok(())
}

// The start state of a chart, as document 01 says it for anything at all.
pub fn start(t: &[u16], state: &mut [u16]) -> Result<(), Refusal>
    ensures { start_told result state.new ≡ start_chart t.now state.old }
{
    chart_check::check(t)?;
    let table = Table { words: t };
    start_accepted(Accepted { table }, state)
}
