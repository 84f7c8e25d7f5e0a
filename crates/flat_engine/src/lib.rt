// The flat engine: the calls that start and run a flat table. It takes any table, state, event and words for outputs.
#![tactic(auto)]

ghost use Rattle.std.specs.Prelude.{◌≡◌, ◌++◌, ◌+◌, ◌*◌, ◌≤◌, length, drop};
ghost use Rattle.words.specs.Loops.{all_below};
ghost use Rattle.table.specs.Answers.{told};
ghost use Rattle.effects.specs.Lent.{start_told};
ghost use Rattle.flat.specs.Shown.{shown};
ghost use Rattle.flat_check.specs.Answer.{flat_answer};
ghost use Rattle.flat_meaning.specs.State.{good_flat_word?, flat_length, flat_state_of?, flat_start_words};
ghost use Rattle.flat_meaning.specs.Calls.{flat_started_on, start_flat, flat_ran_on, flat_ran_accepted, run_flat};
ghost use Rattle.flat_engine.specs.Told.{flat_ran_told, finished_flat_counts};

use answers::FlatCounts;
use effects::{Counted, Progress};
use flat::Table;
use flat_rules::Accepted;
use table::{Refusal, Trigger};

// Whether every machine's word is a state of it.
fn good_words(t: Accepted, current: &[u16]) -> bool
    ensures { result ≡ all_below (good_flat_word? (shown t.entry.table) current.now) (shown t.entry.table).machines }
{
    let machines = t.table.head(flat::MACHINES);
    for m in 0..machines {
        if !t.table.is_of_machine(m, words::number(current, m)) {
            return false;
        }
    }
    true
}

// Whether lent words are a state of the flat table.
fn is_state(t: Accepted, state: &[u16]) -> bool
    ensures { result ≡ flat_state_of? (shown t.entry.table) state.now }
{
    let machines = t.table.head(flat::MACHINES);
    if state.len() != machines + t.table.head(flat::VARIABLES) {
        return false;
    }
    good_words(t, &state[..machines])
}

// What is reported of a finished macrostep.
fn finished_counts(n: Progress) -> FlatCounts
    ensures { result ≡ finished_flat_counts n }
{
    FlatCounts {
        microsteps: n.count(Counted::Microstep),
        fired: n.count(Counted::Fired),
        outputs: n.count(Counted::Output),
    }
}

// One event on a state of an accepted flat table. `marks` has a bit for each guard.
fn run_state(
    t: Accepted,
    marks: &mut [u16],
    state: &mut [u16],
    event: Trigger,
    outputs: &mut [u16],
) -> Result<FlatCounts, Refusal>
    requires { ((shown t.table).guards ≤ 16 * length marks.old) × (length state.old ≡ flat_length (shown t.table)) }
    ensures { flat_ran_told result state.new outputs.new ≡ flat_ran_on (shown t.entry.table) state.old event.0 outputs.old }
{
    let machines = t.table.head(flat::MACHINES);
    let n = flat_macrostep::run(t.table.words, marks, machines, state, event, outputs);
    if n.is_stopped() {
        return Err(n.refusal());
    }
    Ok(finished_counts(n))
}

// One event on a lent state, where the flat table is accepted.
fn run_accepted(
    t: Accepted,
    state: &mut [u16],
    event: u32,
    outputs: &mut [u16],
) -> Result<FlatCounts, Refusal>
    ensures { flat_ran_told result state.new outputs.new ≡ flat_ran_accepted (shown t.entry.table) state.old event outputs.old }
{
    if !is_state(t, state) {
        return Err(Refusal::State);
    }
    if t.table.head(flat::EVENTS) <= event as usize {
        return Err(Refusal::NoEvent);
    }
    let g = t.table.head(flat::GUARDS) / 16 + 1;
    let mut marks = [0u16; 147];
    run_state(t, &mut marks[..g], state, Trigger(event), outputs)
}

// The check's answer to a flat table, in a call of its own: what it takes on the stack is free again for the run.
fn checked(t: &[u16]) -> Result<(), Refusal>
    ensures { told result ≡ flat_answer t.now }
{
    flat_check::check(t)
}

// One event on a flat table, as document 01 says it for anything at all.
pub fn run(
    t: &[u16],
    state: &mut [u16],
    event: u32,
    outputs: &mut [u16],
) -> Result<FlatCounts, Refusal>
    ensures { flat_ran_told result state.new outputs.new ≡ run_flat t.now state.old event outputs.old }
{
    checked(t)?;
    let table = Table { words: t };
    run_accepted(Accepted { table }, state, event, outputs)
}

// The initial states, into the front of `state`.
fn lay_initials(t: Accepted, state: &mut [u16])
    requires { (shown t.table).machines ≤ length state.old }
    ensures { state.new ≡ flat_start_words (shown t.entry.table) ++ drop (shown t.entry.table).machines state.old }
{
    let machines = t.table.head(flat::MACHINES);
    for m in 0..machines {
        words::put(state, m, t.table.initial_of(m) as u16);
    }
}

// The start state of an accepted flat table, where `state` has its length.
fn start_accepted(t: Accepted, state: &mut [u16]) -> Result<(), Refusal>
    ensures { start_told result state.new ≡ flat_started_on (shown t.entry.table) state.old }
{
    let machines = t.table.head(flat::MACHINES);
    if state.len() != machines + t.table.head(flat::VARIABLES) {
        return Err(Refusal::State);
    }
    lay_initials(t, state);
    copies::clear(state, machines);
    Ok(())
}

// The start state of a flat table, as document 01 says it for anything at all.
pub fn start(t: &[u16], state: &mut [u16]) -> Result<(), Refusal>
    ensures { start_told result state.new ≡ start_flat t.now state.old }
{
    flat_check::check(t)?;
    let table = Table { words: t };
    start_accepted(Accepted { table }, state)
}
