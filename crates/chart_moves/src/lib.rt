// The steps of one transition of an accepted chart: states are left, its own items run, states are entered.
#![tactic(auto)]

ghost use Rattle.std.specs.Prelude.{◌≡◌, true, false, List, ℕ, ◌<◌, get_or};
ghost use Rattle.words.specs.Loops.{when};
ghost use Rattle.effects.specs.Work.{going, do_step, do_steps};
ghost use Rattle.chart.specs.Shown.{shown};
ghost use Rattle.states.specs.Cells.{cells};
ghost use Rattle.chart_meaning.specs.Scope.{beneath};
ghost use Rattle.chart_meaning.specs.Steps.{leave_step, take_step, enter_step};
ghost use Rattle.chart_active.specs.Ors.{Ors};
ghost use Rattle.chart_moves.specs.Below.{leaves_below, enters_all};

use chart_rules::Accepted;
use effects::{Counted, Progress};
use states::StateSet;

// And-state j, which was active, is left, where it is below `top`, the scope: its exit items run.
fn leave_one(
    t: Accepted,
    top: usize,
    j: usize,
    pairs: usize,
    vars: &mut [u16],
    outs: &mut [u16],
    queue: &mut [u8],
    n: Progress,
) -> Progress
    requires { j < (shown t.table).states }
    ensures { (next : List ℕ) → going result next vars.new outs.new queue.new ≡ do_steps pairs (when (beneath (shown t.entry.table) top j) (leave_step (shown t.entry.table) j)) (going n next vars.old outs.old queue.old) }
{
    if !chart_active::is_beneath(t.table, top, j) {
        return n;
    }
    effects::run_span(
        t.table.words,
        chart::ITEMS_AT,
        t.table.state_at(j) + chart::EXITS,
        pairs,
        vars,
        outs,
        queue,
        n.one_more(Counted::Left),
    )
}

// The and-states below `top` that were active are left, in falling number.
pub fn leave_all(
    t: Accepted,
    ors: StateSet,
    top: usize,
    acts: StateSet,
    pairs: usize,
    vars: &mut [u16],
    outs: &mut [u16],
    queue: &mut [u8],
    n: Progress,
) -> Progress
    requires { Ors (shown t.table) (cells ors) }
    ensures { (next : List ℕ) → going result next vars.new outs.new queue.new ≡ do_steps pairs (leaves_below (shown t.entry.table) (cells acts) top) (going n next vars.old outs.old queue.old) }
{
    let ands = acts.except(ors);
    let mut m = n;
    let mut j = ands.last(t.table.head(chart::STATES));
    while 0 < j {
        j -= 1;
        m = leave_one(t, top, j, pairs, vars, outs, queue, m);
        j = ands.last(j);
    }
    m
}

// State j is entered: it is to be current, and its entry items run.
fn enter_one(
    t: Accepted,
    ors: StateSet,
    j: usize,
    pairs: usize,
    next: &mut [u16],
    vars: &mut [u16],
    outs: &mut [u16],
    queue: &mut [u8],
    n: Progress,
) -> Progress
    requires { (j < (shown t.table).states) × Ors (shown t.table) (cells ors) × ((shown t.table).parent j < (shown t.table).states) }
    ensures { going result next.new vars.new outs.new queue.new ≡ do_step pairs (enter_step (shown t.entry.table) j) (going n next.old vars.old outs.old queue.old) }
{
    let o = t.table.state_word(j, chart::PARENT);
    words::put(next, chart_active::rank_of(t.table.words, ors, o), j as u16);
    effects::run_span(
        t.table.words,
        chart::ITEMS_AT,
        t.table.state_at(j) + chart::ENTRIES,
        pairs,
        vars,
        outs,
        queue,
        n.one_more(Counted::Entered),
    )
}

// The states of `entered` are entered, in rising number.
pub fn enter_all(
    t: Accepted,
    ors: StateSet,
    entered: StateSet,
    pairs: usize,
    next: &mut [u16],
    vars: &mut [u16],
    outs: &mut [u16],
    queue: &mut [u8],
    n: Progress,
) -> Progress
    requires { Ors (shown t.table) (cells ors) × ((j : ℕ) → get_or (cells entered) j false ≡ true → (shown t.table).parent j < (shown t.table).states) }
    ensures { going result next.new vars.new outs.new queue.new ≡ do_steps pairs (enters_all (shown t.entry.table) (cells entered)) (going n next.old vars.old outs.old queue.old) }
{
    let states = t.table.head(chart::STATES);
    let mut m = n;
    let mut j = entered.next(0, states);
    while j < states {
        m = enter_one(t, ors, j, pairs, next, vars, outs, queue, m);
        j = entered.next(j + 1, states);
    }
    m
}

// Transition k's own items.
pub fn take_own(
    t: Accepted,
    k: usize,
    pairs: usize,
    vars: &mut [u16],
    outs: &mut [u16],
    queue: &mut [u8],
    n: Progress,
) -> Progress
    requires { k < (shown t.table).transitions }
    ensures { (next : List ℕ) → going result next vars.new outs.new queue.new ≡ do_step pairs (take_step (shown t.entry.table) k) (going n next vars.old outs.old queue.old) }
{
    effects::run_span(
        t.table.words,
        chart::ITEMS_AT,
        t.table.transition_at(k) + chart::DOES,
        pairs,
        vars,
        outs,
        queue,
        n.one_more(Counted::Fired),
    )
}
