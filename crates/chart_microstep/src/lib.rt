// A microstep of an accepted chart: the transitions that are taken, one after another. The specs of `chart_meaning` say which steps
// a microstep has; here they are gone through.
#![tactic(auto)]

ghost use Rattle.std.specs.Prelude.{◌≡◌, false, cond, List, [], ℕ, ◌<◌, get_or};
ghost use Rattle.words.specs.Loops.{join_up};
ghost use Rattle.effects.specs.Work.{going, do_step, do_steps};
ghost use Rattle.chart.specs.Shown.{shown};
ghost use Rattle.chart.specs.View.{view};
ghost use Rattle.chart_rules.specs.Rules.{ChartRules};
ghost use Rattle.states.specs.Cells.{cells};
ghost use Rattle.chart_meaning.specs.Scope.{scope};
ghost use Rattle.chart_meaning.specs.Entered.{entereds};
ghost use Rattle.chart_meaning.specs.Steps.{take_step, fires, chart_machine};
ghost use Rattle.chart_active.specs.Ors.{Ors};
ghost use Rattle.chart_moves.specs.Below.{leaves_below, enters_all};
ghost use Rattle.chart_microstep.specs.Took.{Took};

use chart::Table;
use chart_rules::Accepted;
use effects::Progress;
use states::StateSet;
use table::Trigger;

// The states below `top` that were active are left, and transition k's own items run.
fn leave_and_take(
    t: Accepted,
    ors: StateSet,
    top: usize,
    acts: StateSet,
    k: usize,
    pairs: usize,
    vars: &mut [u16],
    outs: &mut [u16],
    queue: &mut [u8],
    n: Progress,
) -> Progress
    requires { Ors (shown t.table) (cells ors) × (k < (shown t.table).transitions) }
    ensures { (next : List ℕ) → going result next vars.new outs.new queue.new ≡ do_step pairs (take_step (shown t.entry.table) k) (do_steps pairs (leaves_below (shown t.entry.table) (cells acts) top) (going n next vars.old outs.old queue.old)) }
{
    let m = chart_moves::leave_all(t, ors, top, acts, pairs, vars, outs, queue, n);
    chart_moves::take_own(t, k, pairs, vars, outs, queue, m)
}

// The states that transition k enters, whose scope is `top`.
fn enter(
    t: Accepted,
    ors: StateSet,
    k: usize,
    top: usize,
    pairs: usize,
    next: &mut [u16],
    vars: &mut [u16],
    outs: &mut [u16],
    queue: &mut [u8],
    n: Progress,
) -> Progress
    requires { Ors (shown t.table) (cells ors) × (k < (shown t.table).transitions) × (top ≡ scope (shown t.table) k) }
    ensures { going result next.new vars.new outs.new queue.new ≡ do_steps pairs (enters_all (shown t.entry.table) (entereds (shown t.entry.table) next.old k)) (going n next.old vars.old outs.old queue.old) }
{
    let entered = chart_entered::entered_set(t, ors, next, k, top);
    chart_moves::enter_all(t, ors, entered, pairs, next, vars, outs, queue, n)
}

// Transition k is carried out: states are left, its own items run, states are entered. Without targets only its items run.
fn fire(
    t: Accepted,
    ors: StateSet,
    acts: StateSet,
    k: usize,
    pairs: usize,
    next: &mut [u16],
    vars: &mut [u16],
    outs: &mut [u16],
    queue: &mut [u8],
    n: Progress,
) -> Progress
    requires { Ors (shown t.table) (cells ors) × (k < (shown t.table).transitions) }
    ensures { going result next.new vars.new outs.new queue.new ≡ do_steps pairs (fires (shown t.entry.table) next.old (cells acts) k) (going n next.old vars.old outs.old queue.old) }
{
    if !chart_taken::is_scoped(t.table, k) {
        return chart_moves::take_own(t, k, pairs, vars, outs, queue, n);
    }
    let top = chart_taken::scope_of(t, k);
    let m = leave_and_take(t, ors, top, acts, k, pairs, vars, outs, queue, n);
    enter(t, ors, k, top, pairs, next, vars, outs, queue, m)
}

// The transitions of `taken`, in rising number, each on the words that those before it left: of what it reads they changed nothing.
fn fire_all(
    t: Accepted,
    ors: StateSet,
    acts: StateSet,
    taken: StateSet,
    pairs: usize,
    next: &mut [u16],
    vars: &mut [u16],
    outs: &mut [u16],
    queue: &mut [u8],
    n: Progress,
) -> Progress
    requires { Ors (shown t.table) (cells ors) × Took (shown t.table) next.old (cells taken) }
    ensures { going result next.new vars.new outs.new queue.new ≡ do_steps pairs (join_up (λ k. cond (get_or (cells taken) k false) (fires (shown t.entry.table) next.old (cells acts) k) []) (shown t.entry.table).transitions) (going n next.old vars.old outs.old queue.old) }
{
    let transitions = t.table.head(chart::TRANSITIONS);
    let mut m = n;
    let mut k = taken.next(0, transitions);
    while k < transitions {
        m = fire(t, ors, acts, k, pairs, next, vars, outs, queue, m);
        k = taken.next(k + 1, transitions);
    }
    m
}

// One microstep for trigger e, from the words of `next` to those of `next`.
pub fn run(
    t: &[u16],
    ors: StateSet,
    e: Trigger,
    pairs: usize,
    next: &mut [u16],
    vars: &mut [u16],
    outs: &mut [u16],
    queue: &mut [u8],
    n: Progress,
) -> Progress
    requires { ChartRules t.now × Ors (view t.now) (cells ors) }
    ensures { going result next.new vars.new outs.new queue.new ≡ do_steps pairs (chart_machine (view t.now) e.0 next.old vars.old) (going n next.old vars.old outs.old queue.old) }
{
    let table = Table { words: t };
    let accepted = Accepted { table };
    let acts = chart_active::active_set(accepted, ors, next);
    let taken = chart_taken::taken_set(accepted, e.0 as usize, acts, vars);
    fire_all(
        accepted, ors, acts, taken, pairs, next, vars, outs, queue, n,
    )
}
