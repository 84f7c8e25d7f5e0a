// A macrostep of a chart: microsteps until no signal waits, on copies of the lent state's words and variables.
#![tactic(auto)]

ghost use Rattle.std.specs.Prelude.{◌≡◌, ◌≤◌, length, take, drop};
ghost use Rattle.effects.specs.Run.{macrostep};
ghost use Rattle.effects.specs.Lent.{pairs_for, zeros};
ghost use Rattle.effects.specs.Work.{going, turns};
ghost use Rattle.chart.specs.Shown.{shown};
ghost use Rattle.chart.specs.View.{view};
ghost use Rattle.chart_rules.specs.Rules.{ChartRules};
ghost use Rattle.states.specs.Cells.{cells};
ghost use Rattle.chart_active.specs.Ors.{Ors};
ghost use Rattle.chart_meaning.specs.Steps.{chart_machine, rest};
ghost use Rattle.macrostep.specs.Ends.{Ends};
ghost use Rattle.chart_macrostep.specs.Tried.{Lent, Tried};

use chart::Table;
use chart_rules::Accepted;
use effects::{Counted, Progress, Stop};
use macrostep::KEPT;
use states::StateSet;
use table::Trigger;

// Microsteps until no signal waits, 64 at most.
fn go(
    t: Accepted,
    ors: StateSet,
    event: Trigger,
    pairs: usize,
    next: &mut [u16],
    vars: &mut [u16],
    outs: &mut [u16],
    queue: &mut [u8],
    n: Progress,
) -> Progress
    requires { Ors (shown t.table) (cells ors) }
    ensures { going result next.new vars.new outs.new queue.new ≡ turns 64 (shown t.entry.table).events pairs (chart_machine (shown t.entry.table)) event.0 (going n next.old vars.old outs.old queue.old) }
{
    let events = words::word_in(t.table.words, chart::EVENTS);
    let mut m = n;
    let mut e = event;
    for _ in 0..64u32 {
        m = chart_microstep::run(t.table.words, ors, e, pairs, next, vars, outs, queue, m);
        m = m.one_more(Counted::Microstep);
        if m.has_ended() {
            return m;
        }
        e = m.oldest(queue, events);
        m = m.one_more(Counted::Taken);
    }
    m.stop_at(Stop::Microsteps)
}

// A macrostep from `state`, which is handed back where it is told with the words of `outs`, and else stays as it is. `next`, `vars`
// and `queue` are scratch space.
fn attempt_on(
    t: Accepted,
    ors: StateSet,
    words: usize,
    state: &mut [u16],
    event: Trigger,
    pairs: usize,
    next: &mut [u16],
    vars: &mut [u16],
    outs: &mut [u16],
    queue: &mut [u8],
) -> Progress
    requires { Lent (shown t.table) (cells ors) words state.old × (length next.old ≡ 24) × (length vars.old ≡ 16) }
    ensures { Tried (shown t.entry.table) pairs event.0 state.old outs.old queue.old result state.new outs.new }
{
    let v = t.table.head(chart::VARIABLES);
    copies::load(&mut next[..words], state, 0);
    copies::load(&mut vars[..v], state, words);
    let n = go(
        t,
        ors,
        event,
        pairs,
        &mut next[..words],
        &mut vars[..v],
        outs,
        queue,
        Progress::new(),
    );
    if macrostep::is_told(n, outs.len()) {
        chart_state::lay_rest(t, ors, &next[..words], &mut state[..words]);
        copies::store(state, words, &vars[..v]);
    }
    n
}

// A macrostep from `state`, in space of its own: it is free again when a second one is tried.
fn attempt(
    t: Accepted,
    ors: StateSet,
    words: usize,
    state: &mut [u16],
    event: Trigger,
    pairs: usize,
    outs: &mut [u16],
) -> Progress
    requires { Lent (shown t.table) (cells ors) words state.old }
    ensures { Tried (shown t.entry.table) pairs event.0 state.old outs.old (zeros 32) result state.new outs.new }
{
    let mut next = [0u16; 24];
    let mut vars = [0u16; 16];
    let mut queue = [0u8; 32];
    attempt_on(
        t, ors, words, state, event, pairs, &mut next, &mut vars, outs, &mut queue,
    )
}

// A macrostep on `state`, as `run` says it. The first time it is lent as many words for its outputs as `kept` has; they are kept there
// and put back where it stops, or gives more and is gone through again with all words lent. Both times come to one variable: with a
// second one the compiler takes 16 bytes of stack more.
fn pass(
    t: Accepted,
    ors: StateSet,
    words: usize,
    state: &mut [u16],
    event: Trigger,
    outputs: &mut [u16],
    kept: &mut [u16],
) -> Progress
    requires { Lent (shown t.table) (cells ors) words state.old × (length kept.old ≤ length outputs.old) }
    ensures { Ends (rest (shown t.entry.table)) state.old outputs.old result state.new outputs.new (macrostep (shown t.entry.table).events (pairs_for (length outputs.old)) (chart_machine (shown t.entry.table)) event.0 (take words state.old) (drop words state.old)) }
{
    let all = outputs.len();
    let pairs = copies::pairs_of(all);
    let first = kept.len();
    copies::load(kept, outputs, 0);
    let mut n = attempt(t, ors, words, state, event, pairs, &mut outputs[..first]);
    if macrostep::is_told(n, first) {
        return n;
    }
    copies::load(&mut outputs[..first], kept, 0);
    if n.is_stopped() {
        return n;
    }
    n = attempt(t, ors, words, state, event, pairs, outputs);
    n
}

// A macrostep on `state`, which has `words` words before its variables. It becomes the state after the macrostep, and `outputs` gets
// what was given; one that stops leaves both as they were.
pub fn run(
    t: &[u16],
    ors: StateSet,
    words: usize,
    state: &mut [u16],
    event: Trigger,
    outputs: &mut [u16],
) -> Progress
    requires { ChartRules t.now × Lent (view t.now) (cells ors) words state.old }
    ensures { Ends (rest (view t.now)) state.old outputs.old result state.new outputs.new (macrostep (view t.now).events (pairs_for (length outputs.old)) (chart_machine (view t.now)) event.0 (take words state.old) (drop words state.old)) }
{
    let table = Table { words: t };
    let accepted = Accepted { table };
    let first = macrostep::first_of(outputs.len());
    let mut kept = [0u16; KEPT];
    pass(
        accepted,
        ors,
        words,
        state,
        event,
        outputs,
        &mut kept[..first],
    )
}
