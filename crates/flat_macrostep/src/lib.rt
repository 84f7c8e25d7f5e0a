// A macrostep of a flat table: microsteps until no signal waits, on copies of the lent state's words and variables.
#![tactic(auto)]

ghost use Rattle.std.specs.Prelude.{◌≡◌, ◌+◌, ◌*◌, ◌≤◌, length, take, drop};
ghost use Rattle.effects.specs.Run.{macrostep};
ghost use Rattle.effects.specs.Lent.{pairs_for};
ghost use Rattle.effects.specs.Work.{going, turns, fresh};
ghost use Rattle.flat.specs.Shown.{shown};
ghost use Rattle.flat.specs.View.{flat_view};
ghost use Rattle.flat_rules.specs.Rules.{FlatRules};
ghost use Rattle.flat_meaning.specs.Steps.{flat_machine};
ghost use Rattle.macrostep.specs.Ends.{handed, Ends};
ghost use Rattle.flat_macrostep.specs.Sized.{Sized};

use effects::{Counted, Progress, Stop};
use flat::Table;
use flat_rules::Accepted;
use macrostep::KEPT;
use table::Trigger;

// Microsteps until no signal waits, 64 at most. `marks` has a bit for each guard.
fn go(
    t: Accepted,
    marks: &mut [u16],
    event: Trigger,
    pairs: usize,
    next: &mut [u16],
    vars: &mut [u16],
    outs: &mut [u16],
    queue: &mut [u8],
    n: Progress,
) -> Progress
    requires { ((shown t.table).guards ≤ 16 * length marks.old) × (length next.old ≡ (shown t.table).machines) }
    ensures { going result next.new vars.new outs.new queue.new ≡ turns 64 (shown t.entry.table).events pairs (flat_machine (shown t.entry.table)) event.0 (going n next.old vars.old outs.old queue.old) }
{
    let events = words::word_in(t.table.words, flat::EVENTS);
    let mut m = n;
    let mut e = event;
    for _ in 0..64u32 {
        m = flat_microstep::run(t.table.words, marks, e, pairs, next, vars, outs, queue, m);
        m = m.one_more(Counted::Microstep);
        if m.has_ended() {
            return m;
        }
        e = m.oldest(queue, events);
        m = m.one_more(Counted::Taken);
    }
    m.stop_at(Stop::Microsteps)
}

// A macrostep from `state`, which stays as it is: words and variables afterwards are in `next` and `vars`, outputs in `outs`.
// `queue` is scratch space.
fn attempt(
    t: Accepted,
    marks: &mut [u16],
    state: &[u16],
    event: Trigger,
    pairs: usize,
    next: &mut [u16],
    vars: &mut [u16],
    outs: &mut [u16],
    queue: &mut [u8],
) -> Progress
    requires { Sized (shown t.table) marks.old state.now next.old vars.old queue.old }
    ensures { going result next.new vars.new outs.new queue.new ≡ turns 64 (shown t.entry.table).events pairs (flat_machine (shown t.entry.table)) event.0 (going fresh (take (length next.old) state.now) (drop (length next.old) state.now) outs.old queue.old) }
{
    copies::load(next, state, 0);
    copies::load(vars, state, next.len());
    go(
        t,
        marks,
        event,
        pairs,
        next,
        vars,
        outs,
        queue,
        Progress::new(),
    )
}

// A macrostep from `state`, which stays as it is. The first time it is lent as many words for its outputs as `kept` has; they
// are kept there and put back where it stops, or gives more and is gone through again with all words lent.
fn pass(
    t: Accepted,
    marks: &mut [u16],
    state: &[u16],
    event: Trigger,
    outputs: &mut [u16],
    next: &mut [u16],
    vars: &mut [u16],
    kept: &mut [u16],
    queue: &mut [u8],
) -> Progress
    requires { Sized (shown t.table) marks.old state.now next.old vars.old queue.old × (length kept.old ≤ length outputs.old) }
    ensures { Ends (λ words. words) state.now outputs.old result (handed (λ words. words) result next.new vars.new state.now) outputs.new (macrostep (shown t.entry.table).events (pairs_for (length outputs.old)) (flat_machine (shown t.entry.table)) event.0 (take (length next.old) state.now) (drop (length next.old) state.now)) }
{
    let all = outputs.len();
    let pairs = copies::pairs_of(all);
    let first = kept.len();
    copies::load(kept, outputs, 0);
    let mut lent = first;
    loop {
        let n = attempt(
            t,
            marks,
            state,
            event,
            pairs,
            next,
            vars,
            &mut outputs[..lent],
            queue,
        );
        if macrostep::is_told(n, lent) {
            return n;
        }
        copies::load(&mut outputs[..first], kept, 0);
        if n.is_stopped() {
            return n;
        }
        lent = all;
    }
}

// A macrostep on `state`, as `run` says it. The last four slices are scratch space.
fn run_on(
    t: Accepted,
    marks: &mut [u16],
    state: &mut [u16],
    event: Trigger,
    outputs: &mut [u16],
    next: &mut [u16],
    vars: &mut [u16],
    kept: &mut [u16],
    queue: &mut [u8],
) -> Progress
    requires { Sized (shown t.table) marks.old state.old next.old vars.old queue.old × (length kept.old ≤ length outputs.old) }
    ensures { Ends (λ words. words) state.old outputs.old result state.new outputs.new (macrostep (shown t.entry.table).events (pairs_for (length outputs.old)) (flat_machine (shown t.entry.table)) event.0 (take (length next.old) state.old) (drop (length next.old) state.old)) }
{
    let n = pass(t, marks, state, event, outputs, next, vars, kept, queue);
    if n.is_stopped() {
        return n;
    }
    copies::lay(next, state);
    copies::store(state, next.len(), vars);
    n
}

// A macrostep on `state`, whose first `words` words are the machines' and whose others are variables. It becomes the state after
// the macrostep, and `outputs` gets what was given; one that stops leaves both as they were. `marks` has a bit for each guard.
pub fn run(
    t: &[u16],
    marks: &mut [u16],
    words: usize,
    state: &mut [u16],
    event: Trigger,
    outputs: &mut [u16],
) -> Progress
    requires { FlatRules t.now × ((flat_view t.now).guards ≤ 16 * length marks.old) × (words ≡ (flat_view t.now).machines) × (words ≤ 24) × (words ≤ length state.old) × (length state.old ≤ words + 16) }
    ensures { Ends (λ words. words) state.old outputs.old result state.new outputs.new (macrostep (flat_view t.now).events (pairs_for (length outputs.old)) (flat_machine (flat_view t.now)) event.0 (take words state.old) (drop words state.old)) }
{
    let table = Table { words: t };
    let accepted = Accepted { table };
    let v = state.len() - words;
    let first = macrostep::first_of(outputs.len());
    let mut next = [0u16; 24];
    let mut vars = [0u16; 16];
    let mut kept = [0u16; KEPT];
    let mut queue = [0u8; 32];
    run_on(
        accepted,
        marks,
        state,
        event,
        outputs,
        &mut next[..words],
        &mut vars[..v],
        &mut kept[..first],
        &mut queue,
    )
}
