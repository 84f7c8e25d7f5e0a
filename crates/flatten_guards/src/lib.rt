// The two sections of a flat table that tell the guards: their spans and their literals. One walk over the guards lays
// either. Every function is for an accepted chart.
#![tactic(auto)]

ghost use Rattle.std.specs.Prelude.{ℕ, ◌≡◌, List, [], ◌∷◌, ◌+◌, ◌-◌, ◌*◌, ◌/◌, ◌<◌, ◌≤◌};
ghost use Rattle.std.specs.Borrow.{MutBor};
ghost use Rattle.words.specs.Loops.{join_up};
ghost use Rattle.flat.specs.declared.FlatLiteral.{FlatLiteral};
ghost use Rattle.chart.specs.Shown.{shown};
ghost use Rattle.states.specs.Cells.{cells};
ghost use Rattle.chart_meaning.specs.Scope.{scope};
ghost use Rattle.flatten_meaning.specs.Flattened.{entered_guard, entered_guards_of, all_guards};
ghost use Rattle.flatten_numbers.specs.Numbered.{AskedStates, ForkStates, AndRanks, ActiveNumbers, TakenNumbers, Refers};
ghost use Rattle.flatten_laying.specs.Lay.{lay};
ghost use Rattle.flatten_guards.specs.Parts.{part, moved};
ghost use Rattle.flatten_guards.specs.Penned.{Penned, Puts, stepped, Within, of_active, of_taken, of_entered};

use chart_rules::Accepted;
use states::StateSet;

// Where the next word goes, and the number of the next literal.
#[derive(Clone, Copy)]
pub struct Pen {
    pub at: usize,
    pub first: usize,
}

// The pen behind a guard's literals, which are laid up to word `end`.
fn behind(pen: Pen, end: usize) -> Pen
    requires { (pen.at ≤ end) × (end < 1000000) × (pen.first < 60000) }
    ensures { result ≡ stepped pen end ((end - pen.at) / 3) }
{
    Pen {
        at: end,
        first: pen.first + (end - pen.at) / 3,
    }
}

// The span of a guard whose literals have `end` words.
fn put_size(room: &mut [u16], pen: Pen, end: usize) -> Pen
    requires { (pen.at < 1000000) × (pen.first < 60000) × (end < 1000) }
    ensures pen { result ≡ stepped pen (pen.at + 2) (end / 3) }
    ensures room { room.new ≡ lay pen.at (pen.first ∷ end / 3 ∷ []) room.old }
{
    let size = end / 3;
    let next = flatten_laying::put_span(room, pen.at, pen.first as u16, size as u16);
    Pen {
        at: next,
        first: pen.first + size,
    }
}

// One guard, whose literals `put` lays: its span, where they are counted in an empty room, or these literals.
fn lay_guard<F: Fn(&mut [u16], usize) -> usize>(
    spans: bool,
    put: F,
    room: &mut [u16],
    pen: Pen,
) -> Pen
    requires place { (pen.at < 400000) × (pen.first < 50000) }
    requires may { (some : MutBor (List ℕ)) (at : ℕ) → at < 400000 → F.pre put some at }
    requires puts { (g : List FlatLiteral) × (most : ℕ) × (most ≤ 57) × Puts (F.post put) g most }
    ensures guards { (g : List FlatLiteral) (most : ℕ) → Puts (F.post put) g most → Penned spans (g ∷ []) pen room.old result room.new }
    ensures few { (g : List FlatLiteral) (most : ℕ) → 0 < most → Puts (F.post put) g most → Within (3 * most) most pen result }
{
    if spans {
        let mut nothing = [0u16; 0];
        let end = put(&mut nothing, 0);
        return put_size(room, pen, end);
    }
    let end = put(room, pen.at);
    behind(pen, end)
}

// The guard of state j's being active, where it is asked for.
fn lay_active(
    spans: bool,
    t: Accepted,
    asked: StateSet,
    j: usize,
    ands: &[u16],
    actives: &[u16],
    room: &mut [u16],
    pen: Pen,
) -> Pen
    requires { (j < (shown t.table).states) × AskedStates (shown t.table) (cells asked) × AndRanks (shown t.table) ands.now × ActiveNumbers (shown t.table) actives.now × (pen.at < 400000) × (pen.first < 50000) }
    ensures guards { Penned spans (of_active (shown t.entry.table) j) pen room.old result room.new }
    ensures few { Within 6 2 pen result }
{
    if !asked.has(j) {
        return pen;
    }
    let put = |some: &mut [u16], at: usize| {
        flatten_literals::put_active(some, at, t, j, ands, actives)
    };
    lay_guard(spans, put, room, pen)
}

// The guards of states that are active.
fn lay_actives(
    spans: bool,
    t: Accepted,
    asked: StateSet,
    ands: &[u16],
    actives: &[u16],
    room: &mut [u16],
    pen: Pen,
) -> Pen
    requires { AskedStates (shown t.table) (cells asked) × AndRanks (shown t.table) ands.now × ActiveNumbers (shown t.table) actives.now × (pen.at < 300000) × (pen.first < 40000) }
    ensures guards { Penned spans (join_up (of_active (shown t.entry.table)) (shown t.entry.table).states) pen room.old result room.new }
    ensures few { Within 288 96 pen result }
{
    let mut next = pen;
    for j in 0..words::number(t.table.words, chart::STATES) {
        next = lay_active(spans, t, asked, j, ands, actives, room, next);
    }
    next
}

// The guard of transition k's being taken, where it asks for more than its source.
fn lay_taken(
    spans: bool,
    t: Accepted,
    k: usize,
    actives: &[u16],
    takens: &[u16],
    room: &mut [u16],
    pen: Pen,
) -> Pen
    requires { (k < (shown t.table).transitions) × ActiveNumbers (shown t.table) actives.now × TakenNumbers (shown t.table) takens.now × (pen.at < 400000) × (pen.first < 50000) }
    ensures guards { Penned spans (of_taken (shown t.entry.table) k) pen room.old result room.new }
    ensures few { Within 171 57 pen result }
{
    if flatten_pairs::is_bare(t, k) {
        return pen;
    }
    let put = |some: &mut [u16], at: usize| {
        flatten_literals::put_taken(some, at, t, k, actives, takens)
    };
    lay_guard(spans, put, room, pen)
}

// The guards of transitions that are taken.
fn lay_takens(
    spans: bool,
    t: Accepted,
    actives: &[u16],
    takens: &[u16],
    room: &mut [u16],
    pen: Pen,
) -> Pen
    requires { ActiveNumbers (shown t.table) actives.now × TakenNumbers (shown t.table) takens.now × (pen.at < 300000) × (pen.first < 40000) }
    ensures guards { Penned spans (join_up (of_taken (shown t.entry.table)) (shown t.entry.table).transitions) pen room.old result room.new }
    ensures few { Within 8208 2736 pen result }
{
    let mut next = pen;
    for k in 0..words::number(t.table.words, chart::TRANSITIONS) {
        next = lay_taken(spans, t, k, actives, takens, room, next);
    }
    next
}

// The guard of transition k's entering state j, where history decides on it; the transition's scope is `top`.
fn lay_entered(
    spans: bool,
    t: Accepted,
    k: usize,
    top: usize,
    forked: StateSet,
    j: usize,
    ands: &[u16],
    takens: &[u16],
    refers: &[u16],
    room: &mut [u16],
    pen: Pen,
) -> Pen
    requires { (k < (shown t.table).transitions) × (top ≡ scope (shown t.table) k) × ForkStates (shown t.table) k (cells forked) × (j < (shown t.table).states) × AndRanks (shown t.table) ands.now × TakenNumbers (shown t.table) takens.now × Refers (shown t.table) k refers.now × (pen.at < 400000) × (pen.first < 50000) }
    ensures guards { Penned spans (of_entered (shown t.entry.table) k j) pen room.old result room.new }
    ensures few { Within 6 2 pen result }
{
    if !forked.has(j) {
        return pen;
    }
    let put = |some: &mut [u16], at: usize| {
        flatten_literals::put_entered(some, at, t, k, top, j, ands, takens, refers)
    };
    lay_guard(spans, put, room, pen)
}

// The guards of states that transition k enters.
fn lay_forks(
    spans: bool,
    t: Accepted,
    k: usize,
    top: usize,
    forked: StateSet,
    ands: &[u16],
    takens: &[u16],
    refers: &[u16],
    room: &mut [u16],
    pen: Pen,
) -> Pen
    requires { (k < (shown t.table).transitions) × (top ≡ scope (shown t.table) k) × ForkStates (shown t.table) k (cells forked) × AndRanks (shown t.table) ands.now × TakenNumbers (shown t.table) takens.now × Refers (shown t.table) k refers.now × (pen.at < 350000) × (pen.first < 45000) }
    ensures guards { Penned spans (entered_guards_of (shown t.entry.table) k) pen room.old result room.new }
    ensures few { Within 288 96 pen result }
{
    let mut next = pen;
    for j in 0..words::number(t.table.words, chart::STATES) {
        next = lay_entered(
            spans, t, k, top, forked, j, ands, takens, refers, room, next,
        );
    }
    next
}

// The guards of states that are entered, of which number `first` is the first.
fn lay_entries(
    spans: bool,
    t: Accepted,
    ands: &[u16],
    takens: &[u16],
    first: usize,
    room: &mut [u16],
    pen: Pen,
) -> Pen
    requires { AndRanks (shown t.table) ands.now × TakenNumbers (shown t.table) takens.now × (first ≡ entered_guard (shown t.table) 0 0) × (pen.at < 300000) × (pen.first < 40000) }
    ensures guards { Penned spans (join_up (entered_guards_of (shown t.entry.table)) (shown t.entry.table).transitions) pen room.old result room.new }
    ensures few { Within 13824 4608 pen result }
{
    let mut refers = [0u16; 48];
    let mut number = first;
    let mut next = pen;
    for k in 0..words::number(t.table.words, chart::TRANSITIONS) {
        let e = flatten_numbers::entries_of(t, k, takens, number, &mut refers);
        next = lay_forks(
            spans, t, k, e.top, e.forks, ands, takens, &refers, room, next,
        );
        number = e.next;
    }
    next
}

// All guards, into one of the two sections: their spans, or their literals. The first guard of a state that is entered is
// number `first`.
pub fn lay_guards(
    spans: bool,
    t: Accepted,
    asked: StateSet,
    ands: &[u16],
    actives: &[u16],
    takens: &[u16],
    first: usize,
    room: &mut [u16],
    pen: Pen,
) -> Pen
    requires { AskedStates (shown t.table) (cells asked) × AndRanks (shown t.table) ands.now × ActiveNumbers (shown t.table) actives.now × TakenNumbers (shown t.table) takens.now × (first ≡ entered_guard (shown t.table) 0 0) × (pen.at < 100000) × (pen.first < 10000) }
    ensures pen { result ≡ moved spans (all_guards (shown t.entry.table)) pen }
    ensures room { room.new ≡ lay pen.at (part spans pen.first (all_guards (shown t.entry.table))) room.old }
{
    let active = lay_actives(spans, t, asked, ands, actives, room, pen);
    let taken = lay_takens(spans, t, actives, takens, room, active);
    lay_entries(spans, t, ands, takens, first, room, taken)
}
