// The literals of one guard of a flat table, laid into a room. Each function says where the next word goes; laid into an
// empty room they are counted. Every function is for an accepted chart.
#![tactic(auto, unfolding(flatten_meaning::specs::Encoded::literal_triple))]

ghost use Rattle.std.specs.Prelude.{◌≡◌, true, [], ◌∷◌, map, ◌+◌, ◌<◌, ◌≤◌};
ghost use Rattle.words.specs.Loops.{join_up, when};
ghost use Rattle.flat.specs.declared.FlatLiteral.TheVariants.{Current, Holds, Fails};
ghost use Rattle.chart.specs.Shown.{shown};
ghost use Rattle.chart.specs.View.{view, is_and};
ghost use Rattle.chart_meaning.specs.Scope.{scope};
ghost use Rattle.chart_meaning.specs.Taken.{literals_of};
ghost use Rattle.flatten_meaning.specs.Flattened.{active_literals, flat_literal, blocks, taken_guard, taken_literals, entered_literals};
ghost use Rattle.flatten_literals.specs.Named.{names_and_state?};
ghost use Rattle.flatten_numbers.specs.Numbered.{AndRanks, ActiveNumbers, TakenNumbers, Refers};
ghost use Rattle.flatten_literals.specs.Told.{Told};

use chart::Literal;
use chart_rules::Accepted;

// "State a is current."
fn put_current(room: &mut [u16], at: usize, a: u16) -> usize
    requires { at < 1000000 }
    ensures told { Told at (Current a ∷ []) room.old result room.new }
    ensures few { result ≤ at + 3 }
{
    flatten_laying::put_triple(room, at, 0, a, 0)
}

// "Guard a is true."
fn put_holds(room: &mut [u16], at: usize, a: u16) -> usize
    requires { at < 1000000 }
    ensures told { Told at (Holds a ∷ []) room.old result room.new }
    ensures few { result ≤ at + 3 }
{
    flatten_laying::put_triple(room, at, 4, a, 0)
}

// "Guard a is false."
fn put_fails(room: &mut [u16], at: usize, a: u16) -> usize
    requires { at < 1000000 }
    ensures told { Told at (Fails a ∷ []) room.old result room.new }
    ensures few { result ≤ at + 3 }
{
    flatten_laying::put_triple(room, at, 5, a, 0)
}

// State j is active: it is current, and the and-state two levels up is active.
pub fn put_active(
    room: &mut [u16],
    at: usize,
    t: Accepted,
    j: usize,
    ands: &[u16],
    actives: &[u16],
) -> usize
    requires { (j < (shown t.table).states) × (is_and (shown t.table) j ≡ true) × AndRanks (shown t.table) ands.now × ActiveNumbers (shown t.table) actives.now × (at < 500000) }
    ensures told { Told at (active_literals (shown t.entry.table) j) room.old result room.new }
    ensures few { result ≤ at + 6 }
{
    let next = put_current(room, at, words::word(ands, j));
    let o = t.table.state_word(j, chart::PARENT);
    if o == 0 {
        return next;
    }
    put_holds(
        room,
        next,
        words::word(actives, t.table.state_word(o, chart::PARENT)),
    )
}

// A literal of the chart: a state's being active is its guard.
#[tactic(auto, unfolding(flatten_meaning::specs::Encoded::literal_triple, flatten_meaning::specs::Flattened::flat_literal))]
fn put_flat(room: &mut [u16], at: usize, t: &[u16], actives: &[u16], literal: Literal) -> usize
    requires { ActiveNumbers (view t.now) actives.now × (names_and_state? (view t.now) literal ≡ true) × (at < 1000000) }
    ensures told { Told at (flat_literal (view t.now) literal ∷ []) room.old result room.new }
    ensures few { result ≤ at + 3 }
{
    match literal {
        Literal::Active(a) => put_holds(room, at, words::word(actives, words::wide(a))),
        Literal::NotActive(a) => put_fails(room, at, words::word(actives, words::wide(a))),
        Literal::AtLeast(a, b) => flatten_laying::put_triple(room, at, 2, a, b),
        Literal::Less(a, b) => flatten_laying::put_triple(room, at, 3, a, b),
    }
}

// The literals that transition k asks.
fn put_asked(room: &mut [u16], at: usize, t: Accepted, k: usize, actives: &[u16]) -> usize
    requires { (k < (shown t.table).transitions) × ActiveNumbers (shown t.table) actives.now × (at < 600000) }
    ensures told { Told at (map (flat_literal (shown t.entry.table)) (literals_of (shown t.entry.table) k)) room.old result room.new }
    ensures few { result ≤ at + 24 }
{
    let first = t.table.transition_word(k, chart::ASKS);
    let count = t.table.transition_word(k, chart::ASKS + 1);
    let mut next = at;
    for i in 0..count {
        next = put_flat(
            room,
            next,
            t.table.words,
            actives,
            t.table.literal_at(first + i),
        );
    }
    next
}

// Transition s is not taken, where it blocks k.
fn put_blocker(
    room: &mut [u16],
    at: usize,
    t: Accepted,
    s: usize,
    k: usize,
    takens: &[u16],
) -> usize
    requires { (s < (shown t.table).transitions) × (k < (shown t.table).transitions) × TakenNumbers (shown t.table) takens.now × (at < 1000000) }
    ensures told { Told at (when (blocks (shown t.entry.table) s k) (Fails (taken_guard (shown t.entry.table) s))) room.old result room.new }
    ensures few { result ≤ at + 3 }
{
    if !flatten_pairs::does_block(t, s, k) {
        return at;
    }
    put_fails(room, at, words::word(takens, s))
}

// No transition before k that blocks it is taken.
fn put_blockers(room: &mut [u16], at: usize, t: Accepted, k: usize, takens: &[u16]) -> usize
    requires { (k < (shown t.table).transitions) × TakenNumbers (shown t.table) takens.now × (at < 600000) }
    ensures told { Told at (join_up (λ s. when (blocks (shown t.entry.table) s k) (Fails (taken_guard (shown t.entry.table) s))) k) room.old result room.new }
    ensures few { result ≤ at + 144 }
{
    let mut next = at;
    for s in 0..k {
        next = put_blocker(room, next, t, s, k, takens);
    }
    next
}

// Transition k is taken: its source is active, what it asks holds, and nothing that blocks it is taken.
pub fn put_taken(
    room: &mut [u16],
    at: usize,
    t: Accepted,
    k: usize,
    actives: &[u16],
    takens: &[u16],
) -> usize
    requires { (k < (shown t.table).transitions) × ActiveNumbers (shown t.table) actives.now × TakenNumbers (shown t.table) takens.now × (at < 500000) }
    ensures told { Told at (taken_literals (shown t.entry.table) k) room.old result room.new }
    ensures few { result ≤ at + 171 }
{
    let source = t.table.transition_word(k, chart::SOURCE);
    let asked = put_holds(room, at, words::word(actives, source));
    let next = put_asked(room, asked, t, k, actives);
    put_blockers(room, next, t, k, takens)
}

// Transition k, if it is taken, enters j, which history decides: it enters the and-state above j, and j is current.
pub fn put_entered(
    room: &mut [u16],
    at: usize,
    t: Accepted,
    k: usize,
    top: usize,
    j: usize,
    ands: &[u16],
    takens: &[u16],
    refers: &[u16],
) -> usize
    requires { (k < (shown t.table).transitions) × (j < (shown t.table).states) × (is_and (shown t.table) j ≡ true) × (top ≡ scope (shown t.table) k) × AndRanks (shown t.table) ands.now × TakenNumbers (shown t.table) takens.now × Refers (shown t.table) k refers.now × (at < 500000) }
    ensures told { Told at (entered_literals (shown t.entry.table) k j) room.old result room.new }
    ensures few { result ≤ at + 6 }
{
    let taken = words::number(takens, k);
    let up = flatten_numbers::above_number(t, top, j, taken, refers);
    if up == taken {
        return put_current(room, at, words::word(ands, j));
    }
    let next = put_holds(room, at, up as u16);
    put_current(room, next, words::word(ands, j))
}
