// The numbers that a flat table's records name: flat states, and the guards of active states, taken transitions and entered
// states. They are worked out once, into arrays. specs/Numbered.antt says what the arrays hold. Every function is for an
// accepted chart.
#![tactic(auto)]

ghost use Rattle.std.specs.Prelude.{◌≡◌, cond, ℕ, suc, ◌+◌, ◌<◌, ◌≤◌, length, set};
ghost use Rattle.chart.specs.Shown.{shown};
ghost use Rattle.chart.specs.View.{is_and};
ghost use Rattle.states.specs.Cells.{cells};
ghost use Rattle.chart_meaning.specs.Scope.{scope};
ghost use Rattle.flatten_meaning.specs.Numbers.{and_states};
ghost use Rattle.flatten_meaning.specs.Flattened.{active_guard, active_guards, taken_guards, entered_guard};
ghost use Rattle.flatten_numbers.specs.Numbered.{AskedStates, ForkStates, AndRanks, ActiveNumbers, TakenNumbers, Refers, EntriesOf};
ghost use Rattle.flatten_numbers.specs.Above.{above_in};
ghost use Rattle.flatten_numbers.specs.Those.{NumberedStates};

use chart_rules::Accepted;
use states::StateSet;

// What is worked out of a transition: its scope, the states that it enters by a rule, those with a guard of their own, and the
// first guard of the next transition.
#[derive(Clone, Copy)]
pub struct Entries {
    pub top: usize,
    pub comes: StateSet,
    pub forks: StateSet,
    pub next: usize,
}

// Cell i becomes x.
fn put_number(numbers: &mut [u16], i: usize, x: usize)
    requires { x < 65536 }
    ensures { numbers.new ≡ set numbers.old i x }
{
    words::put(numbers, i, x as u16);
}

// The numbers of the states that pass a test: how many of them are before each state; and how many there are.
fn number_those<F: Fn(usize) -> bool>(t: Accepted, test: F, numbers: &mut [u16]) -> usize
    requires room { 48 ≤ length numbers.old }
    requires callable { (j : ℕ) → j < (shown t.table).states → F.pre test j }
    ensures few { result ≤ 48 }
    ensures numbers { NumberedStates (shown t.entry.table) (F.post test) result numbers.new }
{
    let mut r = 0;
    for j in 0..words::number(t.table.words, chart::STATES) {
        put_number(numbers, j, r);
        r += usize::from(test(j));
    }
    r
}

// The flat states of the and-states, by their numbers; and how many there are.
pub fn and_ranks(t: Accepted, ands: &mut [u16]) -> usize
    requires { 48 ≤ length ands.old }
    ensures is { result ≡ and_states (shown t.entry.table) }
    ensures few { result ≤ 48 }
    ensures ranks { AndRanks (shown t.entry.table) ands.new }
{
    number_those(t, |j| t.table.is_and(j), ands)
}

// The guards of active states, of which `asked` has those that are asked for; and how many there are.
pub fn active_numbers(t: Accepted, asked: StateSet, actives: &mut [u16]) -> usize
    requires { AskedStates (shown t.table) (cells asked) × (48 ≤ length actives.old) }
    ensures is { result ≡ active_guards (shown t.entry.table) }
    ensures few { result ≤ 48 }
    ensures numbers { ActiveNumbers (shown t.entry.table) actives.new }
{
    number_those(t, |j| asked.has(j), actives)
}

// The guard of transition k's being taken: if it is bare that of its source, else the next one.
fn taken_number(t: Accepted, k: usize, actives: &[u16], bare: bool, next: usize) -> usize
    requires { (k < (shown t.table).transitions) × ActiveNumbers (shown t.table) actives.now × (next < 65536) }
    ensures is { result ≡ cond bare (active_guard (shown t.entry.table) ((shown t.entry.table).source k)) next }
    ensures small { result < 65536 }
{
    if bare {
        return words::number(actives, t.table.transition_word(k, chart::SOURCE));
    }
    next
}

// The guards of taken transitions, of which the first new one is `first`; and the number behind the last.
pub fn taken_numbers(t: Accepted, actives: &[u16], first: usize, takens: &mut [u16]) -> usize
    requires { ActiveNumbers (shown t.table) actives.now × (first ≡ active_guards (shown t.table)) × (48 ≤ length takens.old) }
    ensures is { result ≡ active_guards (shown t.entry.table) + taken_guards (shown t.entry.table) }
    ensures few { result ≤ 96 }
    ensures numbers { TakenNumbers (shown t.entry.table) takens.new }
{
    let mut next = first;
    for k in 0..words::number(t.table.words, chart::TRANSITIONS) {
        let bare = flatten_pairs::is_bare(t, k);
        put_number(takens, k, taken_number(t, k, actives, bare, next));
        next += usize::from(!bare);
    }
    next
}

// The guard of what is above state j, for a transition with the scope `top` and the guard `taken`; `refers` has those of the
// states before j.
pub fn above_number(t: Accepted, top: usize, j: usize, taken: usize, refers: &[u16]) -> usize
    requires { (j < (shown t.table).states) × ((shown t.table).parent j < (shown t.table).states) × (taken < 65536) }
    ensures is { result ≡ above_in (shown t.entry.table) top taken j refers.now }
    ensures small { result < 65536 }
{
    let o = t.table.state_word(j, chart::PARENT);
    if o == top {
        return taken;
    }
    if o == 0 {
        return 0;
    }
    words::number(refers, t.table.state_word(o, chart::PARENT))
}

// The guard that says whether state j is entered: the next one where j has its own, else that of what is above it.
fn refer_number(
    t: Accepted,
    top: usize,
    j: usize,
    taken: usize,
    fork: bool,
    next: usize,
    refers: &[u16],
) -> usize
    requires { (j < (shown t.table).states) × (taken < 65536) × (next < 65536) }
    ensures is { result ≡ cond (is_and (shown t.entry.table) j) (cond fork next (above_in (shown t.entry.table) top taken j refers.now)) 0 }
    ensures small { result < 65536 }
{
    if !t.table.is_and(j) {
        return 0;
    }
    if fork {
        return next;
    }
    above_number(t, top, j, taken, refers)
}

// The guards that transition k refers to, whose scope is `top`; `forks` has the states with a guard of their own, of which the
// first is `first`. And the number behind the last.
fn refer_numbers(
    t: Accepted,
    k: usize,
    top: usize,
    forks: StateSet,
    takens: &[u16],
    first: usize,
    refers: &mut [u16],
) -> usize
    requires { (k < (shown t.table).transitions) × (top ≡ scope (shown t.table) k) × ForkStates (shown t.table) k (cells forks) × TakenNumbers (shown t.table) takens.now × (first ≡ entered_guard (shown t.table) k 0) × (48 ≤ length refers.old) }
    ensures is { result ≡ entered_guard (shown t.entry.table) (suc k) 0 }
    ensures numbers { Refers (shown t.entry.table) k refers.new }
{
    let taken = words::number(takens, k);
    let mut next = first;
    for j in 0..words::number(t.table.words, chart::STATES) {
        let fork = forks.has(j);
        let x = refer_number(t, top, j, taken, fork, next, refers);
        put_number(refers, j, x);
        next += usize::from(fork);
    }
    next
}

// What is worked out of transition k, whose first entry guard is `first`; the guards that it refers to go into `refers`.
pub fn entries_of(
    t: Accepted,
    k: usize,
    takens: &[u16],
    first: usize,
    refers: &mut [u16],
) -> Entries
    requires { (k < (shown t.table).transitions) × TakenNumbers (shown t.table) takens.now × (first ≡ entered_guard (shown t.table) k 0) × (48 ≤ length refers.old) }
    ensures is { EntriesOf (shown t.entry.table) k result }
    ensures numbers { Refers (shown t.entry.table) k refers.new }
{
    let top = chart_taken::scope_of(t, k);
    let may = flatten_sets::may_set(t, k, top);
    let comes = flatten_sets::comes_set(t, k, may);
    let forks = flatten_sets::forks_set(t, k, may, comes);
    let next = refer_numbers(t, k, top, forks, takens, first, refers);
    Entries {
        top,
        comes,
        forks,
        next,
    }
}
