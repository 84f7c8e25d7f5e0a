// Lent words of an accepted chart: when they are a state of it, and how its words are handed back and started.
#![tactic(auto)]

ghost use Rattle.std.specs.Prelude.{◌≡◌, true, false, ◌++◌, ◌<◌, ◌≤◌, length, get_or, drop};
ghost use Rattle.words.specs.Loops.{all_below};
ghost use Rattle.chart.specs.Shown.{shown};
ghost use Rattle.states.specs.Cells.{cells};
ghost use Rattle.chart_meaning.specs.Active.{is_or, or_rank, active};
ghost use Rattle.chart_meaning.specs.Steps.{rest_word, rest};
ghost use Rattle.chart_meaning.specs.State.{or_states, good_word?, state_of?, start_words};
ghost use Rattle.chart_active.specs.Ors.{Ors};
ghost use Rattle.chart_state.specs.Laid.{laid};

use chart::Table;
use chart_rules::Accepted;
use states::StateSet;

// Whether or-state o's word, at place r, is good in `current`, whose active states are `acts`.
fn good_word(t: Accepted, current: &[u16], acts: StateSet, o: usize, r: usize) -> bool
    requires { (o < (shown t.table).states) × (is_or (shown t.table) o ≡ true) × (r ≡ or_rank (shown t.table) o) × (get_or (cells acts) o false ≡ active (shown t.table) current.now o) }
    ensures { result ≡ good_word? (shown t.entry.table) current.now o }
{
    let child = chart_active::child_of(t.table, current, o, r);
    if acts.has_in(o) {
        return t.table.is_child(o, child);
    }
    if chart_active::keeps_word(t.table, o) {
        return t.table.is_child(o, child);
    }
    child == t.table.state_word(o, chart::INITIAL)
}

// Whether every or-state's word is good.
fn good_words(t: Accepted, ors: StateSet, current: &[u16]) -> bool
    requires { Ors (shown t.table) (cells ors) }
    ensures { result ≡ all_below (good_word? (shown t.entry.table) current.now) (shown t.entry.table).states }
{
    let n = t.table.head(chart::STATES);
    let mut acts = StateSet::none();
    let mut r = 0;
    let mut o = 0;
    while o < n {
        acts = chart_active::show(t.table.words, current, acts, o, r);
        if !good_word(t, current, acts, o, r) {
            return false;
        }
        r += 1;
        o = ors.next(o + 1, n);
    }
    true
}

// Whether lent words are a state of the chart, which has `words` or-states.
pub fn is_state(t: Accepted, ors: StateSet, words: usize, state: &[u16]) -> bool
    requires { Ors (shown t.table) (cells ors) × (words ≡ or_states (shown t.table)) × (words ≤ 48) }
    ensures { result ≡ state_of? (shown t.entry.table) state.now }
{
    if state.len() != words + t.table.head(chart::VARIABLES) {
        return false;
    }
    good_words(t, ors, &state[..words])
}

// Or-state o's word, at place r, as a macrostep hands it back, where `acts` are active.
fn rest_word(t: Accepted, current: &[u16], acts: StateSet, o: usize, r: usize) -> u16
    requires { (o < (shown t.table).states) × (r ≡ or_rank (shown t.table) o) }
    ensures { result ≡ rest_word (shown t.entry.table) current.now (cells acts) o }
{
    if acts.has_in(o) {
        return words::word(current, r);
    }
    if chart_active::keeps_word(t.table, o) {
        return words::word(current, r);
    }
    t.table.state_word(o, chart::INITIAL) as u16
}

// Word v at place `at`, where state o is an or-state; the next place.
fn lay(t: Table, o: usize, v: u16, at: usize, state: &mut [u16]) -> usize
    requires { (o < (shown t).states) × (at ≤ 48) }
    ensures { (state.new, result) ≡ laid (is_or (shown t.entry) o) v at state.old }
{
    if t.is_and(o) {
        return at;
    }
    words::put(state, at, v);
    at + 1
}

// The words as a macrostep hands them back, into the front of `state`.
pub fn lay_rest(t: Accepted, ors: StateSet, current: &[u16], state: &mut [u16])
    requires { Ors (shown t.table) (cells ors) × (or_states (shown t.table) ≤ length state.old) }
    ensures { state.new ≡ rest (shown t.entry.table) current.now ++ drop (or_states (shown t.entry.table)) state.old }
{
    let n = t.table.head(chart::STATES);
    let mut acts = StateSet::none();
    let mut r = 0;
    let mut o = 0;
    while o < n {
        acts = chart_active::show(t.table.words, current, acts, o, r);
        words::put(state, r, rest_word(t, current, acts, o, r));
        r += 1;
        o = ors.next(o + 1, n);
    }
}

// The initial children, into the front of `state`.
pub fn lay_initials(t: Accepted, state: &mut [u16])
    requires { or_states (shown t.table) ≤ length state.old }
    ensures { state.new ≡ start_words (shown t.entry.table) ++ drop (or_states (shown t.entry.table)) state.old }
{
    let n = t.table.head(chart::STATES);
    let mut at = 0;
    for o in 0..n {
        at = lay(
            t.table,
            o,
            t.table.state_word(o, chart::INITIAL) as u16,
            at,
            state,
        );
    }
}
