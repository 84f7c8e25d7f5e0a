// The transitions that a microstep takes: scope, literals, enabled, blocked. Every function is for an accepted chart.
#![tactic(auto)]

ghost use Rattle.std.specs.Prelude.{◌≡◌, true, false, not, ◌&&◌, ◌||◌, ℕ, ◌<◌, get_or};
ghost use Rattle.words.specs.Loops.{all, all_below};
ghost use Rattle.chart.specs.Shown.{shown};
ghost use Rattle.chart.specs.View.{transition_at};
ghost use Rattle.chart.specs.Tree.{within};
ghost use Rattle.states.specs.Cells.{cells};
ghost use Rattle.chart_meaning.specs.Scope.{beneath, targets_of, above_all, scope, scoped, related};
ghost use Rattle.chart_meaning.specs.Taken.{holds, condition, enabled, taken_at, takens};

use chart::{Literal, Table};
use chart_rules::Accepted;
use states::StateSet;

// Whether every target of transition k, whose words begin at `at`, is below o.
fn all_beneath(t: Accepted, k: usize, at: usize, o: usize) -> bool
    requires { (k < (shown t.table).transitions) × (at ≡ transition_at t.table.words.now k) }
    ensures { result ≡ all (beneath (shown t.entry.table) o) (targets_of (shown t.entry.table) k) }
{
    let first = t.table.transition_word_at(k, at, chart::AIMS);
    let count = t.table.transition_word_at(k, at, chart::AIMS + 1);
    (first..first + count).all(|i| chart_active::is_beneath(t.table, o, t.table.target_word(i)))
}

// Whether o, which is above the source of transition k, is an or-state above every target of it.
fn is_above_all(t: Accepted, k: usize, at: usize, o: usize) -> bool
    requires { (k < (shown t.table).transitions) × (o < (shown t.table).states) × (beneath (shown t.table) o ((shown t.table).source k) ≡ true) × (at ≡ transition_at t.table.words.now k) }
    ensures { result ≡ above_all (shown t.entry.table) k o }
{
    if t.table.is_and(o) {
        return false;
    }
    all_beneath(t, k, at, o)
}

// The scope of transition k, whose words begin at `at`: going up from its source, the first or-state above every target.
fn scope_at(t: Accepted, k: usize, at: usize) -> usize
    requires { (k < (shown t.table).transitions) × (at ≡ transition_at t.table.words.now k) }
    ensures is { result ≡ scope (shown t.entry.table) k }
    ensures small { result < (shown t.entry.table).states }
{
    let mut o = t.table.transition_word_at(k, at, chart::SOURCE);
    while 0 < o {
        o = t.table.state_word(o, chart::PARENT);
        if is_above_all(t, k, at, o) {
            return o;
        }
    }
    o
}

// The scope of transition k.
pub fn scope_of(t: Accepted, k: usize) -> usize
    requires { k < (shown t.table).transitions }
    ensures is { result ≡ scope (shown t.entry.table) k }
    ensures small { result < (shown t.entry.table).states }
{
    scope_at(t, k, t.table.transition_at(k))
}

// Whether transition k, whose words begin at `at`, has targets, and so a scope.
fn is_scoped_at(t: Table, k: usize, at: usize) -> bool
    requires { (k < (shown t).transitions) × (at ≡ transition_at t.words.now k) }
    ensures { result ≡ scoped (shown t.entry) k }
{
    t.transition_word_at(k, at, chart::AIMS + 1) != 0
}

// Whether transition k has targets, and so a scope.
pub fn is_scoped(t: Table, k: usize) -> bool
    requires { k < (shown t).transitions }
    ensures { result ≡ scoped (shown t.entry) k }
{
    is_scoped_at(t, k, t.transition_at(k))
}

// Whether transition s has a scope, and it and b are related.
fn is_related(t: Accepted, s: usize, b: usize) -> bool
    requires { s < (shown t.table).transitions }
    ensures { result ≡ (scoped (shown t.entry.table) s && (within (shown t.entry.table) (scope (shown t.entry.table) s) b || within (shown t.entry.table) b (scope (shown t.entry.table) s))) }
{
    if !is_scoped(t.table, s) {
        return false;
    }
    let a = scope_of(t, s);
    if t.table.is_within(a, b) {
        return true;
    }
    t.table.is_within(b, a)
}

// Whether the scopes of two transitions are related.
pub fn are_related(t: Accepted, s: usize, k: usize) -> bool
    requires { (s < (shown t.table).transitions) × (k < (shown t.table).transitions) }
    ensures { result ≡ related (shown t.entry.table) s k }
{
    if !is_scoped(t.table, k) {
        return false;
    }
    is_related(t, s, scope_of(t, k))
}

// Whether a literal holds.
fn does_hold(literal: Literal, acts: StateSet, vars: &[u16]) -> bool
    ensures { result ≡ holds (cells acts) vars.now literal }
{
    match literal {
        Literal::Active(a) => acts.has(words::wide(a)),
        Literal::NotActive(a) => !acts.has(words::wide(a)),
        Literal::AtLeast(a, b) => !words::is_below(words::word(vars, words::wide(a)), b),
        Literal::Less(a, b) => words::is_below(words::word(vars, words::wide(a)), b),
    }
}

// Whether all literals of transition k hold, whose words begin at `at`.
fn meets_condition(t: Accepted, acts: StateSet, vars: &[u16], k: usize, at: usize) -> bool
    requires { (k < (shown t.table).transitions) × (at ≡ transition_at t.table.words.now k) }
    ensures { result ≡ condition (shown t.entry.table) (cells acts) vars.now k }
{
    let first = t.table.transition_word_at(k, at, chart::ASKS);
    let count = t.table.transition_word_at(k, at, chart::ASKS + 1);
    (first..first + count).all(|i| does_hold(t.table.literal_at(i), acts, vars))
}

// Whether transition k, whose words begin at `at`, is enabled.
fn is_enabled(t: Accepted, e: usize, acts: StateSet, vars: &[u16], k: usize, at: usize) -> bool
    requires { (k < (shown t.table).transitions) × (at ≡ transition_at t.table.words.now k) }
    ensures { result ≡ enabled (shown t.entry.table) e (cells acts) vars.now k }
{
    if t.table.transition_word_at(k, at, chart::TRIGGER) != e {
        return false;
    }
    if !acts.has_in(t.table.transition_word_at(k, at, chart::SOURCE)) {
        return false;
    }
    meets_condition(t, acts, vars, k, at)
}

// Whether no transition of `taken` before k has a related scope.
fn is_free(t: Accepted, k: usize, at: usize, taken: StateSet) -> bool
    requires { (k < (shown t.table).transitions) × (at ≡ transition_at t.table.words.now k) }
    ensures { result ≡ all_below (λ s. not (get_or (cells taken) s false && related (shown t.entry.table) s k)) k }
{
    let mut s = taken.next(0, k);
    if s == k {
        return true;
    }
    if !is_scoped_at(t.table, k, at) {
        return true;
    }
    let top = scope_at(t, k, at);
    while s < k {
        if is_related(t, s, top) {
            return false;
        }
        s = taken.next(s + 1, k);
    }
    true
}

// Whether transition k is taken, where `taken` has those before it.
fn is_taken_at(
    t: Accepted,
    e: usize,
    acts: StateSet,
    vars: &[u16],
    k: usize,
    at: usize,
    taken: StateSet,
) -> bool
    requires { (k < (shown t.table).transitions) × (at ≡ transition_at t.table.words.now k) }
    ensures { result ≡ taken_at (shown t.entry.table) e (cells acts) vars.now k (cells taken) }
{
    if !is_enabled(t, e, acts, vars, k, at) {
        return false;
    }
    is_free(t, k, at, taken)
}

// The transitions taken.
pub fn taken_set(t: Accepted, e: usize, acts: StateSet, vars: &[u16]) -> StateSet
    ensures { (k : ℕ) → get_or (cells result) k false ≡ get_or (takens (shown t.entry.table) e (cells acts) vars.now) k false }
{
    let n = t.table.head(chart::TRANSITIONS);
    let mut taken = StateSet::none();
    let mut at = t.table.head(chart::TRANSITIONS_AT);
    for k in 0..n {
        taken = taken.grown(k, is_taken_at(t, e, acts, vars, k, at, taken));
        at += 8;
    }
    taken
}
