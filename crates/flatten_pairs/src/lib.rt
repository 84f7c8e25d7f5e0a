// What flattening asks of a transition and a state, or of two transitions: which can be active together, be left, block, be
// entered, and be asked for. Every function is for an accepted chart.
#![tactic(auto)]

ghost use Rattle.std.specs.Prelude.{◌≡◌, not, ◌&&◌, ◌<◌};
ghost use Rattle.words.specs.Loops.{any, any_below};
ghost use Rattle.chart.specs.Shown.{shown};
ghost use Rattle.chart.specs.View.{is_and};
ghost use Rattle.chart.specs.Literals.{literal_in};
ghost use Rattle.chart_meaning.specs.Scope.{beneath, scope, scoped};
ghost use Rattle.chart_meaning.specs.Taken.{literals_of};
ghost use Rattle.flatten_meaning.specs.Flattened.{some?, meets, quits, mentions, wants, blocks, bare, decides};

use chart::{Literal, Table};
use chart_rules::Accepted;

// Whether states a and j can be active together: one is at or above the other, or they are apart.
fn can_meet(t: Accepted, a: usize, j: usize) -> bool
    requires { (a < (shown t.table).states) × (j < (shown t.table).states) }
    ensures { result ≡ meets (shown t.entry.table) a j }
{
    if t.table.is_within(a, j) {
        return true;
    }
    if t.table.is_within(j, a) {
        return true;
    }
    t.table.are_apart(a, j)
}

// Whether state j is an and-state with exit items.
fn has_exits(t: Table, j: usize) -> bool
    requires { j < (shown t).states }
    ensures { result ≡ (is_and (shown t.entry) j && some? ((shown t.entry).exits j)) }
{
    words::both(t.is_and(j), t.state_word(j, chart::EXITS + 1) != 0)
}

// Whether transition k has targets, and state j is below `top`.
fn is_inside(t: Table, k: usize, top: usize, j: usize) -> bool
    requires { k < (shown t).transitions }
    ensures { result ≡ (scoped (shown t.entry) k && beneath (shown t.entry) top j) }
{
    words::both(
        chart_taken::is_scoped(t, k),
        chart_active::is_beneath(t, top, j),
    )
}

// Whether transition k, whose scope is `top`, can leave state j, and j has exit items.
pub fn can_quit(t: Accepted, k: usize, top: usize, j: usize) -> bool
    requires { (k < (shown t.table).transitions) × (j < (shown t.table).states) × (top ≡ scope (shown t.table) k) }
    ensures { result ≡ quits (shown t.entry.table) k j }
{
    if !has_exits(t.table, j) {
        return false;
    }
    if !is_inside(t.table, k, top, j) {
        return false;
    }
    can_meet(t, t.table.transition_word(k, chart::SOURCE), j)
}

// Whether transition s, if taken, keeps k from being taken, and their sources can be active together.
pub fn does_block(t: Accepted, s: usize, k: usize) -> bool
    requires { (s < (shown t.table).transitions) × (k < (shown t.table).transitions) }
    ensures { result ≡ blocks (shown t.entry.table) s k }
{
    if t.table.transition_word(s, chart::TRIGGER) != t.table.transition_word(k, chart::TRIGGER) {
        return false;
    }
    if !chart_taken::are_related(t, s, k) {
        return false;
    }
    can_meet(
        t,
        t.table.transition_word(s, chart::SOURCE),
        t.table.transition_word(k, chart::SOURCE),
    )
}

// Whether no transition before k blocks it.
fn is_unblocked(t: Accepted, k: usize) -> bool
    requires { k < (shown t.table).transitions }
    ensures { result ≡ not (any_below (λ s. blocks (shown t.entry.table) s k) k) }
{
    !(0..k).any(|s| does_block(t, s, k))
}

// Whether transition k asks for its source only.
pub fn is_bare(t: Accepted, k: usize) -> bool
    requires { k < (shown t.table).transitions }
    ensures { result ≡ bare (shown t.entry.table) k }
{
    if t.table.transition_word(k, chart::ASKS + 1) != 0 {
        return false;
    }
    is_unblocked(t, k)
}

// Whether history decides if transition k enters state j.
pub fn is_decided(t: Accepted, k: usize, j: usize) -> bool
    requires { (k < (shown t.table).transitions) × (j < (shown t.table).states) × ((shown t.table).parent j < (shown t.table).states) }
    ensures { result ≡ decides (shown t.entry.table) k j }
{
    let o = t.table.state_word(j, chart::PARENT);
    words::both(
        !chart_entered::is_aimed(t, k, o),
        chart_active::keeps_word(t.table, o),
    )
}

// Whether literal i names state j.
fn does_name(t: Table, i: usize, j: usize) -> bool
    requires { i < (shown t).literals }
    ensures { result ≡ mentions (shown t.entry) j (literal_in ((shown t.entry).literal i)) }
{
    match t.literal_at(i) {
        Literal::Active(a) | Literal::NotActive(a) => words::wide(a) == j,
        Literal::AtLeast(_, _) | Literal::Less(_, _) => false,
    }
}

// Whether a literal of transition k names state j.
fn is_named(t: Accepted, k: usize, j: usize) -> bool
    requires { k < (shown t.table).transitions }
    ensures { result ≡ any (mentions (shown t.entry.table) j) (literals_of (shown t.entry.table) k) }
{
    let first = t.table.transition_word(k, chart::ASKS);
    let count = t.table.transition_word(k, chart::ASKS + 1);
    (first..first + count).any(|i| does_name(t.table, i, j))
}

// Whether transition k, whose scope is `top`, asks whether state j is active: j is its source, is named by a literal, or has
// exit items and can be left.
pub fn does_want(t: Accepted, k: usize, top: usize, j: usize) -> bool
    requires { (k < (shown t.table).transitions) × (j < (shown t.table).states) × (top ≡ scope (shown t.table) k) }
    ensures { result ≡ wants (shown t.entry.table) k j }
{
    if t.table.transition_word(k, chart::SOURCE) == j {
        return true;
    }
    if is_named(t, k, j) {
        return true;
    }
    can_quit(t, k, top, j)
}
