// The tests of document 01's rules 1 to 3 for a chart table: its form, of any words at all, and where they have a header its
// counts and its layout. specs/Rules.antt says the rules in words, specs/Tests.antt as tests.
#![tactic(auto)]

ghost use Rattle.std.specs.Prelude.{◌≡◌, ◌≤◌, length};
ghost use Rattle.chart.specs.View.{view};
ghost use Rattle.chart_head.specs.Tests.{good_form?, tree_counts?, name_counts?, list_counts?, good_counts?};
ghost use Rattle.chart_head.specs.Tests.{front_layout?, back_layout?, good_layout?};

use table::{count_between, follows};
use words::{both, number, number_in};

// Rule 1: a header, form 1, and the total that the slice has.
pub fn good_form(t: &[u16]) -> bool
    ensures { result ≡ good_form? t.now }
{
    both(
        16 <= t.len(),
        both(number(t, 0) == 1, number(t, 1) == t.len()),
    )
}

// Rule 2: states, transitions, events.
fn tree_counts(t: &[u16]) -> bool
    requires { 16 ≤ length t.now }
    ensures { result ≡ tree_counts? (view t.now) }
{
    let first = count_between(t, chart::STATES, 2, 48);
    let second = count_between(t, chart::TRANSITIONS, 0, 48);
    both(first, both(second, count_between(t, chart::EVENTS, 1, 32)))
}

// Rule 2: signals, outputs, variables.
fn name_counts(t: &[u16]) -> bool
    requires { 16 ≤ length t.now }
    ensures { result ≡ name_counts? (view t.now) }
{
    let first = count_between(t, chart::SIGNALS, 0, 32);
    let second = count_between(t, chart::OUTPUTS, 0, 64);
    both(
        first,
        both(second, count_between(t, chart::VARIABLES, 0, 16)),
    )
}

// Rule 2: targets, literals, items.
fn list_counts(t: &[u16]) -> bool
    requires { 16 ≤ length t.now }
    ensures { result ≡ list_counts? (view t.now) }
{
    let first = count_between(t, chart::TARGETS, 0, 192);
    let second = count_between(t, chart::LITERALS, 0, 192);
    both(first, both(second, count_between(t, chart::ITEMS, 0, 512)))
}

// Rule 2: every count is in its range.
pub fn good_counts(t: &[u16]) -> bool
    requires { 16 ≤ length t.now }
    ensures { result ≡ good_counts? (view t.now) }
{
    both(tree_counts(t), both(name_counts(t), list_counts(t)))
}

// Rule 3: states behind the header, transitions behind them, then targets.
fn front_layout(t: &[u16]) -> bool
    requires { 16 ≤ length t.now }
    ensures { result ≡ front_layout? t.now }
{
    let states = number_in(t, chart::STATES_AT) == 16;
    let transitions = follows(t, chart::TRANSITIONS_AT, chart::STATES_AT, 7, chart::STATES);
    let targets = follows(
        t,
        chart::TARGETS_AT,
        chart::TRANSITIONS_AT,
        8,
        chart::TRANSITIONS,
    );
    both(states, both(transitions, targets))
}

// Rule 3: literals behind the targets, then items, and the total behind them.
fn back_layout(t: &[u16]) -> bool
    requires { 16 ≤ length t.now }
    ensures { result ≡ back_layout? t.now }
{
    let literals = follows(t, chart::LITERALS_AT, chart::TARGETS_AT, 1, chart::TARGETS);
    let items = follows(t, chart::ITEMS_AT, chart::LITERALS_AT, 3, chart::LITERALS);
    let total = follows(t, chart::TOTAL, chart::ITEMS_AT, 3, chart::ITEMS);
    both(literals, both(items, total))
}

// Rule 3: the sections follow the header without gaps, and the table ends with the last.
pub fn good_layout(t: &[u16]) -> bool
    requires { 16 ≤ length t.now }
    ensures { result ≡ good_layout? t.now }
{
    both(front_layout(t), back_layout(t))
}
