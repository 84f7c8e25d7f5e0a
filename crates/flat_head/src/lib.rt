// The tests of document 01's rules 11 to 13 for a flat table: its form, of any words at all, and where they have a header
// its counts and its layout. specs/Rules.antt says the rules in words, specs/Tests.antt as tests.
#![tactic(auto)]

ghost use Rattle.std.specs.Prelude.{◌≡◌, ◌≤◌, length};
ghost use Rattle.flat.specs.View.{flat_view};
ghost use Rattle.flat_head.specs.Tests.{good_flat_form?, state_counts?, name_flat_counts?, list_flat_counts?, good_flat_counts?};
ghost use Rattle.flat_head.specs.Tests.{front_flat_layout?, back_flat_layout?, good_flat_layout?};

use table::{count_between, follows};
use words::{both, number, number_in};

// Rule 11: a header, form 2, and the total that the slice has.
pub fn good_form(t: &[u16]) -> bool
    ensures { result ≡ good_flat_form? t.now }
{
    both(
        18 <= t.len(),
        both(number(t, 0) == 2, number(t, 1) == t.len()),
    )
}

// Rule 12: machines, states, events.
fn state_counts(t: &[u16]) -> bool
    requires { 18 ≤ length t.now }
    ensures { result ≡ state_counts? (flat_view t.now) }
{
    let first = count_between(t, flat::MACHINES, 1, 24);
    let second = count_between(t, flat::STATES, 1, 47);
    both(first, both(second, count_between(t, flat::EVENTS, 1, 32)))
}

// Rule 12: signals, outputs, variables.
fn name_counts(t: &[u16]) -> bool
    requires { 18 ≤ length t.now }
    ensures { result ≡ name_flat_counts? (flat_view t.now) }
{
    let first = count_between(t, flat::SIGNALS, 0, 32);
    let second = count_between(t, flat::OUTPUTS, 0, 64);
    both(
        first,
        both(second, count_between(t, flat::VARIABLES, 0, 16)),
    )
}

// Rule 12: guards, literals, items, rules.
fn list_counts(t: &[u16]) -> bool
    requires { 18 ≤ length t.now }
    ensures { result ≡ list_flat_counts? (flat_view t.now) }
{
    let guards = count_between(t, flat::GUARDS, 0, 2351);
    let literals = count_between(t, flat::LITERALS, 0, 6166);
    let items = count_between(t, flat::ITEMS, 0, 512);
    let rules = count_between(t, flat::RULES, 0, 4560);
    both(both(guards, literals), both(items, rules))
}

// Rule 12: every count is in its range.
pub fn good_counts(t: &[u16]) -> bool
    requires { 18 ≤ length t.now }
    ensures { result ≡ good_flat_counts? (flat_view t.now) }
{
    both(state_counts(t), both(name_counts(t), list_counts(t)))
}

// Rule 13: machines behind the header, states behind them, then guards.
fn front_layout(t: &[u16]) -> bool
    requires { 18 ≤ length t.now }
    ensures { result ≡ front_flat_layout? t.now }
{
    let machines = number_in(t, flat::MACHINES_AT) == 18;
    let states = follows(t, flat::STATES_AT, flat::MACHINES_AT, 1, flat::MACHINES);
    let guards = follows(t, flat::GUARDS_AT, flat::STATES_AT, 1, flat::STATES);
    both(machines, both(states, guards))
}

// Rule 13: literals behind the guards, then items, then rules, and the total behind them.
fn back_layout(t: &[u16]) -> bool
    requires { 18 ≤ length t.now }
    ensures { result ≡ back_flat_layout? t.now }
{
    let literals = follows(t, flat::LITERALS_AT, flat::GUARDS_AT, 2, flat::GUARDS);
    let items = follows(t, flat::ITEMS_AT, flat::LITERALS_AT, 3, flat::LITERALS);
    let rules = follows(t, flat::RULES_AT, flat::ITEMS_AT, 3, flat::ITEMS);
    let total = follows(t, flat::TOTAL, flat::RULES_AT, 6, flat::RULES);
    both(both(literals, items), both(rules, total))
}

// Rule 13: the sections follow the header without gaps, and the table ends with the last.
pub fn good_layout(t: &[u16]) -> bool
    requires { 18 ≤ length t.now }
    ensures { result ≡ good_flat_layout? t.now }
{
    both(front_layout(t), back_layout(t))
}
