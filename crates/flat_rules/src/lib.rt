// The tests of document 01's rules 14 to 18 for a flat table, one function for each rule and place. They take any
// `Table`, which rules 11 to 13 make it. `Accepted` keeps all rules. specs/Rules.antt says the rules in words, specs/Tests.antt as tests.
#![tactic(auto)]

ghost use Rattle.std.specs.Prelude.{◌≡◌, ◌+◌, ◌<◌};
ghost use Rattle.flat.specs.Shown.{shown};
ghost use Rattle.flat_rules.specs.Rules.{GoodSpan, FlatRules};
ghost use Rattle.flat_rules.specs.Alike.{flat_rules-prop};
ghost use Rattle.flat_rules.specs.Tests.{good_machine?, good_flat_state?, good_machines?, good_span?};
ghost use Rattle.flat_rules.specs.Tests.{guard_literal?, flat_literal_kept, good_guard?, flat_item_kept};
ghost use Rattle.flat_rules.specs.Tests.{good_flat_target?, good_names?, good_rule?};

use flat::Table;
use table::{ItemCounts, span_inside};
use words::{both, number_in};

// A flat table that keeps 01's rules.
#[derive(Clone, Copy)]
pub struct Accepted<'a> {
    pub table: Table<'a>,
    ghost rules: { FlatRules table.words.now } by { flat_rules-prop table.words.now },
}

// Rule 14 for a machine: its initial state is a state of it.
fn good_machine(t: Table, m: usize) -> bool
    requires { m < (shown t).machines }
    ensures { result ≡ good_machine? (shown t.entry) m }
{
    t.is_of_machine(m, t.initial_of(m))
}

// Rule 14 for a state: its machine is one.
fn good_state(t: Table, j: usize) -> bool
    requires { j < (shown t).states }
    ensures { result ≡ good_flat_state? (shown t.entry) j }
{
    t.machine_of(j) < t.head(flat::MACHINES)
}

// Rule 14: the places are the machines, and then the states.
pub fn good_machines(t: Table, p: usize) -> bool
    requires { p < (shown t).machines + (shown t).states }
    ensures { result ≡ good_machines? (shown t.entry) p }
{
    let machines = t.head(flat::MACHINES);
    if p < machines {
        return good_machine(t, p);
    }
    good_state(t, p - machines)
}

// Rule 15.
pub fn good_span(t: Table, k: usize) -> bool
    requires { k < (shown t).guards }
    ensures { result ≡ good_span? (shown t.entry) k }
{
    span_inside(t.words, t.guard_at(k), flat::LITERALS)
}

// Rule 16: words of a literal that names a guard, held by guard k.
fn names_guard(k: usize, kind: usize, a: usize, b: usize) -> bool
    ensures { result ≡ guard_literal? k kind a b }
{
    both(kind < 6, both(a < k, b == 0))
}

// Rule 16: literal i, held by guard k.
fn good_literal(t: Table, k: usize, i: usize) -> bool
    requires { i < (shown t).literals }
    ensures { result ≡ flat_literal_kept (shown t.entry) k i }
{
    let at = t.literal_begin(i);
    let kind = number_in(t.words, at);
    let a = number_in(t.words, at + 1);
    let b = number_in(t.words, at + 2);
    if kind < 2 {
        return both(a < t.head(flat::STATES), b == 0);
    }
    if kind < 4 {
        return a < t.head(flat::VARIABLES);
    }
    names_guard(k, kind, a, b)
}

// Rule 16: every literal that guard k holds, where it keeps rule 15.
pub fn good_guard(t: Table, k: usize) -> bool
    requires { (k < (shown t).guards) × GoodSpan (shown t) k }
    ensures { result ≡ good_guard? (shown t.entry) k }
{
    let asks = t.asks(k);
    for i in asks.start..asks.end {
        if !good_literal(t, k, i) {
            return false;
        }
    }
    true
}

// Rule 17.
pub fn good_item(t: Table, i: usize) -> bool
    requires { i < (shown t).items }
    ensures { result ≡ flat_item_kept (shown t.entry) i }
{
    let counts = ItemCounts {
        signals: words::word_in(t.words, flat::SIGNALS),
        outputs: words::word_in(t.words, flat::OUTPUTS),
        variables: words::word_in(t.words, flat::VARIABLES),
    };
    table::good_item_at(t.words, t.item_begin(i), counts)
}

// Rule 18: the target is none or a state.
fn good_target(t: Table, k: usize) -> bool
    requires { k < (shown t).rules }
    ensures { result ≡ good_flat_target? (shown t.entry) k }
{
    match t.target(k) {
        None => true,
        Some(j) => j < t.head(flat::STATES),
    }
}

// Rule 18: the trigger and the two guards.
fn good_names(t: Table, k: usize) -> bool
    requires { k < (shown t).rules }
    ensures { result ≡ good_names? (shown t.entry) k }
{
    let triggers = t.head(flat::EVENTS) + t.head(flat::SIGNALS);
    let guards = t.head(flat::GUARDS);
    let trigger = t.rule_word(k, flat::TRIGGER) < triggers;
    let first = t.rule_word(k, flat::FIRST_GUARD) < guards;
    both(
        trigger,
        both(first, t.rule_word(k, flat::SECOND_GUARD) < guards),
    )
}

// Rule 18.
pub fn good_rule(t: Table, k: usize) -> bool
    requires { k < (shown t).rules }
    ensures { result ≡ good_rule? (shown t.entry) k }
{
    let names = good_names(t, k);
    let items = span_inside(t.words, t.rule_at(k) + flat::DOES, flat::ITEMS);
    both(names, both(items, good_target(t, k)))
}
