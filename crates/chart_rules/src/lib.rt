// The tests of document 01's rules 4 to 8 for a chart table, one function for each rule and place. They take any
// `Table`, which rules 1 to 3 make it. `Accepted` keeps all rules. specs/Rules.antt says the rules in words, specs/Tests.antt as tests.
#![tactic(auto)]

ghost use Rattle.std.specs.Prelude.{◌≡◌, ◌+◌, ◌<◌};
ghost use Rattle.chart.specs.Shown.{shown};
ghost use Rattle.chart_rules.specs.Rules.{ChartRules};
ghost use Rattle.chart_rules.specs.Alike.{chart_rules-prop};
ghost use Rattle.chart_rules.specs.Tests.{root_place?, inner_place?, good_place?, or_body?, good_body?, good_state?};
ghost use Rattle.chart_rules.specs.Tests.{good_state_spans?, good_transition_spans?, good_spans?};
ghost use Rattle.chart_rules.specs.Tests.{literal_kept, item_kept, good_source?};

use chart::Table;
use table::{ItemCounts, span_inside};
use words::{both, number_in};

// A chart table that keeps 01's rules.
#[derive(Clone, Copy)]
pub struct Accepted<'a> {
    pub table: Table<'a>,
    ghost rules: { ChartRules table.words.now } by { chart_rules-prop table.words.now },
}

// Rule 4: the root is a plain or-state without a parent.
fn root_place(t: Table, k: usize) -> bool
    requires { k < (shown t).states }
    ensures { result ≡ root_place? (shown t.entry) k }
{
    both(
        t.state_word(k, chart::KIND) == 0,
        t.state_word(k, chart::PARENT) == 65535,
    )
}

// Rule 4: any other state is of a known kind, below a smaller state of the other class.
fn inner_place(t: Table, k: usize) -> bool
    requires { k < (shown t).states }
    ensures { result ≡ inner_place? (shown t.entry) k }
{
    let parent = t.state_word(k, chart::PARENT);
    if k <= parent {
        return false;
    }
    let alternates = t.is_and(k) != t.is_and(parent);
    both(t.state_word(k, chart::KIND) <= 2, alternates)
}

// Rule 4: the state's kind and parent.
fn good_place(t: Table, k: usize) -> bool
    requires { k < (shown t).states }
    ensures { result ≡ good_place? (shown t.entry) k }
{
    if k == 0 {
        return root_place(t, k);
    }
    inner_place(t, k)
}

// Rule 4: an or-state's initial child is a child of it, and its item counts are 0.
fn or_body(t: Table, k: usize) -> bool
    requires { k < (shown t).states }
    ensures { result ≡ or_body? (shown t.entry) k }
{
    let initial = t.is_child(k, t.state_word(k, chart::INITIAL));
    let exits = t.state_word(k, chart::EXITS + 1) == 0;
    let entries = t.state_word(k, chart::ENTRIES + 1) == 0;
    both(initial, both(exits, entries))
}

// Rule 4: the state's initial word, and an or-state's item counts.
fn good_body(t: Table, k: usize) -> bool
    requires { k < (shown t).states }
    ensures { result ≡ good_body? (shown t.entry) k }
{
    if t.is_and(k) {
        return t.state_word(k, chart::INITIAL) == 65535;
    }
    or_body(t, k)
}

// Rule 4.
pub fn good_state(t: Table, k: usize) -> bool
    requires { k < (shown t).states }
    ensures { result ≡ good_state? (shown t.entry) k }
{
    both(good_place(t, k), good_body(t, k))
}

// Rule 5 for a state.
pub fn good_state_spans(t: Table, k: usize) -> bool
    requires { k < (shown t).states }
    ensures { result ≡ good_state_spans? (shown t.entry) k }
{
    let at = t.state_at(k);
    both(
        span_inside(t.words, at + chart::EXITS, chart::ITEMS),
        span_inside(t.words, at + chart::ENTRIES, chart::ITEMS),
    )
}

// Rule 5 for a transition.
pub fn good_transition_spans(t: Table, k: usize) -> bool
    requires { k < (shown t).transitions }
    ensures { result ≡ good_transition_spans? (shown t.entry) k }
{
    let at = t.transition_at(k);
    let literals = span_inside(t.words, at + chart::ASKS, chart::LITERALS);
    let few = number_in(t.words, at + chart::ASKS + 1) <= 8;
    let items = span_inside(t.words, at + chart::DOES, chart::ITEMS);
    let targets = span_inside(t.words, at + chart::AIMS, chart::TARGETS);
    both(both(literals, few), both(items, targets))
}

// Rule 5: the places are the states, and then the transitions.
pub fn good_spans(t: Table, p: usize) -> bool
    requires { p < (shown t).states + (shown t).transitions }
    ensures { result ≡ good_spans? (shown t.entry) p }
{
    let n = t.head(chart::STATES);
    if p < n {
        return good_state_spans(t, p);
    }
    good_transition_spans(t, p - n)
}

// Rule 6.
pub fn good_literal(t: Table, i: usize) -> bool
    requires { i < (shown t).literals }
    ensures { result ≡ literal_kept (shown t.entry) i }
{
    let at = t.literal_begin(i);
    let kind = number_in(t.words, at);
    let a = number_in(t.words, at + 1);
    if kind < 2 {
        return both(t.is_and_state(a), number_in(t.words, at + 2) == 0);
    }
    both(kind < 4, a < t.head(chart::VARIABLES))
}

// Rule 7.
pub fn good_item(t: Table, i: usize) -> bool
    requires { i < (shown t).items }
    ensures { result ≡ item_kept (shown t.entry) i }
{
    let counts = ItemCounts {
        signals: words::word_in(t.words, chart::SIGNALS),
        outputs: words::word_in(t.words, chart::OUTPUTS),
        variables: words::word_in(t.words, chart::VARIABLES),
    };
    table::good_item_at(t.words, t.item_begin(i), counts)
}

// Rule 8.
pub fn good_source(t: Table, k: usize) -> bool
    requires { k < (shown t).transitions }
    ensures { result ≡ good_source? (shown t.entry) k }
{
    let source = t.is_and_state(t.transition_word(k, chart::SOURCE));
    let triggers = t.head(chart::EVENTS) + t.head(chart::SIGNALS);
    both(source, t.transition_word(k, chart::TRIGGER) < triggers)
}
