// The check of a chart table: rule 9, on targets; a walk over each record, once, which accepts; and for a table that is not
// accepted the search for the lowest rule that is broken, at its lowest place. It takes any words at all. specs/Answer.antt
// says how a table is answered.
#![tactic(auto)]

ghost use Rattle.std.specs.Prelude.{◌≡◌, true, ◌<◌, IfSome};
ghost use Rattle.words.specs.Loops.{all_below};
ghost use Rattle.table.specs.Answers.{told};
ghost use Rattle.table.specs.Span.{Inside};
ghost use Rattle.table.specs.Check.{rule_numbered, IsLowestBad, KeptBefore};
ghost use Rattle.chart.specs.Shown.{shown};
ghost use Rattle.chart_rules.specs.Rules.{aim};
ghost use Rattle.chart_rules.specs.Tests.{literal_kept, item_kept};
ghost use Rattle.chart_rules.specs.Tests.{apart_from?, good_target?, good_targets?};
ghost use Rattle.chart_check.specs.Answer.{chart_rules, chart_answer};
ghost use Rattle.chart_check.specs.Records.{whole_kept, state_kept, transition_kept};

use chart::Table;
use chart_head::{good_counts, good_form, good_layout};
use chart_rules::{
    good_item, good_literal, good_source, good_spans, good_state, good_state_spans,
    good_transition_spans,
};
use table::Refusal;
use words::number;

// Target i of transition k, counted within its span.
fn aim_of(t: Table, k: usize, i: usize) -> usize
    requires { (k < (shown t).transitions) × Inside ((shown t).aims k) (shown t).targets × (i < ((shown t).aims k).count) }
    ensures is { result ≡ aim (shown t.entry) k i }
    ensures small { result < 65536 }
{
    t.target_word(t.transition_word(k, chart::AIMS) + i)
}

// Rule 9: target i of transition k is apart from those before it.
fn apart_from(t: Table, k: usize, i: usize) -> bool
    requires { (k < (shown t).transitions) × Inside ((shown t).aims k) (shown t).targets × (i < ((shown t).aims k).count) }
    ensures { result ≡ apart_from? (shown t.entry) k i }
{
    let this = aim_of(t, k, i);
    (0..i).all(|j| t.are_apart(aim_of(t, k, j), this))
}

// Rule 9 for target i of transition k.
fn good_target(t: Table, k: usize, i: usize) -> bool
    requires { (k < (shown t).transitions) × Inside ((shown t).aims k) (shown t).targets × (i < ((shown t).aims k).count) }
    ensures { result ≡ good_target? (shown t.entry) k i }
{
    let this = aim_of(t, k, i);
    if !t.is_and_state(this) {
        return false;
    }
    apart_from(t, k, i)
}

// Rule 9, where transition k's targets keep rule 5.
fn good_targets(t: Table, k: usize) -> bool
    requires { (k < (shown t).transitions) × Inside ((shown t).aims k) (shown t).targets }
    ensures { result ≡ good_targets? (shown t.entry) k }
{
    let count = t.transition_word(k, chart::AIMS + 1);
    (0..count).all(|i| good_target(t, k, i))
}

// Whether place i keeps rule k, counted from 0, where the rules before it are kept.
fn keeps(t: &[u16], k: usize, i: usize) -> bool
    requires { (k < 9) × (i < (rule_numbered (chart_rules t.now) k).places) × KeptBefore (chart_rules t.now) k }
    ensures { result ≡ (rule_numbered (chart_rules t.now) k).keeps i }
{
    match k {
        0 => good_form(t),
        1 => good_counts(t),
        2 => good_layout(t),
        3 => good_state(Table { words: t }, i),
        4 => good_spans(Table { words: t }, i),
        5 => good_literal(Table { words: t }, i),
        6 => good_item(Table { words: t }, i),
        7 => good_source(Table { words: t }, i),
        _ => good_targets(Table { words: t }, i),
    }
}

// How many places rule k judges.
fn places_of(t: &[u16], k: usize) -> usize
    requires { k < 9 }
    ensures is { result ≡ (rule_numbered (chart_rules t.now) k).places }
    ensures small { result < 200000 }
{
    match k {
        0 => 1,
        1 => 1,
        2 => 1,
        3 => number(t, chart::STATES),
        4 => number(t, chart::STATES) + number(t, chart::TRANSITIONS),
        5 => number(t, chart::LITERALS),
        6 => number(t, chart::ITEMS),
        7 => number(t, chart::TRANSITIONS),
        _ => number(t, chart::TRANSITIONS),
    }
}

// The lowest place that breaks rule k, where the rules before it are kept.
fn lowest_bad(t: &[u16], k: usize) -> Option<usize>
    requires { (k < 9) × KeptBefore (chart_rules t.now) k }
    ensures is { IsLowestBad (rule_numbered (chart_rules t.now) k) result }
    ensures small { IfSome result (λ i. i < 200000) }
{
    (0..places_of(t, k)).find(|i| !keeps(t, k, *i))
}

// Whether the table as a whole keeps rules 1 to 3.
fn is_laid_out(t: &[u16]) -> bool
    ensures { result ≡ whole_kept t.now }
{
    if !good_form(t) {
        return false;
    }
    if !good_counts(t) {
        return false;
    }
    good_layout(t)
}

// Whether state k keeps rules 4 and 5.
fn is_good_state(t: Table, k: usize) -> bool
    requires { k < (shown t).states }
    ensures { result ≡ state_kept (shown t.entry) k }
{
    if !good_state(t, k) {
        return false;
    }
    good_state_spans(t, k)
}

// Rule 9, where transition k's targets keep rule 5. A single target has none before it to be apart from.
fn good_aims(t: Table, k: usize) -> bool
    requires { (k < (shown t).transitions) × Inside ((shown t).aims k) (shown t).targets }
    ensures { result ≡ good_targets? (shown t.entry) k }
{
    if t.transition_word(k, chart::AIMS + 1) == 1 {
        return t.is_and_state(aim_of(t, k, 0));
    }
    good_targets(t, k)
}

// Whether transition k keeps rules 5, 8 and 9.
fn is_good_transition(t: Table, k: usize) -> bool
    requires { k < (shown t).transitions }
    ensures { result ≡ transition_kept (shown t.entry) k }
{
    if !good_transition_spans(t, k) {
        return false;
    }
    if !good_source(t, k) {
        return false;
    }
    good_aims(t, k)
}

// Whether every state keeps its rules.
fn are_states_good(t: Table) -> bool
    ensures { result ≡ all_below (state_kept (shown t.entry)) (shown t.entry).states }
{
    (0..t.head(chart::STATES)).all(|k| is_good_state(t, k))
}

// Whether every transition does.
fn are_transitions_good(t: Table) -> bool
    ensures { result ≡ all_below (transition_kept (shown t.entry)) (shown t.entry).transitions }
{
    (0..t.head(chart::TRANSITIONS)).all(|k| is_good_transition(t, k))
}

// Whether every literal does.
fn are_literals_good(t: Table) -> bool
    ensures { result ≡ all_below (literal_kept (shown t.entry)) (shown t.entry).literals }
{
    (0..t.head(chart::LITERALS)).all(|i| good_literal(t, i))
}

// Whether every item does.
fn are_items_good(t: Table) -> bool
    ensures { result ≡ all_below (item_kept (shown t.entry)) (shown t.entry).items }
{
    (0..t.head(chart::ITEMS)).all(|i| good_item(t, i))
}

// Whether the table keeps all rules. Each record is gone through once.
fn is_good(t: &[u16]) -> bool
    ensures { result ≡ true → chart_answer t.now ≡ (0, 0) }
{
    if !is_laid_out(t) {
        return false;
    }
    if !are_states_good(Table { words: t }) {
        return false;
    }
    if !are_transitions_good(Table { words: t }) {
        return false;
    }
    if !are_literals_good(Table { words: t }) {
        return false;
    }
    are_items_good(Table { words: t })
}

// The lowest rule that a table breaks at the lowest place, rule by rule; done, where it breaks none.
fn search(t: &[u16]) -> Result<(), Refusal>
    ensures { told result ≡ chart_answer t.now }
{
    for k in 0..9 {
        if let Some(p) = lowest_bad(t, k) {
            return Err(table::chart_refusal(k + 1, p));
        }
    }
    Ok(())
}

// The answer to a chart table: done, or the lowest rule that it breaks at the lowest place. Only a table that breaks one is
// searched for it.
pub fn check(t: &[u16]) -> Result<(), Refusal>
    ensures { told result ≡ chart_answer t.now }
{
    if is_good(t) {
        return Ok(());
    }
    search(t)
}
