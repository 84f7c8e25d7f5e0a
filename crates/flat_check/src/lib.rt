// The check of a flat table: the search for the lowest rule that is broken, at its lowest place. It takes any words at all.
// specs/Answer.antt says how a table is answered.
#![tactic(auto)]

ghost use Rattle.std.specs.Prelude.{◌≡◌, ◌<◌, IfSome};
ghost use Rattle.table.specs.Answers.{told};
ghost use Rattle.table.specs.Check.{rule_numbered, IsLowestBad, KeptBefore};
ghost use Rattle.flat_check.specs.Answer.{flat_rules, flat_answer};

use flat::Table;
use flat_head::{good_counts, good_form, good_layout};
use flat_rules::{good_guard, good_item, good_machines, good_rule, good_span};
use table::Refusal;
use words::number;

// Whether place i keeps rule k, counted from 0, where the rules before it are kept.
fn keeps(t: &[u16], k: usize, i: usize) -> bool
    requires { (k < 8) × (i < (rule_numbered (flat_rules t.now) k).places) × KeptBefore (flat_rules t.now) k }
    ensures { result ≡ (rule_numbered (flat_rules t.now) k).keeps i }
{
    match k {
        0 => good_form(t),
        1 => good_counts(t),
        2 => good_layout(t),
        3 => good_machines(Table { words: t }, i),
        4 => good_span(Table { words: t }, i),
        5 => good_guard(Table { words: t }, i),
        6 => good_item(Table { words: t }, i),
        _ => good_rule(Table { words: t }, i),
    }
}

// How many places rule k judges.
fn places_of(t: &[u16], k: usize) -> usize
    requires { k < 8 }
    ensures is { result ≡ (rule_numbered (flat_rules t.now) k).places }
    ensures small { result < 200000 }
{
    match k {
        0 => 1,
        1 => 1,
        2 => 1,
        3 => number(t, flat::MACHINES) + number(t, flat::STATES),
        4 => number(t, flat::GUARDS),
        5 => number(t, flat::GUARDS),
        6 => number(t, flat::ITEMS),
        _ => number(t, flat::RULES),
    }
}

// The lowest place that breaks rule k, where the rules before it are kept.
fn lowest_bad(t: &[u16], k: usize) -> Option<usize>
    requires { (k < 8) × KeptBefore (flat_rules t.now) k }
    ensures is { IsLowestBad (rule_numbered (flat_rules t.now) k) result }
    ensures small { IfSome result (λ i. i < 200000) }
{
    (0..places_of(t, k)).find(|i| !keeps(t, k, *i))
}

// The answer to a flat table: done, or the lowest rule that it breaks at the lowest place.
pub fn check(t: &[u16]) -> Result<(), Refusal>
    ensures { told result ≡ flat_answer t.now }
{
    for k in 0..8 {
        if let Some(p) = lowest_bad(t, k) {
            return Err(table::flat_refusal(k + 11, p));
        }
    }
    Ok(())
}
