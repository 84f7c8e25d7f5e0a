// The rules' section of a flat table. By transition: exits in falling number of the states, own items, entries in rising
// number. Every function is for an accepted chart.
#![tactic(auto)]

ghost use Rattle.std.specs.Prelude.{◌≡◌, cond, ◌+◌, ◌<◌, ◌≤◌, length, get_or};
ghost use Rattle.words.specs.Loops.{join_up, join_down};
ghost use Rattle.chart.specs.Shown.{shown};
ghost use Rattle.states.specs.Cells.{cells};
ghost use Rattle.chart_meaning.specs.Scope.{scope};
ghost use Rattle.flatten_meaning.specs.Numbers.{and_rank};
ghost use Rattle.flatten_meaning.specs.Flattened.{decides, entered_guard, rules_of, flattened};
ghost use Rattle.flatten_meaning.specs.Encoded.{rule_words};
ghost use Rattle.flatten_numbers.specs.Numbered.{AndRanks, ActiveNumbers, TakenNumbers, Refers};
ghost use Rattle.flatten_laying.specs.Lay.{lay};
ghost use Rattle.flatten_rules.specs.Ruled.{Ruled, of_exit, of_own, of_entry, ComeStates};

use chart::Table;
use chart_rules::Accepted;
use flatten_laying::{Guards, Items};
use states::StateSet;

// The trigger of transition k.
fn trigger_of(t: Table, k: usize) -> u16
    requires { k < (shown t).transitions }
    ensures { result ≡ (shown t.entry).trigger k }
{
    t.transition_word(k, chart::TRIGGER) as u16
}

// The span of items whose two words begin at `from`.
fn items_at(t: &[u16], from: usize) -> Items
    requires { from + 1 < length t.now }
    ensures first { result.first ≡ get_or t.now from 0 }
    ensures count { result.count ≡ get_or t.now (from + 1) 0 }
{
    Items {
        first: words::word_in(t, from),
        count: words::word_in(t, from + 1),
    }
}

// The rule by which transition k, whose scope is `top`, leaves state j.
fn lay_exit(
    t: Accepted,
    k: usize,
    top: usize,
    j: usize,
    actives: &[u16],
    takens: &[u16],
    room: &mut [u16],
    at: usize,
) -> usize
    requires { (k < (shown t.table).transitions) × (j < (shown t.table).states) × (top ≡ scope (shown t.table) k) × ActiveNumbers (shown t.table) actives.now × TakenNumbers (shown t.table) takens.now × (at < 1000000) }
    ensures rules { Ruled at (of_exit (shown t.entry.table) k j) room.old result room.new }
    ensures few { result ≤ at + 6 }
{
    if !flatten_pairs::can_quit(t, k, top, j) {
        return at;
    }
    let guards = Guards {
        first: words::word(takens, k),
        second: words::word(actives, j),
    };
    let items = items_at(t.table.words, t.table.state_at(j) + chart::EXITS);
    flatten_laying::put_rule(room, at, trigger_of(t.table, k), guards, items, 65535)
}

// The rules by which transition k leaves states.
fn lay_exits(
    t: Accepted,
    k: usize,
    top: usize,
    actives: &[u16],
    takens: &[u16],
    room: &mut [u16],
    at: usize,
) -> usize
    requires { (k < (shown t.table).transitions) × (top ≡ scope (shown t.table) k) × ActiveNumbers (shown t.table) actives.now × TakenNumbers (shown t.table) takens.now × (at < 500000) }
    ensures rules { Ruled at (join_down (of_exit (shown t.entry.table) k) (shown t.entry.table).states) room.old result room.new }
    ensures few { result ≤ at + 288 }
{
    let mut next = at;
    for j in (0..words::number(t.table.words, chart::STATES)).rev() {
        next = lay_exit(t, k, top, j, actives, takens, room, next);
    }
    next
}

// The rule for the own items of transition k.
fn lay_own(t: Accepted, k: usize, takens: &[u16], room: &mut [u16], at: usize) -> usize
    requires { (k < (shown t.table).transitions) × TakenNumbers (shown t.table) takens.now × (at < 1000000) }
    ensures rules { Ruled at (of_own (shown t.entry.table) k) room.old result room.new }
    ensures few { result ≤ at + 6 }
{
    let items = items_at(t.table.words, t.table.transition_at(k) + chart::DOES);
    if items.count == 0 {
        return at;
    }
    let guards = Guards {
        first: words::word(takens, k),
        second: words::word(takens, k),
    };
    flatten_laying::put_rule(room, at, trigger_of(t.table, k), guards, items, 65535)
}

// The target of the rule by which transition k enters state j: none where history decides.
fn target_of(t: Accepted, k: usize, j: usize, ands: &[u16]) -> u16
    requires { (k < (shown t.table).transitions) × (j < (shown t.table).states) × ((shown t.table).parent j < (shown t.table).states) × AndRanks (shown t.table) ands.now }
    ensures { result ≡ cond (decides (shown t.entry.table) k j) 65535 (and_rank (shown t.entry.table) j) }
{
    if flatten_pairs::is_decided(t, k, j) {
        return 65535;
    }
    words::word(ands, j)
}

// The rule by which transition k enters state j, where it is one of those that `come`.
fn lay_entry(
    t: Accepted,
    k: usize,
    come: StateSet,
    j: usize,
    ands: &[u16],
    takens: &[u16],
    refers: &[u16],
    room: &mut [u16],
    at: usize,
) -> usize
    requires { (k < (shown t.table).transitions) × ComeStates (shown t.table) k (cells come) × (j < (shown t.table).states) × AndRanks (shown t.table) ands.now × TakenNumbers (shown t.table) takens.now × Refers (shown t.table) k refers.now × (at < 1000000) }
    ensures rules { Ruled at (of_entry (shown t.entry.table) k j) room.old result room.new }
    ensures few { result ≤ at + 6 }
{
    if !come.has(j) {
        return at;
    }
    let guards = Guards {
        first: words::word(takens, k),
        second: words::word(refers, j),
    };
    let items = items_at(t.table.words, t.table.state_at(j) + chart::ENTRIES);
    flatten_laying::put_rule(
        room,
        at,
        trigger_of(t.table, k),
        guards,
        items,
        target_of(t, k, j, ands),
    )
}

// The rules by which transition k enters states.
fn lay_entries(
    t: Accepted,
    k: usize,
    come: StateSet,
    ands: &[u16],
    takens: &[u16],
    refers: &[u16],
    room: &mut [u16],
    at: usize,
) -> usize
    requires { (k < (shown t.table).transitions) × ComeStates (shown t.table) k (cells come) × AndRanks (shown t.table) ands.now × TakenNumbers (shown t.table) takens.now × Refers (shown t.table) k refers.now × (at < 500000) }
    ensures rules { Ruled at (join_up (of_entry (shown t.entry.table) k) (shown t.entry.table).states) room.old result room.new }
    ensures few { result ≤ at + 288 }
{
    let mut next = at;
    for j in 0..words::number(t.table.words, chart::STATES) {
        next = lay_entry(t, k, come, j, ands, takens, refers, room, next);
    }
    next
}

// All rules of transition k, whose scope is `top`.
fn lay_rules_of(
    t: Accepted,
    k: usize,
    top: usize,
    come: StateSet,
    ands: &[u16],
    actives: &[u16],
    takens: &[u16],
    refers: &[u16],
    room: &mut [u16],
    at: usize,
) -> usize
    requires { (k < (shown t.table).transitions) × (top ≡ scope (shown t.table) k) × ComeStates (shown t.table) k (cells come) × AndRanks (shown t.table) ands.now × ActiveNumbers (shown t.table) actives.now × TakenNumbers (shown t.table) takens.now × Refers (shown t.table) k refers.now × (at < 400000) }
    ensures rules { Ruled at (rules_of (shown t.entry.table) k) room.old result room.new }
    ensures few { result ≤ at + 582 }
{
    let left = lay_exits(t, k, top, actives, takens, room, at);
    let own = lay_own(t, k, takens, room, left);
    lay_entries(t, k, come, ands, takens, refers, room, own)
}

// All rules. The first guard of a state that is entered is number `first`.
pub fn lay_rules(
    t: Accepted,
    ands: &[u16],
    actives: &[u16],
    takens: &[u16],
    first: usize,
    room: &mut [u16],
    at: usize,
) -> usize
    requires { AndRanks (shown t.table) ands.now × ActiveNumbers (shown t.table) actives.now × TakenNumbers (shown t.table) takens.now × (first ≡ entered_guard (shown t.table) 0 0) × (at < 100000) }
    ensures next { result ≡ at + length (rule_words (flattened (shown t.entry.table))) }
    ensures room { room.new ≡ lay at (rule_words (flattened (shown t.entry.table))) room.old }
{
    let mut refers = [0u16; 48];
    let mut number = first;
    let mut next = at;
    for k in 0..words::number(t.table.words, chart::TRANSITIONS) {
        let e = flatten_numbers::entries_of(t, k, takens, number, &mut refers);
        next = lay_rules_of(
            t, k, e.top, e.comes, ands, actives, takens, &refers, room, next,
        );
        number = e.next;
    }
    next
}
