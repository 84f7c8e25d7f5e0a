// A microstep of a flat table that is accepted: its rules in order, where the trigger matches and both guards hold. The specs of
// `flat_meaning` say which steps a microstep has; here they are gone through, from one rule of the trigger to the next. Only guards
// of such rules are asked for.
#![tactic(auto)]

ghost use Rattle.std.specs.Prelude.{◌≡◌, true, ◌&&◌, ℕ, ◌*◌, ◌<◌, ◌≤◌, length};
ghost use Rattle.words.specs.Loops.{when};
ghost use Rattle.words.specs.Next.{Next};
ghost use Rattle.effects.specs.Run.{set_all};
ghost use Rattle.effects.specs.Work.{going, do_steps};
ghost use Rattle.flat.specs.Shown.{shown};
ghost use Rattle.flat.specs.View.{flat_view, rule_at};
ghost use Rattle.flat_rules.specs.Rules.{FlatRules};
ghost use Rattle.flat_meaning.specs.Steps.{target_set, rule_step, firing, flat_machine};
ghost use Rattle.marks.specs.Bits.{marked};
ghost use Rattle.flat_microstep.specs.Stretch.{has?, Stretch, Asked};

use effects::{Counted, Progress};
use flat::Table;
use flat_rules::Accepted;
use table::Trigger;

// The most that a word can be.
const MOST: usize = 65535;

// Whether rule k, whose words begin at `at`, has trigger e.
fn is_for(t: Table, e: u16, k: usize, at: usize) -> bool
    requires { (k < (shown t).rules) × (at ≡ rule_at t.words.now k) }
    ensures { result ≡ has? (shown t.entry) e k }
{
    words::word_in(t.words, at + flat::TRIGGER) == e
}

// The first rule from k on, before rule n, that has trigger e; n where there is none. Four rules are looked at in a turn.
fn seek(t: Table, e: u16, k: usize, n: usize) -> usize
    requires { (k ≤ n) × (n ≤ (shown t).rules) }
    ensures { Next (has? (shown t.entry) e) k n result }
{
    let mut j = k;
    let mut at = t.head(flat::RULES_AT) + 6 * k;
    while j + 3 < n {
        if is_for(t, e, j, at) {
            return j;
        }
        if is_for(t, e, j + 1, at + 6) {
            return j + 1;
        }
        if is_for(t, e, j + 2, at + 12) {
            return j + 2;
        }
        if is_for(t, e, j + 3, at + 18) {
            return j + 3;
        }
        j += 4;
        at += 24;
    }
    for i in j..n {
        if is_for(t, e, i, at) {
            return i;
        }
        at += 6;
    }
    n
}

// Marks both guards of rule k.
fn ask_one(t: Accepted, marks: &mut [u16], k: usize)
    requires { (k < (shown t.table).rules) × ((shown t.table).guards ≤ 16 * length marks.old) }
    ensures asked { Asked (shown t.entry.table) marks.new k }
    ensures more { (a : ℕ) → marked marks.old a ≡ true → marked marks.new a ≡ true }
{
    let first = t.table.rule_word(k, flat::FIRST_GUARD);
    let second = t.table.rule_word(k, flat::SECOND_GUARD);
    marks::add(marks, first);
    if first != second {
        marks::add(marks, second);
    }
}

// Marks the guards of the rules that have trigger e, the first of which is `from`. The number behind the last of them.
fn ask(t: Accepted, marks: &mut [u16], e: u16, from: usize) -> usize
    requires { ((shown t.table).guards ≤ 16 * length marks.old) × Next (has? (shown t.table) e) 0 (shown t.table).rules from }
    ensures reaches { Stretch (shown t.entry.table) e from result }
    ensures asked { (k : ℕ) → k < (shown t.entry.table).rules → has? (shown t.entry.table) e k ≡ true → Asked (shown t.entry.table) marks.new k }
{
    let rules = t.table.head(flat::RULES);
    let mut until = from;
    let mut k = from;
    while k < rules {
        ask_one(t, marks, k);
        until = k + 1;
        k = seek(t.table, e, until, rules);
    }
    until
}

// Whether rule k fires for its trigger, where `marks` has the guards that are true.
fn does_fire(t: Accepted, marks: &[u16], k: usize) -> bool
    requires { (k < (shown t.table).rules) × ((shown t.table).guards ≤ 16 * length marks.now) }
    ensures { result ≡ (marked marks.now ((shown t.entry.table).first_guard k) && marked marks.now ((shown t.entry.table).second_guard k)) }
{
    if !marks::has(marks, t.table.rule_word(k, flat::FIRST_GUARD)) {
        return false;
    }
    marks::has(marks, t.table.rule_word(k, flat::SECOND_GUARD))
}

// The target of rule k is to be current in its machine, where it has one.
fn aim(t: Accepted, k: usize, next: &mut [u16])
    requires { k < (shown t.table).rules }
    ensures { next.new ≡ set_all (target_set (shown t.entry.table) k) next.old }
{
    if let Some(j) = t.table.target(k) {
        words::put(next, t.table.machine_of(j), j as u16);
    }
}

// Rule k, where it fires for its trigger: it is counted, its target is to be current, and its items run.
fn fire_one(
    t: Accepted,
    marks: &[u16],
    k: usize,
    pairs: usize,
    next: &mut [u16],
    vars: &mut [u16],
    outs: &mut [u16],
    queue: &mut [u8],
    n: Progress,
) -> Progress
    requires { (k < (shown t.table).rules) × ((shown t.table).guards ≤ 16 * length marks.now) }
    ensures { going result next.new vars.new outs.new queue.new ≡ do_steps pairs (when (marked marks.now ((shown t.entry.table).first_guard k) && marked marks.now ((shown t.entry.table).second_guard k)) (rule_step (shown t.entry.table) k)) (going n next.old vars.old outs.old queue.old) }
{
    if !does_fire(t, marks, k) {
        return n;
    }
    aim(t, k, next);
    effects::run_span(
        t.table.words,
        flat::ITEMS_AT,
        t.table.rule_at(k) + flat::DOES,
        pairs,
        vars,
        outs,
        queue,
        n.one_more(Counted::Fired),
    )
}

// The rules that fire for trigger e, in order. They lie from rule `from` on and before rule `until`.
fn fire_all(
    t: Accepted,
    marks: &[u16],
    e: u16,
    from: usize,
    until: usize,
    pairs: usize,
    next: &mut [u16],
    vars: &mut [u16],
    outs: &mut [u16],
    queue: &mut [u8],
    n: Progress,
) -> Progress
    requires { ((shown t.table).guards ≤ 16 * length marks.now) × Stretch (shown t.table) e from until }
    ensures { going result next.new vars.new outs.new queue.new ≡ do_steps pairs (firing (shown t.entry.table) e (marked marks.now)) (going n next.old vars.old outs.old queue.old) }
{
    let mut m = n;
    let mut k = from;
    while k < until {
        m = fire_one(t, marks, k, pairs, next, vars, outs, queue, m);
        k = seek(t.table, e, k + 1, until);
    }
    m
}

// One microstep for trigger e, from the words of `next` to those of `next`. `marks` is scratch space. No rule has a trigger that is
// more than a word.
pub fn run(
    t: &[u16],
    marks: &mut [u16],
    e: Trigger,
    pairs: usize,
    next: &mut [u16],
    vars: &mut [u16],
    outs: &mut [u16],
    queue: &mut [u8],
    n: Progress,
) -> Progress
    requires { FlatRules t.now × ((flat_view t.now).guards ≤ 16 * length marks.old) × (length next.old ≡ (flat_view t.now).machines) }
    ensures { going result next.new vars.new outs.new queue.new ≡ do_steps pairs (flat_machine (flat_view t.now) e.0 next.old vars.old) (going n next.old vars.old outs.old queue.old) }
{
    let table = Table { words: t };
    let accepted = Accepted { table };
    let number = e.0 as usize;
    if MOST < number {
        return n;
    }
    let trigger = number as u16;
    let from = seek(table, trigger, 0, table.head(flat::RULES));
    copies::clear(marks, 0);
    let until = ask(accepted, marks, trigger, from);
    flat_guards::evaluate(accepted, next, vars, marks);
    fire_all(
        accepted, marks, trigger, from, until, pairs, next, vars, outs, queue, n,
    )
}
