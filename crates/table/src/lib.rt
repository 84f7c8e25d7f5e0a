// What chart tables and flat tables have in common: signal and trigger numbers, items, spans, and what a call can say.
// It knows words, and neither of the two tables. specs/Lib.antt is the door to the definitions.
#![tactic(auto)]

ghost use Rattle.std.specs.Prelude.{◌≡◌, ◌+◌, ◌<◌, length, get_or};
ghost use Rattle.table.specs.Numbers.{trigger_of};
ghost use Rattle.table.specs.Triple.{triple_at};
ghost use Rattle.table.specs.Items.{item_of, item_in};
ghost use Rattle.table.specs.Rows.{in_range, in_row, row_of, good_item?, good_item_in?};
ghost use Rattle.words.specs.Loops.{between?};
ghost use Rattle.table.specs.Layout.{follows?};
ghost use Rattle.table.specs.Span.{span_at, inside?};
ghost use Rattle.table.specs.Answers.{refusal_told};

// A signal's own number, as items name it.
#[derive(Clone, Copy)]
pub struct Signal(pub u16);

// A trigger's number, as transitions and rules name it: events first, and then the signals.
#[derive(Clone, Copy)]
pub struct Trigger(pub u32);

// Signal k is the trigger behind all events and k signals: the only way from one counting to the other.
pub fn trigger_of(signal: Signal, events: u16) -> Trigger
    ensures { result ≡ trigger_of signal events }
{
    Trigger(events as u32 + signal.0 as u32)
}

// What an item does: its kind decides which of its words it reads.
#[derive(Clone, Copy)]
pub enum Item {
    Emit(u16),
    Raise(Signal),
    WrapAdd(u16, u16),
    SatAdd(u16, u16),
    Set(u16, u16),
    Log(u16, u16),
}

// The item of three words.
pub fn item_of(kind: u16, a: u16, b: u16) -> Item
    ensures { result ≡ item_of kind a b }
{
    match kind {
        0 => Item::Emit(a),
        1 => Item::Raise(Signal(a)),
        2 => Item::WrapAdd(a, b),
        3 => Item::SatAdd(a, b),
        4 => Item::Set(a, b),
        _ => Item::Log(a, b),
    }
}

// The item whose three words begin at `at`.
pub fn item_at(t: &[u16], at: usize) -> Item
    requires { at + 2 < length t.now }
    ensures { result ≡ item_in (triple_at t.now at) }
{
    item_of(
        words::word_in(t, at),
        words::word_in(t, at + 1),
        words::word_in(t, at + 2),
    )
}

// What a field of an item may name.
#[derive(Clone, Copy)]
pub enum Bound {
    Zero,
    Output,
    Signal,
    Variable,
    Any,
}

// The ranges that the two fields of an item obey.
#[derive(Clone, Copy)]
pub struct Row {
    pub a: Bound,
    pub b: Bound,
}

// One row for each item kind: the list that both checks go by.
const ROWS: [Row; 6] = [
    Row {
        a: Bound::Output,
        b: Bound::Zero,
    },
    Row {
        a: Bound::Signal,
        b: Bound::Zero,
    },
    Row {
        a: Bound::Variable,
        b: Bound::Any,
    },
    Row {
        a: Bound::Variable,
        b: Bound::Any,
    },
    Row {
        a: Bound::Variable,
        b: Bound::Any,
    },
    Row {
        a: Bound::Output,
        b: Bound::Variable,
    },
];

// How many signals, outputs and variables a table has.
#[derive(Clone, Copy)]
pub struct ItemCounts {
    pub signals: u16,
    pub outputs: u16,
    pub variables: u16,
}

// Whether a field obeys its range.
fn in_range(bound: Bound, n: ItemCounts, x: u16) -> bool
    ensures { result ≡ in_range bound n x }
{
    match bound {
        Bound::Zero => x == 0,
        Bound::Output => x < n.outputs,
        Bound::Signal => x < n.signals,
        Bound::Variable => x < n.variables,
        Bound::Any => true,
    }
}

fn row_of(kind: usize) -> Row
    requires { kind < 6 }
    ensures { result ≡ row_of kind }
{
    ROWS[kind]
}

// Whether two fields obey the ranges of a row.
fn in_row(row: Row, n: ItemCounts, a: u16, b: u16) -> bool
    ensures { result ≡ in_row row n a b }
{
    let x = row.a;
    let y = row.b;
    if !in_range(x, n, a) {
        return false;
    }
    in_range(y, n, b)
}

// Whether three words are an item of a table with these counts. Each kind has a case of its own, so that its row is known there.
fn good_item(kind: u16, a: u16, b: u16, n: ItemCounts) -> bool
    ensures { result ≡ good_item? n kind a b }
{
    match kind {
        0 => in_row(row_of(0), n, a, b),
        1 => in_row(row_of(1), n, a, b),
        2 => in_row(row_of(2), n, a, b),
        3 => in_row(row_of(3), n, a, b),
        4 => in_row(row_of(4), n, a, b),
        5 => in_row(row_of(5), n, a, b),
        _ => false,
    }
}

// Whether the three words that begin at `at` are one.
pub fn good_item_at(t: &[u16], at: usize, n: ItemCounts) -> bool
    requires { at + 2 < length t.now }
    ensures { result ≡ good_item_in? n (triple_at t.now at) }
{
    good_item(
        words::word_in(t, at),
        words::word_in(t, at + 1),
        words::word_in(t, at + 2),
        n,
    )
}

// Whether count word i of a header is in its range.
pub fn count_between(t: &[u16], i: usize, low: usize, high: usize) -> bool
    requires { i < length t.now }
    ensures { result ≡ between? low high (get_or t.now i 0) }
{
    words::between(low, high, words::number_in(t, i))
}

// Whether the section at offset word `next` begins where the section at offset word `here` ends, of as many records of
// `size` words as word `count` says.
pub fn follows(t: &[u16], next: usize, here: usize, size: usize, count: usize) -> bool
    requires { (next < length t.now) × (here < length t.now) × (size < 100) × (count < length t.now) }
    ensures { result ≡ follows? t.now next here size count }
{
    words::number_in(t, next) == words::number_in(t, here) + size * words::number_in(t, count)
}

// Whether the span whose two words begin at `at` lies inside a section of as many records as word `count` says.
pub fn span_inside(t: &[u16], at: usize, count: usize) -> bool
    requires { (at + 1 < length t.now) × (count < length t.now) }
    ensures { result ≡ inside? (span_at t.now at) (get_or t.now count 0) }
{
    words::number_in(t, at) + words::number_in(t, at + 1) <= words::number_in(t, count)
}

// What a call refuses, with the place where the paper names one.
#[derive(Clone, Copy, PartialEq, Eq, Debug)]
pub enum Refusal {
    ChartForm,
    ChartCount,
    ChartLayout,
    ChartTree(u32),
    ChartSpan(u32),
    ChartLiteral(u32),
    ChartItem(u32),
    ChartSource(u32),
    ChartTargets(u32),
    FlatForm,
    FlatCount,
    FlatLayout,
    FlatMachine(u32),
    FlatSpan(u32),
    FlatLiteral(u32),
    FlatItem(u32),
    FlatRule(u32),
    NoEvent,
    Signals,
    Outputs,
    Microsteps,
    State,
    Room,
}

// The refusal of a chart that breaks rule `rule` at `place`. The first three rules are of the table as a whole.
pub fn chart_refusal(rule: usize, place: usize) -> Refusal
    requires { (0 < rule) × (rule < 10) × (place < 1000000) × (rule < 4 → place ≡ 0) }
    ensures { refusal_told result ≡ (rule, place) }
{
    let at = place as u32;
    match rule {
        1 => Refusal::ChartForm,
        2 => Refusal::ChartCount,
        3 => Refusal::ChartLayout,
        4 => Refusal::ChartTree(at),
        5 => Refusal::ChartSpan(at),
        6 => Refusal::ChartLiteral(at),
        7 => Refusal::ChartItem(at),
        8 => Refusal::ChartSource(at),
        _ => Refusal::ChartTargets(at),
    }
}

// The refusal of a flat table that breaks rule `rule` at `place`. The first three rules are of the table as a whole.
pub fn flat_refusal(rule: usize, place: usize) -> Refusal
    requires { (10 < rule) × (rule < 19) × (place < 1000000) × (rule < 14 → place ≡ 0) }
    ensures { refusal_told result ≡ (rule, place) }
{
    let at = place as u32;
    match rule {
        11 => Refusal::FlatForm,
        12 => Refusal::FlatCount,
        13 => Refusal::FlatLayout,
        14 => Refusal::FlatMachine(at),
        15 => Refusal::FlatSpan(at),
        16 => Refusal::FlatLiteral(at),
        17 => Refusal::FlatItem(at),
        _ => Refusal::FlatRule(at),
    }
}
