// What a flat table has besides its guards and rules: the room that it needs, its header, its machines and states, and its
// items, which are the chart's.
#![tactic(auto)]

ghost use Rattle.std.specs.Prelude.{◌≡◌, [], ◌∷◌, ◌+◌, ◌-◌, ◌*◌, ◌/◌, ◌<◌, ◌≤◌, length};
ghost use Rattle.words.specs.Loops.{join_up, when};
ghost use Rattle.chart.specs.Shown.{shown};
ghost use Rattle.chart.specs.View.{view};
ghost use Rattle.flatten_meaning.specs.Numbers.{and_states};
ghost use Rattle.flatten_meaning.specs.Room.{asked_literals, room_needed};
ghost use Rattle.flatten_meaning.specs.Flattened.{flattened};
ghost use Rattle.flatten_meaning.specs.Encoded.{header, item_words};
ghost use Rattle.chart_active.specs.Ranks.{Ranks};
ghost use Rattle.flatten_numbers.specs.Numbered.{AndRanks};
ghost use Rattle.flatten_laying.specs.Lay.{lay};
ghost use Rattle.flatten_laying.specs.Laid.{Laid};
ghost use Rattle.flatten_head.specs.Sizes.{SizesOf, PlacesOf, heading};
ghost use Rattle.flatten_head.specs.Named.{of?, named};

use chart::Table;
use chart_rules::Accepted;

// How many machines, states, guards, literals and rules a flat table has.
#[derive(Clone, Copy)]
pub struct Sizes {
    pub machines: u16,
    pub states: u16,
    pub guards: u16,
    pub literals: u16,
    pub rules: u16,
}

// Where its sections begin, behind the machines' one, and where they end.
#[derive(Clone, Copy)]
pub struct Places {
    pub states: u16,
    pub guards: u16,
    pub literals: u16,
    pub items: u16,
    pub rules: u16,
    pub total: u16,
}

// The sum of the transitions' literal counts.
fn asked_literals(t: Accepted) -> usize
    ensures is { result ≡ asked_literals (shown t.entry.table) }
    ensures few { result ≤ 384 }
{
    let mut sum = 0;
    for k in 0..words::number(t.table.words, chart::TRANSITIONS) {
        sum += t.table.transition_word(k, chart::ASKS + 1);
    }
    sum
}

// How many and-states there are: the states that are no or-states.
#[tactic(auto, using(flatten_meaning::proofs::Machines::all_states))]
fn and_states(t: Accepted) -> usize
    ensures is { result ≡ and_states (shown t.entry.table) }
    ensures few { result ≤ 48 }
{
    let mut ors = [0u16; 48];
    let machines = chart_active::or_ranks(t.table.words, &mut ors);
    words::number(t.table.words, chart::STATES) - machines
}

// The product of two counts.
fn product(k: usize, a: usize) -> usize
    requires { (k ≤ 48) × (a ≤ 48) }
    ensures is { result ≡ k * a }
    ensures few { result ≤ 2304 }
{
    k * a
}

// How many pairs k things have.
fn pairs_of(k: usize) -> usize
    requires { k ≤ 48 }
    ensures is { result ≡ k * (k - 1) / 2 }
    ensures few { result ≤ 2304 }
{
    if k == 0 {
        return 0;
    }
    product(k, k - 1) / 2
}

// The room that the flat table of an accepted chart needs, by document 01's formulas.
pub fn room_needed(t: Accepted) -> usize
    ensures { result ≡ room_needed (shown t.entry.table) }
{
    let k = words::number(t.table.words, chart::TRANSITIONS);
    let a = and_states(t);
    let both = product(k, a);
    let guards = a + k + both;
    let literals = 2 * a + k + asked_literals(t) + pairs_of(k) + 2 * both;
    let rules = k + 2 * both;
    let items = words::number(t.table.words, chart::ITEMS);
    18 + words::number(t.table.words, chart::STATES)
        + 2 * guards
        + 3 * literals
        + 3 * items
        + 6 * rules
}

// Where the sections of a flat table of these sizes begin.
#[tactic(auto, using(crate::proofs::Sections::total_small, crate::proofs::Sections::items_count), unfolding(flatten_meaning::specs::Encoded::total, flatten_meaning::specs::Encoded::rules_at, flatten_meaning::specs::Encoded::items_at, flatten_meaning::specs::Encoded::literals_at, flatten_meaning::specs::Encoded::guards_at, flatten_meaning::specs::Encoded::states_at))]
fn places_of(t: Accepted, s: Sizes) -> Places
    requires { SizesOf (flattened (shown t.table)) s }
    ensures { PlacesOf (flattened (shown t.entry.table)) result }
{
    let states = 18 + words::wide(s.machines);
    let guards = states + words::wide(s.states);
    let literals = guards + 2 * words::wide(s.guards);
    let items = literals + 3 * words::wide(s.literals);
    let rules = items + 3 * words::number(t.table.words, chart::ITEMS);
    let total = rules + 6 * words::wide(s.rules);
    Places {
        states: states as u16,
        guards: guards as u16,
        literals: literals as u16,
        items: items as u16,
        rules: rules as u16,
        total: total as u16,
    }
}

// The first twelve words of the header: the form, the total and the counts.
fn lay_counts(t: &[u16], s: Sizes, total: u16, room: &mut [u16])
    ensures { room.new ≡ lay 0 (2 ∷ total ∷ s.machines ∷ s.states ∷ (view t.now).events ∷ (view t.now).signals ∷ (view t.now).outputs ∷ (view t.now).variables ∷ s.guards ∷ s.literals ∷ (view t.now).items ∷ s.rules ∷ []) room.old }
{
    flatten_laying::put_triple(room, 0, 2, total, s.machines);
    flatten_laying::put_triple(
        room,
        3,
        s.states,
        words::word(t, chart::EVENTS),
        words::word(t, chart::SIGNALS),
    );
    flatten_laying::put_triple(
        room,
        6,
        words::word(t, chart::OUTPUTS),
        words::word(t, chart::VARIABLES),
        s.guards,
    );
    flatten_laying::put_triple(room, 9, s.literals, words::word(t, chart::ITEMS), s.rules);
}

// The last six: the offsets of the sections.
fn lay_places(p: Places, room: &mut [u16])
    ensures { room.new ≡ lay 12 (18 ∷ p.states ∷ p.guards ∷ p.literals ∷ p.items ∷ p.rules ∷ []) room.old }
{
    flatten_laying::put_triple(room, 12, 18, p.states, p.guards);
    flatten_laying::put_triple(room, 15, p.literals, p.items, p.rules);
}

// The header.
fn lay_header(t: Accepted, s: Sizes, room: &mut [u16])
    requires { SizesOf (flattened (shown t.table)) s }
    ensures { room.new ≡ lay 0 (header (flattened (shown t.entry.table))) room.old }
{
    let p = places_of(t, s);
    lay_counts(t.table.words, s, p.total, room);
    lay_places(p, room);
}

// A word more, where `is` says so.
#[tactic(auto, using(flatten_laying::proofs::Laid::laid_none), unfolding(flatten_laying::specs::Lay::lay))]
fn put_if(room: &mut [u16], at: usize, is: bool, word: u16) -> usize
    requires { at < 1000 }
    ensures { Laid at (when is word) room.old result room.new }
{
    if is {
        words::put(room, at, word);
        return at + 1;
    }
    at
}

// Whether state k is of the and-states or, where `ands` does not hold, of the or-states.
fn is_of(t: Table, ands: bool, k: usize) -> bool
    requires { k < (shown t).states }
    ensures { result ≡ of? ands (shown t.entry) k }
{
    t.is_and(k) == ands
}

// For each of the and-states, or of the or-states, the number of the state that its word `field` names.
fn lay_named(
    t: Accepted,
    ands: bool,
    field: usize,
    numbers: &[u16],
    room: &mut [u16],
    at: usize,
) -> usize
    requires { (field < 7) × (at < 900) }
    ensures { Laid at (join_up (named t.entry.table.words.now ands field numbers.now) (shown t.entry.table).states) room.old result room.new }
{
    let mut next = at;
    for j in 0..words::number(t.table.words, chart::STATES) {
        let other = t.table.state_word(j, field);
        next = put_if(
            room,
            next,
            is_of(t.table, ands, j),
            words::word(numbers, other),
        );
    }
    next
}

// The machines' section: the flat state of each or-state's initial child.
fn lay_initials(t: Accepted, ands: &[u16], room: &mut [u16], at: usize) -> usize
    requires { AndRanks (shown t.table) ands.now × (at < 900) }
    ensures { Laid at (flattened (shown t.entry.table)).initials room.old result room.new }
{
    lay_named(t, false, chart::INITIAL, ands, room, at)
}

// The states' section: the machine of each and-state's parent.
fn lay_owners(t: Accepted, ors: &[u16], room: &mut [u16], at: usize) -> usize
    requires { Ranks (shown t.table) ors.now × (at < 900) }
    ensures { Laid at (flattened (shown t.entry.table)).owners room.old result room.new }
{
    lay_named(t, true, chart::PARENT, ors, room, at)
}

// The header, the machines and the states.
pub fn lay_heading(t: Accepted, ors: &[u16], ands: &[u16], s: Sizes, room: &mut [u16]) -> usize
    requires { Ranks (shown t.table) ors.now × AndRanks (shown t.table) ands.now × SizesOf (flattened (shown t.table)) s }
    ensures next { result ≡ length (heading (flattened (shown t.entry.table))) }
    ensures room { room.new ≡ lay 0 (heading (flattened (shown t.entry.table))) room.old }
{
    lay_header(t, s, room);
    let states = lay_initials(t, ands, room, 18);
    lay_owners(t, ors, room, states)
}

// The items' section: the chart's items.
pub fn lay_items(t: &[u16], room: &mut [u16], at: usize) -> usize
    requires { at < 100000 }
    ensures next { result ≡ at + length (item_words (flattened (view t.now))) }
    ensures room { room.new ≡ lay at (item_words (flattened (view t.now))) room.old }
{
    let first = words::number(t, chart::ITEMS_AT);
    let count = words::number(t, chart::ITEMS);
    flatten_laying::put_words(room, at, t, first, 3 * count)
}
