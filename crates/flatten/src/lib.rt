// The flattener: writes the flat table of a chart into a room. What is written is `encode (flattened (view chart))`; the crate
// `flatten_meaning` has the definitions, and the proof that this table does what the chart does.
#![tactic(auto)]

ghost use Rattle.std.specs.Prelude.{◌≡◌, ◌+◌, ◌<◌, length};
ghost use Rattle.chart.specs.Shown.{shown};
ghost use Rattle.chart.specs.View.{view};
ghost use Rattle.states.specs.Cells.{cells};
ghost use Rattle.chart_meaning.specs.State.{or_states};
ghost use Rattle.flatten_meaning.specs.Numbers.{and_states};
ghost use Rattle.flatten_meaning.specs.Flattened.{flattened};
ghost use Rattle.flatten_meaning.specs.Encoded.{encode};
ghost use Rattle.flatten_laying.specs.Lay.{lay};
ghost use Rattle.flatten_head.specs.Sizes.{SizesOf};
ghost use Rattle.flatten.specs.Numbers.{Numbers, sections};
ghost use Rattle.flatten.specs.Wrote.{Wrote};

use chart::Table;
use chart_rules::Accepted;
use flatten_guards::Pen;
use flatten_head::Sizes;
use states::StateSet;
use table::Refusal;

// How many records of each kind the flat table has: guards and rules are counted by laying them into an empty room.
fn sizes_of(
    t: Accepted,
    asked: StateSet,
    ands: &[u16],
    actives: &[u16],
    takens: &[u16],
    first: usize,
    machines: usize,
    states: usize,
) -> Sizes
    requires { Numbers (shown t.table) (cells asked) ands.now actives.now takens.now first × (machines ≡ or_states (shown t.table)) × (states ≡ and_states (shown t.table)) }
    ensures { SizesOf (flattened (shown t.entry.table)) result }
{
    let mut nothing = [0u16; 0];
    let start = Pen { at: 0, first: 0 };
    let guards = flatten_guards::lay_guards(
        true,
        t,
        asked,
        ands,
        actives,
        takens,
        first,
        &mut nothing,
        start,
    );
    let rules = flatten_rules::lay_rules(t, ands, actives, takens, first, &mut nothing, 0);
    Sizes {
        machines: machines as u16,
        states: states as u16,
        guards: (guards.at / 2) as u16,
        literals: guards.first as u16,
        rules: (rules / 6) as u16,
    }
}

// The guards, the literals, the items and the rules.
fn lay_sections(
    t: Accepted,
    asked: StateSet,
    ands: &[u16],
    actives: &[u16],
    takens: &[u16],
    first: usize,
    room: &mut [u16],
    at: usize,
) -> usize
    requires { Numbers (shown t.table) (cells asked) ands.now actives.now takens.now first × (at < 1000) }
    ensures next { result ≡ at + length (sections (flattened (shown t.entry.table))) }
    ensures room { room.new ≡ lay at (sections (flattened (shown t.entry.table))) room.old }
{
    let start = Pen { at: at, first: 0 };
    let spans = flatten_guards::lay_guards(
        true, t, asked, ands, actives, takens, first, room, start,
    );
    let behind = Pen {
        at: spans.at,
        first: 0,
    };
    let literals = flatten_guards::lay_guards(
        false, t, asked, ands, actives, takens, first, room, behind,
    );
    let rules = flatten_head::lay_items(t.table.words, room, literals.at);
    flatten_rules::lay_rules(t, ands, actives, takens, first, room, rules)
}

// Lays the flat table of an accepted chart into the room, whose end it may pass, and says how many words it has.
fn lay_table(t: Accepted, room: &mut [u16]) -> u32
    ensures long { result ≡ length (encode (flattened (shown t.entry.table))) }
    ensures room { room.new ≡ lay 0 (encode (flattened (shown t.entry.table))) room.old }
{
    let mut ors = [0u16; 48];
    let mut ands = [0u16; 48];
    let mut actives = [0u16; 48];
    let mut takens = [0u16; 48];
    let machines = chart_active::or_ranks(t.table.words, &mut ors);
    let states = flatten_numbers::and_ranks(t, &mut ands);
    let asked = flatten_sets::asked_set(t);
    let guards = flatten_numbers::active_numbers(t, asked, &mut actives);
    let first = flatten_numbers::taken_numbers(t, &actives, guards, &mut takens);
    let sizes = sizes_of(t, asked, &ands, &actives, &takens, first, machines, states);
    let at = flatten_head::lay_heading(t, &ors, &ands, sizes, room);
    lay_sections(t, asked, &ands, &actives, &takens, first, room, at) as u32
}

// The flat table of an accepted chart, where the room is large enough.
fn flatten_accepted(t: Accepted, room: &mut [u16]) -> Result<u32, Refusal>
    ensures { Wrote t.entry.table.words.now room.old result room.new }
{
    if room.len() < flatten_head::room_needed(t) {
        return Err(Refusal::Room);
    }
    Ok(lay_table(t, room))
}

// The flat table of a chart into `room`, as document 01 says it for anything at all.
pub fn flatten(t: &[u16], room: &mut [u16]) -> Result<u32, Refusal>
    ensures { Wrote t.now room.old result room.new }
{
    chart_check::check(t)?;
    let table = Table { words: t };
    flatten_accepted(Accepted { table }, room)
}
