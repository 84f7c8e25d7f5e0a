// The public calls, with their promises and nothing else. Each takes anything at all and ends with one answer of document
// 01. specs/Promises.antt says what is promised; the module `theorems` what is proved of the promises themselves.
#![tactic(auto)]

pub mod theorems;

ghost use Rattle.olivrescum.specs.Promises.{ChartChecked, ChartStarted, ChartRan};
ghost use Rattle.olivrescum.specs.Promises.{FlatTableChecked, FlatTableStarted, FlatTableRan, ChartFlattened};

use answers::{Counts, FlatCounts};
use table::Refusal;

// Is this a chart table?
pub fn check_chart(chart: &[u16]) -> Result<(), Refusal>
    ensures { ChartChecked chart.now result }
{
    chart_check::check(chart)
}

// Writes the start state of a chart into `state`.
pub fn start_chart(chart: &[u16], state: &mut [u16]) -> Result<(), Refusal>
    ensures { ChartStarted chart.now state.old result state.new }
{
    chart_engine::start(chart, state)
}

// Runs one event on a chart to the end of its macrostep. `state` becomes the state after it; `outputs` gets two words for
// each output: number and value.
pub fn run_chart(
    chart: &[u16],
    state: &mut [u16],
    event: u32,
    outputs: &mut [u16],
) -> Result<Counts, Refusal>
    ensures { ChartRan chart.now state.old event outputs.old result state.new outputs.new }
{
    chart_engine::run(chart, state, event, outputs)
}

// Writes a flat table of the chart into the front of `room`: for every list of events it answers as the chart does.
pub fn flatten(chart: &[u16], room: &mut [u16]) -> Result<u32, Refusal>
    ensures { ChartFlattened chart.now room.old result room.new }
{
    flatten::flatten(chart, room)
}

// Is this a flat table?
pub fn check_flat(flat: &[u16]) -> Result<(), Refusal>
    ensures { FlatTableChecked flat.now result }
{
    flat_check::check(flat)
}

// Writes the start state of a flat table into `state`.
pub fn start_flat(flat: &[u16], state: &mut [u16]) -> Result<(), Refusal>
    ensures { FlatTableStarted flat.now state.old result state.new }
{
    flat_engine::start(flat, state)
}

// Runs one event on a flat table to the end of its macrostep. `state` becomes the state after it; `outputs` gets two words for
// each output: number and value.
pub fn run_flat(
    flat: &[u16],
    state: &mut [u16],
    event: u32,
    outputs: &mut [u16],
) -> Result<FlatCounts, Refusal>
    ensures { FlatTableRan flat.now state.old event outputs.old result state.new outputs.new }
{
    flat_engine::run(flat, state, event, outputs)
}
