// The library for C and Rust: exports the seven calls of `capi`, each with the same promise. include/olivrescum.h is the C side.
#![tactic(auto)]

ghost use Rattle.capi.specs.Calls.{ChartCheckedForC, ChartStartedForC, ChartRanForC, ChartFlattenedForC};
ghost use Rattle.capi.specs.Calls.{FlatCheckedForC, FlatStartedForC, FlatRanForC};

// Is this a chart table?
#[unsafe(no_mangle)]
pub extern "C" fn olivrescum_check_chart(chart: &[u16], report: &mut [u32]) -> u32
    ensures { ChartCheckedForC chart.now report.old result report.new }
{
    capi::olivrescum_check_chart(chart, report)
}

// Writes the start state of a chart into `state`.
#[unsafe(no_mangle)]
pub extern "C" fn olivrescum_start_chart(
    chart: &[u16],
    state: &mut [u16],
    report: &mut [u32],
) -> u32
    ensures { ChartStartedForC chart.now state.old report.old result state.new report.new }
{
    capi::olivrescum_start_chart(chart, state, report)
}

// Runs one event on a chart to the end of its macrostep. `state` becomes the state after it; `outputs` gets two words for
// each output: number and value.
#[unsafe(no_mangle)]
pub extern "C" fn olivrescum_run_chart(
    chart: &[u16],
    state: &mut [u16],
    event: u32,
    outputs: &mut [u16],
    report: &mut [u32],
) -> u32
    ensures { ChartRanForC chart.now state.old event outputs.old report.old result state.new outputs.new report.new }
{
    capi::olivrescum_run_chart(chart, state, event, outputs, report)
}

// Writes a flat table of the chart into the front of `room`.
#[unsafe(no_mangle)]
pub extern "C" fn olivrescum_flatten(chart: &[u16], room: &mut [u16], report: &mut [u32]) -> u32
    ensures { ChartFlattenedForC chart.now room.old report.old result room.new report.new }
{
    capi::olivrescum_flatten(chart, room, report)
}

// Is this a flat table?
#[unsafe(no_mangle)]
pub extern "C" fn olivrescum_check_flat(flat: &[u16], report: &mut [u32]) -> u32
    ensures { FlatCheckedForC flat.now report.old result report.new }
{
    capi::olivrescum_check_flat(flat, report)
}

// Writes the start state of a flat table into `state`.
#[unsafe(no_mangle)]
pub extern "C" fn olivrescum_start_flat(flat: &[u16], state: &mut [u16], report: &mut [u32]) -> u32
    ensures { FlatStartedForC flat.now state.old report.old result state.new report.new }
{
    capi::olivrescum_start_flat(flat, state, report)
}

// Runs one event on a flat table to the end of its macrostep. `state` becomes the state after it; `outputs` gets two words
// for each output: number and value.
#[unsafe(no_mangle)]
pub extern "C" fn olivrescum_run_flat(
    flat: &[u16],
    state: &mut [u16],
    event: u32,
    outputs: &mut [u16],
    report: &mut [u32],
) -> u32
    ensures { FlatRanForC flat.now state.old event outputs.old report.old result state.new outputs.new report.new }
{
    capi::olivrescum_run_flat(flat, state, event, outputs, report)
}
