// The library for C and Rust: the seven public calls of `olivrescum` over lent words alone. Each returns the number of its
// answer, and writes its place and its counts into a report of eight words, as far as they are lent.
// `capi_c` exports them; include/olivrescum.h is the C side. specs/Calls.antt says what is promised, `reports` what numbers an
// answer has; the module `theorems` says that the promises leave one outcome.
#![tactic(auto)]

mod theorems;

ghost use Rattle.capi.specs.Calls.{ChartCheckedForC, ChartStartedForC, ChartRanForC, ChartFlattenedForC};
ghost use Rattle.capi.specs.Calls.{FlatCheckedForC, FlatStartedForC, FlatRanForC};

use reports::{Said, tell};

// Is this a chart table?
pub fn olivrescum_check_chart(chart: &[u16], report: &mut [u32]) -> u32
    ensures { ChartCheckedForC chart.now report.old result report.new }
{
    tell(Said::from(olivrescum::check_chart(chart)), report)
}

// Writes the start state of a chart into `state`.
pub fn olivrescum_start_chart(chart: &[u16], state: &mut [u16], report: &mut [u32]) -> u32
    ensures { ChartStartedForC chart.now state.old report.old result state.new report.new }
{
    tell(Said::from(olivrescum::start_chart(chart, state)), report)
}

// Runs one event on a chart to the end of its macrostep. `state` becomes the state after it; `outputs` gets two words for
// each output: number and value.
pub fn olivrescum_run_chart(
    chart: &[u16],
    state: &mut [u16],
    event: u32,
    outputs: &mut [u16],
    report: &mut [u32],
) -> u32
    ensures { ChartRanForC chart.now state.old event outputs.old report.old result state.new outputs.new report.new }
{
    tell(
        Said::from(olivrescum::run_chart(chart, state, event, outputs)),
        report,
    )
}

// Writes a flat table of the chart into the front of `room`.
pub fn olivrescum_flatten(chart: &[u16], room: &mut [u16], report: &mut [u32]) -> u32
    ensures { ChartFlattenedForC chart.now room.old report.old result room.new report.new }
{
    tell(Said::from(olivrescum::flatten(chart, room)), report)
}

// Is this a flat table?
pub fn olivrescum_check_flat(flat: &[u16], report: &mut [u32]) -> u32
    ensures { FlatCheckedForC flat.now report.old result report.new }
{
    tell(Said::from(olivrescum::check_flat(flat)), report)
}

// Writes the start state of a flat table into `state`.
pub fn olivrescum_start_flat(flat: &[u16], state: &mut [u16], report: &mut [u32]) -> u32
    ensures { FlatStartedForC flat.now state.old report.old result state.new report.new }
{
    tell(Said::from(olivrescum::start_flat(flat, state)), report)
}

// Runs one event on a flat table to the end of its macrostep. `state` becomes the state after it; `outputs` gets two words
// for each output: number and value.
pub fn olivrescum_run_flat(
    flat: &[u16],
    state: &mut [u16],
    event: u32,
    outputs: &mut [u16],
    report: &mut [u32],
) -> u32
    ensures { FlatRanForC flat.now state.old event outputs.old report.old result state.new outputs.new report.new }
{
    tell(
        Said::from(olivrescum::run_flat(flat, state, event, outputs)),
        report,
    )
}
