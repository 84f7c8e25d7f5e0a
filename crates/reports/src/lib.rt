// Reports for C and Rust: what an answer says in numbers, and the eight words that tell it. specs/Said.antt has the definitions;
// the parts of an answer are those of `answers`.
#![tactic(auto)]

ghost use Rattle.std.specs.Prelude.{◌≡◌, set};
ghost use Rattle.reports.specs.Said.{verdict_said, chart_said, flat_said, flatten_said, report_of, reported};

use answers::{Counts, FlatCounts};
use table::Refusal;

// What an answer says in numbers: its own number, and then the eight words of a report. What a call does not count is 0.
#[derive(Clone, Copy, PartialEq, Eq, Debug, Default)]
pub struct Said {
    pub number: u32,
    pub place: u32,
    pub microsteps: u32,
    pub taken: u32,
    pub left: u32,
    pub entered: u32,
    pub fired: u32,
    pub outputs: u32,
    pub words: u32,
}

// What a check or a start says, which count nothing.
impl From<Result<(), Refusal>> for Said {
    ghost from_gives = { λ answer said. said ≡ verdict_said answer };

    fn from(answer: Result<(), Refusal>) -> Said {
        Said {
            number: answers::number_of(&answer),
            place: answers::place_of(&answer),
            ..Said::default()
        }
    }
}

// What a run of a chart says.
impl From<Result<Counts, Refusal>> for Said {
    ghost from_gives = { λ run said. said ≡ chart_said run };

    fn from(run: Result<Counts, Refusal>) -> Said {
        let counts = answers::counts_of(run);
        Said {
            number: answers::number_of(&run),
            place: answers::place_of(&run),
            microsteps: counts.microsteps,
            taken: counts.taken,
            left: counts.left,
            entered: counts.entered,
            outputs: counts.outputs,
            ..Said::default()
        }
    }
}

// What a run of a flat table says.
impl From<Result<FlatCounts, Refusal>> for Said {
    ghost from_gives = { λ run said. said ≡ flat_said run };

    fn from(run: Result<FlatCounts, Refusal>) -> Said {
        let counts = answers::counts_of(run);
        Said {
            number: answers::number_of(&run),
            place: answers::place_of(&run),
            microsteps: counts.microsteps,
            fired: counts.fired,
            outputs: counts.outputs,
            ..Said::default()
        }
    }
}

// What a flattening says.
impl From<Result<u32, Refusal>> for Said {
    ghost from_gives = { λ flattening said. said ≡ flatten_said flattening };

    fn from(flattening: Result<u32, Refusal>) -> Said {
        Said {
            number: answers::number_of(&flattening),
            place: answers::place_of(&flattening),
            words: answers::counts_of(flattening),
            ..Said::default()
        }
    }
}

// Word k of a report becomes `value`; past its end nothing changes.
fn put(report: &mut [u32], k: usize, value: u32)
    ensures { report.new ≡ set report.old k value }
{
    if k < report.len() {
        report[k] = value;
    }
}

// Writes what is said into a report, as far as its words are lent, and answers the number.
pub fn tell(said: Said, report: &mut [u32]) -> u32
    ensures numbered { result ≡ said.number }
    ensures written { report.new ≡ reported (report_of said) report.old }
{
    put(report, 0, said.place);
    put(report, 1, said.microsteps);
    put(report, 2, said.taken);
    put(report, 3, said.left);
    put(report, 4, said.entered);
    put(report, 5, said.fired);
    put(report, 6, said.outputs);
    put(report, 7, said.words);
    said.number
}
