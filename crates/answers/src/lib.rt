// What the calls count, and answers taken apart: the number and the place that 01's table "What a call can say" gives an answer, and
// its counts. specs/Parts.antt has the definitions; 01's numbers themselves are those of `told` in table/specs/Answers.antt.
#![tactic(auto)]

ghost use Rattle.std.specs.Prelude.{◌≡◌, Err};
ghost use Rattle.std.specs.Result.{ResultUnwrapsOrElse};
ghost use Rattle.table.specs.Answers.{refusal_told, told};
ghost use Rattle.answers.specs.Parts.{counts_of, flat_counts_of, table_words_of};

use table::Refusal;

// What a finished macrostep of a chart counted.
#[derive(Clone, Copy, PartialEq, Eq, Debug, Default)]
pub struct Counts {
    pub microsteps: u32,
    pub taken: u32,
    pub left: u32,
    pub entered: u32,
    pub outputs: u32,
}

// What a finished macrostep of a flat table counted.
#[derive(Clone, Copy, PartialEq, Eq, Debug, Default)]
pub struct FlatCounts {
    pub microsteps: u32,
    pub fired: u32,
    pub outputs: u32,
}

// The number and the place of a refusal: a row of 01's table "What a call can say".
fn refusal_told(refusal: Refusal) -> (u32, u32)
    ensures { result ≡ refusal_told refusal }
{
    match refusal {
        Refusal::ChartForm => (1, 0),
        Refusal::ChartCount => (2, 0),
        Refusal::ChartLayout => (3, 0),
        Refusal::ChartTree(place) => (4, place),
        Refusal::ChartSpan(place) => (5, place),
        Refusal::ChartLiteral(place) => (6, place),
        Refusal::ChartItem(place) => (7, place),
        Refusal::ChartSource(place) => (8, place),
        Refusal::ChartTargets(place) => (9, place),
        Refusal::FlatForm => (11, 0),
        Refusal::FlatCount => (12, 0),
        Refusal::FlatLayout => (13, 0),
        Refusal::FlatMachine(place) => (14, place),
        Refusal::FlatSpan(place) => (15, place),
        Refusal::FlatLiteral(place) => (16, place),
        Refusal::FlatItem(place) => (17, place),
        Refusal::FlatRule(place) => (18, place),
        Refusal::NoEvent => (20, 0),
        Refusal::Signals => (21, 0),
        Refusal::Outputs => (22, 0),
        Refusal::Microsteps => (23, 0),
        Refusal::State => (24, 0),
        Refusal::Room => (31, 0),
    }
}

// The number and the place of an answer: done is 0 at 0.
fn told<T>(answer: &Result<T, Refusal>) -> (u32, u32)
    ensures { result ≡ told answer.now }
{
    match answer {
        Ok(_) => (0, 0),
        Err(refusal) => refusal_told(*refusal),
    }
}

// Its number alone.
pub fn number_of<T>(answer: &Result<T, Refusal>) -> u32
    ensures { result ≡ (told answer.now).0 }
{
    told(answer).0
}

// Its place alone; one that is not named is 0.
pub fn place_of<T>(answer: &Result<T, Refusal>) -> u32
    ensures { result ≡ (told answer.now).1 }
{
    told(answer).1
}

// What an answer counts: on a refusal, all 0.
pub fn counts_of<T: Default>(answer: Result<T, Refusal>) -> T
    ensures { ResultUnwrapsOrElse answer T.is_default result }
{
    answer.unwrap_or_default()
}

// What a refused run of a chart, a refused run of a flat table and a refused flattening count: all 0, which `counts_of` says of any kind
// by its default.
pub fn refused_counts(refusal: Refusal) -> (Counts, FlatCounts, u32)
    ensures { result ≡ (counts_of (Err refusal), flat_counts_of (Err refusal), table_words_of (Err refusal)) }
{
    let run: Counts = counts_of(Err(refusal));
    let flat_run: FlatCounts = counts_of(Err(refusal));
    (run, flat_run, counts_of(Err(refusal)))
}
