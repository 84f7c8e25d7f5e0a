// Runs cases on the public calls: reads one after the other from standard input until it ends, and prints what each
// call said. A case is six words, then those of its table and of its state, then two words for each event of a
// flattening. `run_call` runs each call and prints its lines.
#![tactic(auto)]

ghost use Rattle.std.specs.Prelude.{◌≡◌, ◌+◌, ◌*◌, ◌<◌, ◌%◌};

use answers::{Counts, FlatCounts};
use shell::{Steps, Text};
use std::fmt;
use std::fmt::{Display, Write};
use table::Refusal;

// What each word that is lent for outputs or for a flat table holds before the call.
const LENT: u16 = 42405;

// The public calls, by the numbers that cases and lines give them.
#[derive(Clone, Copy)]
enum Call {
    CheckChart = 1,
    StartChart = 2,
    RunChart = 3,
    CheckFlat = 4,
    StartFlat = 5,
    RunFlat = 6,
    Flatten = 7,
}

// A number that no call has.
#[derive(Drop)]
struct UnknownCall;

impl TryFrom<u16> for Call {
    type Error = UnknownCall;

    // The call that has this number.
    fn try_from(number: u16) -> Result<Self, UnknownCall> {
        match number {
            1 => Ok(Call::CheckChart),
            2 => Ok(Call::StartChart),
            3 => Ok(Call::RunChart),
            4 => Ok(Call::CheckFlat),
            5 => Ok(Call::StartFlat),
            6 => Ok(Call::RunFlat),
            7 => Ok(Call::Flatten),
            _ => Err(UnknownCall),
        }
    }
}

impl Display for Call {
    // Writes the call's number.
    fn fmt<W: Write>(&self, f: &mut fmt::Formatter<W>) -> fmt::Result {
        write!(f, "{}", *self as u8)
    }
}

// What the first six words of a case say. `number` is the event, or how many events follow a flattening; `room` counts
// the words that are lent for outputs or for a flat table.
#[derive(Clone, Copy)]
struct Case {
    call: Option<Call>,
    number: u32,
    table_words: usize,
    state_words: usize,
    room: usize,
}

// The number of two words.
fn long_of(low: u16, high: u16) -> u32
    ensures { result ≡ low + 65536 * high }
{
    u32::from(low) + 65536 * u32::from(high)
}

impl From<[u16; 6]> for Case {
    // The case that begins with these words.
    fn from(head: [u16; 6]) -> Case {
        let [call, low, high, table_words, state_words, room] = head;
        Case {
            call: Call::try_from(call).ok(),
            number: long_of(low, high),
            table_words: usize::from(table_words),
            state_words: usize::from(state_words),
            room: usize::from(room),
        }
    }
}

// Puts the call, and the number and place of its answer.
fn put_answer<T>(text: &mut impl Write, call: Call, answer: &Result<T, Refusal>) -> fmt::Result {
    let number = answers::number_of(answer);
    write!(text, "{call} {number} {}", answers::place_of(answer))
}

// Calls 1 and 4: check a chart or a flat table. Prints call, answer and place.
fn put_check(text: &mut impl Write, call: Call, answer: Result<(), Refusal>) -> fmt::Result {
    put_answer(text, call, &answer)?;
    writeln!(text)
}

// The checksum of one word more.
fn next_sum(sum: u32, word: u16) -> u32
    requires { sum < 65521 }
    ensures value { result ≡ (sum * 31 + word) % 65521 }
    ensures upper_bound { result < 65521 }
{
    (sum * 31 + u32::from(word)) % 65521
}

// The checksum of all words of a slice.
fn checksum(words: &[u16]) -> u32
    ensures { result < 65521 }
{
    let mut sum = 1;
    for word in words {
        sum = next_sum(sum, *word);
    }
    sum
}

// Calls 2 and 5: start a chart or a flat table. Prints call, answer, place and the state's checksum.
fn put_start(
    text: &mut impl Write,
    call: Call,
    answer: Result<(), Refusal>,
    state: &[u16],
) -> fmt::Result {
    put_answer(text, call, &answer)?;
    writeln!(text, " {}", checksum(state))
}

// The counts of a run of a chart, as numbers with spaces between.
#[derive(Clone, Copy)]
struct ChartCounts(Counts);

impl Display for ChartCounts {
    // Writes the steps, and then the outputs.
    fn fmt<W: Write>(&self, f: &mut fmt::Formatter<W>) -> fmt::Result {
        let counts = self.0;
        write!(f, "{} {}", Steps(counts), counts.outputs)
    }
}

// The counts of a run of a flat table, as numbers with spaces between.
#[derive(Clone, Copy)]
struct FlatTableCounts(FlatCounts);

impl Display for FlatTableCounts {
    // Writes microsteps, rules fired and outputs.
    fn fmt<W: Write>(&self, f: &mut fmt::Formatter<W>) -> fmt::Result {
        let counts = self.0;
        write!(
            f,
            "{} {} {}",
            counts.microsteps, counts.fired, counts.outputs
        )
    }
}

// Calls 3 and 6: run one event on a chart or a flat table. Prints call, answer, place, the counts, and the checksums of
// state and outputs.
fn put_run<T>(
    text: &mut impl Write,
    call: Call,
    answer: &Result<T, Refusal>,
    counts: impl Display + Drop,
    state: &[u16],
    outputs: &[u16],
) -> fmt::Result {
    put_answer(text, call, answer)?;
    writeln!(text, " {counts} {} {}", checksum(state), checksum(outputs))
}

// A chart and the flat table that was written from it, each with its state.
#[derive(Drop)]
struct Both<'a, 's> {
    chart: &'a [u16],
    flat: &'a [u16],
    state: &'s mut [u16],
    flat_state: &'s mut [u16],
}

impl Both<'_, '_> {
    // Starts both tables.
    fn start(&mut self) {
        let _ = olivrescum::start_chart(self.chart, self.state);
        let _ = olivrescum::start_flat(self.flat, self.flat_state);
    }

    // Reads an event and the room that stands beside it, and runs it on both tables.
    fn run_next(&mut self, text: &mut impl Write) -> fmt::Result {
        let mut pair = [0u16; 2];
        shell::read_words(&mut pair, 0, 2);
        let [event, room] = pair;
        let mut outputs = [LENT; 600];
        let mut flat_outputs = [LENT; 600];
        let words = shell::lent(usize::from(room), &outputs);
        self.run(
            u32::from(event),
            &mut outputs[..words],
            &mut flat_outputs[..words],
            text,
        )
    }

    // Runs an event on both tables. Prints what the flat run says, and whether it fired few enough rules.
    fn run(
        &mut self,
        event: u32,
        outputs: &mut [u16],
        flat_outputs: &mut [u16],
        text: &mut impl Write,
    ) -> fmt::Result {
        let run = olivrescum::run_chart(self.chart, self.state, event, outputs);
        let flat_run = olivrescum::run_flat(self.flat, self.flat_state, event, flat_outputs);
        put_flat_event(text, flat_run, flat_outputs)?;
        let few = is_within_bound(answers::counts_of(run), answers::counts_of(flat_run));
        writeln!(text, " {} {}", self.variables_checksum(), u8::from(few))
    }

    // The checksum of the variables of the flat state, which stand behind the states of its machines.
    fn variables_checksum(&self) -> u32 {
        let start = shell::lent(words::number(self.flat, flat::MACHINES), self.flat_state);
        checksum(&self.flat_state[start..])
    }
}

// Puts the line of an event as far as the outputs: a dot, answer, microsteps, number of outputs, and their checksum.
fn put_flat_event(
    text: &mut impl Write,
    run: Result<FlatCounts, Refusal>,
    outputs: &[u16],
) -> fmt::Result {
    let number = answers::number_of(&run);
    let counts = answers::counts_of(run);
    let sum = checksum(outputs);
    write!(
        text,
        ". {number} {} {} {sum}",
        counts.microsteps, counts.outputs
    )
}

// Whether the rules fired number at most the states left and entered and the transitions taken.
fn is_within_bound(counts: Counts, flat: FlatCounts) -> bool {
    u64::from(flat.fired)
        <= u64::from(counts.left) + u64::from(counts.entered) + u64::from(counts.taken)
}

// Starts both tables, and runs on both the events that follow, each with the room that stands beside it.
fn run_both(events: u32, chart: &[u16], flat: &[u16], text: &mut impl Write) -> fmt::Result {
    let mut state = [0u16; 47];
    let mut flat_state = [0u16; 47];
    let wanted = words::number(flat, flat::MACHINES) + words::number(flat, flat::VARIABLES);
    let words = shell::lent(wanted, &state);
    let mut both = Both {
        chart,
        flat,
        state: &mut state[..words],
        flat_state: &mut flat_state[..words],
    };
    both.start();
    for _ in 0..events {
        both.run_next(text)?;
    }
    Ok(())
}

// Reads over the two words an event that follow a flattening.
fn skip_events(count: u32) {
    let mut pair = [0u16; 2];
    shell::read_words(&mut pair, 0, 2 * count as usize);
}

// Call 7: flatten into the words that are lent. Prints call, answer, place, and the flat check's answer on what
// is written; then a line for each event.
fn flatten(events: u32, chart: &[u16], room: &mut [u16], text: &mut impl Write) -> fmt::Result {
    room.fill(LENT);
    let flattening = olivrescum::flatten(chart, room);
    put_answer(text, Call::Flatten, &flattening)?;
    match flattening {
        Err(_) => {
            skip_events(events);
            writeln!(text, " 0")
        }
        Ok(count) => {
            let words = shell::lent(count as usize, room);
            let flat = &room[..words];
            writeln!(
                text,
                " {}",
                answers::number_of(&olivrescum::check_flat(flat))
            )?;
            run_both(events, chart, flat, text)
        }
    }
}

// The call of a case on its table and state. A call that is not known prints nothing.
fn run_call(
    case: Case,
    table: &[u16],
    state: &mut [u16],
    room: &mut [u16],
    text: &mut impl Write,
) -> fmt::Result {
    let Some(call) = case.call else {
        return Ok(());
    };
    let mut outputs = [LENT; 600];
    let words = shell::lent(case.room, &outputs);
    let outputs = &mut outputs[..words];
    match call {
        Call::CheckChart => put_check(text, call, olivrescum::check_chart(table)),
        Call::CheckFlat => put_check(text, call, olivrescum::check_flat(table)),
        Call::StartChart => {
            let answer = olivrescum::start_chart(table, state);
            put_start(text, call, answer, state)
        }
        Call::StartFlat => {
            let answer = olivrescum::start_flat(table, state);
            put_start(text, call, answer, state)
        }
        Call::RunChart => {
            let run = olivrescum::run_chart(table, state, case.number, outputs);
            let counts = ChartCounts(answers::counts_of(run));
            put_run(text, call, &run, counts, state, outputs)
        }
        Call::RunFlat => {
            let run = olivrescum::run_flat(table, state, case.number, outputs);
            let counts = FlatTableCounts(answers::counts_of(run));
            put_run(text, call, &run, counts, state, outputs)
        }
        Call::Flatten => {
            let words = shell::lent(case.room, room);
            flatten(case.number, table, &mut room[..words], text)
        }
    }
}

// Reads the words of a case, and runs its call.
fn run_case(case: Case, table: &mut [u16], room: &mut [u16], text: &mut impl Write) -> fmt::Result {
    let table_words = shell::read_words(table, 0, case.table_words);
    let mut state = [0u16; 47];
    let state_words = shell::read_words(&mut state, 0, case.state_words);
    run_call(
        case,
        &table[..table_words],
        &mut state[..state_words],
        room,
        text,
    )
}

// The next case of the input; none where it has ended.
fn next_case() -> Option<Case> {
    let mut head = [0u16; 6];
    if shell::read_words(&mut head, 0, 6) < 6 {
        return None;
    }
    Some(Case::from(head))
}

// Runs all cases of the input. The bound is one that no input reaches.
fn run_cases(text: &mut impl Write) -> fmt::Result {
    let mut table = [0u16; 65535];
    let mut room = [0u16; 52170];
    for _ in 0..u64::MAX {
        let Some(case) = next_case() else {
            break;
        };
        run_case(case, &mut table, &mut room, text)?;
    }
    Ok(())
}

fn main() {
    let mut text = Text::new();
    let _ = run_cases(&mut text);
    text.finish();
}
