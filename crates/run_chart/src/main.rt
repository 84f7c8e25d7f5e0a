// Document 01's small program: reads a chart from standard input and then its events, a byte each. Prints a line for
// each event and a last one for the state; of a refused table only the number and the place of its refusal.
#![tactic(auto)]

ghost use Rattle.std.specs.Prelude.{◌≤◌, length};

use answers::Counts;
use shell::Text;
use std::fmt;
use std::fmt::{Display, Write};
use table::Refusal;

// Reads a chart: as many words as its second word says, and no more than fit. Answers how many came.
fn read_chart(chart: &mut [u16]) -> usize
    ensures { result ≤ length chart.new }
{
    let said = shell::read_words(chart, 0, 2);
    if said < 2 {
        return said;
    }
    shell::read_words(chart, 2, words::number(chart, 1))
}

// How many or-states a chart has.
fn or_states(t: &[u16]) -> usize
    ensures { result ≤ 65535 }
{
    let states = words::word(t, chart::STATES);
    (0..states).filter(|k| is_or(t, *k)).count()
}

// Whether state k is an or-state.
fn is_or(t: &[u16], k: u16) -> bool {
    let at = words::number(t, chart::STATES_AT) + 7 * words::wide(k);
    words::number(t, at + chart::KIND) != 2
}

// How many words of `room` a state of this chart takes: one for each or-state, and the variables.
fn state_words(t: &[u16], room: &[u16]) -> usize
    ensures { result ≤ length room.now }
{
    shell::lent(or_states(t) + words::number(t, chart::VARIABLES), room)
}

// Puts a space and a number. By itself, and not as a hole among others of one `write!`: each of these costs a call.
#[inline(always)]
fn put_field(text: &mut impl Write, number: impl Display + Drop) -> fmt::Result {
    text.write_str(" ")?;
    text.write(number)
}

// Puts the counts of a run but its outputs, each behind a space.
fn put_steps(text: &mut impl Write, counts: Counts) -> fmt::Result {
    put_field(text, counts.microsteps)?;
    put_field(text, counts.taken)?;
    put_field(text, counts.left)?;
    put_field(text, counts.entered)
}

// Puts the outputs, two words each: a number, and a value signed.
fn put_outputs(text: &mut impl Write, outputs: &[u16]) -> fmt::Result {
    for output in outputs.chunks_exact(2) {
        put_field(text, output[0])?;
        text.write_str(":")?;
        text.write(output[1].cast_signed())?;
    }
    Ok(())
}

// Puts the line of an event: what the run said, and the outputs that it wrote at the start of `outputs`.
fn put_run(
    text: &mut impl Write,
    event: u8,
    run: Result<Counts, Refusal>,
    outputs: &[u16],
) -> fmt::Result {
    let number = answers::number_of(&run);
    let counts = answers::counts_of(run);
    text.write(event)?;
    put_field(text, number)?;
    put_steps(text, counts)?;
    let written = shell::lent(2 * counts.outputs as usize, outputs);
    put_outputs(text, &outputs[..written])?;
    text.write_str("\n")
}

// Runs an event, with 256 pairs lent, and puts its line.
fn run_event(t: &[u16], state: &mut [u16], event: u8, text: &mut impl Write) -> fmt::Result {
    let mut outputs = [0u16; 512];
    let run = olivrescum::run_chart(t, state, u32::from(event), &mut outputs);
    put_run(text, event, run, &outputs)
}

// Runs all events of the input, which is read by whole buffers. The bound is one that no input reaches.
fn run_input(t: &[u16], state: &mut [u16], text: &mut impl Write) -> fmt::Result {
    let mut buffer = [0u8; 4096];
    for _ in 0..u64::MAX {
        let count = shell::read_bytes(&mut buffer);
        if count == 0 {
            break;
        }
        for event in &buffer[..count] {
            run_event(t, state, *event, text)?;
        }
    }
    Ok(())
}

// Puts the line of a state, which has a word for its root at least. A state's number is too small to look signed.
fn put_state(text: &mut impl Write, state: &[u16]) -> fmt::Result {
    write!(text, "{}", words::word(state, 0).cast_signed())?;
    for word in state.iter().skip(1) {
        write!(text, " {}", word.cast_signed())?;
    }
    writeln!(text)
}

// Puts the line of a refusal: number and place.
fn put_refusal(text: &mut impl Write, answer: &Result<(), Refusal>) -> fmt::Result {
    let number = answers::number_of(answer);
    writeln!(text, "{number} {}", answers::place_of(answer))
}

// Starts the chart, and runs the events where its table is not refused.
fn run(t: &[u16], state: &mut [u16], text: &mut impl Write) -> fmt::Result {
    let answer = olivrescum::start_chart(t, state);
    if answer.is_err() {
        return put_refusal(text, &answer);
    }
    run_input(t, state, text)?;
    put_state(text, state)
}

fn main() {
    let mut text = Text::new();
    let mut chart = [0u16; 3040];
    let count = read_chart(&mut chart);
    let mut state = [0u16; 64];
    let words = state_words(&chart[..count], &state);
    let _ = run(&chart[..count], &mut state[..words], &mut text);
    text.finish();
}
