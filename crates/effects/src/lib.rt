// What items do: to running variables, outputs and the queue of signals; and what both engines need for a macrostep. It
// knows items, and neither charts nor flat tables. specs/Run.antt says what it means, specs/Work.antt how the code goes.
#![tactic(auto)]

ghost use Rattle.std.specs.Prelude.{◌≡◌, ◌+◌, ◌*◌, ◌%◌, ◌<◌, ◌≤◌, length, slice_index, slice_set};
ghost use Rattle.effects.specs.Work.{work, count_of, head_of, stopped?, stop_at, further, more, one_more, do_emit, do_raise, do_item, do_items, items_from, span_items, ItemsIn, ended?, fresh, refusal_of};

use table::{Item, Refusal, Signal, Trigger};

// Why a macrostep stops before its end, with the number that says so in a progress.
#[derive(Clone, Copy)]
pub enum Stop {
    Signals = 1,
    Outputs = 2,
    Microsteps = 3,
}

// What a macrostep counts: the transitions or flat rules that fired, the states left and those entered, the microsteps, the signals
// raised (tail) and those taken off the queue (head), and the outputs.
#[derive(Clone, Copy)]
pub enum Counted {
    Fired,
    Left,
    Entered,
    Microstep,
    Raised,
    Taken,
    Output,
}

// How far a macrostep is, in two numbers, so that it takes little of the stack; how they are made up is known here alone.
// specs/Work.antt says which bits count what: `counts` has what fired, the states left and the states entered, `rest` why it
// has stopped, the microsteps, the signals raised and taken, and the outputs. No count of a macrostep reaches the next.
#[derive(Clone, Copy)]
pub struct Progress {
    counts: u64,
    rest: u64,
}

// One more of what is counted, and where the reason of a stop begins.
const ONE_FIRED: u64 = 1099511627776;

const ONE_LEFT: u64 = 1048576;

const ONE_ENTERED: u64 = 1;

const ONE_STOP: u64 = 4611686018427387904;

const ONE_MICROSTEP: u64 = 281474976710656;

const ONE_RAISED: u64 = 4294967296;

const ONE_TAKEN: u64 = 65536;

const ONE_OUTPUT: u64 = 1;

impl Progress {
    // A macrostep that has not begun.
    pub fn new() -> Progress
        ensures { result ≡ fresh }
    {
        Progress { counts: 0, rest: 0 }
    }

    // How much is counted.
    pub fn count(self, of: Counted) -> u32
        ensures is { result ≡ count_of of self }
        ensures small { result < 16777216 }
    {
        let n = match of {
            Counted::Fired => self.counts / ONE_FIRED,
            Counted::Left => self.counts / ONE_LEFT % 1048576,
            Counted::Entered => self.counts % 1048576,
            Counted::Microstep => self.rest / ONE_MICROSTEP % 16384,
            Counted::Raised => self.rest / ONE_RAISED % 65536,
            Counted::Taken => self.rest / ONE_TAKEN % 65536,
            Counted::Output => self.rest % 65536,
        };
        n as u32
    }

    // One more is counted.
    pub fn one_more(self, of: Counted) -> Progress
        ensures { result ≡ one_more of self }
    {
        match of {
            Counted::Fired => self.grown(ONE_FIRED),
            Counted::Left => self.grown(ONE_LEFT),
            Counted::Entered => self.grown(ONE_ENTERED),
            Counted::Microstep => self.advanced(ONE_MICROSTEP),
            Counted::Raised => self.advanced(ONE_RAISED),
            Counted::Taken => self.advanced(ONE_TAKEN),
            Counted::Output => self.advanced(ONE_OUTPUT),
        }
    }

    // So much more of what `rest` counts.
    fn advanced(self, x: u64) -> Progress
        ensures { result ≡ further x self }
    {
        Progress {
            counts: self.counts,
            rest: self.rest.wrapping_add(x),
        }
    }

    // So much more of what `counts` counts.
    fn grown(self, x: u64) -> Progress
        ensures { result ≡ more x self }
    {
        Progress {
            counts: self.counts.wrapping_add(x),
            rest: self.rest,
        }
    }

    // The macrostep stops.
    pub fn stop_at(self, stop: Stop) -> Progress
        ensures { result ≡ stop_at stop self }
    {
        Progress {
            counts: self.counts,
            rest: self.rest | stop as u64 * ONE_STOP,
        }
    }

    // Whether the macrostep has stopped.
    pub fn is_stopped(self) -> bool
        ensures { result ≡ stopped? self }
    {
        ONE_STOP <= self.rest
    }

    // The refusal that a macrostep that has stopped gives.
    #[tactic(auto, unfolding(crate::specs::Work::refusal_of))]
    pub fn refusal(self) -> Refusal
        ensures { result ≡ refusal_of self }
    {
        match self.rest / ONE_STOP {
            3 => Refusal::Microsteps,
            2 => Refusal::Outputs,
            _ => Refusal::Signals,
        }
    }

    // Whether nothing is left to do: a stop, or no signal waits.
    pub fn has_ended(self) -> bool
        ensures { result ≡ ended? self }
    {
        self.is_stopped() || self.count(Counted::Taken) == self.count(Counted::Raised)
    }

    // The oldest signal that waits, as a trigger.
    pub fn oldest(self, queue: &[u8], events: u16) -> Trigger
        ensures { result.0 ≡ events + slice_index queue.now (head_of self % 32) }
    {
        let at = self.count(Counted::Taken) as usize % 32;
        let signal = queue.get(at).copied().unwrap_or(0);
        table::trigger_of(Signal(signal as u16), events)
    }
}

// One output more: a number and a value.
#[tactic(auto, unfolding(crate::specs::Work::do_emit))]
fn emit(a: u16, v: u16, pairs: usize, outs: &mut [u16], n: Progress) -> Progress
    ensures { (result, outs.new) ≡ do_emit pairs a v (n, outs.old) }
{
    let k = n.count(Counted::Output) as usize;
    if pairs <= k {
        return n.stop_at(Stop::Outputs);
    }
    words::put(outs, 2 * k, a);
    words::put(outs, 2 * k + 1, v);
    n.one_more(Counted::Output)
}

// One signal more to wait, of at most 32.
#[tactic(auto, unfolding(crate::specs::Work::do_raise))]
fn raise(k: Signal, queue: &mut [u8], n: Progress) -> Progress
    ensures { (result, queue.new) ≡ do_raise k.0 (n, queue.old) }
{
    let tail = n.count(Counted::Raised);
    if n.count(Counted::Taken) + 32 <= tail {
        return n.stop_at(Stop::Signals);
    }
    words::put(queue, tail as usize % 32, (k.0 % 256) as u8);
    n.one_more(Counted::Raised)
}

// What one item does: one case decides.
fn do_item(
    item: Item,
    pairs: usize,
    vars: &mut [u16],
    outs: &mut [u16],
    queue: &mut [u8],
    n: Progress,
) -> Progress
    ensures { work result vars.new outs.new queue.new ≡ do_item pairs item (work n vars.old outs.old queue.old) }
{
    match item {
        Item::Emit(a) => emit(a, 0, pairs, outs, n),
        Item::Raise(k) => raise(k, queue, n),
        Item::WrapAdd(a, b) => {
            let i = words::wide(a);
            let x = words::word(vars, i);
            words::put(vars, i, words::wrap_add(x, b));
            n
        }
        Item::SatAdd(a, b) => {
            let i = words::wide(a);
            let x = words::word(vars, i);
            words::put(vars, i, words::sat_add(x, b));
            n
        }
        Item::Set(a, b) => {
            words::put(vars, words::wide(a), b);
            n
        }
        Item::Log(a, b) => {
            let x = words::word(vars, words::wide(b));
            emit(a, x, pairs, outs, n)
        }
    }
}

// The `count` items whose words begin at `first`, in order, up to a stop.
pub fn run_items(
    t: &[u16],
    first: usize,
    count: usize,
    pairs: usize,
    vars: &mut [u16],
    outs: &mut [u16],
    queue: &mut [u8],
    n: Progress,
) -> Progress
    requires { first + 3 * count ≤ length t.now }
    ensures { work result vars.new outs.new queue.new ≡ do_items pairs (items_from t.now first count) (work n vars.old outs.old queue.old) }
{
    let mut m = n;
    for k in 0..count {
        if m.is_stopped() {
            return m;
        }
        m = do_item(
            table::item_at(t, first + 3 * k),
            pairs,
            vars,
            outs,
            queue,
            m,
        );
    }
    m
}

// The items of the span whose two words begin at `at`, of the section that word `base` is the offset of.
pub fn run_span(
    t: &[u16],
    base: usize,
    at: usize,
    pairs: usize,
    vars: &mut [u16],
    outs: &mut [u16],
    queue: &mut [u8],
    n: Progress,
) -> Progress
    requires { ItemsIn t.now base at }
    ensures { work result vars.new outs.new queue.new ≡ do_items pairs (span_items t.now base at) (work n vars.old outs.old queue.old) }
{
    let first = words::number_in(t, base) + 3 * words::number_in(t, at);
    let count = words::number_in(t, at + 1);
    run_items(t, first, count, pairs, vars, outs, queue, n)
}
