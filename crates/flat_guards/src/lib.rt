// The guards of a flat table that is accepted: which of those that are asked for are true, on given words and variables. A guard is
// asked for, and then true, where it is marked, a bit each.
#![tactic(auto)]

ghost use Rattle.std.specs.Prelude.{◌≡◌, true, ◌&&◌, ℕ, ◌*◌, ◌<◌, ◌≤◌, length};
ghost use Rattle.flat.specs.Shown.{shown};
ghost use Rattle.flat_guards.specs.Names.{Names};
ghost use Rattle.flat_guards.specs.Parts.{fits, agrees, all_fit, all_agree, asking, AsksFor, Needs, MarkedOrFalse, Sifted};
ghost use Rattle.flat_meaning.specs.Guards.{current?, in_cells, values};
ghost use Rattle.marks.specs.Bits.{marked};

use flat::FlatLiteral;
use flat_rules::Accepted;

// Whether state a is current in its machine.
fn is_current(t: Accepted, current: &[u16], a: usize) -> bool
    requires { (a < (shown t.table).states) × (length current.now ≡ (shown t.table).machines) }
    ensures { result ≡ current? (shown t.entry.table) current.now a }
{
    words::number_in(current, t.table.machine_of(a)) == a
}

// Whether what a literal asks of states and variables holds.
fn does_fit(t: Accepted, current: &[u16], vars: &[u16], literal: FlatLiteral) -> bool
    requires { Names (shown t.table) literal × (length current.now ≡ (shown t.table).machines) }
    ensures { result ≡ fits (shown t.entry.table) current.now vars.now literal }
{
    match literal {
        FlatLiteral::Current(a) => is_current(t, current, words::wide(a)),
        FlatLiteral::NotCurrent(a) => !is_current(t, current, words::wide(a)),
        FlatLiteral::AtLeast(a, b) => !words::is_below(words::word(vars, words::wide(a)), b),
        FlatLiteral::Less(a, b) => words::is_below(words::word(vars, words::wide(a)), b),
        FlatLiteral::Holds(_) => true,
        FlatLiteral::Fails(_) => true,
    }
}

// The guard that a literal asks for is marked.
fn ask(marks: &mut [u16], literal: FlatLiteral)
    requires { (a : ℕ) → AsksFor literal a → a < 16 * length marks.old }
    ensures { marks.new ≡ asking literal marks.old }
{
    match literal {
        FlatLiteral::Current(_) => {}
        FlatLiteral::NotCurrent(_) => {}
        FlatLiteral::AtLeast(_, _) => {}
        FlatLiteral::Less(_, _) => {}
        FlatLiteral::Holds(a) => marks::add(marks, words::wide(a)),
        FlatLiteral::Fails(a) => marks::add(marks, words::wide(a)),
    }
}

// Whether what a literal asks of a guard holds, where `marks` has the guards that are true.
fn does_agree(marks: &[u16], literal: FlatLiteral) -> bool
    requires { (a : ℕ) → AsksFor literal a → a < 16 * length marks.now }
    ensures { result ≡ agrees (marked marks.now) literal }
{
    match literal {
        FlatLiteral::Current(_) => true,
        FlatLiteral::NotCurrent(_) => true,
        FlatLiteral::AtLeast(_, _) => true,
        FlatLiteral::Less(_, _) => true,
        FlatLiteral::Holds(a) => marks::has(marks, words::wide(a)),
        FlatLiteral::Fails(a) => !marks::has(marks, words::wide(a)),
    }
}

// Whether all that guard k asks of states and variables holds; then the guards that it asks for are marked.
fn do_all_fit(t: Accepted, current: &[u16], vars: &[u16], marks: &mut [u16], k: usize) -> bool
    requires { (k < (shown t.table).guards) × ((shown t.table).guards ≤ 16 * length marks.old) × (length current.now ≡ (shown t.table).machines) }
    ensures is { result ≡ all_fit (shown t.entry.table) current.now vars.now k }
    ensures asked { result ≡ true → (a : ℕ) → Needs (shown t.entry.table) k a → marked marks.new a ≡ true }
    ensures more { (a : ℕ) → marked marks.old a ≡ true → marked marks.new a ≡ true }
    ensures above { (a : ℕ) → k ≤ a → marked marks.new a ≡ marked marks.old a }
{
    let asks = t.table.asks(k);
    for i in asks.start..asks.end {
        let literal = t.table.literal(i);
        if !does_fit(t, current, vars, literal) {
            return false;
        }
        ask(marks, literal);
    }
    true
}

// Whether all that guard k asks of guards holds.
fn do_all_agree(t: Accepted, marks: &[u16], k: usize) -> bool
    requires { (k < (shown t.table).guards) × ((shown t.table).guards ≤ 16 * length marks.now) }
    ensures { result ≡ all_agree (shown t.entry.table) (marked marks.now) k }
{
    let asks = t.table.asks(k);
    for i in asks.start..asks.end {
        if !does_agree(marks, t.table.literal(i)) {
            return false;
        }
    }
    true
}

// Of the guards that are asked for, and of those that these ask for, in falling number: the ones that states and variables do not
// keep from being true stay marked. A guard asks for smaller ones.
fn sift(t: Accepted, current: &[u16], vars: &[u16], marks: &mut [u16])
    requires { ((shown t.table).guards ≤ 16 * length marks.old) × (length current.now ≡ (shown t.table).machines) }
    ensures kept { (k : ℕ) → k < (shown t.entry.table).guards → marked marks.old k ≡ true → MarkedOrFalse (shown t.entry.table) current.now vars.now (marked marks.new) k }
    ensures sifted { (k : ℕ) → k < (shown t.entry.table).guards → marked marks.new k ≡ true → Sifted (shown t.entry.table) current.now vars.now (marked marks.new) k }
{
    let mut k = marks::last(marks, t.table.head(flat::GUARDS));
    while 0 < k {
        k -= 1;
        if !do_all_fit(t, current, vars, marks, k) {
            marks::remove(marks, k);
        }
        k = marks::last(marks, k);
    }
}

// A marked guard stays marked where all that it asks of guards holds, in rising number: the guards that it asks for, which are
// smaller, are settled then.
fn settle(t: Accepted, marks: &mut [u16])
    requires { (shown t.table).guards ≤ 16 * length marks.old }
    ensures { (k : ℕ) → k < (shown t.entry.table).guards → marked marks.new k ≡ (marked marks.old k && all_agree (shown t.entry.table) (marked marks.new) k) }
{
    let guards = t.table.head(flat::GUARDS);
    let mut k = marks::next(marks, 0, guards);
    while k < guards {
        if !do_all_agree(t, marks, k) {
            marks::remove(marks, k);
        }
        k = marks::next(marks, k + 1, guards);
    }
}

// Of the guards that are asked for, those that are true stay marked.
pub fn evaluate(t: Accepted, current: &[u16], vars: &[u16], marks: &mut [u16])
    requires { ((shown t.table).guards ≤ 16 * length marks.old) × (length current.now ≡ (shown t.table).machines) }
    ensures { (k : ℕ) → k < (shown t.entry.table).guards → marked marks.old k ≡ true → marked marks.new k ≡ in_cells (values (shown t.entry.table) current.now vars.now) k }
{
    sift(t, current, vars, marks);
    settle(t, marks);
}
