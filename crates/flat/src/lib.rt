// The flat table: its layout, and the reading of its records. It judges nothing: a `Table` is any words whose sections lie
// inside them, and so its methods test no index. specs/View.antt says what the words show, specs/Readable.antt what a table must
// be to be read.
#![tactic(auto)]

ghost use Rattle.std.specs.Prelude.{◌≡◌, ◌+◌, ◌*◌, ◌<◌, length};
ghost use Rattle.table.specs.Layout.{at};
ghost use Rattle.flat.specs.View.{flat_view, guard_at, literal_at, rule_at, of_machine?};
ghost use Rattle.flat.specs.Readable.{FlatReadable};
ghost use Rattle.flat.specs.Literals.{flat_literal_of, flat_literal_in};
ghost use Rattle.flat.specs.Targets.{flat_target_of};

use std::ops::Range;

// Header words: the total, the counts, and the offsets of the sections.
pub const TOTAL: usize = 1;

pub const MACHINES: usize = 2;

pub const STATES: usize = 3;

pub const EVENTS: usize = 4;

pub const SIGNALS: usize = 5;

pub const OUTPUTS: usize = 6;

pub const VARIABLES: usize = 7;

pub const GUARDS: usize = 8;

pub const LITERALS: usize = 9;

pub const ITEMS: usize = 10;

pub const RULES: usize = 11;

pub const MACHINES_AT: usize = 12;

pub const STATES_AT: usize = 13;

pub const GUARDS_AT: usize = 14;

pub const LITERALS_AT: usize = 15;

pub const ITEMS_AT: usize = 16;

pub const RULES_AT: usize = 17;

// Words of a rule. What it does is a span of items: its first, and behind it its count.
pub const TRIGGER: usize = 0;

pub const FIRST_GUARD: usize = 1;

pub const SECOND_GUARD: usize = 2;

pub const DOES: usize = 3;

pub const TARGET: usize = 5;

// A rule's target word where it has none.
pub const NONE: usize = 65535;

// What a literal asks: a state current or not, a variable at least or less than a number, a guard true or false.
#[derive(Clone, Copy)]
pub enum FlatLiteral {
    Current(u16),
    NotCurrent(u16),
    AtLeast(u16, u16),
    Less(u16, u16),
    Holds(u16),
    Fails(u16),
}

// The literal of three words.
fn literal_of(kind: u16, a: u16, b: u16) -> FlatLiteral
    ensures { result ≡ flat_literal_of kind a b }
{
    match kind {
        0 => FlatLiteral::Current(a),
        1 => FlatLiteral::NotCurrent(a),
        2 => FlatLiteral::AtLeast(a, b),
        3 => FlatLiteral::Less(a, b),
        4 => FlatLiteral::Holds(a),
        _ => FlatLiteral::Fails(a),
    }
}

// The words of a flat table whose sections lie inside it, so that what is read of it needs no test.
#[derive(Clone, Copy)]
pub struct Table<'a> {
    pub words: &'a [u16],
    ghost readable: { FlatReadable words.now },
}

impl Table<'_> {
    ghost use Rattle.flat.specs.Shown.{shown};

    // Header word i: a count, or where a section begins.
    pub fn head(self, i: usize) -> usize
        requires { i < 18 }
        ensures is { result ≡ at self.entry.words.now i }
        ensures small { result < 65536 }
    {
        words::number_in(self.words, i)
    }

    // The initial state of machine m.
    pub fn initial_of(self, m: usize) -> usize
        requires { m < (shown self).machines }
        ensures is { result ≡ (shown self.entry).initial m }
        ensures small { result < 65536 }
    {
        words::number_in(self.words, self.head(MACHINES_AT) + m)
    }

    // The machine of state j.
    pub fn machine_of(self, j: usize) -> usize
        requires { j < (shown self).states }
        ensures is { result ≡ (shown self.entry).machine j }
        ensures small { result < 65536 }
    {
        words::number_in(self.words, self.head(STATES_AT) + j)
    }

    // Whether j is the number of a state of machine m.
    pub fn is_of_machine(self, m: usize, j: usize) -> bool
        ensures { result ≡ of_machine? (shown self.entry) m j }
    {
        is_of_machine(self.words, m, j)
    }

    // Where the words of guard k begin: the first of its literals, and behind it their count.
    pub fn guard_at(self, k: usize) -> usize
        requires { k < (shown self).guards }
        ensures is { result ≡ guard_at self.entry.words.now k }
        ensures inside { result + 1 < length self.entry.words.now }
    {
        self.head(GUARDS_AT) + 2 * k
    }

    // The literals of guard k: its first, and the one behind its last.
    pub fn asks(self, k: usize) -> Range<usize>
        requires { k < (shown self).guards }
        ensures from { result.start ≡ ((shown self.entry).asks k).first }
        ensures until { result.end ≡ ((shown self.entry).asks k).first + ((shown self.entry).asks k).count }
    {
        let at = self.guard_at(k);
        let first = words::number_in(self.words, at);
        first..first + words::number_in(self.words, at + 1)
    }

    // Where the words of rule k begin.
    pub fn rule_at(self, k: usize) -> usize
        requires { k < (shown self).rules }
        ensures is { result ≡ rule_at self.entry.words.now k }
        ensures inside { result + 5 < length self.entry.words.now }
    {
        self.head(RULES_AT) + 6 * k
    }

    // Word r of rule k.
    pub fn rule_word(self, k: usize, r: usize) -> usize
        requires { (k < (shown self).rules) × (r < 6) }
        ensures is { result ≡ at self.entry.words.now (rule_at self.entry.words.now k + r) }
        ensures small { result < 65536 }
    {
        words::number_in(self.words, self.rule_at(k) + r)
    }

    // The target of rule k, where it has one.
    pub fn target(self, k: usize) -> Option<usize>
        requires { k < (shown self).rules }
        ensures { result ≡ flat_target_of ((shown self.entry).target k) }
    {
        let word = self.rule_word(k, TARGET);
        if word == NONE {
            return None;
        }
        Some(word)
    }

    // Where the words of literal i begin.
    pub fn literal_begin(self, i: usize) -> usize
        requires { i < (shown self).literals }
        ensures is { result ≡ literal_at self.entry.words.now i }
        ensures inside { result + 2 < length self.entry.words.now }
    {
        self.head(LITERALS_AT) + 3 * i
    }

    // Literal i.
    pub fn literal(self, i: usize) -> FlatLiteral
        requires { i < (shown self).literals }
        ensures { result ≡ flat_literal_in ((shown self.entry).literal i) }
    {
        let at = self.literal_begin(i);
        literal_of(
            words::word_in(self.words, at),
            words::word_in(self.words, at + 1),
            words::word_in(self.words, at + 2),
        )
    }

    // Where the words of item i begin.
    pub fn item_begin(self, i: usize) -> usize
        requires { i < (shown self).items }
        ensures is { result ≡ at self.entry.words.now 16 + 3 * i }
        ensures inside { result + 2 < length self.entry.words.now }
    {
        self.head(ITEMS_AT) + 3 * i
    }
}

// Whether j is the number of a state of machine m.
pub fn is_of_machine(t: &[u16], m: usize, j: usize) -> bool
    requires { FlatReadable t.now }
    ensures { result ≡ of_machine? (flat_view t.now) m j }
{
    let table = Table { words: t };
    if j < table.head(STATES) {
        return table.machine_of(j) == m;
    }
    false
}
