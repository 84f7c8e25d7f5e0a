// The chart table: its layout, the reading of its records, and its tree of states. It judges nothing: every function here
// takes any table whose sections lie inside it, and so tests no index. specs/View.antt says what chart the words show,
// specs/Readable.antt what a table must be to be read.
#![tactic(auto)]

ghost use Rattle.std.specs.Prelude.{◌≡◌, ◌+◌, ◌*◌, ◌<◌, length};
ghost use Rattle.table.specs.Layout.{at};
ghost use Rattle.chart.specs.View.{view, is_and, and_state?, child_of?, state_at, transition_at};
ghost use Rattle.chart.specs.Readable.{Readable};
ghost use Rattle.chart.specs.Literals.{literal_of, literal_in};
ghost use Rattle.chart.specs.Tree.{within, meeting, apart};

// Header words: the total, the counts, and the offsets of the sections.
pub const TOTAL: usize = 1;

pub const STATES: usize = 2;

pub const TRANSITIONS: usize = 3;

pub const EVENTS: usize = 4;

pub const SIGNALS: usize = 5;

pub const OUTPUTS: usize = 6;

pub const VARIABLES: usize = 7;

pub const TARGETS: usize = 8;

pub const LITERALS: usize = 9;

pub const ITEMS: usize = 10;

pub const STATES_AT: usize = 11;

pub const TRANSITIONS_AT: usize = 12;

pub const TARGETS_AT: usize = 13;

pub const LITERALS_AT: usize = 14;

pub const ITEMS_AT: usize = 15;

// Words of a state. A span is two words: its first record, and behind it its count.
pub const KIND: usize = 0;

pub const PARENT: usize = 1;

pub const INITIAL: usize = 2;

pub const EXITS: usize = 3;

pub const ENTRIES: usize = 5;

// Words of a transition: its literals are what it asks, its items what it does, its targets what it aims at.
pub const SOURCE: usize = 0;

pub const TRIGGER: usize = 1;

pub const ASKS: usize = 2;

pub const DOES: usize = 4;

pub const AIMS: usize = 6;

// What a literal asks: a state active or not, a variable at least or less than a number.
#[derive(Clone, Copy)]
pub enum Literal {
    Active(u16),
    NotActive(u16),
    AtLeast(u16, u16),
    Less(u16, u16),
}

// The literal of three words.
fn literal_of(kind: u16, a: u16, b: u16) -> Literal
    ensures { result ≡ literal_of kind a b }
{
    match kind {
        0 => Literal::Active(a),
        1 => Literal::NotActive(a),
        2 => Literal::AtLeast(a, b),
        _ => Literal::Less(a, b),
    }
}

// The words of a chart table whose sections lie inside it, so that what is read of it needs no test.
#[derive(Clone, Copy)]
pub struct Table<'a> {
    pub words: &'a [u16],
    ghost readable: { Readable words.now },
}

impl Table<'_> {
    ghost use Rattle.chart.specs.Shown.{shown};

    // Header word i: a count, or where a section begins.
    pub fn head(self, i: usize) -> usize
        requires { i < 16 }
        ensures is { result ≡ at self.entry.words.now i }
        ensures small { result < 65536 }
    {
        words::number_in(self.words, i)
    }

    // Where the words of state k begin.
    pub fn state_at(self, k: usize) -> usize
        requires { k < (shown self).states }
        ensures is { result ≡ state_at self.entry.words.now k }
        ensures inside { result + 6 < length self.entry.words.now }
    {
        self.head(STATES_AT) + 7 * k
    }

    // Where the words of transition k begin.
    pub fn transition_at(self, k: usize) -> usize
        requires { k < (shown self).transitions }
        ensures is { result ≡ transition_at self.entry.words.now k }
        ensures inside { result + 7 < length self.entry.words.now }
    {
        self.head(TRANSITIONS_AT) + 8 * k
    }

    // Word r of state k.
    pub fn state_word(self, k: usize, r: usize) -> usize
        requires { (k < (shown self).states) × (r < 7) }
        ensures is { result ≡ at self.entry.words.now (state_at self.entry.words.now k + r) }
        ensures small { result < 65536 }
    {
        words::number_in(self.words, self.state_at(k) + r)
    }

    // Word r of transition k, whose words begin at `place`.
    pub fn transition_word_at(self, k: usize, place: usize, r: usize) -> usize
        requires { (k < (shown self).transitions) × (place ≡ transition_at self.words.now k) × (r < 8) }
        ensures is { result ≡ at self.entry.words.now (transition_at self.entry.words.now k + r) }
        ensures small { result < 65536 }
    {
        words::number_in(self.words, place + r)
    }

    // Word r of transition k.
    pub fn transition_word(self, k: usize, r: usize) -> usize
        requires { (k < (shown self).transitions) × (r < 8) }
        ensures is { result ≡ at self.entry.words.now (transition_at self.entry.words.now k + r) }
        ensures small { result < 65536 }
    {
        words::number_in(self.words, self.transition_at(k) + r)
    }

    // Target word i.
    pub fn target_word(self, i: usize) -> usize
        requires { i < (shown self).targets }
        ensures is { result ≡ (shown self.entry).target i }
        ensures small { result < 65536 }
    {
        words::number_in(self.words, self.head(TARGETS_AT) + i)
    }

    // Where the words of literal i begin.
    pub fn literal_begin(self, i: usize) -> usize
        requires { i < (shown self).literals }
        ensures is { result ≡ at self.entry.words.now 14 + 3 * i }
        ensures inside { result + 2 < length self.entry.words.now }
    {
        self.head(LITERALS_AT) + 3 * i
    }

    // Literal i.
    pub fn literal_at(self, i: usize) -> Literal
        requires { i < (shown self).literals }
        ensures { result ≡ literal_in ((shown self.entry).literal i) }
    {
        let at = self.literal_begin(i);
        literal_of(
            words::word_in(self.words, at),
            words::word_in(self.words, at + 1),
            words::word_in(self.words, at + 2),
        )
    }

    // Where the words of item i begin.
    pub fn item_begin(self, i: usize) -> usize
        requires { i < (shown self).items }
        ensures is { result ≡ at self.entry.words.now 15 + 3 * i }
        ensures inside { result + 2 < length self.entry.words.now }
    {
        self.head(ITEMS_AT) + 3 * i
    }

    // Whether state k is an and-state.
    pub fn is_and(self, k: usize) -> bool
        requires { k < (shown self).states }
        ensures { result ≡ is_and (shown self.entry) k }
    {
        self.state_word(k, KIND) == 2
    }

    // Whether a is the number of an and-state.
    pub fn is_and_state(self, a: usize) -> bool
        ensures { result ≡ and_state? (shown self.entry) a }
    {
        is_and_state(self.words, a)
    }

    // Whether j is the number of a child of state k.
    pub fn is_child(self, k: usize, j: usize) -> bool
        ensures { result ≡ child_of? (shown self.entry) k j }
    {
        is_child(self.words, k, j)
    }

    // The nearest state that is one of a and b or above it, and so for the other; 0 where there is none.
    fn meeting_of(self, a: usize, b: usize) -> usize
        ensures is { result ≡ meeting (shown self.entry) a b }
        ensures small { result < (shown self.entry).states }
    {
        let n = self.head(STATES);
        if n <= a {
            return 0;
        }
        if n <= b {
            return 0;
        }
        let mut x = a;
        let mut y = b;
        while x != y {
            if x < y {
                let up = self.state_word(y, PARENT);
                if y <= up {
                    return 0;
                }
                y = up;
            } else {
                let up = self.state_word(x, PARENT);
                if x <= up {
                    return 0;
                }
                x = up;
            }
        }
        x
    }

    // Whether state j is a, or below it.
    pub fn is_within(self, a: usize, j: usize) -> bool
        ensures { result ≡ within (shown self.entry) a j }
    {
        if self.head(STATES) <= j {
            return false;
        }
        let mut x = j;
        while a < x {
            let up = self.state_word(x, PARENT);
            if x <= up {
                return false;
            }
            x = up;
        }
        a == x
    }

    // Whether two targets are apart: distinct, neither above the other, and met in an and-state.
    pub fn are_apart(self, a: usize, b: usize) -> bool
        ensures { result ≡ apart (shown self.entry) a b }
    {
        let m = self.meeting_of(a, b);
        words::both(m != a, words::both(m != b, self.is_and(m)))
    }
}

// Whether a is the number of an and-state.
pub fn is_and_state(t: &[u16], a: usize) -> bool
    requires { Readable t.now }
    ensures { result ≡ and_state? (view t.now) a }
{
    let table = Table { words: t };
    if a < table.head(STATES) {
        return table.is_and(a);
    }
    false
}

// Whether j is the number of a child of state k.
pub fn is_child(t: &[u16], k: usize, j: usize) -> bool
    requires { Readable t.now }
    ensures { result ≡ child_of? (view t.now) k j }
{
    let table = Table { words: t };
    if j < table.head(STATES) {
        return table.state_word(j, PARENT) == k;
    }
    false
}
