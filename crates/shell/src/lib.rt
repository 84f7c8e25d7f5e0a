// What the programs share and the library has no use for: words from standard input, and text to standard output.
#![tactic(auto)]

ghost use Rattle.std.specs.Prelude.{◌≡◌, ◌-◌, ◌<◌, ◌≤◌, [], ◌∷◌, ◌++◌, length, slice_set, IsOk, Some};
ghost use Rattle.shell.specs.Text.{waits, put_one, put_all};
ghost use Rattle.shell.specs.Steps.{steps_text};

use std::fmt;
use std::marker::Model;

// The numbers of the two streams.
const STDIN: i32 = 0;

const STDOUT: i32 = 1;

// As many words of `room` as are asked for, and no more than it has.
pub fn lent(words: usize, room: &[u16]) -> usize
    ensures { result ≤ length room.now }
{
    words.min(room.len())
}

// Fills `bytes` from standard input. Answers how many came: fewer than there is room for where the input ended.
pub fn read_bytes(bytes: &mut [u8]) -> usize
    ensures { result ≤ length bytes.new }
{
    io::read_full(STDIN, bytes)
}

// The words become those that the bytes hold, the low byte first, as far as both go.
fn unpack(bytes: &[u8], words: &mut [u16]) {
    for (word, pair) in words.iter_mut().zip(bytes.chunks_exact(2)) {
        *word = u16::from_le_bytes([pair[0], pair[1]]);
    }
}

// Reads on, from word `at` towards word `to`, by one buffer. Answers how far the words are read.
fn read_some(words: &mut [u16], at: usize, to: usize) -> usize
    requires { at < to }
    ensures { (at ≤ result) × (result ≤ to) }
{
    let mut bytes = [0u8; 4096];
    let wanted = 2 * (to - at).min(2048);
    let count = read_bytes(&mut bytes[..wanted]) / 2;
    let start = lent(at, words);
    unpack(&bytes[..2 * count], &mut words[start..]);
    at + count
}

// Reads words `from` to `to` of `words` from standard input, the low byte first. Words past the end of the slice are
// read and dropped. Answers how many words of the slice are read, those before `from` too: fewer than `to` where the
// input ended, and half a word is none.
pub fn read_words(words: &mut [u16], from: usize, to: usize) -> usize
    ensures { result ≤ length words.new }
{
    let mut at = from;
    while at < to {
        let next = read_some(words, at, to);
        if next == at {
            break;
        }
        at = next;
    }
    lent(at, words)
}

// Text on its way to standard output: its bytes wait until 4096 do, or the text ends. Contracts see the places of the
// bytes and how many wait; `waits` is those that do. What cannot be written is dropped.
#[derive(Clone, Copy)]
pub struct Text {
    bytes: [u8; 4096],
    len: usize,
}

impl Model for Text {
    ghost use Rattle.std.specs.Prelude.{◌≤◌};
    ghost use Rattle.shell.specs.Text.{Buffer};

    ghost Value = { Buffer };

    ghost view = { λ t. record { bytes = t.bytes; count = t.len } };

    ghost invariant = { λ t. t.len ≤ 4096 };

    ghost inverse = { λ t. record { bytes = t.bytes; len = t.count } };
}

impl Text {
    // No text yet.
    pub fn new() -> Text
        ensures { waits result ≡ [] }
    {
        Text {
            bytes: [0; 4096],
            len: 0,
        }
    }

    // Writes out what waits, and ends the text.
    pub fn finish(mut self) {
        self.write_out();
    }

    // Writes out what waits. A call of its own, since one byte of 4096 comes to it.
    #[cold]
    #[inline(never)]
    fn write_out(&mut self)
        ensures nothing { waits self.new ≡ [] }
        ensures none { self.new.count ≡ 0 }
        ensures kept { self.new.bytes ≡ self.old.bytes }
    {
        io::write_all(STDOUT, &self.bytes[..self.len]);
        self.len = 0;
    }

    // Puts a byte behind those that wait, which go out first where they are all that fit. It takes the last of the places
    // that wait then, and no other place changes.
    pub fn put_byte(&mut self, byte: u8)
        ensures behind { length (waits self.old) < 4096 → waits self.new ≡ waits self.old ++ byte ∷ [] }
        ensures after_full { length (waits self.old) ≡ 4096 → waits self.new ≡ byte ∷ [] }
        ensures one_more { waits self.new ≡ put_one (waits self.old) byte }
        ensures count_nonzero { (0 < self.new.count) × (self.new.count ≤ 4096) }
        ensures text_after { self.new.bytes ≡ slice_set self.old.bytes (self.new.count - 1) byte }
        ensures places { length self.new.bytes ≡ 4096 }
    {
        if self.len == 4096 {
            self.write_out();
        }
        self.bytes[self.len] = byte;
        self.len += 1;
    }
}

impl fmt::Write for Text {
    ghost write_str_gives = { λ t bytes u. waits u ≡ put_all (waits t) bytes };

    // Takes all of it, a byte after the other, and cannot fail.
    fn write_str(&mut self, s: &str) -> fmt::Result
        ensures ok { IsOk result → waits self.new ≡ put_all (waits self.old) s.now }
        ensures variant { IsOk result }
    {
        for byte in s.as_bytes() {
            self.put_byte(*byte);
        }
        Ok(())
    }
}

// The counts of a run but its outputs, as numbers with spaces between.
#[derive(Clone, Copy)]
pub struct Steps(pub answers::Counts);

impl fmt::Display for Steps {
    ghost output = { λ s. Some (steps_text s.0) };

    // Writes microsteps, transitions taken, states left and states entered.
    fn fmt<W: fmt::Write>(&self, f: &mut fmt::Formatter<W>) -> fmt::Result {
        let Steps(counts) = *self;
        write!(
            f,
            "{} {} {} {}",
            counts.microsteps, counts.taken, counts.left, counts.entered
        )
    }
}
