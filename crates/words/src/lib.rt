// Words of 16 bits: reading and writing them in a lent slice, the signed view, and the two adds.
// It knows nothing of tables. specs/Signed.antt says what the adds mean, specs/Loops.antt how loops are said.
#![tactic(auto)]

ghost use Rattle.std.specs.Prelude.{◌≡◌, ◌&&◌, ◌<◌, length, get_or, set};
ghost use Rattle.std.specs.Int.{w16};
ghost use Rattle.std.proofs.Common.{SFits, to_z, of_z};
ghost use Rattle.words.specs.Signed.{wrap_add, sat_add, clip, below};
ghost use Rattle.words.specs.Loops.{between?};

// Word i of t, and 0 past its end.
pub fn word(t: &[u16], i: usize) -> u16
    ensures { result ≡ get_or t.now i 0 }
{
    t.get(i).copied().unwrap_or(0)
}

// Word i of t, which has it: nothing is tested.
pub fn word_in(t: &[u16], i: usize) -> u16
    requires { i < length t.now }
    ensures { result ≡ get_or t.now i 0 }
{
    t[i]
}

// A word as an index or a count.
pub fn wide(x: u16) -> usize
    ensures is { result ≡ x }
    ensures small { result < 65536 }
{
    usize::from(x)
}

// Word i of t as an index or a count.
pub fn number(t: &[u16], i: usize) -> usize
    ensures is { result ≡ get_or t.now i 0 }
    ensures small { result < 65536 }
{
    wide(word(t, i))
}

// Word i of t, which has it, as an index or a count.
pub fn number_in(t: &[u16], i: usize) -> usize
    requires { i < length t.now }
    ensures is { result ≡ get_or t.now i 0 }
    ensures small { result < 65536 }
{
    wide(word_in(t, i))
}

// Word i of t, which has it, becomes v: nothing is tested.
pub fn put_in(t: &mut [u16], i: usize, v: u16)
    requires { i < length t.old }
    ensures { t.new ≡ set t.old i v }
{
    t[i] = v;
}

// Item i of t becomes v; past its end nothing changes.
pub fn put<T: Copy>(t: &mut [T], i: usize, v: T)
    ensures { t.new ≡ set t.old i v }
{
    if i < t.len() {
        t[i] = v;
    }
}

// The sum modulo 65536, on purpose: level counters wrap.
pub fn wrap_add(x: u16, b: u16) -> u16
    ensures { result ≡ wrap_add x b }
{
    x.wrapping_add(b)
}

// A word as the signed number that it stands for. By a test: with `cast_signed` a chart's run takes 16 bytes of stack more, 520 of 512.
fn signed_of(x: u16) -> i32
    ensures { result ≡ to_z w16 x }
{
    if x < 32768 {
        x as i32
    } else {
        x as i32 - 65536
    }
}

// At most 32767 and at least -32768.
fn clipped(s: i32) -> i32
    ensures { result ≡ clip s }
{
    if s < -32768 {
        return -32768;
    }
    if 32767 < s {
        return 32767;
    }
    s
}

// A signed number of 16 bits as a word, which loses nothing.
fn word_of(s: i32) -> u16
    requires { SFits w16 s }
    ensures { result ≡ of_z w16 s }
{
    if s < 0 { (s + 65536) as u16 } else { s as u16 }
}

// The signed sum, worked out in 32 bits and clipped at both ends.
pub fn sat_add(x: u16, b: u16) -> u16
    ensures { result ≡ sat_add x b }
{
    word_of(clipped(signed_of(x) + signed_of(b)))
}

// Whether x is less than b, both read as signed numbers.
pub fn is_below(x: u16, b: u16) -> bool
    ensures { result ≡ below x b }
{
    x.cast_signed() < b.cast_signed()
}

// Whether both tests hold; neither is left out.
pub fn both(a: bool, b: bool) -> bool
    ensures { result ≡ (a && b) }
{
    a & b
}

// Whether x is at least low and at most high.
pub fn between(low: usize, high: usize, x: usize) -> bool
    ensures { result ≡ between? low high x }
{
    both(low <= x, x <= high)
}
