// Lent words are copied and cleared, between slices of known lengths; and how many outputs they hold. It knows neither charts nor flat
// tables.
#![tactic(auto)]

ghost use Rattle.std.specs.Prelude.{◌≡◌, ◌++◌, ◌+◌, ◌-◌, ◌≤◌, length, take, drop};
ghost use Rattle.effects.specs.Lent.{pairs_for, zeros};

// As many words as `to` has, of `from` from `at` on.
pub fn load(to: &mut [u16], from: &[u16], at: usize)
    requires { (at ≤ 48) × (at + length to.old ≤ length from.now) }
    ensures { to.new ≡ take (length to.old) (drop at from.now) }
{
    for i in 0..to.len() {
        words::put_in(to, i, words::word_in(from, at + i));
    }
}

// The words of `from`, behind the first `at` of `to`.
pub fn store(to: &mut [u16], at: usize, from: &[u16])
    requires { (at ≤ 48) × (at + length from.now ≡ length to.old) }
    ensures { to.new ≡ take at to.old ++ from.now }
{
    for i in 0..from.len() {
        words::put_in(to, at + i, words::word_in(from, i));
    }
}

// The words of `from`, in front of `to`.
pub fn lay(from: &[u16], to: &mut [u16])
    requires { length from.now ≤ length to.old }
    ensures { to.new ≡ from.now ++ drop (length from.now) to.old }
{
    load(&mut to[..from.len()], from, 0);
}

// Zeros behind the first `at` words.
pub fn clear(to: &mut [u16], at: usize)
    requires { (at ≤ 48) × (at ≤ length to.old) }
    ensures { to.new ≡ take at to.old ++ zeros (length to.old - at) }
{
    for w in &mut to[at..] {
        *w = 0;
    }
}

// The smaller of 256 and the pairs that `lent` words have.
pub fn pairs_of(lent: usize) -> usize
    ensures is { result ≡ pairs_for lent }
    ensures few { result ≤ 256 }
{
    (lent / 2).min(256)
}
