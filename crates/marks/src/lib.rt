// A set of numbers as the bits of 16-bit words in a lent slice: the guards that are asked for, and those of them that are true.
// Every number here has its bit in the slice, so no index is tested. specs/Bits.antt says what is marked.
#![tactic(auto)]

ghost use Rattle.std.specs.Prelude.{◌≡◌, ◌*◌, ◌%◌, ◌^◌, ◌<◌, ◌≤◌, length};
ghost use Rattle.words.specs.Next.{Onward, Last};
ghost use Rattle.marks.specs.Bits.{bit_at, set_bit, clear_bit, marked, with_mark, without_mark};

// Whether bit k of a number is set.
pub fn has_bit(m: u64, k: usize) -> bool
    requires { k < 64 }
    ensures { result ≡ bit_at m k }
{
    (m >> k) & 1 == 1
}

// The number with bit k set.
pub fn with_bit(m: u64, k: usize) -> u64
    requires { k < 64 }
    ensures { result ≡ set_bit m k }
{
    m | (1u64 << k)
}

// The number with bit k cleared.
pub fn without_bit(m: u64, k: usize) -> u64
    requires { k < 64 }
    ensures { result ≡ clear_bit m k }
{
    let b = 1u64 << k;
    (m | b) ^ b
}

// The bits of a number below bit k.
pub fn low_bits(m: u64, k: usize) -> u64
    requires { k < 64 }
    ensures { result ≡ m % 2 ^ k }
{
    m & ((1u64 << k) - 1)
}

// One more than the highest bit of a number that is set, below bit k; 0 where there is none.
pub fn last_bit(m: u64, k: usize) -> usize
    requires { k < 64 }
    ensures { Last (bit_at m) k result }
{
    64 - low_bits(m, k).leading_zeros() as usize
}

// Whether number k is marked.
pub fn has(marks: &[u16], k: usize) -> bool
    requires { k < 16 * length marks.now }
    ensures { result ≡ marked marks.now k }
{
    has_bit(u64::from(words::word_in(marks, k / 16)), k % 16)
}

// Number k is marked.
pub fn add(marks: &mut [u16], k: usize)
    requires { k < 16 * length marks.old }
    ensures { marks.new ≡ with_mark k marks.old }
{
    let w = u64::from(words::word_in(marks, k / 16));
    words::put_in(marks, k / 16, with_bit(w, k % 16) as u16);
}

// Number k is not marked any more.
pub fn remove(marks: &mut [u16], k: usize)
    requires { k < 16 * length marks.old }
    ensures { marks.new ≡ without_mark k marks.old }
{
    let w = u64::from(words::word_in(marks, k / 16));
    words::put_in(marks, k / 16, without_bit(w, k % 16) as u16);
}

// The lowest number from k on that is marked, where that is below n; n or more where there is none.
pub fn next(marks: &[u16], k: usize, n: usize) -> usize
    requires { (n ≤ 16 * length marks.now) × (n < 65536) }
    ensures { Onward (marked marks.now) k n result }
{
    let mut j = k;
    while j < n {
        let above = words::word_in(marks, j / 16) >> (j % 16);
        if above != 0 {
            return j + above.trailing_zeros() as usize;
        }
        j = 16 * (j / 16) + 16;
    }
    j
}

// One more than the highest number below k that is marked; 0 where there is none.
pub fn last(marks: &[u16], k: usize) -> usize
    requires { k ≤ 16 * length marks.now }
    ensures { Last (marked marks.now) k result }
{
    let mut n = k;
    while 0 < n {
        let i = (n - 1) / 16;
        let b = last_bit(u64::from(words::word_in(marks, i)), n - 16 * i);
        if 0 < b {
            return 16 * i + b;
        }
        n = 16 * i;
    }
    0
}
