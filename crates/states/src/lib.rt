// A set of numbers below 48: the states that are active or entered, the transitions that are taken. It is kept as the bits of
// one 64-bit number, number k in bit k; that is known here alone. specs/Cells.antt says what a set shows.
#![tactic(auto)]

ghost use Rattle.std.specs.Prelude.{◌≡◌, true, false, not, ◌&&◌, ℕ, ◌<◌, ◌≤◌, get_or, set};
ghost use Rattle.words.specs.Loops.{rank};
ghost use Rattle.words.specs.Next.{Next, Last};
ghost use Rattle.states.specs.Cells.{cells, no_cells};

#[derive(Clone, Copy, PartialEq, Eq)]
pub struct StateSet {
    bits: u64,
}

impl StateSet {
    // Nothing.
    pub fn none() -> StateSet
        ensures { cells result ≡ no_cells }
    {
        StateSet { bits: 0 }
    }

    // Whether k, which is below 48, is in the set.
    pub fn has_in(self, k: usize) -> bool
        requires { k < 48 }
        ensures { result ≡ get_or (cells self) k false }
    {
        marks::has_bit(self.bits, k)
    }

    // Whether k is in the set.
    pub fn has(self, k: usize) -> bool
        ensures { result ≡ get_or (cells self) k false }
    {
        k < 48 && self.has_in(k)
    }

    // The set with k in it, which is below 48.
    pub fn add(self, k: usize) -> StateSet
        requires { k < 48 }
        ensures { cells result ≡ set (cells self) k true }
    {
        StateSet {
            bits: marks::with_bit(self.bits, k),
        }
    }

    // The set, which has not k, with k in it where b says so.
    pub fn grown(self, k: usize, b: bool) -> StateSet
        requires { (k < 48) × (get_or (cells self) k false ≡ false) }
        ensures { cells result ≡ set (cells self) k b }
    {
        if b {
            return self.add(k);
        }
        self
    }

    // The set with k in it or not, as b says.
    pub fn with(self, k: usize, b: bool) -> StateSet
        ensures { cells result ≡ set (cells self) k b }
    {
        if 48 <= k {
            return self;
        }
        if b {
            return StateSet {
                bits: marks::with_bit(self.bits, k),
            };
        }
        StateSet {
            bits: marks::without_bit(self.bits, k),
        }
    }

    // The set without the numbers of another.
    pub fn except(self, other: StateSet) -> StateSet
        ensures { (j : ℕ) → get_or (cells result) j false ≡ (get_or (cells self) j false && not (get_or (cells other) j false)) }
    {
        StateSet {
            bits: (self.bits | other.bits) ^ other.bits,
        }
    }

    // The lowest number of the set from k on, below n; n where there is none.
    pub fn next(self, k: usize, n: usize) -> usize
        requires { (k ≤ n) × (n ≤ 48) }
        ensures { Next (λ j. get_or (cells self) j false) k n result }
    {
        let r = k + (self.bits >> k).trailing_zeros() as usize;
        r.min(n)
    }

    // One more than the highest number of the set below k; 0 where there is none.
    pub fn last(self, k: usize) -> usize
        requires { k ≤ 48 }
        ensures { Last (λ j. get_or (cells self) j false) k result }
    {
        marks::last_bit(self.bits, k)
    }

    // How many numbers of the set are below k.
    pub fn count_below(self, k: usize) -> usize
        requires { k ≤ 48 }
        ensures { result ≡ rank (λ j. get_or (cells self) j false) k }
    {
        marks::low_bits(self.bits, k).count_ones() as usize
    }
}
