// The records of a flat table, laid word by word into a room. Each function says where the next record begins; past the end of
// the room nothing is written, so that an empty room serves to count.
#![tactic(auto)]

ghost use Rattle.std.specs.Prelude.{◌≡◌, [], ◌∷◌, ◌+◌, ◌<◌, length, get_or};
ghost use Rattle.words.specs.Loops.{many};
ghost use Rattle.flatten_laying.specs.Lay.{lay};

// Words, one behind the other.
fn put_all(room: &mut [u16], at: usize, words: &[u16]) -> usize
    requires { (at < 1000000) × (length words.now < 1000000) }
    ensures next { result ≡ at + length words.now }
    ensures room { room.new ≡ lay at words.now room.old }
{
    for (i, w) in words.iter().enumerate() {
        words::put(room, at + i, *w);
    }
    at + words.len()
}

// A literal or an item: kind, a, b.
pub fn put_triple(room: &mut [u16], at: usize, kind: u16, a: u16, b: u16) -> usize
    requires { at < 1000000 }
    ensures next { result ≡ at + 3 }
    ensures room { room.new ≡ lay at (kind ∷ a ∷ b ∷ []) room.old }
{
    put_all(room, at, &[kind, a, b])
}

// A guard: the first of its literals, and their count.
pub fn put_span(room: &mut [u16], at: usize, first: u16, count: u16) -> usize
    requires { at < 1000000 }
    ensures next { result ≡ at + 2 }
    ensures room { room.new ≡ lay at (first ∷ count ∷ []) room.old }
{
    put_all(room, at, &[first, count])
}

// A rule: its trigger, its guards, the span of its items, its target.
pub fn put_rule(
    room: &mut [u16],
    at: usize,
    trigger: u16,
    guards: Guards,
    items: Items,
    target: u16,
) -> usize
    requires { at < 1000000 }
    ensures next { result ≡ at + 6 }
    ensures room { room.new ≡ lay at (trigger ∷ guards.first ∷ guards.second ∷ items.first ∷ items.count ∷ target ∷ []) room.old }
{
    put_all(
        room,
        at,
        &[
            trigger,
            guards.first,
            guards.second,
            items.first,
            items.count,
            target,
        ],
    )
}

// The two guards of a rule.
#[derive(Clone, Copy)]
pub struct Guards {
    pub first: u16,
    pub second: u16,
}

// A span of items.
#[derive(Clone, Copy)]
pub struct Items {
    pub first: u16,
    pub count: u16,
}

// `count` words of t, from word `from` on.
pub fn put_words(room: &mut [u16], at: usize, t: &[u16], from: usize, count: usize) -> usize
    requires { (at < 1000000) × (from < 1000000) × (count < 1000000) }
    ensures next { result ≡ at + count }
    ensures room { room.new ≡ lay at (many (λ i. get_or t.now i 0) from count) room.old }
{
    for i in 0..count {
        words::put(room, at + i, words::word(t, from + i));
    }
    at + count
}
