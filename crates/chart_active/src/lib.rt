// The or-states of an accepted chart with the places of their words, its active states, and what is below a state.
#![tactic(auto)]

ghost use Rattle.std.specs.Prelude.{◌≡◌, true, false, ◌||◌, cond, ℕ, suc, ◌+◌, ◌<◌, ◌≤◌, length, get_or, eqb};
ghost use Rattle.chart.specs.Shown.{shown};
ghost use Rattle.chart.specs.View.{view};
ghost use Rattle.chart_rules.specs.Rules.{ChartRules};
ghost use Rattle.states.specs.Cells.{cells};
ghost use Rattle.chart_meaning.specs.Active.{is_or, or_rank, child, active};
ghost use Rattle.chart_meaning.specs.Scope.{beneath};
ghost use Rattle.chart_meaning.specs.Entered.{keeps_word};
ghost use Rattle.chart_meaning.specs.State.{or_states};
ghost use Rattle.chart_active.specs.Ors.{Ors};
ghost use Rattle.chart_active.specs.Ranks.{Ranks};
ghost use Rattle.chart_active.specs.Shown.{with_child, Shown};

use chart::Table;
use chart_rules::Accepted;
use states::StateSet;

// Whether state j is below a.
pub fn is_beneath(t: Table, a: usize, j: usize) -> bool
    ensures { result ≡ beneath (shown t.entry) a j }
{
    words::both(t.is_within(a, j), a != j)
}

// One more, where state k is an or-state.
fn rank_after(t: Table, k: usize, r: u16) -> u16
    requires { (k < (shown t).states) × (r < 48) }
    ensures { result ≡ cond (is_or (shown t.entry) k) (suc r) r }
{
    if t.is_and(k) {
        return r;
    }
    r + 1
}

// The places of the or-states' words, by their numbers; and how many there are.
pub fn or_ranks(t: &[u16], ranks: &mut [u16]) -> usize
    requires { ChartRules t.now × (48 ≤ length ranks.old) }
    ensures is { result ≡ or_states (view t.now) }
    ensures few { result ≤ 24 }
    ensures ranks { Ranks (view t.now) ranks.new }
{
    let table = Table { words: t };
    let n = table.head(chart::STATES);
    let mut r: u16 = 0;
    for k in 0..n {
        words::put(ranks, k, r);
        r = rank_after(table, k, r);
    }
    words::wide(r)
}

// The or-states.
pub fn or_states(t: &[u16]) -> StateSet
    requires { ChartRules t.now }
    ensures { Ors (view t.now) (cells result) }
{
    let table = Table { words: t };
    let n = table.head(chart::STATES);
    let mut ors = StateSet::none();
    for k in 0..n {
        ors = ors.grown(k, !table.is_and(k));
    }
    ors
}

// The place of or-state o's word: how many or-states have a smaller number.
pub fn rank_of(t: &[u16], ors: StateSet, o: usize) -> usize
    requires { ChartRules t.now × Ors (view t.now) (cells ors) × (o ≤ (view t.now).states) }
    ensures { result ≡ or_rank (view t.now) o }
{
    ors.count_below(o)
}

// How many or-states there are.
pub fn count(t: Accepted, ors: StateSet) -> usize
    requires { Ors (shown t.table) (cells ors) }
    ensures is { result ≡ or_states (shown t.entry.table) }
    ensures few { result ≤ 24 }
{
    rank_of(t.table.words, ors, t.table.head(chart::STATES))
}

// The current child of or-state o, whose word is at place r.
pub fn child_of(t: Table, current: &[u16], o: usize, r: usize) -> usize
    requires { r ≡ or_rank (shown t) o }
    ensures is { result ≡ child (shown t.entry) current.now o }
    ensures small { result < 65536 }
{
    words::number(current, r)
}

// Whether o is the root, or its parent is in `acts`.
fn is_up(t: Accepted, acts: StateSet, o: usize) -> bool
    requires { o < (shown t.table).states }
    ensures { result ≡ (eqb o 0 || get_or (cells acts) ((shown t.entry.table).parent o) false) }
{
    if o == 0 {
        return true;
    }
    acts.has_in(t.table.state_word(o, chart::PARENT))
}

// The set with or-state o, whose word is at place r, and with its current child where that word is a child of it.
fn with_child(t: Accepted, current: &[u16], acts: StateSet, o: usize, r: usize) -> StateSet
    requires { (o < (shown t.table).states) × (r ≡ or_rank (shown t.table) o) }
    ensures { cells result ≡ with_child (shown t.entry.table) current.now o (cells acts) }
{
    let with = acts.add(o);
    let w = child_of(t.table, current, o, r);
    if t.table.is_child(o, w) {
        return with.add(w);
    }
    with
}

// The set, which shows the active states before or-state o, whose word is at place r, as far as o and its children.
pub fn show(t: &[u16], current: &[u16], acts: StateSet, o: usize, r: usize) -> StateSet
    requires { ChartRules t.now × (o < (view t.now).states) × (is_or (view t.now) o ≡ true) × (r ≡ or_rank (view t.now) o) × Shown (view t.now) current.now o (cells acts) }
    ensures { Shown (view t.now) current.now (o + 1) (cells result) }
{
    let table = Table { words: t };
    let accepted = Accepted { table };
    if !is_up(accepted, acts, o) {
        return acts;
    }
    with_child(accepted, current, acts, o, r)
}

// The active states: an or-state decides on itself and on its children.
pub fn active_set(t: Accepted, ors: StateSet, current: &[u16]) -> StateSet
    requires { Ors (shown t.table) (cells ors) }
    ensures { (j : ℕ) → get_or (cells result) j false ≡ active (shown t.entry.table) current.now j }
{
    let n = t.table.head(chart::STATES);
    let mut acts = StateSet::none();
    let mut r = 0;
    let mut o = 0;
    while o < n {
        acts = show(t.table.words, current, acts, o, r);
        r += 1;
        o = ors.next(o + 1, n);
    }
    acts
}

// Whether or-state o holds its latest child while it sleeps.
pub fn keeps_word(t: Table, o: usize) -> bool
    requires { o < (shown t).states }
    ensures { result ≡ keeps_word (shown t.entry) o }
{
    t.state_word(o, chart::KIND) == 1
}
