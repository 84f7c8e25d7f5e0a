// The sets of states that flattening works out: for a transition those that it can enter, that its rules enter and that
// history decides on; for the chart those that have a guard of their own. Every function is for an accepted chart.
#![tactic(auto)]

ghost use Rattle.std.specs.Prelude.{◌≡◌, false, ◌&&◌, ◌||◌, ℕ, ◌<◌, get_or};
ghost use Rattle.words.specs.Loops.{any_below};
ghost use Rattle.chart.specs.Shown.{shown};
ghost use Rattle.chart.specs.Tree.{within};
ghost use Rattle.states.specs.Cells.{cells};
ghost use Rattle.chart_meaning.specs.Scope.{scope};
ghost use Rattle.flatten_meaning.specs.Flattened.{wants, asked, may_at, may, comes, forks};
ghost use Rattle.flatten_sets.specs.Chosen.{can_choose};

use chart_rules::Accepted;
use states::StateSet;

// The states that pass a test.
fn those<F: Fn(usize) -> bool>(t: Accepted, test: F) -> StateSet
    requires callable { (j : ℕ) → j < (shown t.table).states → F.pre test j }
    ensures { (j : ℕ) → j < (shown t.entry.table).states → F.post test j (get_or (cells result) j false) }
{
    let mut set = StateSet::none();
    for j in 0..words::number(t.table.words, chart::STATES) {
        set = set.with(j, test(j));
    }
    set
}

// Whether transition k can choose j in the or-state above it.
fn can_choose(t: Accepted, k: usize, j: usize) -> bool
    requires { (k < (shown t.table).transitions) × (j < (shown t.table).states) × ((shown t.table).parent j < (shown t.table).states) }
    ensures { result ≡ can_choose (shown t.entry.table) k j }
{
    let o = t.table.state_word(j, chart::PARENT);
    if chart_entered::is_aimed(t, k, o) {
        return chart_entered::does_lead(t, k, j);
    }
    if chart_active::keeps_word(t.table, o) {
        return true;
    }
    t.table.state_word(o, chart::INITIAL) == j
}

// Whether transition k, whose scope is `top`, can enter state j, where `can` has those before j.
fn can_enter(t: Accepted, k: usize, top: usize, j: usize, can: StateSet) -> bool
    requires { (k < (shown t.table).transitions) × (j < (shown t.table).states) × (top ≡ scope (shown t.table) k) }
    ensures { result ≡ may_at (shown t.entry.table) k j (cells can) }
{
    if !t.table.is_and(j) {
        return false;
    }
    if !chart_entered::is_reached(t, top, j, can) {
        return false;
    }
    can_choose(t, k, j)
}

// The states that transition k, whose scope is `top`, can enter.
pub fn may_set(t: Accepted, k: usize, top: usize) -> StateSet
    requires { (k < (shown t.table).transitions) × (top ≡ scope (shown t.table) k) }
    ensures { (j : ℕ) → j < (shown t.entry.table).states → get_or (cells result) j false ≡ may (shown t.entry.table) k j }
{
    let mut can = StateSet::none();
    if !chart_taken::is_scoped(t.table, k) {
        return can;
    }
    for j in 0..words::number(t.table.words, chart::STATES) {
        can = can.with(j, can_enter(t, k, top, j, can));
    }
    can
}

// Whether transition k can enter state j with items or with a target.
fn does_come(t: Accepted, k: usize, can: StateSet, j: usize) -> bool
    requires { (k < (shown t.table).transitions) × (j < (shown t.table).states) × (get_or (cells can) j false ≡ may (shown t.table) k j) }
    ensures { result ≡ comes (shown t.entry.table) k j }
{
    if !can.has(j) {
        return false;
    }
    if !flatten_pairs::is_decided(t, k, j) {
        return true;
    }
    t.table.state_word(j, chart::ENTRIES + 1) != 0
}

// The states that transition k can enter with items or with a target.
pub fn comes_set(t: Accepted, k: usize, can: StateSet) -> StateSet
    requires { (k < (shown t.table).transitions) × ((j : ℕ) → j < (shown t.table).states → get_or (cells can) j false ≡ may (shown t.table) k j) }
    ensures { (j : ℕ) → j < (shown t.entry.table).states → get_or (cells result) j false ≡ comes (shown t.entry.table) k j }
{
    those(t, |j| does_come(t, k, can, j))
}

// The set with state j and all states above it.
fn mark_up(t: Accepted, set: StateSet, j: usize) -> StateSet
    requires { j < (shown t.table).states }
    ensures { (i : ℕ) → i < (shown t.entry.table).states → get_or (cells result) i false ≡ (get_or (cells set) i false || within (shown t.entry.table) i j) }
{
    let mut r = set;
    let mut x = j;
    while 0 < x {
        r = r.with(x, true);
        x = t.table.state_word(x, chart::PARENT);
    }
    r.with(0, true)
}

// The states of a set, and all states above them.
fn above_set(t: Accepted, set: StateSet) -> StateSet
    ensures { (i : ℕ) → i < (shown t.entry.table).states → get_or (cells result) i false ≡ any_below (λ j. within (shown t.entry.table) i j && get_or (cells set) j false) (shown t.entry.table).states }
{
    let mut r = StateSet::none();
    for j in 0..words::number(t.table.words, chart::STATES) {
        if set.has(j) {
            r = mark_up(t, r, j);
        }
    }
    r
}

// Whether history decides on state j, and a rule of transition k enters j or a state below it, as `need` says.
fn does_fork(t: Accepted, k: usize, can: StateSet, need: StateSet, j: usize) -> bool
    requires { (k < (shown t.table).transitions) × (j < (shown t.table).states) × (get_or (cells can) j false ≡ may (shown t.table) k j) × (get_or (cells need) j false ≡ any_below (λ i. within (shown t.table) j i && comes (shown t.table) k i) (shown t.table).states) }
    ensures { result ≡ forks (shown t.entry.table) k j }
{
    if !words::both(can.has(j), need.has(j)) {
        return false;
    }
    flatten_pairs::is_decided(t, k, j)
}

// The states on which history decides, where a rule of transition k enters them or a state below them.
pub fn forks_set(t: Accepted, k: usize, can: StateSet, come: StateSet) -> StateSet
    requires { (k < (shown t.table).transitions) × ((j : ℕ) → j < (shown t.table).states → get_or (cells can) j false ≡ may (shown t.table) k j) × ((j : ℕ) → j < (shown t.table).states → get_or (cells come) j false ≡ comes (shown t.table) k j) }
    ensures { (j : ℕ) → j < (shown t.entry.table).states → get_or (cells result) j false ≡ forks (shown t.entry.table) k j }
{
    let need = above_set(t, come);
    those(t, |j| does_fork(t, k, can, need, j))
}

// Whether state j is in the set, or transition k, whose scope is `top`, asks for it.
fn is_wanted(t: Accepted, k: usize, top: usize, set: StateSet, j: usize) -> bool
    requires { (k < (shown t.table).transitions) × (j < (shown t.table).states) × (top ≡ scope (shown t.table) k) }
    ensures { result ≡ (get_or (cells set) j false || wants (shown t.entry.table) k j) }
{
    if set.has(j) {
        return true;
    }
    flatten_pairs::does_want(t, k, top, j)
}

// The set with the states that transition k asks for.
fn wanted_with(t: Accepted, k: usize, set: StateSet) -> StateSet
    requires { k < (shown t.table).transitions }
    ensures { (j : ℕ) → j < (shown t.entry.table).states → get_or (cells result) j false ≡ (get_or (cells set) j false || wants (shown t.entry.table) k j) }
{
    let top = chart_taken::scope_of(t, k);
    those(t, |j| is_wanted(t, k, top, set, j))
}

// The states that some transition asks for.
fn wanted_set(t: Accepted) -> StateSet
    ensures { (j : ℕ) → j < (shown t.entry.table).states → get_or (cells result) j false ≡ any_below (λ k. wants (shown t.entry.table) k j) (shown t.entry.table).transitions }
{
    let mut set = StateSet::none();
    for k in 0..words::number(t.table.words, chart::TRANSITIONS) {
        set = wanted_with(t, k, set);
    }
    set
}

// The and-states that some transition asks for, and those above such a state.
pub fn asked_set(t: Accepted) -> StateSet
    ensures { (j : ℕ) → j < (shown t.entry.table).states → get_or (cells result) j false ≡ asked (shown t.entry.table) j }
{
    let above = above_set(t, wanted_set(t));
    those(t, |j| words::both(t.table.is_and(j), above.has(j)))
}
