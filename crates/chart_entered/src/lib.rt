// The states that a transition enters. Every function is for an accepted chart.
#![tactic(auto)]

ghost use Rattle.std.specs.Prelude.{◌≡◌, true, false, not, ◌&&◌, ◌||◌, ℕ, ◌+◌, ◌<◌, get_or, eqb};
ghost use Rattle.words.specs.Loops.{any};
ghost use Rattle.chart.specs.Shown.{shown};
ghost use Rattle.chart.specs.View.{child_of?};
ghost use Rattle.chart.specs.Tree.{within};
ghost use Rattle.states.specs.Cells.{cells};
ghost use Rattle.chart_meaning.specs.Scope.{scope, targets_of};
ghost use Rattle.chart_meaning.specs.Active.{is_or};
ghost use Rattle.chart_meaning.specs.Entered.{reached, aimed, leads, chosen, entereds};
ghost use Rattle.chart_active.specs.Ors.{Ors};
ghost use Rattle.chart_entered.specs.Under.{under};
ghost use Rattle.chart_entered.specs.Came.{Came};

use chart::Table;
use chart_rules::Accepted;
use states::StateSet;

// Whether state j is below a or, where `itself` says so, a.
fn is_under(t: Table, itself: bool, a: usize, j: usize) -> bool
    ensures { result ≡ under itself (shown t.entry) a j }
{
    if itself {
        return t.is_within(a, j);
    }
    chart_active::is_beneath(t, a, j)
}

// Whether a target of transition k is.
fn is_some_under(t: Accepted, itself: bool, k: usize, a: usize) -> bool
    requires { k < (shown t.table).transitions }
    ensures { result ≡ any (under itself (shown t.entry.table) a) (targets_of (shown t.entry.table) k) }
{
    let first = t.table.transition_word(k, chart::AIMS);
    let count = t.table.transition_word(k, chart::AIMS + 1);
    (first..first + count).any(|i| is_under(t.table, itself, a, t.table.target_word(i)))
}

// Whether a target of transition k is below o.
pub fn is_aimed(t: Accepted, k: usize, o: usize) -> bool
    requires { k < (shown t.table).transitions }
    ensures { result ≡ aimed (shown t.entry.table) k o }
{
    is_some_under(t, false, k, o)
}

// Whether state j is a target of transition k, or above one.
pub fn does_lead(t: Accepted, k: usize, j: usize) -> bool
    requires { k < (shown t.table).transitions }
    ensures { result ≡ leads (shown t.entry.table) k j }
{
    is_some_under(t, true, k, j)
}

// The state at or above j whose parent has no greater number than o; j itself where it is not greater.
fn child_toward(t: Accepted, o: usize, j: usize) -> usize
    requires { (o < (shown t.table).states) × (j < (shown t.table).states) }
    ensures state { result < (shown t.entry.table).states }
    ensures toward { (y : ℕ) → y < (shown t.entry.table).states → (shown t.entry.table).parent y ≡ o → within (shown t.entry.table) y j ≡ eqb y result }
{
    let mut x = j;
    while o < x {
        let up = t.table.state_word(x, chart::PARENT);
        if up <= o {
            return x;
        }
        x = up;
    }
    x
}

// The set with state w, where it is a child of o.
fn with_child(t: Accepted, o: usize, w: usize, entered: StateSet) -> StateSet
    ensures more { (j : ℕ) → get_or (cells result) j false ≡ (get_or (cells entered) j false || (child_of? (shown t.entry.table) o j && eqb j w)) }
    ensures none { child_of? (shown t.entry.table) o w ≡ false → result ≡ entered }
{
    if t.table.is_child(o, w) {
        return entered.add(w);
    }
    entered
}

// The set with every child of o that is a target of transition k or above one.
fn with_led(t: Accepted, k: usize, o: usize, entered: StateSet) -> StateSet
    requires { (k < (shown t.table).transitions) × (o < (shown t.table).states) }
    ensures more { (j : ℕ) → get_or (cells result) j false ≡ (get_or (cells entered) j false || (child_of? (shown t.entry.table) o j && leads (shown t.entry.table) k j)) }
    ensures none { aimed (shown t.entry.table) k o ≡ false → result ≡ entered }
{
    let mut set = entered;
    let first = t.table.transition_word(k, chart::AIMS);
    let count = t.table.transition_word(k, chart::AIMS + 1);
    for i in first..first + count {
        set = with_child(t, o, child_toward(t, o, t.table.target_word(i)), set);
    }
    set
}

// The set, which has no child of or-state o, with the one that transition k chooses.
fn with_chosen(
    t: Accepted,
    ors: StateSet,
    current: &[u16],
    k: usize,
    o: usize,
    entered: StateSet,
) -> StateSet
    requires { (k < (shown t.table).transitions) × (o < (shown t.table).states) × Ors (shown t.table) (cells ors) × ((j : ℕ) → child_of? (shown t.table) o j ≡ true → get_or (cells entered) j false ≡ false) }
    ensures { (j : ℕ) → get_or (cells result) j false ≡ (get_or (cells entered) j false || (child_of? (shown t.entry.table) o j && chosen (shown t.entry.table) current.now k j)) }
{
    let led = with_led(t, k, o, entered);
    if led != entered {
        return led;
    }
    if chart_active::keeps_word(t.table, o) {
        let r = chart_active::rank_of(t.table.words, ors, o);
        return with_child(
            t,
            o,
            chart_active::child_of(t.table, current, o, r),
            entered,
        );
    }
    with_child(t, o, t.table.state_word(o, chart::INITIAL), entered)
}

// Whether the or-state above j has a child entered: it is `top`, the scope, or below a state of `entered`.
pub fn is_reached(t: Accepted, top: usize, j: usize, entered: StateSet) -> bool
    requires { (j < (shown t.table).states) × ((shown t.table).parent j < (shown t.table).states) }
    ensures { result ≡ reached (shown t.entry.table) top j (cells entered) }
{
    is_entering(t, top, t.table.state_word(j, chart::PARENT), entered)
}

// Whether a child of or-state o is entered: o is `top`, the scope, or below a state of `entered`.
fn is_entering(t: Accepted, top: usize, o: usize, entered: StateSet) -> bool
    requires { o < (shown t.table).states }
    ensures { result ≡ (eqb o top || (not (eqb o 0) && get_or (cells entered) ((shown t.entry.table).parent o) false)) }
{
    if o == top {
        return true;
    }
    if o == 0 {
        return false;
    }
    entered.has_in(t.table.state_word(o, chart::PARENT))
}

// The set, which has the states that transition k enters in the or-states before or-state o, with those in o.
fn enter_in(
    t: Accepted,
    ors: StateSet,
    current: &[u16],
    k: usize,
    top: usize,
    o: usize,
    entered: StateSet,
) -> StateSet
    requires { (k < (shown t.table).transitions) × (o < (shown t.table).states) × (is_or (shown t.table) o ≡ true) × Ors (shown t.table) (cells ors) × (top ≡ scope (shown t.table) k) × Came (shown t.table) current.now k o (cells entered) }
    ensures { Came (shown t.entry.table) current.now k (o + 1) (cells result) }
{
    if is_entering(t, top, o, entered) {
        return with_chosen(t, ors, current, k, o, entered);
    }
    entered
}

// The states that transition k enters, whose scope is `top`: or-state by or-state from there, the child that it chooses.
pub fn entered_set(t: Accepted, ors: StateSet, current: &[u16], k: usize, top: usize) -> StateSet
    requires { (k < (shown t.table).transitions) × Ors (shown t.table) (cells ors) × (top ≡ scope (shown t.table) k) }
    ensures { (j : ℕ) → get_or (cells result) j false ≡ get_or (entereds (shown t.entry.table) current.now k) j false }
{
    let n = t.table.head(chart::STATES);
    let mut entered = StateSet::none();
    let mut o = top;
    while o < n {
        entered = enter_in(t, ors, current, k, top, o, entered);
        o = ors.next(o + 1, n);
    }
    entered
}
