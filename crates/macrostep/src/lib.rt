// What the macrosteps of a chart and of a flat table have in common: how many words of the outputs are kept aside while one is tried,
// and when it is told. Each form has a loop of its own (`chart_macrostep`, `flat_macrostep`).
#![tactic(auto)]

ghost use Rattle.std.specs.Prelude.{◌≡◌, ◌≤◌};
ghost use Rattle.macrostep.specs.Ends.{told?};

use effects::{Counted, Progress};

// How many words of the outputs are kept while a macrostep is tried.
pub const KEPT: usize = 12;

// The smaller of the outputs' words and of those that are kept of them.
pub fn first_of(lent: usize) -> usize
    ensures { (result ≤ lent) × (result ≤ 12) }
{
    if lent < KEPT { lent } else { KEPT }
}

// Whether a macrostep that was lent `lent` words for its outputs has ended well, and they hold all that it gave.
pub fn is_told(n: Progress, lent: usize) -> bool
    ensures { result ≡ told? n lent }
{
    if n.is_stopped() {
        return false;
    }
    2 * n.count(Counted::Output) as usize <= lent
}
