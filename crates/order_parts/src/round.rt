//! Whose turn it is among open lanes, as events are dealt: each event goes to the lane with fewest unanswered ones.

ghost use Rattle.std.specs.Prelude.{◌≡◌, ℕ, ◌<◌, List, length, IfNone, IfSome};
ghost use Rattle.order_parts.specs.Dealing.{HasFewer, loads_in};
ghost use Rattle.order_parts.specs.History.{Entries};
ghost use Rattle.order_parts.specs.Rounds.{IsRound, IsRoundBut};
ghost use Rattle.small_set.specs.SmallSets.{Has};

use crate::history::History;
use small_set::SmallSet;

/// Of these lanes the one with fewest unanswered events, of several the first.
#[inline(always)]
pub(crate) fn least_loaded(histories: &[History], lanes: SmallSet) -> Option<usize>
    requires { (l : ℕ) → Has lanes l → l < length histories.now }
    ensures there { IfSome result (Has lanes) }
    ensures best { IfSome result (λ l. (m : ℕ) → Has lanes m → ¬ HasFewer (loads_in histories.now) m l) }
    ensures none { IfNone result ((l : ℕ) → ¬ Has lanes l) }
{
    let mut left = lanes;
    let mut best = left.pop()?;
    let mut fewest = histories[best].len();
    while let Some(lane) = left.pop() {
        let events = histories[lane].len();
        if events < fewest {
            best = lane;
            fewest = events;
        }
    }
    Some(best)
}

/// No open lane has fewer unanswered events than `fewest`, and those that have just as many are among `left`. So the next event's lane is
/// mostly the first that is left, and not all are compared anew.
#[derive(Drop)]
pub(crate) struct Round {
    fewest: usize,
    left: SmallSet,
}

impl Round {
    /// A round in which all of these lanes are left.
    #[inline(always)]
    pub(crate) fn of(lanes: SmallSet) -> Round
        ensures { (ls : List Entries) → IsRound result (loads_in ls) lanes }
    {
        Round {
            fewest: 0,
            left: lanes,
        }
    }

    /// As `least_loaded`. The lane is to have an event more then.
    #[inline(always)]
    pub(crate) fn next(&mut self, histories: &[History], lanes: SmallSet) -> Option<usize>
        requires there { (l : ℕ) → Has lanes l → l < length histories.now }
        requires round { IsRound self.old (loads_in histories.now) lanes }
        ensures there { IfSome result (Has lanes) }
        ensures best { IfSome result (λ l. (m : ℕ) → Has lanes m → ¬ HasFewer (loads_in histories.now) m l) }
        ensures none { IfNone result ((l : ℕ) → ¬ Has lanes l) }
        ensures round { IfSome result (λ l. IsRoundBut l self.new (loads_in histories.now) lanes) }
    {
        let fewest = self.fewest;
        let mut left = self.left.both(lanes);
        while let Some(lane) = left.pop() {
            if histories[lane].len() == fewest {
                self.left = left;
                return Some(lane);
            }
        }
        let best = least_loaded(histories, lanes)?;
        self.fewest = histories[best].len();
        self.left = lanes;
        self.left.remove(best);
        Some(best)
    }
}
