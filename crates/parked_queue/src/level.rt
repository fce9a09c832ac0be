//! The levels at which events are served.

ghost use Rattle.std.specs.Prelude.{◌≡◌, ℕ, ◌<◌};
ghost use Rattle.evt_types.specs.Plan.{level_of};
ghost use Rattle.small_set.specs.SmallSets.{Has};

use evt_types::PackedEvent;
use small_set::SmallSet;

/// How many levels a queue has.
pub(crate) const LEVELS: usize = 4;

/// A level, by its number: 0 for the one that is served first.
#[derive(Clone, Copy)]
pub struct Level {
    pub number: usize,
    pub ghost few: { number < 4 },
}

impl Level {
    /// The level of the event.
    #[inline(always)]
    pub fn of(event: &PackedEvent) -> Level
        ensures { result.number ≡ level_of event.now }
    {
        Level {
            number: event.level(),
        }
    }
}

/// A set of levels.
#[derive(Clone, Copy)]
pub struct Levels {
    set: SmallSet,
    pub ghost few: { (c : ℕ) → Has set c → c < 4 },
}

impl Levels {
    ghost use Rattle.std.specs.Prelude.{◌≡◌, ◌<◌, ◌↔◌, IfNone, IfSome, IsTrue};
    ghost use Rattle.parked_queue.specs.LevelSets.{members};
    ghost use Rattle.small_set.specs.SmallSets.{Has, IsEmpty, IsFirst, SameBut, weight};

    /// No level.
    pub(crate) fn none() -> Levels
        ensures { IsEmpty (members result) }
    {
        Levels {
            set: SmallSet::none(),
        }
    }

    /// Whether no level is in the set.
    #[inline(always)]
    pub fn is_empty(self) -> bool
        ensures { IsTrue result ↔ IsEmpty (members self) }
    {
        self.set.is_empty()
    }

    /// Puts the level into the set.
    #[inline(always)]
    pub(crate) fn add(&mut self, level: Level)
        ensures there { Has (members self.new) level.number }
        ensures others { SameBut level.number (members self.old) (members self.new) }
    {
        self.set.add(level.number);
    }

    /// Takes the level out of the set.
    #[inline(always)]
    pub(crate) fn remove(&mut self, level: Level)
        ensures gone { ¬ Has (members self.new) level.number }
        ensures others { SameBut level.number (members self.old) (members self.new) }
    {
        self.set.remove(level.number);
    }

    /// Takes the level that is served first out of the set.
    #[inline(always)]
    pub fn pop(&mut self) -> Option<Level>
        ensures first { IfSome result (λ l. IsFirst (members self.old) l.number) }
        ensures gone { IfSome result (λ l. ¬ Has (members self.new) l.number) }
        ensures others { IfSome result (λ l. SameBut l.number (members self.old) (members self.new)) }
        ensures lighter { IfSome result (λ _. weight (members self.new) < weight (members self.old)) }
        ensures none { IfNone result (IsEmpty (members self.old)) }
        ensures same { IfNone result (self.new ≡ self.old) }
    {
        let mut left = self.set;
        let number = left.pop()?;
        self.set = left;
        Some(Level { number })
    }
}
