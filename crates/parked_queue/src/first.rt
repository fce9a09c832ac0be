//! The first event of a level whose slot is allowed.

ghost use Rattle.std.specs.Prelude.{◌≡◌, ℕ, ◌<◌, IfSome, IfNone};
ghost use Rattle.evt_types.specs.declared.event.Numbered.{Numbered as NumberedValue};
ghost use Rattle.small_set.specs.SmallSets.{Has};
ghost use Rattle.parked_queue.specs.Parkings.{IsChanged, IsParted, parted_by, waits_by};
ghost use Rattle.parked_queue.specs.Parted.{IsFirstParked, HasNoneParked};
ghost use Rattle.parked_queue.specs.Waits.{IsFirstAllowed, HasNoneAllowed, slot_of};

use crate::level::Level;
use crate::parking::Parking;
use crate::slot::{parked_list, slot_in};
use crate::waiting::WaitingLists;
use evt_types::Numbered;
use small_set::SmallSet;

/// An event that is found, and its flow and slot, which are read where it lies.
#[derive(Clone, Copy)]
pub struct Found {
    pub slot: usize,
    pub flow: u32,
    pub waiting: Numbered,
    pub ghost flow_is: { flow ≡ waiting.event.flow },
}

impl Parking {
    /// The oldest parked event of the level whose slot is among these.
    #[cold]
    fn first_parked(&self, lists: &WaitingLists, level: Level, marked: SmallSet) -> Option<Found>
        requires parted { IsParted lists.now self.now }
        requires there { (k : ℕ) → Has marked k → k < self.now.slots }
        ensures first { IfSome result (λ f. IsFirstParked (parted_by lists.now self.now) level.number marked f.waiting) }
        ensures slot { IfSome result (λ f. f.slot ≡ slot_of self.now.slots f.waiting) }
        ensures none { IfNone result (HasNoneParked (parted_by lists.now self.now) level.number marked) }
    {
        let slot = self.heads[level.number].first_of(marked)?;
        let waiting = lists.head(self.base + parked_list(level, slot))?;
        Some(Found {
            slot,
            flow: waiting.event.flow(),
            waiting: *waiting,
        })
    }

    /// The first event of the level's own list whose slot is allowed. Those before it are set aside.
    #[inline(always)]
    fn first_main(
        &mut self,
        lists: &mut WaitingLists,
        level: Level,
        allowed: SmallSet,
    ) -> Option<Found>
        requires parted { IsParted lists.old self.old }
        requires none { HasNoneParked (parted_by lists.old self.old) level.number allowed }
        ensures changed { IsChanged lists.old self.old lists.new self.new (waits_by lists.old self.old) }
        ensures first { IfSome result (λ f. IsFirstAllowed (waits_by lists.old self.old) level.number allowed f.waiting) }
        ensures slot { IfSome result (λ f. f.slot ≡ slot_of self.old.slots f.waiting) }
        ensures none { IfNone result (HasNoneAllowed (waits_by lists.old self.old) level.number allowed) }
    {
        while let Some(waiting) = self.front(lists, level) {
            let flow = waiting.event.flow();
            let slot = slot_in(self.slots, self.mask, flow);
            if allowed.has(slot) {
                return Some(Found {
                    slot,
                    flow,
                    waiting: *waiting,
                });
            }
            self.park(lists, level, slot);
        }
        None
    }

    /// The first event of the level whose slot is allowed. Those before it are set aside, each once. Mostly no slot that is marked
    /// is allowed.
    #[inline(always)]
    pub(crate) fn first(
        &mut self,
        lists: &mut WaitingLists,
        level: Level,
        allowed: SmallSet,
    ) -> Option<Found>
        requires { IsParted lists.old self.old }
        ensures changed { IsChanged lists.old self.old lists.new self.new (waits_by lists.old self.old) }
        ensures first { IfSome result (λ f. IsFirstAllowed (waits_by lists.old self.old) level.number allowed f.waiting) }
        ensures slot { IfSome result (λ f. f.slot ≡ slot_of self.old.slots f.waiting) }
        ensures none { IfNone result (HasNoneAllowed (waits_by lists.old self.old) level.number allowed) }
    {
        let marked = self.parked[level.number].both(allowed);
        if marked.is_empty() {
            return self.first_main(lists, level, allowed);
        }
        let parked = self.first_parked(lists, level, marked);
        if parked.is_some() {
            return parked;
        }
        self.first_main(lists, level, allowed)
    }
}
