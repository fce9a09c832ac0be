//! How many events of a level wait.

ghost use Rattle.std.specs.Prelude.{◌≡◌, ◌<◌, ◌==◌, count_by, length};
ghost use Rattle.evt_types.specs.Plan.{level_of};
ghost use Rattle.evt_types.specs.declared.event.Numbered.{Numbered as NumberedValue};
ghost use Rattle.parked_queue.specs.Waits.{waits_at};
ghost use Rattle.parked_queue.specs.Lists.{list_at};

use crate::level::{LEVELS, Level};
use crate::queues::ParkedQueues;
use crate::waiting::WaitingLists;

impl WaitingLists {
    /// How many events are in the list.
    pub fn count(&self, list: usize) -> usize
        requires { list < length self.now.lists }
        ensures { result ≡ length (list_at self.now list) }
    {
        let chain = self.chains[list];
        let mut count = 0;
        let mut cursor = chain.first;
        while cursor != chain.spare {
            count += 1;
            cursor = self.nodes[cursor].next;
        }
        count
    }
}

impl ParkedQueues {
    /// How many events of the queue's level wait. It walks their lists.
    pub fn count_at(&self, queue: usize, level: Level) -> usize
        requires { queue < length self.now }
        ensures { result ≡ count_by (λ (w : NumberedValue). level_of w.event == level.number) (waits_at self.now queue).waiting }
    {
        let asked = &self.queues[queue];
        let mut count = 0;
        // A row has a list for each level: the queue's own, then those of each slot.
        for row in 0..asked.slots + 1 {
            count += self.lists.count(asked.base + LEVELS * row + level.number);
        }
        count
    }
}
