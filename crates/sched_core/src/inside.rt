//! What a reader counts of the core, a few times a second: each call walks what it counts, and no other call keeps a count for it.

ghost use Rattle.std.specs.Prelude.{ℕ, ◌≡◌, ◌==◌, ◌<◌, List, count_by, length, sum_by};
ghost use Rattle.evt_types.specs.Plan.{lanes, lanes_of};
ghost use Rattle.evt_types.specs.declared.step.Step.{Step as StepValue};
ghost use Rattle.sched_core.specs.Inside.{is_of_queue, slots_among};
ghost use Rattle.transcripts.specs.Lawful.{is_of_level};
ghost use Rattle.transcripts.specs.Standing.{Stands, kept_at, unanswered_at, waiting_at};
ghost use Rattle.transcripts.specs.Transcript as transcripts;
ghost use Rattle.transcripts.specs.Transcript.{Held, kept_events, unanswered_slots};

use crate::state::Core;
use parked_queue::Level;

impl Core {
    /// How many of the queue's waiting events are of the level.
    pub fn waiting_at(&self, queue: usize, level: usize) -> usize
        requires queue { queue < length self.now.shape.queues }
        requires level { level < 4 }
        ensures value { result ≡ count_by (is_of_level level) (waiting_at self.now queue) }
        ensures model { (T : List StepValue) → Stands T self.now → result ≡ count_by (is_of_level level) (transcripts.waiting T queue) }
    {
        self.queues.count_at(queue, Level { number: level })
    }

    /// How many of the queue's events are unanswered, on all lanes.
    pub fn unanswered_of(&self, queue: usize) -> usize
        ensures value { result ≡ sum_by (λ (hs : List Held). count_by (is_of_queue queue) hs) self.now.unanswered }
        ensures model { (T : List StepValue) → Stands T self.now → result ≡ sum_by (λ l. count_by (λ x. x.0 == queue) (transcripts.unanswered T l)) (lanes self.now.shape) }
    {
        let mut count = 0;
        for lane in 0..self.extras.len() {
            count += self.lanes.count_of(lane, queue);
        }
        count
    }

    /// How many events the queue keeps.
    pub fn kept_len(&self, queue: usize) -> usize
        requires { queue < length self.now.shape.queues }
        ensures value { result ≡ length (kept_at self.now queue) }
        ensures model { (T : List StepValue) → Stands T self.now → result ≡ length (kept_events T queue) }
    {
        let mut count = 0;
        for index in 0..self.orders.len(queue) {
            count += self.orders.kept_count(queue, index);
        }
        count
    }

    /// Of how many of an atomic queue's slots the lane has unanswered events. Of another queue it is 0.
    pub fn pinned_slots(&self, queue: usize, lane: usize) -> usize
        requires { queue < length self.now.shape.queues }
        ensures value { result ≡ slots_among self.now.shape queue (unanswered_at self.now lane) }
        ensures model { (T : List StepValue) → Stands T self.now → lane < lanes_of self.now.shape → result ≡ slots_among self.now.shape queue (unanswered_slots self.now.shape T lane) }
    {
        self.pins.slots_on(queue, lane)
    }
}
