//! What every log can do.

ghost use Rattle.std.specs.Prelude.{◌≡◌, ℕ, ◌+◌, ◌-◌, ◌*◌, ◌<◌, ◌≤◌, ◌^◌, List, [], ◌∷◌, ◌++◌, length, vec_len, vec_capacity, OnOk};
ghost use Rattle.std.proofs.Common.{rules};
ghost use Rattle.evt_types.specs.declared.step.Step.{Step as StepValue};
ghost use Rattle.step_log.specs.Gives.{deals_of, gives_of};
ghost use Rattle.step_log.specs.Rows.{AreTo, forward_steps, news_steps, release_steps};

use evt_types::{Delivery, Memory, Outcome, Reply, Source, Step};

/// A log of steps. Its `steps` are all that were pushed, in their order, whether it keeps them or not; for so many more it has `room`.
pub trait StepLog: Drop {
    ghost steps: { Self → List StepValue };

    ghost room: { Self → ℕ };

    /// The step is the last one.
    fn push_step(&mut self, step: Step)
        requires { 0 < room self.old }
        ensures steps { steps self.new ≡ steps self.old ++ step ∷ [] }
        ensures room { room self.old ≤ room self.new + 1 };

    /// The queue accepts these NEWs of the lane, one after the other.
    #[inline(always)]
    fn push_news(&mut self, lane: usize, queue: usize, replies: &[Reply])
        requires { length replies.now ≤ room self.old }
        ensures steps { steps self.new ≡ steps self.old ++ news_steps lane queue replies.now }
        ensures room { room self.old ≤ room self.new + length replies.now }
    {
        for reply in replies {
            self.push_step(Step::Accept {
                queue,
                event: reply.event.unpack(),
                source: Source::New { lane },
            });
        }
    }

    /// The lane releases so many events.
    #[inline(always)]
    fn push_releases(&mut self, lane: usize, count: usize)
        requires { count ≤ room self.old }
        ensures steps { steps self.new ≡ steps self.old ++ release_steps lane count }
        ensures room { room self.old ≤ room self.new + count }
    {
        for _ in 0..count {
            self.push_step(Step::Done {
                lane,
                outcome: Outcome::Released,
            });
        }
    }

    /// The lane passes the source's events of these numbers on as the events of the replies, one after the other, and the target accepts
    /// each: two steps for each.
    #[inline(always)]
    fn push_forwards(
        &mut self,
        lane: usize,
        source: usize,
        target: usize,
        numbers: &[u64],
        replies: &[Reply],
    )
        requires pairs { length numbers.now ≡ length replies.now }
        requires target { AreTo target replies.now }
        requires room { 2 * length replies.now ≤ room self.old }
        ensures steps { steps self.new ≡ steps self.old ++ forward_steps lane source numbers.now replies.now }
        ensures room { room self.old ≤ room self.new + 2 * length replies.now }
    {
        for (index, reply) in replies.iter().enumerate() {
            let event = reply.event.unpack();
            let number = numbers[index];
            self.push_step(Step::Done {
                lane,
                outcome: Outcome::Forwarded(event),
            });
            self.push_step(Step::Accept {
                queue: target,
                event,
                source: Source::Of {
                    queue: source,
                    number,
                },
            });
        }
    }

    /// Each of these events of the queue is given to the lane: so many steps more, in this order.
    fn push_gives(&mut self, lane: usize, queue: usize, row: &[Delivery])
        requires { length row.now ≤ room self.old }
        ensures steps { steps self.new ≡ steps self.old ++ gives_of lane queue row.now }
        ensures room { room self.old ≤ room self.new + length row.now }
    {
        for delivery in row {
            self.push_step(Step::Give {
                lane,
                queue,
                number: delivery.number(),
            });
        }
    }

    /// Each of these events of the queue is given to the lane at its place: so many steps more, in this order.
    #[inline(always)]
    fn push_deals(&mut self, queue: usize, row: &[Delivery], lanes: &[usize])
        requires lanes { length lanes.now ≡ length row.now }
        requires room { length row.now ≤ room self.old }
        ensures steps { steps self.new ≡ steps self.old ++ deals_of queue row.now lanes.now }
        ensures room { room self.old ≤ room self.new + length row.now }
    {
        for position in 0..row.len() {
            self.push_step(Step::Give {
                lane: lanes[position],
                queue,
                number: row[position].number(),
            });
        }
    }

    /// Makes room for so many more steps.
    fn make_room(&mut self, count: usize) -> Result<(), Memory>
        ensures steps { steps self.new ≡ steps self.old }
        ensures room { OnOk result (count ≤ room self.new) };

    /// No log has more steps than a vector could have.
    ghost short: { (x : Self) → length (steps x) < 2 ^ 63 };
}

/// A vector keeps every step, and grows.
impl StepLog for Vec<Step> {
    ghost steps = { λ log. log.items };

    ghost room = { λ log. vec_capacity log - vec_len log };

    ghost short = { Prim.search rules };

    #[inline(always)]
    fn push_step(&mut self, step: Step) {
        self.push_reserved(step);
    }

    fn make_room(&mut self, count: usize) -> Result<(), Memory> {
        self.reserve(count)
    }
}
