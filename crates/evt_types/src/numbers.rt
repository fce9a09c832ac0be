//! The limits of the code are those of the definitions.

ghost use Rattle.std.specs.Prelude.{◌≡◌};
ghost use Rattle.evt_types.specs.Limits.{flow_lane_depth, most_depth, most_events, most_extras, most_forwards, most_order, most_ports, most_queues, most_slots, most_slots_in_all, most_sweep};

use crate::event::{MAX_EXTRAS, MAX_FORWARDS};
use crate::flows::FLOW_DEPTH;
use crate::shape::{
    MAX_ALL_SLOTS, MAX_DEPTH, MAX_LIMIT, MAX_ORDER, MAX_PORTS, MAX_QUEUES, MAX_SLOTS, MAX_SWEEP,
};

/// Each limit of a configuration, and of what is added beside an event, is the number that the definitions have for it. The function
/// does nothing: its contract is the law.
pub fn limits_are_numbers()
    ensures queues { MAX_QUEUES ≡ most_queues }
    ensures ports { MAX_PORTS ≡ most_ports }
    ensures limit { MAX_LIMIT ≡ most_events }
    ensures depth { MAX_DEPTH ≡ most_depth }
    ensures slots { MAX_SLOTS ≡ most_slots }
    ensures all_slots { MAX_ALL_SLOTS ≡ most_slots_in_all }
    ensures order { MAX_ORDER ≡ most_order }
    ensures sweep { MAX_SWEEP ≡ most_sweep }
    ensures flow_lanes { FLOW_DEPTH ≡ flow_lane_depth }
    ensures extras { MAX_EXTRAS ≡ most_extras }
    ensures forwards { MAX_FORWARDS ≡ most_forwards }
{}
