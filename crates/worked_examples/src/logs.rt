//! Laws on worked logs: what a device has to write is lawful, and what it mustn't write is not.

ghost use Rattle.transcripts.specs.Lawful.{Lawful};
ghost use Rattle.worked_examples.specs.Logs.{one_worker, two_workers, two_stages, atomic_stages, both_stages, flow_workers, first_event, one_flow_two_ports, two_flows_one_slot, second_forwarded_first, first_released, mixed_levels, full_ring, turned_away, flow_lanes_given, two_added, added_waits};
ghost use Rattle.worked_examples.specs.Logs.{given_twice, overtaken, split_slot, accepted_early, kept_for_good, accepted_twice, new_after_shut, turned_before_shut, shut_twice, not_linked, answered_early, beyond_depth, exchanged, accepted_backwards, no_such_queue, given_before, turned_nowhere, flow_lane_brings, given_past_flow_lane, given_to_other_slot};
ghost use Rattle.worked_examples.specs.Logs.{added_early, added_at_once, ended_by_added, added_too_many, added_to_none, added_kept_for_good};

/// The logs of worked examples are lawful.
pub fn worked_logs_are_lawful()
    ensures first_event { Lawful one_worker first_event }
    ensures one_flow_two_ports { Lawful two_workers one_flow_two_ports }
    ensures two_flows_one_slot { Lawful two_workers two_flows_one_slot }
    ensures second_forwarded_first { Lawful two_stages second_forwarded_first }
    ensures first_released { Lawful two_stages first_released }
    ensures mixed_levels { Lawful two_stages mixed_levels }
    ensures full_ring { Lawful one_worker full_ring }
    ensures turned_away { Lawful atomic_stages turned_away }
    ensures flow_lanes_given { Lawful flow_workers flow_lanes_given }
    ensures two_added { Lawful both_stages two_added }
    ensures added_waits { Lawful two_stages added_waits }
{}

/// Logs that break a promise are not lawful.
pub fn wrong_logs_are_refused()
    ensures given_twice { ¬ Lawful two_workers given_twice }
    ensures overtaken { ¬ Lawful two_workers overtaken }
    ensures split_slot { ¬ Lawful two_workers split_slot }
    ensures accepted_early { ¬ Lawful two_stages accepted_early }
    ensures kept_for_good { ¬ Lawful two_stages kept_for_good }
    ensures accepted_twice { ¬ Lawful two_stages accepted_twice }
    ensures new_after_shut { ¬ Lawful one_worker new_after_shut }
    ensures turned_before_shut { ¬ Lawful one_worker turned_before_shut }
    ensures shut_twice { ¬ Lawful one_worker shut_twice }
    ensures not_linked { ¬ Lawful one_worker not_linked }
    ensures answered_early { ¬ Lawful one_worker answered_early }
    ensures beyond_depth { ¬ Lawful one_worker beyond_depth }
    ensures exchanged { ¬ Lawful two_stages exchanged }
    ensures accepted_backwards { ¬ Lawful atomic_stages accepted_backwards }
    ensures no_such_queue { ¬ Lawful one_worker no_such_queue }
    ensures given_before { ¬ Lawful one_worker given_before }
    ensures turned_nowhere { ¬ Lawful one_worker turned_nowhere }
    ensures flow_lane_brings { ¬ Lawful flow_workers flow_lane_brings }
    ensures given_past_flow_lane { ¬ Lawful flow_workers given_past_flow_lane }
    ensures given_to_other_slot { ¬ Lawful flow_workers given_to_other_slot }
    ensures added_early { ¬ Lawful two_stages added_early }
    ensures added_at_once { ¬ Lawful two_stages added_at_once }
    ensures ended_by_added { ¬ Lawful atomic_stages ended_by_added }
    ensures added_too_many { ¬ Lawful two_stages added_too_many }
    ensures added_to_none { ¬ Lawful two_stages added_to_none }
    ensures added_kept_for_good { ¬ Lawful two_stages added_kept_for_good }
{}
