//! A worked run of a pipeline. The function does nothing: its contract says what is worked.

ghost use Rattle.std.specs.Prelude.{◌≡◌, [], ◌∷◌};
ghost use Rattle.pipeline_laws.specs.Example.{example_actions, example_log, example_plan, example_trace};
ghost use Rattle.pipeline_laws.specs.Worked.{IsFinished, IsStaged, IsWorked, logged};

/// A run of two stages, of which the first adds 1, is staged, worked and finished: its first stage accepted 1 and 4, its second 2 and
/// 5.
pub fn worked_run_is_finished()
    ensures staged { IsStaged example_plan example_actions }
    ensures worked { IsWorked example_actions example_trace example_log }
    ensures finished { IsFinished example_plan example_trace example_log }
    ensures first { logged example_log 0 7 2 ≡ 1 ∷ 4 ∷ [] }
    ensures second { logged example_log 1 7 2 ≡ 2 ∷ 5 ∷ [] }
{}
