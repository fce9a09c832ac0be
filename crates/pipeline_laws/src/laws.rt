//! Laws of pipelines. Each function does nothing: its contract is the law.

ghost use Rattle.std.specs.Prelude.{◌≡◌, ℕ, ◌<◌, List, length, map};
ghost use Rattle.evt_types.specs.Plan.{Plan};
ghost use Rattle.evt_types.specs.declared.step.Step.{Step};
ghost use Rattle.pipeline_laws.specs.Pipeline.{plain};
ghost use Rattle.pipeline_laws.specs.Promises.{IsLane, IsProducer, KeepPromises, OthersSayNoNew, PortLists};
ghost use Rattle.pipeline_laws.specs.RunText.{plain_text, run_text};
ghost use Rattle.pipeline_laws.specs.Worked.{IsFinished, IsStaged, IsWorked, logged, new_event, newcomers};
ghost use Rattle.pipeline_laws.specs.declared.stage.Action.{Action};
ghost use Rattle.pipeline_laws.specs.declared.stage.Entry.{Entry};
ghost use Rattle.transcripts.specs.Lawful.{IsPrefix, Lawful};
ghost use Rattle.transcripts.specs.Replies.{replies_in, said};

/// Where a lawful transcript has for each answer its stage's action of the event that it answers, where no event was added beside
/// another, the whole trace is accepted and nothing is inside, each stage, flow and level has accepted the plain pipeline's payloads, in
/// their order.
pub fn finished_run_is_plain()
    ensures { (p : Plan) (actions : List Action) (trace : List Entry) (T : List Step) → Lawful p T → IsStaged p actions → IsWorked actions trace T
        → IsFinished p trace T → (k f c : ℕ) → k < length actions → logged T k f c ≡ plain actions trace k f c }
{}

/// So the text of such a transcript is the plain pipeline's.
pub fn finished_text_is_plain()
    ensures { (p : Plan) (actions : List Action) (trace : List Entry) (T : List Step) → Lawful p T → IsStaged p actions → IsWorked actions trace T
        → IsFinished p trace T → run_text (length actions) (logged T) ≡ plain_text actions trace }
{}

/// Whatever the schedule: where port 0 submits the trace and each other port answers what it receives by its stage's action, a lawful
/// transcript's answers are due, no event was added beside another, and what came in is the front of the trace. It may be the transcript
/// of any moment.
pub fn promised_log_is_worked()
    ensures { (p : Plan) (actions : List Action) (trace : List Entry) (T : List Step) (ports : ℕ → PortLists) → Lawful p T
        → ((l : ℕ) → IsLane T l (ports l)) → KeepPromises p actions trace ports → IsWorked actions trace T }
{}

/// The same of what came in alone, where lanes change hands: it suffices that the holders of the other lanes submit no NEW.
pub fn promised_news_are_first()
    ensures { (p : Plan) (trace : List Entry) (T : List Step) (ports : ℕ → PortLists) → Lawful p T
        → ((l : ℕ) → IsPrefix (replies_in T l) (map said (ports l).submitted)) → IsProducer trace (ports 0) → OthersSayNoNew p ports
        → IsPrefix (newcomers T) (map new_event trace) }
{}
