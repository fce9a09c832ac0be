//! What help prints beside the words of the command line: examples, statuses, and parts of the manual.

/// The ends of the helps.
pub(crate) const AFTER_HELP: &str = "Example:
  evsched example first-event > first-event.toml
  evsched play first-event.toml

evsched help documents describes the documents, evsched help faults what each fault means;
the manual is evsched(1), and docs/FORMATS.md has all of it.";

pub(crate) const AFTER_PLAY_HELP: &str = "Example:
  evsched example first-event > first-event.toml
  evsched play first-event.toml

Status: 0 when the script was played, 2 for a refused command line, 3 when reading or writing failed,
4 for a document at fault, 5 where memory ran out.

evsched help documents describes the document, evsched help faults what each fault means;
the manual is evsched(1), and docs/FORMATS.md has all of it.";

pub(crate) const AFTER_TIMELINE_HELP: &str =
    "The picture is SVG, which browsers show: a row for each queue and each lane, and in it from left to right
the steps of the log that play prints. The title of each mark, which a browser shows where the pointer
rests, says what the step did.

With LOG the script isn't played: what is drawn is the log in LOG, from its line log to the line report or
to the end, in the rows of the document's queues and lanes.

Example:
  evsched example two-flows | evsched timeline > two-flows.svg
  evsched play first-event.toml > first-event.out
  evsched timeline first-event.toml first-event.out > first-event.svg

Status: 0 when the picture was written, 2 for a refused command line, 3 when reading or writing failed,
4 for a document or a log at fault, 5 where memory ran out.

evsched help documents describes the document, evsched help faults what each fault means;
the manual is evsched(1), and docs/FORMATS.md has all of it.";

pub(crate) const AFTER_RUN_HELP: &str = "Example:
  evsched example three-stages > three-stages.toml
  evsched run --workers 4 three-stages.toml

Status: 0 when the trace was run, 2 for a refused command line, 3 when reading or writing failed,
4 for a document at fault, 5 where memory or threads ran out, 6 where a worker strayed.

evsched help documents describes the document, evsched help faults what each fault means;
the manual is evsched(1), and docs/FORMATS.md has all of it.";

pub(crate) const AFTER_CHECK_HELP: &str =
    "Nothing is printed where the document has no fault. One with a stage or a trace, and no script, queue
or port, is checked as run would, with so many workers; any other as play would.

Example:
  evsched check --workers 4 three-stages.toml

Status: 0 where there is no fault, 2 for a refused command line, 3 when reading failed, 4 for a document
at fault, 5 where memory ran out.

evsched help documents describes the documents, evsched help faults what each fault means;
the manual is evsched(1), and docs/FORMATS.md has all of it.";

pub(crate) const AFTER_JUDGE_HELP: &str =
    "It prints lawful where the log keeps each promise of docs/DEFINITIONS.md, running where it can still be gone
on with so that it does, and else the line of LOG in which a step first broke a promise, that promise by
its name and in words, and the step.

A text that begins with a brace is judged as a history, which examples/c/history.h writes: what a program
saw of any event device. It prints no breach where no promise is broken for certain, and else the line of
LOG with which one is, that promise by its name and in words, and the lines that show it.

Example:
  evsched play first-event.toml > first-event.out
  evsched judge first-event.toml first-event.out

Status: 0 for lawful, running and no breach, 7 for broken, 2 for a refused command line, 3 when reading
or writing failed, 4 for a document, a log or a history at fault, 5 where memory ran out.

evsched help documents describes the document, evsched help faults what each fault means;
the manual is evsched(1), and docs/JUDGE.md says how both are recorded and judged.";

pub(crate) const AFTER_EXAMPLE_HELP: &str = "Example:
  evsched example
  evsched example two-flows | evsched play

Status: 0 when it was printed, 2 for a refused command line or a name that no example has, 3 when writing failed.

The manual is evsched(1).";

/// The documents, as `help documents` prints them.
pub(crate) const DOCUMENTS: &str =
    "A document is TOML, in at most 1,048,576 bytes. A number is a TOML integer from 0 to 4,294,967,295.

The document of play and timeline
  limit      number, 1 to 16,384: the most events inside
  quantum    number, 1 to the limit: how many credits a port draws at a time
  sweep      number, 1 to 64: the sweep quantum
  serving    \"ports\", the default, or \"flows\"
  script     text: the commands, one in a line
  [[queue]]  a table for each queue, 1 to 32, counted from 0
    kind       \"atomic\", \"ordered\" or \"parallel\"
    priority   number, 0 to 255, default 128
    slots      number, 1 to 64, needed where kind is \"atomic\"; at most 128 over all atomic queues
    order      number, 1 to 256, needed where kind is \"ordered\"
    single     true or false, default false: a single-link queue, of one port
  [[port]]   a table for each port, 1 to 32, counted from 0
    threshold  number, from the quantum to the limit
    depth      number, 1 to 64: the most events that it holds
    replies    number, 1 to 64: the room of its reply ring
    implicit   true or false, default true: a dequeue releases what is held
    links      array of the numbers of queues, each once
All but those with a default are needed, and every queue needs a port that is linked to it.

The script, with one space between words
  new P Q FLOW PRIO PAYLOAD    port P enqueues a NEW to queue Q
  fwd P Q FLOW PRIO PAYLOAD    port P enqueues a FORWARD, in answer to the oldest event that it holds
  more P Q FLOW PRIO PAYLOAD   port P enqueues a FORWARD_MORE: an event beside the oldest one that it holds
  rel P                        port P releases the oldest event that it holds
  deq P MAX                    port P dequeues up to MAX events, 0 to 64
  sweep                        the scheduler makes one sweep
  shut                         the device is shut
Q and PRIO are 0 to 255, FLOW is below 2^20, PAYLOAD below 2^64; decimal digits, no zero before them.

The document of run
  limit, quantum, sweep, serving    as of play; the limit is at least 2 * quantum * (workers + 1)
  depth, replies                    of every port, as a port's of play
  trace      text: the events, one in a line: FLOW PRIO PAYLOAD
  [[stage]]  a table for each stage, 1 to 32, counted from 0
    kind, priority, slots, order    as a queue's; only the last stage may be \"parallel\"
    action     \"pass\", the default, \"add K\" or \"drop M\"; the last stage's is \"pass\"

evsched example prints documents to begin with. docs/FORMATS.md has what is printed, too.";

/// The faults, as `help faults` prints them.
pub(crate) const FAULTS: &str =
    "A fault prints one line on standard error. Status 4 is a document's fault, and evsched check says where it is.

evsched: read failed (status 3)
  Cause: the document couldn't be opened or read.      Cure: see the cause in the next line.
evsched: write failed (status 3)
  Cause: standard output is full or closed.            Cure: make room, or read all of it.
evsched: out of memory or seats (status 5)
  Cause: no memory, or no thread for a worker.         Cure: raise the limit of either, or take fewer workers.
evsched: a worker strayed (status 6)
  Cause: a worker answered otherwise than its stage says, which no document brings about.

evsched: document: NAME (status 4), in the order in which they are looked for, each in the whole document
  TooLong          more than 1,048,576 bytes            Cure: a shorter script or trace.
  NotToml          the bytes aren't TOML                Cure: mend the line that check names; texts of several
                                                          lines stand between three quotes.
  UnknownKey       a table has a key that isn't one     Cure: spell it as help documents does, and see that the
                     of its own                           command is the document's: play or run.
  MissingKey       a needed key isn't there             Cure: add it.
  BadValue         a type, range or text is wrong       Cure: numbers stand without quotes, kinds and actions with
                                                          them; queue, port and stage are arrays of tables.
  ParallelInside   run: a stage before the last is      Cure: make it atomic or ordered.
                     parallel
  LastAction       run: the last stage doesn't pass     Cure: leave its action out, or add a stage after it.
  QueueCount       not 1 to 32 queues or stages         Cure: add or remove some.
  PortCount        not 1 to 32 ports                    Cure: add or remove some.
  LimitRange       limit isn't 1 to 16,384              Cure: a number in the range; it bounds the events inside.
  QuantumRange     quantum isn't 1 to the limit         Cure: a lower quantum, or a higher limit.
  ThresholdRange   a threshold isn't quantum to limit   Cure: a threshold between them; the limit where in doubt.
  DepthRange       a depth or replies isn't 1 to 64     Cure: a number in the range.
  FlowSlots        an atomic queue's slots aren't 1     Cure: fewer slots; flows that fall into one slot take
                     to 64, or all are above 128          turns.
  OrderDepth       an order isn't 1 to 256              Cure: a number in the range.
  SweepRange       sweep isn't 1 to 64                  Cure: a number in the range.
  LinkUnknown      a port is linked to no queue         Cure: queues are counted from 0.
  LinkTwice        a port is linked to a queue twice    Cure: name it once.
  QueueUnlinked    a queue has no port                  Cure: add its number to the links of a port.
  SingleLinkCount  a single-link queue has two ports    Cure: take it from the links of all but one.
  LimitTight       run: the limit is less than          Cure: a higher limit, a lower quantum or fewer workers.
                     2 * quantum * (workers + 1)
  BadCommand N     line N of the script is no command   Cure: one space between words, and ports of the document.
  BadTrace N       line N of the trace is no event      Cure: FLOW PRIO PAYLOAD, with one space between them.

evsched: log: NAME (status 4), of judge and timeline
  NoLog            no line says log                     Cure: give it all that play printed.
  BadLine N        line N is none that play prints      Cure: see that the document is the one that was played, and
                     there                                that nothing was changed or cut off.
  NoLane N         timeline: line N is the first that   Cure: see that the document is the one that was played.
                     names a lane that isn't there

evsched: history: NAME (status 4), of judge
  BadEntry N       line N is no entry                   Cure: write it with examples/c/history.h.
  FlowLanes        the device has flow lanes            Cure: judge one whose ports serve the queues.
  NoPort N         line N is of a port that isn't there Cure: see that the document is that of the device.
  Unsorted N       line N ended before one above it     Cure: sort the lines by the time at which they ended.
  Overlap N        line N was seen before the call of   Cure: take one clock for all threads, and one thread
                     its port above it ended              for each port.";
