//! What the program can be asked to do.

/// What the words of a command line ask for. A file is named by the word of this number, counted from 0; without one it is standard
/// input.
#[derive(Clone, Copy, Debug, PartialEq, Eq)]
pub enum Choice {
    /// To play the script of a document that is read from standard input.
    Play,
    /// To run the pipeline of a document that is read from standard input, with so many workers, from 1 to 8.
    Run {
        workers: u32,
    },
    /// To do this with a document, and to explain its fault where `explain`.
    Document {
        task: Task,
        file: Option<usize>,
        explain: bool,
    },
    /// To draw a log, by the configuration of a document, and to explain the document's fault where `explain`.
    Drawing {
        document: Option<usize>,
        log: Option<usize>,
        explain: bool,
    },
    /// To judge a log, by the document in a file.
    Judge {
        document: Option<usize>,
        log: Option<usize>,
    },
    /// To print the example that the word of this number names, or without one the names of all.
    Example {
        name: Option<usize>,
    },
}

/// What is done with a document.
#[derive(Clone, Copy, Debug, PartialEq, Eq)]
pub enum Task {
    /// Its script is played, and what happened is printed as JSON where `json`.
    Play {
        json: bool,
    },
    /// Its script is played, and the picture of its log is drawn.
    Timeline,
    /// Its pipeline is run, with so many workers, from 1 to 8; how far the run has come isn't shown where `quiet`, and what was counted of
    /// it is where `stats`, as JSON where `json`.
    Run {
        workers: u32,
        quiet: bool,
        stats: bool,
        json: bool,
    },
    /// Its fault is looked for, with so many workers where it is a pipeline's, from 1 to 8.
    Check {
        workers: u32,
    },
}
