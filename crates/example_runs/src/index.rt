//! The index of the runs. A line is `DOCUMENT PRINTED STATUS WORDS`; an empty one and one that begins with `#` name no run.

/// A run that a line of the index names.
#[derive(Clone, Copy)]
pub struct Entry<'a> {
    /// The file of the document, or of a log, which stands on standard input.
    pub document: &'a str,
    /// The file of what is printed: by a run with status 0 or 7 on standard output, by any other on standard error.
    pub printed: &'a str,
    /// The status that the run ends with.
    pub status: u8,
    /// The words after the program's name, with a space between each two.
    pub words: &'a str,
}

/// Whether a line of the index is to name a run.
pub fn names_a_run(line: &str) -> bool {
    !line.is_empty() && !line.starts_with('#')
}

/// The run that the line names.
pub fn entry_of(line: &str) -> Option<Entry<'_>> {
    let (document, rest) = line.split_once(' ')?;
    let (printed, rest) = rest.split_once(' ')?;
    let (status, words) = rest.split_once(' ')?;
    let status = status.parse().ok()?;
    Some(Entry {
        document,
        printed,
        status,
        words,
    })
}
