//! Where the tables and the keys of a document stand in its text.

use crate::parts::{Part, Token, tokens};
use std::alloc::{AllocError, Global};

/// Where a table or a key of it stands.
#[derive(Clone, Copy, Debug)]
pub(crate) struct Mark<'a> {
    /// The key of the array of tables that the table is in; empty for the document's own table.
    array: &'a str,
    /// The table's number in it.
    number: usize,
    /// The key; empty for the table itself.
    key: &'a str,
    /// The byte that the key, or the table, begins with.
    pub(crate) at: usize,
    /// The byte that the key's value begins with.
    pub(crate) value: usize,
}

/// What a line of the text is in.
#[derive(Clone, Copy)]
enum Mode {
    Start,
    Header,
    Key,
    Value,
}

/// Reads the parts of a text, and notes the keys.
#[derive(Drop)]
struct Walker<'a> {
    text: &'a str,
    mode: Mode,
    /// The table that the text is in.
    array: &'a str,
    number: usize,
    /// The key of the statement that is being read, and where it begins.
    key: &'a str,
    at: usize,
    /// Whether the statement's value has begun.
    begun: bool,
    /// The arrays and inline tables that are open; true for a table.
    opens: Vec<bool>,
    /// The item of the outermost array.
    item: usize,
    /// Whether an inline table's next word is a key.
    wants_key: bool,
    marks: Vec<Mark<'a>>,
}

/// The word that the token is, without quotes.
fn word_of<'a>(text: &'a str, token: &Token) -> &'a str {
    let word = text.get(token.start..token.end).unwrap_or("");
    match token.part {
        Part::Quoted => word.trim_matches('"').trim_matches('\''),
        Part::Word | Part::Sign(_) | Part::LineEnd => word,
    }
}

impl<'a> Walker<'a> {
    fn mark(
        &mut self,
        array: &'a str,
        number: usize,
        key: &'a str,
        at: usize,
    ) -> Result<(), AllocError> {
        let mark = Mark {
            array,
            number,
            key,
            at,
            value: at,
        };
        self.marks.push(mark)?;
        Ok(())
    }

    /// How many tables of the array there were.
    fn count_of(&self, array: &str) -> usize {
        let mut count = 0usize;
        for mark in &self.marks {
            if mark.array == array && mark.key == "" {
                count = count.saturating_add(1);
            }
        }
        count
    }

    fn start(&mut self, token: &Token) {
        match token.part {
            Part::Sign(b'[') => {
                self.key = "";
                self.at = token.start;
                self.mode = Mode::Header;
            }
            Part::Word | Part::Quoted => {
                self.key = word_of(self.text, token);
                self.at = token.start;
                self.mode = Mode::Key;
            }
            Part::Sign(_) | Part::LineEnd => {}
        }
    }

    /// A part of a line as `[[queue]]`. A table in a table of an array is none of a document's.
    fn header(&mut self, token: &Token) -> Result<(), AllocError> {
        match token.part {
            Part::Word | Part::Quoted if self.key == "" => {
                self.key = word_of(self.text, token);
                Ok(())
            }
            Part::Sign(b'.') => {
                self.key = ".";
                Ok(())
            }
            Part::LineEnd => {
                self.array = self.key;
                self.number = self.count_of(self.key);
                self.mode = Mode::Start;
                self.mark(self.array, self.number, "", self.at)
            }
            Part::Word | Part::Quoted | Part::Sign(_) => Ok(()),
        }
    }

    /// The first part of a statement's value.
    fn begin_value(&mut self, token: &Token) -> Result<(), AllocError> {
        self.begun = true;
        let mark = Mark {
            array: self.array,
            number: self.number,
            key: self.key,
            at: self.at,
            value: token.start,
        };
        self.marks.push(mark)?;
        Ok(())
    }

    fn open(&mut self, at: usize, is_table: bool) -> Result<(), AllocError> {
        self.opens.push(is_table)?;
        self.wants_key = is_table;
        if self.opens.len() == 1 {
            self.item = 0;
        }
        if is_table && self.opens.len() == 2 && self.array == "" {
            self.mark(self.key, self.item, "", at)?;
        }
        Ok(())
    }

    fn is_in_table(&self) -> bool {
        match self.opens.last() {
            Some(is_table) => *is_table,
            None => false,
        }
    }

    fn value(&mut self, token: &Token) -> Result<(), AllocError> {
        match token.part {
            Part::LineEnd => {
                if self.opens.is_empty() {
                    self.mode = Mode::Start;
                }
                Ok(())
            }
            Part::Sign(b'[') => self.open(token.start, false),
            Part::Sign(b'{') => self.open(token.start, true),
            Part::Sign(b']') | Part::Sign(b'}') => {
                let _closed = self.opens.pop();
                self.wants_key = false;
                Ok(())
            }
            Part::Sign(b',') => {
                self.wants_key = self.is_in_table();
                if self.opens.len() == 1 {
                    self.item = self.item.saturating_add(1);
                }
                Ok(())
            }
            Part::Word | Part::Quoted => self.inline_key(token),
            Part::Sign(_) => Ok(()),
        }
    }

    /// A word in a value: a key, where an inline table wants one.
    fn inline_key(&mut self, token: &Token) -> Result<(), AllocError> {
        if !self.wants_key {
            return Ok(());
        }
        self.wants_key = false;
        if self.opens.len() == 2 && self.array == "" {
            let word = word_of(self.text, token);
            self.mark(self.key, self.item, word, token.start)?;
        }
        Ok(())
    }

    fn step(&mut self, token: &Token) -> Result<(), AllocError> {
        match self.mode {
            Mode::Start => {
                self.start(token);
                Ok(())
            }
            Mode::Header => self.header(token),
            Mode::Key => {
                if token.part == Part::Sign(b'=') {
                    self.mode = Mode::Value;
                    self.begun = false;
                }
                Ok(())
            }
            Mode::Value => {
                if !self.begun {
                    self.begin_value(token)?;
                }
                self.value(token)
            }
        }
    }
}

/// The tables and keys of a TOML text, in the order in which they stand there.
pub(crate) fn marks(alloc: Global, text: &str) -> Result<Vec<Mark<'_>>, AllocError> {
    let tokens = tokens(alloc, text)?;
    let mut walker = Walker {
        text,
        mode: Mode::Start,
        array: "",
        number: 0,
        key: "",
        at: 0,
        begun: false,
        opens: Vec::new(alloc),
        item: 0,
        wants_key: false,
        marks: Vec::new(alloc),
    };
    for token in &tokens {
        walker.step(token)?;
    }
    Ok(walker.marks)
}

/// The mark of a table's key; of the table itself where the key is empty.
pub(crate) fn find<'a>(
    marks: &[Mark<'a>],
    array: &str,
    number: usize,
    key: &str,
) -> Option<Mark<'a>> {
    let mut found = None;
    for mark in marks {
        if found.is_none() && mark.array == array && mark.number == number && mark.key == key {
            found = Some(*mark);
        }
    }
    found
}
