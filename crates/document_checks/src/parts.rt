//! The parts of a TOML text: enough of them to find where a key stands.

use std::alloc::{AllocError, Global};

/// What a part of a text is.
#[derive(Clone, Copy, Debug, PartialEq, Eq)]
pub(crate) enum Part {
    /// A bare word, or a number.
    Word,
    /// A text in quotes, with them.
    Quoted,
    /// One of `[ ] { } = , .`.
    Sign(u8),
    LineEnd,
}

/// A part, and the bytes from `start` to `end` that it is.
#[derive(Clone, Copy, Debug)]
pub(crate) struct Token {
    pub(crate) part: Part,
    pub(crate) start: usize,
    pub(crate) end: usize,
}

/// What the scanner is in.
#[derive(Clone, Copy)]
enum State {
    Between,
    Comment,
    Word,
    /// A text between quotes of this kind, one or three at each end.
    Quoted { quote: u8, long: bool },
}

/// Reads a text, byte by byte.
#[derive(Drop)]
struct Scanner {
    state: State,
    /// Where the part that is being read began.
    start: usize,
    /// How many bytes are still to be passed over.
    skip: usize,
    tokens: Vec<Token>,
}

/// Whether the bytes begin with three of the quote.
fn has_three(rest: &[u8], quote: u8) -> bool {
    matches!(rest, [a, b, c, ..] if *a == quote && *b == quote && *c == quote)
}

/// Whether the bytes begin with four of the quote.
fn has_four(rest: &[u8], quote: u8) -> bool {
    match rest.split_first() {
        Some((first, rest)) => *first == quote && has_three(rest, quote),
        None => false,
    }
}

/// Whether the byte ends a word.
fn ends_word(byte: u8) -> bool {
    matches!(
        byte,
        b' ' | b'\t'
            | b'\r'
            | b'\n'
            | b'#'
            | b'"'
            | b'\''
            | b'['
            | b']'
            | b'{'
            | b'}'
            | b'='
            | b','
            | b'.'
    )
}

impl Scanner {
    fn push(&mut self, part: Part, end: usize) -> Result<(), AllocError> {
        let token = Token {
            part,
            start: self.start,
            end,
        };
        self.tokens.push(token)?;
        Ok(())
    }

    /// A byte that stands outside each part.
    fn begin(&mut self, at: usize, byte: u8, rest: &[u8]) -> Result<(), AllocError> {
        self.start = at;
        self.state = State::Between;
        match byte {
            b'#' => self.state = State::Comment,
            b'"' | b'\'' => {
                let long = has_three(rest, byte);
                self.state = State::Quoted { quote: byte, long };
                self.skip = if long { 2 } else { 0 };
            }
            b'\n' => self.push(Part::LineEnd, at)?,
            b' ' | b'\t' | b'\r' => {}
            b'[' | b']' | b'{' | b'}' | b'=' | b',' | b'.' => {
                self.push(Part::Sign(byte), at.saturating_add(1))?;
            }
            _ => self.state = State::Word,
        }
        Ok(())
    }

    /// A byte of a text in quotes.
    fn go_on(
        &mut self,
        at: usize,
        byte: u8,
        rest: &[u8],
        quote: u8,
        long: bool,
    ) -> Result<(), AllocError> {
        if byte == b'\\' && quote == b'"' {
            self.skip = 1;
        } else if byte == quote && !long {
            self.push(Part::Quoted, at.saturating_add(1))?;
            self.state = State::Between;
        } else if byte == quote && has_three(rest, quote) && !has_four(rest, quote) {
            self.push(Part::Quoted, at.saturating_add(3))?;
            self.state = State::Between;
            self.skip = 2;
        }
        Ok(())
    }

    /// The byte at this place, with which the rest begins.
    fn step(&mut self, at: usize, byte: u8, rest: &[u8]) -> Result<(), AllocError> {
        if self.skip > 0 {
            self.skip = self.skip.saturating_sub(1);
            return Ok(());
        }
        match self.state {
            State::Between => self.begin(at, byte, rest),
            State::Comment => {
                if byte == b'\n' {
                    self.begin(at, byte, rest)?;
                }
                Ok(())
            }
            State::Word => {
                if ends_word(byte) {
                    self.push(Part::Word, at)?;
                    self.begin(at, byte, rest)?;
                }
                Ok(())
            }
            State::Quoted { quote, long } => self.go_on(at, byte, rest, quote, long),
        }
    }
}

/// The parts of a text, in order. The last line ends too.
pub(crate) fn tokens(alloc: Global, text: &str) -> Result<Vec<Token>, AllocError> {
    let bytes = text.as_bytes();
    let mut scanner = Scanner {
        state: State::Between,
        start: 0,
        skip: 0,
        tokens: Vec::new(alloc),
    };
    for (at, byte) in bytes.iter().enumerate() {
        let rest = bytes.get(at..).unwrap_or(&[]);
        scanner.step(at, *byte, rest)?;
    }
    scanner.step(bytes.len(), b'\n', &[])?;
    Ok(scanner.tokens)
}
