//! The words of a row, separated by a character or quoted.
use std::alloc::{AllocError, Global};

/// What parts the words of a row that a program wrote.
const SEPARATOR: char = '\u{1f}';

/// What stands for the empty word there.
const EMPTY_WORD: char = '\u{1e}';

/// Whether a row is one that a program wrote: a separator or an empty word stands in it.
pub fn is_separated(text: &str) -> bool {
    text.contains(SEPARATOR) || text.contains(EMPTY_WORD)
}

/// The words between separators.
pub fn separated_words(alloc: Global, text: &str) -> Result<Vec<String>, AllocError> {
    let mut words = Vec::new(alloc);
    for word in text.split(SEPARATOR) {
        let word = if word == "\u{1e}" { "" } else { word };
        words.push(String::from_str(alloc, word)?)?;
    }
    Ok(words)
}

/// How the next character of a quoted text is read.
#[derive(Clone, Copy)]
enum Quote {
    /// Outside quotes.
    Outside,
    /// Outside quotes, behind a backslash.
    Escaped,
    /// Between `'`.
    Single,
    /// Between `"`.
    Double,
    /// Between `"`, behind a backslash.
    DoubleEscaped,
}

/// Words as a shell quotes them, read character by character.
#[derive(Drop)]
struct QuotedWords {
    alloc: Global,
    words: Vec<String>,
    /// The word that is read, where one is begun.
    word: Option<String>,
    quote: Quote,
}

impl QuotedWords {
    /// Appends a character to the word, and begins it where none is begun.
    fn push(&mut self, letter: char) -> Result<(), AllocError> {
        let mut word = self.word.take().unwrap_or(String::new(self.alloc));
        word.push(letter)?;
        self.word = Some(word);
        Ok(())
    }

    /// Begins a word where none is begun.
    fn begin(&mut self, quote: Quote) {
        self.quote = quote;
        if self.word.is_none() {
            self.word = Some(String::new(self.alloc));
        }
    }

    /// Ends the word, if one is begun.
    fn end(&mut self) -> Result<(), AllocError> {
        if let Some(word) = self.word.take() {
            self.words.push(word)?;
        }
        Ok(())
    }

    /// Reads a character.
    fn read(&mut self, letter: char) -> Result<(), AllocError> {
        match (self.quote, letter) {
            (Quote::Outside, ' ') => self.end(),
            (Quote::Outside, '\'') => Ok(self.begin(Quote::Single)),
            (Quote::Outside, '"') => Ok(self.begin(Quote::Double)),
            (Quote::Outside, '\\') => Ok(self.begin(Quote::Escaped)),
            (Quote::Single, '\'') | (Quote::Double, '"') => Ok(self.quote = Quote::Outside),
            (Quote::Double, '\\') => Ok(self.quote = Quote::DoubleEscaped),
            (Quote::Escaped, _) => {
                self.quote = Quote::Outside;
                self.push(letter)
            }
            (Quote::DoubleEscaped, _) => {
                self.quote = Quote::Double;
                if letter != '"' && letter != '\\' && letter != '$' && letter != '`' {
                    self.push('\\')?;
                }
                self.push(letter)
            }
            _ => self.push(letter),
        }
    }
}

/// The words of a text, parted by spaces and quoted as a shell quotes them; nothing where a quote
/// isn't closed. Neither variables nor patterns are replaced.
pub fn quoted_words(alloc: Global, text: &str) -> Result<Option<Vec<String>>, AllocError> {
    let mut quoted = QuotedWords {
        alloc,
        words: Vec::new(alloc),
        word: None,
        quote: Quote::Outside,
    };
    for letter in text.chars() {
        quoted.read(letter)?;
    }
    quoted.end()?;
    match quoted.quote {
        Quote::Outside => Ok(Some(quoted.words)),
        _ => Ok(None),
    }
}

/// Whether a character may stand in a word without quotes.
fn is_plain(letter: char) -> bool {
    letter.is_ascii_alphanumeric() || "-_=,./:+@%^".contains(letter) || !letter.is_ascii()
}

/// Appends a word, quoted where it has to be.
fn push_quoted(word: &str, out: &mut String) -> Result<(), AllocError> {
    if !word.is_empty() && word.chars().all(is_plain) {
        return out.push_str(word);
    }
    out.push('\'')?;
    for letter in word.chars() {
        if letter == '\'' {
            out.push_str("'\\''")?;
        } else {
            out.push(letter)?;
        }
    }
    out.push('\'')
}

/// The words as one text that [`quoted_words`] reads.
pub fn quoted(alloc: Global, words: &[String]) -> Result<String, AllocError> {
    let mut out = String::new(alloc);
    for word in words {
        if !out.is_empty() {
            out.push(' ')?;
        }
        push_quoted(word.as_str(), &mut out)?;
    }
    Ok(out)
}
