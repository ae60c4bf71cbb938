//! The head of a description: what its run knows beside the parser.
use crate::described::Described;
use crate::keys::read_key;
use crate::tokens::{Description, Fault, Tokens};
use crate::value::Value;
use bpaf_core::{OptionParser, Parser};
use std::alloc::{AllocError, Global};

/// A text of a run.
#[derive(Clone, Copy)]
enum RunText {
    Descr,
    Version,
    Header,
    Footer,
    Usage,
}

/// A word of a head.
#[derive(Clone, Copy)]
enum HeadWord {
    /// A negative number is a word.
    Numbers,
    /// Help is the answer where there are no words.
    FallbackToUsage,
    /// The key that stands behind it asks for help.
    HelpParser,
    /// The key that stands behind it asks for the version.
    VersionParser,
    /// The number that stands behind it is the width of a page.
    MaxWidth,
    /// This text stands behind it.
    Text(RunText),
}

/// The word of a head that a token is, if it is one.
fn word_of(token: &str) -> Option<HeadWord> {
    match token {
        "numbers" => Some(HeadWord::Numbers),
        "fallback_to_usage" => Some(HeadWord::FallbackToUsage),
        "help_parser" => Some(HeadWord::HelpParser),
        "version_parser" => Some(HeadWord::VersionParser),
        "max_width" => Some(HeadWord::MaxWidth),
        "descr" => Some(HeadWord::Text(RunText::Descr)),
        "version" => Some(HeadWord::Text(RunText::Version)),
        "header" => Some(HeadWord::Text(RunText::Header)),
        "footer" => Some(HeadWord::Text(RunText::Footer)),
        "usage" => Some(HeadWord::Text(RunText::Usage)),
        _ => None,
    }
}

/// Goes beyond the head.
fn skip_head(tokens: &mut Tokens<'_>) -> Result<(), Fault> {
    for _ in 0..u64::MAX {
        let Some(word) = word_of(tokens.peek()) else {
            break;
        };
        tokens.skip();
        match word {
            HeadWord::Numbers | HeadWord::FallbackToUsage => (),
            HeadWord::HelpParser | HeadWord::VersionParser => drop(read_key(tokens)?),
            HeadWord::MaxWidth => drop(tokens.number()?),
            HeadWord::Text(_) => drop(tokens.text()?),
        }
    }
    Ok(())
}

/// The run with this text; refused only for want of memory.
fn with_text<P: Described>(
    options: OptionParser<Value, P>,
    named: RunText,
    text: &str,
) -> Result<OptionParser<Value, P>, AllocError> {
    match named {
        RunText::Descr => options.descr_str(text),
        RunText::Version => options.version_str(text),
        RunText::Header => options.header_str(text),
        RunText::Footer => options.footer_str(text),
        RunText::Usage => options.usage_str(text),
    }
}

/// A number as a width; the greatest one, where it is greater.
fn width(number: u64) -> usize {
    usize::try_from(number).unwrap_or(usize::MAX)
}

/// The run with what the head says of it.
fn with_head<P: Described>(
    mut options: OptionParser<Value, P>,
    tokens: &mut Tokens<'_>,
) -> Result<OptionParser<Value, P>, Fault> {
    for _ in 0..u64::MAX {
        let Some(word) = word_of(tokens.peek()) else {
            break;
        };
        tokens.skip();
        options = match word {
            HeadWord::Numbers => options.numbers_as_words(),
            HeadWord::FallbackToUsage => options.fallback_to_usage(),
            HeadWord::HelpParser => options.help_parser(read_key(tokens)?),
            HeadWord::VersionParser => options.version_parser(read_key(tokens)?),
            HeadWord::MaxWidth => options.max_width(width(tokens.number()?)),
            HeadWord::Text(named) => with_text(options, named, tokens.text()?)?,
        };
    }
    Ok(options)
}

/// The run of the parser of a description, at whose head may stand words of the run: `numbers`, by
/// which a negative number is a word ([`OptionParser::numbers_as_words`]), `fallback_to_usage`,
/// `descr`, `version`, `header`, `footer` and `usage`, each with a text behind it, `help_parser`
/// and `version_parser` with a key, and `max_width` with a number. Refused as
/// [`read_parser`](crate::read_parser).
///
/// ```text
/// numbers argument_integer n                          reads `-n -5`
/// descr 'Adds numbers.' many (positional 'a number')
/// ```
pub fn read_options<P: Described>(
    alloc: Global,
    description: &Description,
) -> Result<OptionParser<Value, P>, Fault> {
    let mut tokens = Tokens::new(alloc, description.tokens());
    skip_head(&mut tokens)?;
    let parser = P::read(&mut tokens)?;
    tokens.end()?;
    let mut heads = Tokens::new(alloc, description.tokens());
    with_head(parser.to_options(alloc)?, &mut heads)
}
