//! The text of a message, phrase by phrase.
ghost use Rattle.std.specs.Prelude.{◌≡◌, ◌++◌, IfOk, OnOk, true};
ghost use Rattle.bpaf_doc.specs.Print.{printed};
ghost use Rattle.bpaf_messages.specs.Phrases.{phrase_text, phrases_text};

use bpaf_doc::{Doc, Style};
use std::alloc::{AllocError, Global};

/// A phrase of a message.
#[derive(Clone, Copy)]
pub(crate) enum Phrase<'a> {
    /// A text as it is.
    Plain(&'a str),
    /// What is typed, as it is.
    Literal(&'a str),
    /// What a program says, folded as [`Doc::text`] does it.
    Told(&'a str),
    /// What may be typed, between two backticks.
    Term(&'a str),
    /// A metavar between two backticks.
    Metavar(&'a str),
    /// What is wrong on the line, between two backticks.
    Wrong(&'a str),
    /// A document between two backticks.
    Quoted(&'a Doc),
}

/// Appends the text of a phrase; refused only for want of memory.
fn push_phrase(doc: &mut Doc, phrase: &Phrase<'_>) -> Result<(), AllocError>
    ensures { OnOk result (printed true doc.new ≡ printed true doc.old ++ phrase_text phrase.now) }
{
    match phrase {
        Phrase::Plain(text) => doc.write(Style::Text, text),
        Phrase::Literal(text) => doc.write(Style::Literal, text),
        Phrase::Told(text) => doc.text(text),
        Phrase::Term(text) => doc.term(Style::Literal, text),
        Phrase::Metavar(text) => doc.term(Style::Metavar, text),
        Phrase::Wrong(text) => doc.term(Style::Invalid, text),
        Phrase::Quoted(inner) => {
            doc.write(Style::Text, "`")?;
            doc.doc(inner)?;
            doc.write(Style::Text, "`")
        }
    }
}

/// Appends the texts of phrases; refused only for want of memory.
pub(crate) fn push_phrases(doc: &mut Doc, phrases: &[Phrase<'_>]) -> Result<(), AllocError>
    ensures { OnOk result (printed true doc.new ≡ printed true doc.old ++ phrases_text phrases.now) }
{
    for phrase in phrases {
        push_phrase(doc, phrase)?;
    }
    Ok(())
}

/// A document of the texts of phrases; refused only for want of memory.
pub(crate) fn of_phrases(alloc: Global, phrases: &[Phrase<'_>]) -> Result<Doc, AllocError>
    ensures { IfOk result (λ doc. printed true doc ≡ phrases_text phrases.now) }
{
    let mut doc = Doc::new(alloc);
    push_phrases(&mut doc, phrases)?;
    Ok(doc)
}
