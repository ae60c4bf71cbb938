//! The lines of a help text, folded into paragraphs.
ghost use Rattle.std.specs.Prelude.{◌≡◌, ◌++◌, ◌∷◌, [], IfOk, OnOk, MatchOption, string_bytes};
ghost use Rattle.bpaf_doc.specs.Print.{shown_as, folded, keeps_break, break_between, HasNoBreak};
ghost use Rattle.bpaf_doc.specs.Print.{text_pieces};

use crate::doc::{Piece, Style};
use bpaf_base::Text;
use std::alloc::{AllocError, Global};

/// What stands before the first line break, and what after it.
fn cut_line(text: &str) -> Option<(&str, &str)>
    ensures { MatchOption result (HasNoBreak text.now) (λ cut.
        (text.now ≡ cut.0.now ++ 10 ∷ cut.1.now) × HasNoBreak cut.0.now) }
{
    text.split_once('\n')
}

/// Whether a line break stays before this text.
fn keeps_break(text: &str) -> bool
    ensures { result ≡ keeps_break text.now }
{
    match text.as_bytes().first() {
        None => true,
        Some(first) => *first == b' ' || *first == b'\n',
    }
}

/// Appends what stands between a line and what follows it: its line break, or a space for that.
fn push_break(out: &mut String, after_break: bool, line: &str, more: &str) -> Result<(), AllocError>
    ensures { OnOk result (string_bytes out.new
        ≡ string_bytes out.old ++ break_between after_break line.now more.now ∷ []) }
{
    if (after_break && line.is_empty()) || keeps_break(more) {
        out.push('\n')
    } else {
        out.push(' ')
    }
}

/// The text with its line breaks folded; refused only for want of memory. One without line breaks
/// is copied as it is.
#[tactic(auto, using(crate::proofs::Folding::folded_plain))]
fn folded(alloc: Global, text: &str) -> Result<Text, AllocError>
    ensures { IfOk result (λ t. t ≡ folded text.now) }
{
    match cut_line(text) {
        None => Ok(Text::new(alloc, text)?),
        Some(_) => folded_lines(alloc, text),
    }
}

/// That of a text of several lines.
fn folded_lines(alloc: Global, text: &str) -> Result<Text, AllocError>
    ensures { IfOk result (λ t. t ≡ folded text.now) }
{
    let mut out = String::new(alloc);
    let mut rest = text;
    let mut after_break = false;
    while let Some((line, more)) = cut_line(rest) {
        out.push_str(line)?;
        push_break(&mut out, after_break, line, more)?;
        after_break = true;
        rest = more;
    }
    out.push_str(rest)?;
    Ok(Text::from(out))
}

/// A line break and the folded text; refused only for want of memory.
fn folded_below(alloc: Global, text: &str) -> Result<Text, AllocError>
    ensures { IfOk result (λ t. t ≡ 10 ∷ folded text.now) }
{
    let text = folded(alloc, text)?;
    let mut whole = String::new(alloc);
    whole.push('\n')?;
    whole.push_str(text.as_str())?;
    Ok(Text::from(whole))
}

/// The pieces that a text gives; refused only for want of memory. A text without line breaks is
/// one.
#[tactic(auto, using(crate::proofs::Folding::text_plain))]
pub(crate) fn text_pieces(alloc: Global, text: &str) -> Result<Vec<Piece>, AllocError>
    ensures { IfOk result (λ all. all.items ≡ text_pieces text.now) }
{
    match cut_line(text) {
        None => Ok(one_piece(alloc, text)?),
        Some(_) => pieces_of_lines(alloc, text),
    }
}

/// A text as one piece, as it is; refused only for want of memory.
fn one_piece(alloc: Global, text: &str) -> Result<Vec<Piece>, AllocError>
    ensures { IfOk result (λ all. all.items ≡ shown_as Style.Text text.now ∷ []) }
{
    let mut all = Vec::with_capacity(alloc, 1)?;
    all.push(Piece {
        text: Text::new(alloc, text)?,
        style: Style::Text,
        detail: false,
    })?;
    Ok(all)
}

/// The pieces of a text of several lines.
fn pieces_of_lines(alloc: Global, text: &str) -> Result<Vec<Piece>, AllocError>
    ensures { IfOk result (λ all. all.items ≡ text_pieces text.now) }
{
    let mut all = Vec::with_capacity(alloc, 2)?;
    match text.split_once("\n\n") {
        None => {
            all.push(Piece {
                text: folded(alloc, text)?,
                style: Style::Text,
                detail: false,
            })?;
            Ok(all)
        }
        Some((first, rest)) => {
            all.push(Piece {
                text: folded(alloc, first)?,
                style: Style::Text,
                detail: false,
            })?;
            all.push(Piece {
                text: folded_below(alloc, rest)?,
                style: Style::Text,
                detail: true,
            })?;
            Ok(all)
        }
    }
}
