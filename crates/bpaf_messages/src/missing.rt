//! The texts of what was expected and is missing.
ghost use Rattle.std.specs.Prelude.{◌≡◌, ◌++◌, true, IfOk, OnOk, map};
ghost use Rattle.bpaf_doc.specs.{Shape.part_text, Shape.part_of, Print.printed};
ghost use Rattle.bpaf_messages.specs.Rendering.{furthest, reaches, in_one_scope, is_command};
ghost use Rattle.bpaf_messages.specs.Rendering.{told_parts, one_of_texts, got_text, expected_of};
ghost use Rattle.bpaf_messages.specs.Rendering.{missing_text, message_text};
ghost use Rattle.bpaf_line.specs.{declared.error.Message.TheVariants.Expected, Missing.missed_of};

use crate::phrases::Phrase::{Plain, Quoted, Wrong};
use crate::phrases::{of_phrases, push_phrases};
use crate::shown::shown_item;
use bpaf_doc::{Doc, Item, Style};
use bpaf_line::{MissingItem, State};
use std::alloc::{AllocError, Global};

/// Whether an item was looked for no less far on than another.
fn reaches(item: &MissingItem, other: &MissingItem) -> bool
    ensures { result ≡ reaches (missed_of item.now) (missed_of other.now) }
{
    item.position > other.position
        || (item.position == other.position && item.scope.start >= other.scope.start)
}

/// Whether two items were looked for in one scope.
fn in_one_scope(item: &MissingItem, other: &MissingItem) -> bool
    ensures { result ≡ in_one_scope (missed_of item.now) (missed_of other.now) }
{
    item.scope.start == other.scope.start && item.scope.end == other.scope.end
}

/// Whether an item is a command.
fn is_command(item: &Item) -> bool
    ensures { result ≡ is_command (part_of item.now) }
{
    match item {
        Item::Command { .. } => true,
        Item::Any { .. } | Item::Positional { .. } | Item::Flag { .. } | Item::Argument { .. } =>
            false,
    }
}

/// The item that was looked for furthest on, the last of equals.
fn furthest<'a>(first: &'a MissingItem, more: &'a [MissingItem]) -> &'a MissingItem
    ensures { missed_of result.now ≡ furthest (missed_of first.now) (map missed_of more.now) }
{
    let mut far = first;
    for item in more {
        if reaches(item, far) {
            far = item;
        }
    }
    far
}

/// The text of an item.
fn item_doc(alloc: Global, item: &Item) -> Result<Doc, AllocError>
    ensures { IfOk result (λ doc. printed true doc ≡ part_text (part_of item.now)) }
{
    let mut doc = Doc::new(alloc);
    item.push_text(&mut doc)?;
    Ok(doc)
}

/// What is written for each of the items that are told: those looked for in the scope of the
/// furthest one, without the commands behind the first.
fn told_items(
    alloc: Global,
    far: &MissingItem,
    items: &[MissingItem],
) -> Result<Vec<Doc>, AllocError>
    ensures { IfOk result (λ docs. map (printed true) docs.items
        ≡ map part_text (told_parts (missed_of far.now) (map missed_of items.now))) }
{
    let mut docs = Vec::new(alloc);
    let mut after = false;
    for missed in items {
        let is_command = is_command(&missed.item);
        if in_one_scope(far, missed) && !(after && is_command) {
            docs.push(item_doc(alloc, &missed.item)?)?;
            after = after || is_command;
        }
    }
    Ok(docs)
}

/// The text of each of some items.
fn item_docs(alloc: Global, items: &[Item]) -> Result<Vec<Doc>, AllocError>
    ensures { IfOk result (λ docs.
        map (printed true) docs.items ≡ map part_text (map part_of items.now)) }
{
    let mut docs = Vec::new(alloc);
    for item in items {
        docs.push(item_doc(alloc, item)?)?;
    }
    Ok(docs)
}

/// Appends one of some documents.
fn push_alternatives(doc: &mut Doc, docs: &[Doc]) -> Result<(), AllocError>
    ensures { OnOk result (printed true doc.new
        ≡ printed true doc.old ++ one_of_texts (map (printed true) docs.now)) }
{
    match docs {
        [] => push_phrases(doc, &[Plain("no arguments")]),
        [a] => push_phrases(doc, &[Quoted(a)]),
        [a, b] => push_phrases(doc, &[Quoted(a), Plain(" or "), Quoted(b)]),
        [a, b, ..] => {
            push_phrases(
                doc,
                &[Quoted(a), Plain(", "), Quoted(b), Plain(", or more")],
            )
        }
    }
}

/// Appends what was got.
fn push_got(doc: &mut Doc, state: &State, got: Option<usize>) -> Result<(), AllocError>
    ensures { OnOk result (
        printed true doc.new ≡ printed true doc.old ++ got_text state.now got) }
{
    match got {
        None => push_phrases(doc, &[Plain(", pass ")]),
        Some(place) => {
            let item = shown_item(state, place)?;
            let item = Wrong(item.as_str());
            push_phrases(doc, &[Plain(", got "), item, Plain(". Pass ")])
        }
    }
}

/// One of some documents was expected.
fn expected(state: &State, docs: &[Doc], got: Option<usize>) -> Result<Doc, AllocError>
    ensures { IfOk result (λ doc.
        printed true doc ≡ expected_of state.now (map (printed true) docs.now) got) }
{
    let mut doc = Doc::new(state.alloc());
    doc.write(Style::Text, "expected ")?;
    push_alternatives(&mut doc, docs)?;
    push_got(&mut doc, state, got)?;
    doc.term(Style::Literal, "--help")?;
    doc.write(Style::Text, " for usage information")?;
    Ok(doc)
}

/// One of some items was expected.
pub(crate) fn expected_items(
    state: &State,
    items: &Vec<Item>,
    got: Option<usize>,
) -> Result<Doc, AllocError>
    ensures { IfOk result (λ doc.
        printed true doc ≡ message_text (Expected items.now got) state.now) }
{
    let docs = item_docs(state.alloc(), items)?;
    expected(state, &docs, got)
}

/// What was looked for in vain, or that it has no name to be shown.
pub(crate) fn missing(state: &State, items: &[MissingItem]) -> Result<Doc, AllocError>
    ensures { IfOk result (λ doc.
        printed true doc ≡ missing_text state.now (map missed_of items.now)) }
{
    let Some((first, more)) = items.split_first() else {
        let phrases = [
            Plain("parser requires an extra flag, argument or parameter, "),
            Plain("but its name is hidden by the author"),
        ];
        return of_phrases(state.alloc(), &phrases);
    };
    let far = furthest(first, more);
    let docs = told_items(state.alloc(), far, items)?;
    let got = state.first_present(far.scope.start.max(far.position), far.scope.end);
    expected(state, &docs, got)
}
