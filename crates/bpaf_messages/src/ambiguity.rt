//! The text of an ambiguous word.
ghost use Rattle.std.specs.Prelude.{◌≡◌, ◌++◌, true, IfOk, OnOk, chars, string_bytes};
ghost use Rattle.std.specs.Prelude.{encode_utf8_all, codes, unwrap_or};
ghost use Rattle.bpaf_doc.specs.Print.{printed};
ghost use Rattle.bpaf_line.specs.declared.error.Message.TheVariants.{Ambiguity};
ghost use Rattle.bpaf_messages.specs.Rendering.{message_text, advice_text};
ghost use Rattle.bpaf_messages.specs.Rendering.{dashed, dashed_with_rest, split_options};

use crate::phrases::Phrase::{Literal, Plain, Term};
use crate::phrases::of_phrases;
use bpaf_doc::{Doc, Text};
use bpaf_line::State;
use std::alloc::{AllocError, Global};

/// Appends characters to a text; refused only for want of memory.
fn push_letters(text: &mut String, letters: &[char]) -> Result<(), AllocError>
    ensures { OnOk result (
        string_bytes text.new ≡ string_bytes text.old ++ encode_utf8_all letters.now) }
{
    for letter in letters {
        text.push(*letter)?;
    }
    Ok(())
}

/// The character of a number with a dash before it; the dash alone, where there is none.
fn dashed(alloc: Global, letters: &[char], number: usize) -> Result<String, AllocError>
    ensures { IfOk result (λ text. string_bytes text ≡ dashed letters.now number) }
{
    match letters.get(number) {
        Some(letter) => format!(in alloc; "-{letter}"),
        None => String::from_str(alloc, "-"),
    }
}

/// The same with a value: the characters behind it.
fn dashed_with_rest(alloc: Global, letters: &[char], number: usize) -> Result<String, AllocError>
    ensures { IfOk result (λ text. string_bytes text ≡ dashed_with_rest letters.now number) }
{
    let mut text = dashed(alloc, letters, number)?;
    text.push('=')?;
    if number < letters.len() {
        push_letters(&mut text, &letters[number + 1..])?;
    }
    Ok(text)
}

/// The first characters of a word as options by themselves.
fn split_options(alloc: Global, letters: &[char]) -> Result<String, AllocError>
    ensures { IfOk result (λ text. string_bytes text ≡ split_options letters.now) }
{
    let mut text = dashed(alloc, letters, 1)?;
    text.push(' ')?;
    text.push_str(dashed(alloc, letters, 2)?.as_str())?;
    text.push_str(" ..")?;
    Ok(text)
}

/// What to write in place of a word with an option that is an option-argument too: options by
/// themselves, or that one with a value.
fn advice<'a>(
    alloc: Global,
    name: &'a str,
    word: &'a str,
    option: &'a str,
    options: &'a str,
    with_value: &'a str,
) -> Result<Doc, AllocError>
    ensures { IfOk result (λ doc. printed true doc
        ≡ advice_text name.now word.now option.now options.now with_value.now) }
{
    let phrases = [
        Plain(name),
        Plain(" supports "),
        Term(option),
        Plain(" as both an option and an option-argument, try to split "),
        Term(word),
        Plain(" into individual options ("),
        Literal(options),
        Plain(") or use "),
        Term(with_value),
        Plain(" syntax to disambiguate"),
    ];
    of_phrases(alloc, &phrases)
}

/// How a word with an ambiguous character is to be written.
pub(crate) fn ambiguity(state: &State, word: &Text, number: usize) -> Result<Doc, AllocError>
    ensures { IfOk result (λ doc.
        printed true doc ≡ message_text (Ambiguity word.now number) state.now) }
{
    let alloc = state.alloc();
    let letters = letters_of(alloc, word.as_str())?;
    let option = dashed(alloc, &letters, number)?;
    let options = split_options(alloc, &letters)?;
    let with_rest = dashed_with_rest(alloc, &letters, number)?;
    let (option, options) = (option.as_str(), options.as_str());
    advice(
        alloc,
        shown_name(state),
        word.as_str(),
        option,
        options,
        with_rest.as_str(),
    )
}

/// The characters of a text; refused only for want of memory.
#[tactic(auto, using(std::proofs::lemmas::Str::chars_from_encodes))]
fn letters_of(alloc: Global, text: &str) -> Result<Vec<char>, AllocError>
    ensures { IfOk result (λ letters. letters.items ≡ chars text.now) }
{
    text.chars().collect(alloc)
}

/// The set name, or `app` where none is set.
fn shown_name(state: &State) -> &str
    ensures { result.now ≡ unwrap_or state.now.context.name (codes "app") }
{
    match state.name() {
        Some(name) => name,
        None => "app",
    }
}
