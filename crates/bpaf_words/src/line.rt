//! The line of all words.
ghost use Rattle.std.specs.Prelude.{◌≡◌, ◌≤◌, [], ◌++◌, true, IfOk, OnOk, All, IsUtf8, drop, map};
ghost use Rattle.bpaf_words.specs.Splitting.{Begins, BeginsByAny, EndsFront, IsFront, IsLineByAny};
ghost use Rattle.bpaf_words.specs.Splitting.{SplitsWords, ReadsLine, AreTexts};
ghost use Rattle.std.specs.{Prelude.length, Prelude.nat_lt, Bool.then_some};
ghost use Rattle.bpaf_words.specs.{Arguments.words_in, Line.known_at};
ghost use Rattle.bpaf_words.specs.declared.line.LineFault.TheVariants.{Memory};

use crate::args::Words;
use crate::split::{SplitFault, split_alone, split_word};
use bpaf_base::{Arg, Text};
use std::alloc::{AllocError, Global};

/// The line of words: its items, and the place of the first `--`, where one stands there.
#[derive(Drop)]
pub struct Line {
    pub items: Vec<Arg>,
    pub marker: Option<usize>,
}

/// Why words give no line.
#[derive(Drop)]
pub enum LineFault {
    /// The first word with a character that is both a known flag and a known argument, and the
    /// number of that character, the dash being 0.
    Ambiguous(Text, usize),
    /// Memory was wanted and refused.
    Memory,
}

impl From<AllocError> for LineFault {
    ghost from_gives = { λ _ fault. fault ≡ Memory };

    fn from(_error: AllocError) -> LineFault {
        LineFault::Memory
    }
}

/// The items of the first words of a line, which are the same whatever short names are known: of
/// those before the first `--` and before the first word of joined letters, such as `-vn3`.
#[derive(Drop)]
pub struct Front {
    items: Vec<Arg>,
    read: usize,
    numbers: bool,
}

impl Front {
    /// The front of the line of words. With `numbers` a word of `-` and ASCII digits alone, such as
    /// `-12`, is a Word, and so it isn't joined letters.
    ///
    /// Refused only for want of memory.
    pub fn new(alloc: Global, words: Words<'_>, numbers: bool) -> Result<Front, AllocError>
        ensures front { IfOk result (IsFront (words_in words.entry)) }
        ensures setting { IfOk result (λ front. front.numbers ≡ numbers) }
    {
        let mut items = Vec::with_capacity(alloc, words.len())?;
        let read = split_front(alloc, words, numbers, &mut items)?;
        Ok(Front {
            items,
            read,
            numbers,
        })
    }

    /// Whether no word before the first `--` is joined letters. Then the line of the words doesn't
    /// depend on the known short names.
    pub fn is_whole(&self, words: Words<'_>) -> bool
        requires { self.now.read ≤ length (words_in words) }
        ensures { result ≡ true → EndsFront (words_in words.entry) self.now.read }
    {
        self.read == words.len() || words.at(self.read) == "--"
    }

    /// The line of the words, whatever short names are known; refused only for want of memory.
    pub fn line(self, alloc: Global, words: Words<'_>) -> Result<Line, AllocError>
        requires front { IsFront (words_in words) self }
        requires whole { EndsFront (words_in words) self.read }
        ensures { IfOk result (IsLineByAny self.numbers (words_in words.entry)) }
    {
        let line = line_behind(alloc, words, self.read, self.items)?;
        Ok(line)
    }

    /// The line of the words by these known short names, by which joined words such as `-vn3` are
    /// read.
    ///
    /// Refused with Ambiguous exactly where the words have no line, or for want of memory.
    pub fn line_by(
        self,
        alloc: Global,
        words: Words<'_>,
        flags: &[char],
        arguments: &[char],
    ) -> Result<Line, LineFault>
        requires { IsFront (words_in words) self }
        ensures texts { OnOk result (All IsUtf8 (words_in words.entry)) }
        ensures answer { ReadsLine
            (known_at self.numbers (record { flags = flags.now; arguments = arguments.now }))
            (words_in words.entry) result }
    {
        let numbers = self.numbers;
        let from = self.read;
        let mut items = self.items;
        let before = split_words(alloc, words, from, flags, arguments, numbers, &mut items)?;
        Ok(line_behind(alloc, words, before, items)?)
    }
}

/// The line of words: the items of those before the first `--`, and then a PosWord for it and for
/// each later word.
///
/// `flags` and `arguments` are the known short names, by which joined words such as `-vn3` are
/// read. With `numbers` a word of `-` and ASCII digits alone, such as `-12`, is a Word.
///
/// Refused with Ambiguous exactly where the words have no line, or for want of memory.
pub fn line_of(
    alloc: Global,
    words: Words<'_>,
    flags: &[char],
    arguments: &[char],
    numbers: bool,
) -> Result<Line, LineFault>
    ensures texts { OnOk result (All IsUtf8 (words_in words.entry)) }
    ensures answer { ReadsLine
        (known_at numbers (record { flags = flags.now; arguments = arguments.now }))
        (words_in words.entry) result }
{
    let front = Front::new(alloc, words, numbers)?;
    front.line_by(alloc, words, flags, arguments)
}

/// The items of the words before the first `--` and before the first that is joined letters, and
/// how many these words are; refused only for want of memory.
fn split_front(
    alloc: Global,
    words: Words<'_>,
    numbers: bool,
    items: &mut Vec<Arg>,
) -> Result<usize, AllocError>
    requires { items.old.items ≡ [] }
    ensures { IfOk result (λ read.
        BeginsByAny numbers (words_in words.entry) items.new.items read) }
{
    for index in 0..words.len() {
        let word = words.at(index);
        if word == "--" {
            return Ok(index);
        }
        if let Some(_letters) = split_alone(alloc, word, numbers, items)? {
            return Ok(index);
        }
    }
    Ok(words.len())
}

/// The items of the words from a place up to the first `--`, at the end of those before them, and
/// how many words stand before that `--`.
fn split_words(
    alloc: Global,
    words: Words<'_>,
    from: usize,
    flags: &[char],
    arguments: &[char],
    numbers: bool,
    items: &mut Vec<Arg>,
) -> Result<usize, LineFault>
    requires { Begins
        (known_at numbers (record { flags = flags.now; arguments = arguments.now }))
        (words_in words) items.old.items from }
    ensures { SplitsWords
        (known_at numbers (record { flags = flags.now; arguments = arguments.now }))
        (words_in words.entry) items.new.items result }
{
    for index in from..words.len() {
        let word = words.at(index);
        if word == "--" {
            return Ok(index);
        }
        match split_word(alloc, word, flags, arguments, numbers, items) {
            Ok(()) => {}
            Err(SplitFault::Memory) => return Err(LineFault::Memory),
            Err(SplitFault::Ambiguous(number)) => return Err(LineFault::Ambiguous(
                Text::new(alloc, word)?,
                number,
            )),
        }
    }
    Ok(words.len())
}

/// The line of words of which so many stand before the first `--`, and have these items; refused
/// only for want of memory.
fn line_behind(
    alloc: Global,
    words: Words<'_>,
    before: usize,
    mut items: Vec<Arg>,
) -> Result<Line, AllocError>
    ensures items { IfOk result (λ line. line.items.items ≡
        items.items ++ map Arg.PosWord (drop before (words_in words.entry))) }
    ensures marker { IfOk result (λ line. line.marker ≡
        then_some (nat_lt before (length (words_in words.entry))) (length items.items)) }
    ensures texts { OnOk result
        (AreTexts (words_in words.entry) before (length (words_in words.entry))) }
{
    let marker = (before < words.len()).then_some(items.len());
    push_rest(alloc, words, before, &mut items)?;
    Ok(Line { items, marker })
}

/// A PosWord for each word from a place on.
fn push_rest(
    alloc: Global,
    words: Words<'_>,
    from: usize,
    items: &mut Vec<Arg>,
) -> Result<(), AllocError>
    ensures items { OnOk result (items.new.items ≡
        items.old.items ++ map Arg.PosWord (drop from (words_in words.entry))) }
    ensures texts { OnOk result
        (AreTexts (words_in words.entry) from (length (words_in words.entry))) }
{
    for index in from..words.len() {
        items.push(Arg::PosWord(Text::new(alloc, words.at(index))?))?;
    }
    Ok(())
}
