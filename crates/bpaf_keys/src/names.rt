//! The names of a command, and its word.
ghost use Rattle.std.specs.Prelude.{◌≡◌, ◌≤◌, length, [], ◌∷◌, map, encode_utf8, slice_get, IfOk};
ghost use Rattle.bpaf_laws.specs.Command.{OpensScope, TakesOpening, named_only, opening_words};
ghost use Rattle.bpaf_laws.specs.Command.{with_long_name, with_short_name};

use bpaf_doc::Text;
use bpaf_line::State;
use bpaf_text::copy_texts;
use std::alloc::{AllocError, Global};
use std::marker::Model;

/// The names of a command: a long one, which is shown, and hidden aliases; of its short names the
/// first is shown.
#[derive(Drop)]
pub struct CommandNames {
    name: Text,
    longs: Vec<Text>,
    shorts: Vec<char>,
}

impl Model for CommandNames {
    ghost use Rattle.bpaf_laws.specs.Command.{Called};

    ghost Value = { Called };

    ghost view = { λ names.
        record { name = names.name; longs = names.longs.items; shorts = names.shorts.items } };
}

/// Takes the first present item in scope, where it is this word: its place.
fn take_word(state: &mut State, word: &str) -> Option<usize>
    ensures { TakesOpening (word.now ∷ []) state.old result state.new }
{
    if state.take_cmd(word) {
        state.current()
    } else {
        None
    }
}

/// Takes the first present item in scope, where it is one of these words: its place.
fn take_long(state: &mut State, words: &[Text]) -> Option<usize>
    ensures { TakesOpening words.now state.old result state.new }
{
    state.set_current(None);
    for word in words {
        let place = take_word(state, word.as_str());
        if place.is_some() {
            return place;
        }
    }
    None
}

/// Takes the first present item in scope, where it is the word of one of these characters: its
/// place.
#[tactic(auto, using(crate::proofs::Opening::short_takes))]
fn take_short(state: &mut State, shorts: &[char]) -> Option<usize>
    ensures { TakesOpening (map encode_utf8 shorts.now) state.old result state.new }
{
    state.set_current(None);
    for short in shorts {
        let mut bytes = [0u8; 4];
        let place = take_word(state, short.encode_utf8(&mut bytes));
        if place.is_some() {
            return place;
        }
    }
    None
}

/// One long name.
fn called(alloc: Global, name: Text) -> CommandNames
    ensures { result ≡ named_only name }
{
    CommandNames {
        name,
        longs: Vec::new(alloc),
        shorts: Vec::new(alloc),
    }
}

impl CommandNames {
    /// One long name; refused only for want of memory.
    pub fn new(alloc: Global, name: &str) -> Result<CommandNames, AllocError>
        ensures { IfOk result (λ names. names ≡ named_only name.now) }
    {
        Ok(called(alloc, Text::new(alloc, name)?))
    }

    /// One long name of at most 23 bytes. It takes no memory.
    pub fn plain(alloc: Global, name: &str) -> CommandNames
        requires { length name.now ≤ 23 }
        ensures { result ≡ named_only name.now }
    {
        called(alloc, Text::short(name))
    }

    /// The first long name, which is shown and put on the path.
    pub fn name(&self) -> &str
        ensures { result.now ≡ self.now.name }
    {
        self.name.as_str()
    }

    /// The hidden long names, in the order in which they were given.
    pub fn longs(&self) -> &[Text]
        ensures { result.now ≡ self.now.longs }
    {
        &self.longs
    }

    /// The short names, in the order in which they were given.
    pub fn shorts(&self) -> &[char]
        ensures { result.now ≡ self.now.shorts }
    {
        &self.shorts
    }

    /// The first short name, which is shown.
    pub fn first_short(&self) -> Option<char>
        ensures { result ≡ slice_get self.now.shorts 0 }
    {
        self.shorts.first().copied()
    }

    /// Equal names; refused only for want of memory.
    pub fn copy(&self) -> Result<CommandNames, AllocError>
        ensures { IfOk result (λ names. names ≡ self.now) }
    {
        let alloc = *self.longs.allocator();
        Ok(CommandNames {
            name: self.name.copy()?,
            longs: copy_texts(alloc, &self.longs)?,
            shorts: Vec::from_slice(alloc, &self.shorts)?,
        })
    }

    /// With one more long name; refused only for want of memory, and then the names are gone.
    pub fn long(mut self, name: &str) -> Result<CommandNames, AllocError>
        ensures { IfOk result (λ names. names ≡ with_long_name self name.now) }
    {
        let name = Text::new(*self.longs.allocator(), name)?;
        self.longs.push(name)?;
        Ok(self)
    }

    /// With one more short name; refused only for want of memory, and then the names are gone.
    pub fn short(mut self, name: char) -> Result<CommandNames, AllocError>
        ensures { IfOk result (λ names. names ≡ with_short_name self name) }
    {
        self.shorts.push(name)?;
        Ok(self)
    }

    /// Takes the first present item in scope, where it is the word of one of the names: its place.
    fn take(&self, state: &mut State) -> Option<usize>
        ensures { TakesOpening (opening_words self.now) state.old result state.new }
    {
        let place = take_word(state, self.name.as_str());
        if place.is_some() {
            return place;
        }
        let place = take_long(state, &self.longs);
        if place.is_some() {
            return place;
        }
        take_short(state, &self.shorts)
    }

    /// Takes that item, and makes the scope run from it to its old end; false where it isn't there.
    /// It takes no memory.
    pub fn open(&self, state: &mut State) -> bool
        ensures { OpensScope (opening_words self.now) state.old result state.new }
    {
        let Some(place) = self.take(state) else {
            return false;
        };
        let end = state.scope().end;
        state.set_scope(place..end);
        true
    }
}
