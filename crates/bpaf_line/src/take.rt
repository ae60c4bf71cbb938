//! The calls of a state that look for an item and take it.
ghost use Rattle.bpaf_base.specs.Items.{is_command_word};
ghost use Rattle.bpaf_line.specs.Taking.{TakesFlag, TakesArgument, TakesKeyText, FindsArgument};
ghost use Rattle.bpaf_line.specs.Taking.{FindsWord, TakesWord, TakesCommand, HasNoCommand};
ghost use Rattle.bpaf_line.specs.Taking.{IsCommandAt};
ghost use Rattle.bpaf_line.specs.{Marks.KeepsMarks, Situation.is_open, Situation.take_place};
ghost use Rattle.std.specs.Prelude.{◌≡◌, ◌+◌, ◌<◌, ◌^◌, true, IfOk, IfSome, MatchOption};

use crate::error::{Error, Message};
use crate::state::State;
use bpaf_doc::{Item, Metavar, Text};
use bpaf_words::is_command_word;

impl State {
    /// Takes the first present key in scope with one of the names, attached or not; false, and
    /// nothing changes, where there is none. It takes no memory.
    pub fn take_flag(&mut self, shorts: &[char], longs: &[Text]) -> bool
        ensures marks { KeepsMarks self.old self.new }
        ensures taken { TakesFlag (record { shorts = shorts.now; longs = longs.now })
            self.old result self.new }
    {
        match self.first_key(shorts, longs, false) {
            Some(place) => {
                self.take(place);
                true
            }
            None => false,
        }
    }

    /// Takes the first present key in scope with one of the names (under `adjacent` an attached
    /// one) and the text behind it; None, and nothing changes, where there is no such key.
    ///
    /// Refused with NoArgument where the next place isn't a present Word or ArgWord in scope, or
    /// for want of memory. A refusal takes nothing.
    pub fn take_arg(
        &mut self,
        shorts: &[char],
        longs: &[Text],
        adjacent: bool,
        metavar: Metavar,
    ) -> Result<Option<String>, Error>
        ensures marks { KeepsMarks self.old self.new }
        ensures taken { TakesArgument (record { shorts = shorts.now; longs = longs.now }) adjacent
            metavar.0.now self.old result self.new }
    {
        let Some((key, value)) = self.find_arg(shorts, longs, adjacent, metavar)? else {
            return Ok(None);
        };
        let text = String::from_str(self.alloc(), value.as_str())?;
        self.take_pair(key);
        Ok(Some(text))
    }

    /// The same as [`State::take_arg`], with the text as a [`Text`], which takes no memory where it
    /// is short. bpaf has no such call.
    pub fn take_text(
        &mut self,
        shorts: &[char],
        longs: &[Text],
        adjacent: bool,
        metavar: Metavar,
    ) -> Result<Option<Text>, Error>
        ensures marks { KeepsMarks self.old self.new }
        ensures taken { TakesKeyText (record { shorts = shorts.now; longs = longs.now }) adjacent
            metavar.0.now self.old result self.new }
    {
        let Some((key, value)) = self.find_arg(shorts, longs, adjacent, metavar)? else {
            return Ok(None);
        };
        let text = value.copy()?;
        self.take_pair(key);
        Ok(Some(text))
    }

    /// Takes a place that is present and in scope, and the next one, which is so too.
    fn take_pair(&mut self, key: usize)
        requires key { is_open self.old key ≡ true }
        requires value { is_open self.old (key + 1) ≡ true }
        requires fits { key + 1 < 2 ^ 64 }
        ensures taken { self.new ≡ take_place (take_place self.old key) (key + 1) }
        ensures marks { KeepsMarks self.old self.new }
    {
        self.take(key);
        self.take(key + 1);
    }

    /// The first present key in scope with one of the names (under `adjacent` an attached one), and
    /// the text behind it. Refused as [`State::take_arg`] is.
    fn find_arg(
        &self,
        shorts: &[char],
        longs: &[Text],
        adjacent: bool,
        metavar: Metavar,
    ) -> Result<Option<(usize, &Text)>, Error>
        ensures found { FindsArgument (record { shorts = shorts.now; longs = longs.now }) adjacent
            metavar.0.now self.now result }
        ensures fits { IfOk result (λ found. IfSome found (λ r. r.0 + 1 < 2 ^ 64)) }
    {
        let Some(key) = self.first_key(shorts, longs, adjacent) else {
            return Ok(None);
        };
        match self.value_after(key) {
            Some(value) => Ok(Some((key, value))),
            None => {
                let metavar = Text::new(self.alloc(), metavar.0)?;
                Err(Error(Message::NoArgument(key, metavar)))
            }
        }
    }

    /// The first present Word or PosWord in scope: its place, whether it is a PosWord, its text.
    ///
    /// Refused with Missing of a positional item where there is none, or for want of memory.
    pub fn positional_word(&self, metavar: Metavar) -> Result<(usize, bool, &Text), Error>
        ensures { FindsWord metavar.0.now self.now result }
    {
        match self.first_word() {
            Some(word) => Ok(word),
            None => {
                let item = Item::Positional {
                    metavar: Text::new(self.alloc(), metavar.0)?,
                    help: None,
                };
                Err(self.missing(Some(item))?)
            }
        }
    }

    /// Takes the first present Word or PosWord in scope: its place, whether it is a PosWord, a copy
    /// of its text.
    ///
    /// Refused as [`State::positional_word`] is. A refusal takes nothing.
    pub fn take_positional_word(&mut self, metavar: Metavar) -> Result<(usize, bool, String), Error>
        ensures marks { KeepsMarks self.old self.new }
        ensures taken { TakesWord metavar.0.now self.old result self.new }
    {
        let (place, strict, word) = self.positional_word(metavar)?;
        let text = String::from_str(self.alloc(), word.as_str())?;
        self.take(place);
        Ok((place, strict, text))
    }

    /// Takes the first present item in scope, where it is the word of a command: a Word, any Short,
    /// or a Long that isn't attached, whose word is this one. It takes no memory.
    ///
    /// Later items are not looked at. Otherwise false, no place is then the current one, and
    /// nothing else changes.
    pub fn take_cmd(&mut self, word: &str) -> bool
        ensures marks { KeepsMarks self.old self.new }
        ensures taken { TakesCommand word.now self.old result self.new }
    {
        match self.first_command(word) {
            Some(first) => {
                self.take(first);
                true
            }
            None => {
                self.set_current(None);
                false
            }
        }
    }

    /// The first place that is present and in scope, where its item is the word of the command.
    fn first_command(&self, word: &str) -> Option<usize>
        ensures { MatchOption result
            (HasNoCommand word.now self.now) (IsCommandAt word.now self.now) }
    {
        let (place, item) = self.next_open(0)?;
        is_command_word(item, word).then_some(place)
    }
}
