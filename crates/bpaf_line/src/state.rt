//! A parse in progress, and what its calls read and set.
ghost use Rattle.std.specs.Prelude.{◌≡◌, ◌+◌, ◌++◌, ◌&&◌, ◌<◌, ◌≤◌, ◌^◌, ◌==◌, [], ◌∷◌};
ghost use Rattle.std.specs.Prelude.{if◌then◌else◌, not, nat_lt, nat_le, length, slice_get, true};
ghost use Rattle.std.specs.Prelude.{false, MatchOption, option_copied, option_map, option_and_then};
ghost use Rattle.std.specs.Prelude.{Some, None, IfOk, OnOk, OnErr, IfSome, string_bytes, map, List};
ghost use Rattle.bpaf_line.specs.Taking.{IsMissingIn, open_items, open_items_from, items_left};
ghost use Rattle.bpaf_line.specs.Situation.{item_at, open_count, is_taken, is_open, take_place};
ghost use Rattle.bpaf_line.specs.Situation.{with_trail, with_scope, with_path, with_current};
ghost use Rattle.std.specs.Prelude.{ℕ, ◌*◌, ◌≢◌};
ghost use Rattle.bpaf_line.specs.Taking.{HasNone, IsFirst, value_after, open_item, entry_of};
ghost use Rattle.bpaf_line.specs.{Situation.HasNoneOpen, Situation.IsNextOpen, Marks.KeepsMarks};
ghost use Rattle.bpaf_index.specs.Bits.{has_bit, IsFirstClear};
ghost use Rattle.bpaf_doc.specs.Shape.{part_of};
ghost use Rattle.bpaf_base.specs.{Items.is_positional, Items.word_text, declared.arg.Arg.Arg};

use crate::aside::Aside;
use crate::error::{Error, Message};
use crate::iter::ArgsIter;
use crate::missing::{MissingItem, MissingItems};
use bpaf_doc::{Item, Text};
use bpaf_index::bits;
use bpaf_index::chains::{self, Chains};
use bpaf_words::{Arg, is_positional, value_text};
use std::alloc::{AllocError, Global};
use std::marker::Model;
use std::ops::Range;
use std::rc::RcSlice;

/// A parse in progress (bpaf's `State`): the items and the environment, which of the items are
/// taken, the scope in which parsers look, the path of names, and the current place.
///
/// It keeps its allocator, so its calls take none. Contracts see it as a `Situation`.
#[derive(Drop)]
pub struct State {
    pub(crate) items: Vec<Arg>,
    pub(crate) marker: Option<usize>,
    pub(crate) env: Option<RcSlice<(Text, Text)>>,
    pub(crate) keys_end: usize,
    pub(crate) behind: usize,
    pub(crate) chains: Option<Chains>,
    pub(crate) bits: Vec<u64>,
    pub(crate) trail: Vec<usize>,
    pub(crate) conflicts: Vec<(usize, usize)>,
    pub(crate) start: usize,
    pub(crate) end: usize,
    pub(crate) left: usize,
    pub(crate) first: usize,
    pub(crate) aside: Aside,
    pub(crate) path: Vec<String>,
    pub(crate) name: Option<Text>,
    pub(crate) current: Option<usize>,
}

impl Model for State {
    ghost use Rattle.bpaf_line.specs.Situation.{Situation};

    ghost Value = { Situation };

    ghost use Rattle.bpaf_line.specs.Inside.{situation_of, IsSound};

    ghost view = { situation_of };

    ghost invariant = { IsSound };
}

impl State {
    /// The allocator that it keeps.
    pub fn alloc(&self) -> Global {
        *self.path.allocator()
    }

    /// How many items are present in scope. It takes no memory.
    pub fn len(&self) -> usize
        ensures { result ≡ open_count self.now }
    {
        self.left
    }

    /// Whether no item is present in scope. It takes no memory.
    pub fn is_empty(&self) -> bool
        ensures { result ≡ (open_count self.now == 0) }
    {
        self.left == 0
    }

    /// The places among which parsers look.
    pub fn scope(&self) -> Range<usize>
        ensures start { result.start ≡ self.now.start }
        ensures stop { result.end ≡ self.now.end }
        ensures ordered { result.start ≤ result.end }
        ensures inside { result.end ≤ length self.now.context.line }
    {
        self.start..self.end
    }

    /// Makes other places the scope, perhaps none of them.
    ///
    /// What is present there is counted anew, but where they are the scope without taken places in
    /// front, or the scope that was left last: of that the places taken since are looked at alone.
    pub fn set_scope(&mut self, scope: Range<usize>)
        requires ordered { scope.start ≤ scope.end }
        requires inside { scope.end ≤ length self.old.context.line }
        ensures scope { self.new ≡ with_scope self.old scope.start scope.end }
        ensures marks { KeepsMarks self.old self.new }
    {
        if self.start != scope.start || self.end != scope.end {
            self.change_scope(scope.start, scope.end);
        }
    }

    /// How many entries the path has.
    pub fn depth(&self) -> usize
        ensures { result ≡ length self.now.path }
    {
        self.path.len()
    }

    /// The set name, where there is one.
    pub fn name(&self) -> Option<&str>
        ensures { option_copied result ≡ self.now.context.name }
    {
        Some(self.name.as_ref()?.as_str())
    }

    /// The set name, where there is one, and then the names that were put on the path.
    pub fn path(&self) -> &[String]
        ensures path { map string_bytes result.now ≡ self.now.path }
        ensures named { IfSome self.now.context.name (λ name.
            slice_get self.now.path 0 ≡ Some name) }
    {
        self.path.as_slice()
    }

    /// Puts a name at the end of the path; refused only for want of memory, and then nothing
    /// changes.
    pub fn push_path(&mut self, entry: &str) -> Result<(), AllocError>
        ensures ok { OnOk result (self.new ≡ with_path self.old entry.now) }
        ensures err { OnErr result (self.new ≡ self.old) }
        ensures marks { KeepsMarks self.old self.new }
    {
        let entry = String::from_str(self.alloc(), entry)?;
        self.path.push(entry)?;
        Ok(())
    }

    /// The place that a message of a failed value names: that taken last, where one is.
    pub fn current(&self) -> Option<usize>
        ensures { result ≡ self.now.current }
    {
        self.current
    }

    /// Makes another place the current one, or none.
    pub fn set_current(&mut self, current: Option<usize>)
        ensures current { self.new ≡ with_current self.old current }
        ensures marks { KeepsMarks self.old self.new }
    {
        self.current = current;
    }

    /// The item at a place, where it is present and in scope.
    pub fn get(&self, place: usize) -> Option<&Arg>
        ensures { option_copied result ≡ open_item self.now place }
    {
        if !self.is_open(place) {
            return None;
        }
        Some(&self.items[place])
    }

    /// Whether the item at a place is present, in scope or not; None past the line.
    pub fn present(&self, place: usize) -> Option<bool>
        ensures { result ≡ (if nat_lt place (length self.now.context.line)
            then Some (not (is_taken self.now place)) else None) }
    {
        if place >= self.line_len() {
            return None;
        }
        Some(!self.is_taken(place))
    }

    /// Takes a place that is present and in scope; at another place nothing changes. It takes no
    /// memory.
    pub fn remove(&mut self, place: usize)
        ensures taken { self.new
            ≡ (if is_open self.old place then take_place self.old place else self.old) }
        ensures marks { KeepsMarks self.old self.new }
    {
        if self.is_open(place) {
            self.take(place);
        }
    }

    /// The present items in scope, in order, with their places. It takes no memory.
    pub fn items_iter(&self) -> ArgsIter<'_>
        ensures { items_left result ≡ open_items self.now }
    {
        ArgsIter {
            state: self,
            place: 0,
        }
    }

    /// The first place from one on that is present and in scope.
    ///
    /// Taken places at the scope's start aren't looked at, nor words of 64 whose places are all
    /// taken.
    fn next_place(&self, from: usize) -> Option<usize>
        ensures { MatchOption result (HasNoneOpen self.now from) (IsNextOpen self.now from) }
    {
        if from <= self.first {
            return (self.first < self.end).then_some(self.first);
        }
        if from >= self.end {
            return None;
        }
        let place = bits::first_clear(&self.bits, from, self.end);
        (place < self.end).then_some(place)
    }

    /// The first present item in scope from a place on, with its place. It takes no memory.
    #[tactic(auto, using(crate::proofs::Places::items_none))]
    pub fn next_open(&self, from: usize) -> Option<(usize, &Arg)>
        ensures next { MatchOption result (HasNoneOpen self.now from) (λ r.
            IsNextOpen self.now from r.0 × (open_item self.now r.0 ≡ Some r.1.now)) }
        ensures items { MatchOption result (open_items_from self.now from ≡ []) (λ r.
            open_items_from self.now from ≡ (r.0, r.1.now) ∷ open_items_from self.now (r.0 + 1)) }
        ensures fits { IfSome result (λ r. r.0 + 1 < 2 ^ 64) }
    {
        let place = self.next_place(from)?;
        Some((place, &self.items[place]))
    }

    /// What the environment has under a name: the value of its first entry of that name.
    pub fn env(&self, name: &str) -> Option<&str>
        ensures { option_copied result ≡ entry_of self.now.context.env name.now }
    {
        let env = self.env.as_ref()?;
        value_of(env.as_slice(), name)
    }

    /// That an item was looked for in vain in the scope; of a key that shows no name, nothing.
    ///
    /// Refused only for want of memory.
    pub fn missing(&self, item: Option<Item>) -> Result<Error, AllocError>
        ensures { IfOk result (λ error. (items : List MissingItem)
            × (error.0 ≡ Message.Missing items)
            × IsMissingIn self.now (option_map part_of item) items) }
    {
        let Some(item) = item else {
            return Ok(Error(Message::Missing(MissingItems::none(self.alloc()))));
        };
        let missed = MissingItem {
            item,
            position: self.start,
            scope: self.start..self.end,
        };
        Ok(Error(Message::Missing(MissingItems::one(self.alloc(), missed)?)))
    }

    /// How many places the line has.
    pub(crate) fn line_len(&self) -> usize
        ensures { result ≡ length self.now.context.line }
    {
        self.items.len()
    }

    /// Whether a place is taken; past the line every place counts as taken.
    pub(crate) fn is_taken(&self, place: usize) -> bool
        ensures { result ≡ is_taken self.now place }
    {
        place >= self.items.len() || bits::is_set(&self.bits, place)
    }

    /// Whether a place is present, and in scope.
    pub(crate) fn is_open(&self, place: usize) -> bool
        ensures { result ≡ is_open self.now place }
    {
        self.start <= place && place < self.end && !bits::is_set(&self.bits, place)
    }

    /// The first present Word or PosWord in scope: its place, whether it is a PosWord, its text.
    ///
    /// On a long line the words up to the last key are looked at alone, and then what stands behind
    /// that.
    pub(crate) fn first_word(&self) -> Option<(usize, bool, &Text)>
        ensures { MatchOption result (HasNone is_positional self.now) (λ r.
            IsFirst is_positional self.now r.0
            × (option_and_then word_text (item_at self.now r.0) ≡ Some (r.1, r.2.now))) }
    {
        let mut next = self.no_word_before();
        while let Some((place, item)) = self.next_open(next) {
            match item {
                Arg::PosWord(text) => return Some((place, true, text)),
                Arg::Word(text) => return Some((place, false, text)),
                Arg::Short(..) | Arg::Long(..) | Arg::ArgWord(_) => next = place + 1,
            }
        }
        None
    }

    /// Takes a place that is present and in scope, which is then the current one. It takes no
    /// memory. bpaf has no such call.
    pub fn take(&mut self, place: usize)
        requires { is_open self.old place ≡ true }
        ensures taken { self.new ≡ take_place self.old place }
        ensures marks { KeepsMarks self.old self.new }
    {
        self.put(place);
        self.current = Some(place);
    }

    /// Takes a present place, and leaves the current one. The trail has room for it.
    pub(crate) fn put(&mut self, place: usize)
        requires { is_taken self.old place ≡ false }
        ensures { self.new ≡ with_trail self.old (self.old.trail ++ place ∷ []) }
    {
        bits::set(&mut self.bits, place);
        let _ = self.trail.push(place);
        self.left -= usize::from(lies_within(place, self.start, self.end));
        let passes = self.first != place && self.keys_end <= place;
        self.behind = pass_taken(&self.bits, self.behind, self.items.len(), passes);
        self.first = first_without(&self.bits, self.first, self.end, place);
        chains::pass(&mut self.chains, &self.items, &self.bits, place);
    }

    /// The text of the place after a key, where that is present, in scope, and a Word or an
    /// ArgWord.
    pub(crate) fn value_after(&self, key: usize) -> Option<&Text>
        requires { is_open self.now key ≡ true }
        ensures text { option_copied result ≡ value_after self.now key }
        ensures fits { key + 1 < 2 ^ 64 }
    {
        // A place of the scope lies in the line, so the next one has a number.
        let _line = &self.items;
        value_text(self.get(key + 1)?)
    }
}

/// The value of the first entry of that name.
fn value_of<'a>(entries: &'a [(Text, Text)], name: &str) -> Option<&'a str>
    ensures { option_copied result ≡ entry_of entries.now name.now }
{
    for (key, value) in entries {
        if key.as_str() == name {
            return Some(value.as_str());
        }
    }
    None
}

/// The first place from one on, below the end, whose bit is not set, where that one was the first
/// until the bit of a place was set. Mostly it is the next one.
fn first_without(words: &[u64], first: usize, end: usize, place: usize) -> usize
    requires ordered { first ≤ end }
    requires inside { end ≤ 64 * length words.now }
    requires set { first ≡ place → has_bit words.now first ≡ true }
    requires clear { first < end → first ≢ place → has_bit words.now first ≡ false }
    ensures { IsFirstClear words.now first end result }
{
    if first != place {
        return first;
    }
    if end - first > 1 && !bits::is_set(words, first + 1) {
        return first + 1;
    }
    bits::first_clear(words, first, end)
}

/// The first place from one on, below the end, whose bit is not set, where it is wanted; else that
/// one.
fn pass_taken(words: &[u64], from: usize, end: usize, wanted: bool) -> usize
    requires ordered { from ≤ end }
    requires inside { end ≤ 64 * length words.now }
    ensures within { result ≤ end }
    ensures set { (q : ℕ) → from ≤ q → q < result → has_bit words.now q ≡ true }
{
    if wanted {
        bits::first_clear(words, from, end)
    } else {
        from
    }
}

/// Whether a place is one from the start on, below the end.
pub(crate) fn lies_within(place: usize, start: usize, end: usize) -> bool
    ensures { result ≡ (nat_le start place && nat_lt place end) }
{
    start <= place && place < end
}
