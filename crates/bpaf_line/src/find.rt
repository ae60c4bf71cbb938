//! The first key with one of some names, and the first word, found along the chains of those.
ghost use Rattle.bpaf_line.specs.Taking.{HasNoneBefore, IsFirstAmong, IsFirstAlong, is_match};
ghost use Rattle.std.specs.Prelude.{◌≡◌, ◌<◌, ◌≤◌, Bool, IfSome, MatchOption, length, true};
ghost use Rattle.bpaf_line.specs.Inside.{AreChainsOf, is_sought, sought_names};
ghost use Rattle.bpaf_line.specs.{Taking.HasNone, Taking.IsFirst, Situation.AreTaken};
ghost use Rattle.bpaf_base.specs.{Items.is_argument_key, Items.is_positional, declared.arg.Arg.Arg};

use crate::state::State;
use bpaf_doc::Text;
use bpaf_index::chains::Chains;
use bpaf_words::{Arg, is_argument_key, is_positional};

/// A scope with no more places from the first present one on, up to the line's last key, is
/// narrow: to look at all of them costs less than a walk along chains that begin in front of it.
const NARROW_SCOPE: usize = 8;

/// A key that is looked for: one with one of these names, under `adjacent` an attached one.
#[derive(Clone, Copy)]
struct Sought<'a> {
    shorts: &'a [char],
    longs: &'a [Text],
    adjacent: bool,
}

/// A test of items.
trait ItemTest {
    /// The items that pass.
    ghost accepts: { Self → Arg → Bool };

    /// Whether an item passes. It takes no memory.
    fn test(&self, item: &Arg) -> bool
        ensures { result ≡ accepts self.now item.now };
}

impl ItemTest for Sought<'_> {
    ghost accepts = { is_sought };

    fn test(&self, item: &Arg) -> bool {
        is_argument_key(item, self.shorts, self.longs, self.adjacent)
    }
}

/// The test for a word.
#[derive(Drop)]
struct Positional {}

impl ItemTest for Positional {
    ghost accepts = { λ _. is_positional };

    fn test(&self, item: &Arg) -> bool {
        is_positional(item)
    }
}

impl State {
    /// A place before which no word is present and in scope. Up to the line's last key it is the
    /// first one's; where none stands there, what was taken behind that key is passed.
    pub(crate) fn no_word_before(&self) -> usize
        ensures { HasNoneBefore is_positional self.now result }
    {
        if self.keys_end <= self.first {
            return self.first;
        }
        self.look_for_word()
    }

    /// The same where a key may stand from the first present place on. It is apart so that a word
    /// behind the last key costs no call.
    #[inline(never)]
    fn look_for_word(&self) -> usize
        ensures { HasNoneBefore is_positional self.now result }
    {
        let word = Positional {};
        let Some(chains) = self.chains_of_scope() else {
            let end = self.end.min(self.keys_end);
            return self.past_taken(self.first_in_turn(end, &word));
        };
        let place = self.first_along(chains, chains.first_word(), chains.len(), &word);
        self.past_taken(place)
    }

    /// A place, or one behind it, where all between them are taken, as is known behind the line's
    /// last key.
    fn past_taken(&self, place: usize) -> usize
        ensures { AreTaken self.now place result }
    {
        if place < self.keys_end {
            return place;
        }
        place.max(self.behind)
    }

    /// The first key that is present, in scope, and has one of the names; under `adjacent` the
    /// first attached one. It takes no memory.
    ///
    /// On a long line the first present place of the scope is looked at, and then only the places
    /// chained with one of the names; in a narrow scope each of its places. Places behind the
    /// line's last key aren't looked at.
    pub(crate) fn first_key(&self, shorts: &[char], longs: &[Text], adjacent: bool) -> Option<usize>
        ensures { MatchOption result
            (HasNone (is_argument_key (record { shorts = shorts.now; longs = longs.now }) adjacent)
            self.now)
            (IsFirst (is_argument_key (record { shorts = shorts.now; longs = longs.now }) adjacent)
            self.now) }
    {
        let key = Sought {
            shorts,
            longs,
            adjacent,
        };
        let Some(chains) = self.chains_of_scope() else {
            let end = self.end.min(self.keys_end);
            let place = self.first_in_turn(end, &key);
            return (place < end).then_some(place);
        };
        if self.passes_at(self.first, &key) {
            return Some(self.first);
        }
        let end = self.end.min(chains.len());
        let place = self.first_chained(chains, end, &key);
        (place < end).then_some(place)
    }

    /// The chains of the line, where it has some and the scope isn't narrow.
    fn chains_of_scope(&self) -> Option<&Chains>
        ensures { IfSome result (λ chains. AreChainsOf self.now chains.now) }
    {
        if self.end.min(self.keys_end).saturating_sub(self.first) <= NARROW_SCOPE {
            return None;
        }
        self.chains.as_ref()
    }

    /// The first such item below a place, looked for at each place from the first present one on;
    /// that place or one behind it, where there is none.
    fn first_in_turn<T: ItemTest>(&self, end: usize, test: &T) -> usize
        ensures none { HasNoneBefore (T.accepts test.now) self.now result }
        ensures found { result < end → is_match (T.accepts test.now) self.now result ≡ true }
    {
        let mut place = self.first;
        while place < end {
            if self.passes_at(place, test) {
                return place;
            }
            place += 1;
        }
        place
    }

    /// The first such key below a place, looked for along the chain of each name; that place, where
    /// there is none.
    fn first_chained(&self, chains: &Chains, end: usize, key: &Sought<'_>) -> usize
        requires chains { AreChainsOf self.now chains.now }
        requires inside { end ≤ length chains.now.classes }
        ensures { IsFirstAmong (is_sought key.now) (sought_names key.now) self.now end result }
    {
        let mut place = end;
        for short in key.shorts {
            place = self.first_along(chains, chains.first_short(*short), place, key);
        }
        for long in key.longs {
            place = self.first_along(chains, chains.first_long(long), place, key);
        }
        place
    }

    /// The first such item below a place, along the chain from another on; that place, where there
    /// is none.
    fn first_along<T: ItemTest>(&self, chains: &Chains, start: usize, end: usize, test: &T) -> usize
        requires chains { AreChainsOf self.now chains.now }
        requires inside { end ≤ length chains.now.classes }
        ensures { IsFirstAlong (T.accepts test.now) self.now chains.now.classes start end result }
    {
        let mut place = start;
        while place < end {
            if self.passes_at(place, test) {
                return place;
            }
            place = chains.after(place);
        }
        end
    }

    /// Whether an item that passes the test is present and in scope at a place.
    fn passes_at<T: ItemTest>(&self, place: usize, test: &T) -> bool
        ensures { result ≡ is_match (T.accepts test.now) self.now place }
    {
        match self.get(place) {
            Some(item) => test.test(item),
            None => false,
        }
    }
}
