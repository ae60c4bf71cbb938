//! Stretches of present places.
ghost use Rattle.std.specs.Prelude.{◌≡◌, ◌≤◌, length, MatchOption};
ghost use Rattle.bpaf_line.specs.Situation.{IsStretchFrom, HasNoneInBoth, IsFirstInBoth};

use crate::state::State;
use bpaf_index::bits;
use std::ops::Range;

impl State {
    /// The unbroken stretch of places from one on that are present and in scope; it is empty where
    /// that place isn't. It takes no memory.
    pub fn adjacently_available_from(&self, place: usize) -> Range<usize>
        ensures start { result.start ≡ place }
        ensures stretch { IsStretchFrom self.now place result.end }
        ensures inside { place ≤ length self.now.context.line
            → result.end ≤ length self.now.context.line }
    {
        let end = self.stretch_end(place);
        place..end
    }

    /// Where the unbroken stretch of places from one on that are present and in scope ends.
    ///
    /// A word of 64 places is one step.
    fn stretch_end(&self, place: usize) -> usize
        ensures { IsStretchFrom self.now place result }
    {
        if !self.is_open(place) {
            return place;
        }
        bits::first_set(&self.bits, place, self.end)
    }

    /// The places from the scope's start to the first one in scope that is present here and in the
    /// other state; None where there is no such place. It takes no memory.
    pub fn adjacent_scope(&self, other: &State) -> Option<Range<usize>>
        ensures { MatchOption result (HasNoneInBoth self.now other.now) (λ r.
            (r.start ≡ self.now.start) × IsFirstInBoth self.now other.now r.end) }
    {
        let mut from = 0;
        while let Some((place, _)) = self.next_open(from) {
            if !other.is_taken(place) {
                return Some(self.start..place);
            }
            from = place + 1;
        }
        None
    }
}
