//! Which of two branches wins, and the conflict notes of the other's places.
ghost use Rattle.std.specs.Prelude.{ℕ, ◌≡◌, ◌&&◌, ◌++◌, List, not, OnOk, OnErr, None, Some};
ghost use Rattle.std.specs.Prelude.{if◌then◌else◌};
ghost use Rattle.bpaf_line.specs.Situation.{is_on, is_taken, conflict_at, last_of};
ghost use Rattle.bpaf_line.specs.Marks.{HasReached, CanRedo, KeepsMarks, undone, redone};
ghost use Rattle.bpaf_line.specs.Taking.{IsWinner, ConflictsSaved, first_conflict, leftmost_of};

use crate::mark::{Mark, Steps};
use crate::state::State;
use bpaf_index::bits;
use std::alloc::AllocError;
use std::mem;

impl State {
    /// The leftmost place that is taken in only one of two situations, and whether it is taken in
    /// this one; `(true, None)` where there is no such place. The other one is that to which the
    /// steps lead from the mark. It takes no memory, and the state is as before; it looks at the
    /// places taken since the mark alone.
    pub fn pick_winner(&mut self, mark: &Mark, other: &Steps) -> (bool, Option<usize>)
        requires reached { HasReached mark.now self.old }
        requires steps { CanRedo other.now (undone mark.now self.old) }
        ensures winner { IsWinner self.old (redone other.now (undone mark.now self.old)) result }
        ensures same { self.new ≡ self.old }
    {
        let own = &self.trail[mark.taken..];
        let (here, there) = bits::least_apart(&mut self.bits, own, other.taken.as_slice());
        leftmost(here, there)
    }

    /// Gives each place that is present here and that the other steps took a conflict note, which
    /// names the place handed in: whatever mark these steps lead on from. Refused only for want of
    /// memory, and then nothing changes.
    pub fn save_conflicts(&mut self, loser: &Steps, winner: usize) -> Result<(), AllocError>
        ensures ok { OnOk result ((mark : Mark) → ConflictsSaved self.old
            (redone loser.now (undone mark self.old)) winner self.new) }
        ensures marks { KeepsMarks self.old self.new }
        ensures err { OnErr result (self.new ≡ self.old) }
    {
        let alloc = self.alloc();
        let mut conflicts = mem::replace(&mut self.conflicts, Vec::new(alloc));
        let saved = self.exclude(loser.taken.as_slice(), winner, &mut conflicts);
        self.conflicts = conflicts;
        saved
    }

    /// Appends those of some places that are present, each with the place handed in; refused only
    /// for want of memory, and then nothing is appended.
    fn exclude(
        &self,
        taken: &[usize],
        winner: usize,
        conflicts: &mut Vec<(usize, usize)>,
    ) -> Result<(), AllocError>
        ensures ok { OnOk result ((pairs : List (ℕ × ℕ))
            × (conflicts.new.items ≡ conflicts.old.items ++ pairs)
            × ((p : ℕ) → last_of pairs p
            ≡ (if not (is_taken self.now p) && is_on taken.now p then Some winner else None))) }
        ensures err { OnErr result (conflicts.new.items ≡ conflicts.old.items) }
    {
        let before = conflicts.len();
        for place in taken {
            if self.is_taken(*place) {
                continue;
            }
            if let Err(refused) = conflicts.push((*place, winner)) {
                conflicts.truncate(before);
                return Err(refused.into());
            }
        }
        Ok(())
    }

    /// What the conflict note of a place names, where it has one; a taken place has none. It takes
    /// no memory.
    pub fn conflict_at(&self, place: usize) -> Option<usize>
        ensures { result ≡ conflict_at self.now place }
    {
        if self.is_taken(place) {
            return None;
        }
        last_of(self.conflicts.as_slice(), place)
    }

    /// The first present place in scope, and what its conflict note names; None where it has none,
    /// or no place is present. It takes no memory.
    pub fn conflict(&self) -> Option<(usize, usize)>
        ensures { result ≡ first_conflict self.now }
    {
        let (place, _) = self.next_open(0)?;
        Some((place, self.conflict_at(place)?))
    }
}

/// The place that stands before the other, and whether it is the first of the two.
fn leftmost(here: Option<usize>, there: Option<usize>) -> (bool, Option<usize>)
    ensures { result ≡ leftmost_of here there }
{
    let Some(other) = there else {
        return (true, here);
    };
    match here {
        None => (false, there),
        Some(own) => {
            if own < other {
                (true, here)
            } else {
                (false, there)
            }
        }
    }
}

/// What the last pair of a place names.
fn last_of(conflicts: &[(usize, usize)], place: usize) -> Option<usize>
    ensures { result ≡ last_of conflicts.now place }
{
    conflicts
        .iter()
        .rev()
        .find(|pair| pair.0 == place)
        .map(|pair| pair.1)
}
