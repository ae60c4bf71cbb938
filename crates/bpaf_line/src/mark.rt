//! Marks to which a parse goes back, and what it did since one, to be done again.
ghost use Rattle.std.specs.Prelude.{◌≡◌, ◌++◌, ◌<◌, ◌≤◌, ◌-◌, length, min, if◌then◌else◌, IfOk};
ghost use Rattle.bpaf_line.specs.Situation.{with_trail, with_scope, cut_to, PresentInTurn};
ghost use Rattle.bpaf_line.specs.Marks.{mark_of, HasReached, Fits, undone, KeepsMarks, steps_since};
ghost use Rattle.std.specs.Prelude.{OnOk, OnErr};
ghost use Rattle.bpaf_line.specs.{Inside.IsSurvey, Marks.CanRedo, Marks.redone};

use crate::aside::{Aside, count_within};
use crate::construct::copy_path;
use crate::state::{State, lies_within};
use crate::taken::TakenPlaces;
use bpaf_index::{bits, chains};
use std::alloc::AllocError;
use std::marker::Model;

/// How far a parse was: how many places were taken and how many conflicts and names were put down,
/// with the scope and the current place.
#[derive(Clone, Copy)]
pub struct Mark {
    pub(crate) taken: usize,
    pub(crate) conflicts: usize,
    pub(crate) depth: usize,
    pub(crate) start: usize,
    pub(crate) end: usize,
    pub(crate) current: Option<usize>,
}

/// What a parse did since a mark, in order, with the scope and the current place that it left.
///
/// Contracts see it as `Changes`.
pub struct Steps {
    pub(crate) taken: TakenPlaces,
    pub(crate) conflicts: Vec<(usize, usize)>,
    pub(crate) path: Vec<String>,
    pub(crate) start: usize,
    pub(crate) end: usize,
    pub(crate) current: Option<usize>,
}

/// One call, as of a tree of items.
impl Drop for Steps {
    fn drop(self) {
        let Steps {
            taken: _taken,
            conflicts: _conflicts,
            path: _path,
            start: _,
            end: _,
            current: _,
        } = self;
    }
}

impl Model for Steps {
    ghost use Rattle.bpaf_line.specs.Marks.{Changes};

    ghost Value = { Changes };

    ghost use Rattle.bpaf_line.specs.Inside.{changes_of};

    ghost view = { changes_of };
}

impl State {
    /// How far the parse is. It takes no memory.
    pub fn mark(&self) -> Mark
        ensures mark { result ≡ mark_of self.now }
        ensures fits { Fits result self.now }
        ensures back { undone result self.now ≡ self.now }
    {
        Mark {
            taken: self.trail.len(),
            conflicts: self.conflicts.len(),
            depth: self.path.len(),
            start: self.start,
            end: self.end,
            current: self.current,
        }
    }

    /// Goes back to a mark, also to one to which it has gone back already. It takes no memory.
    pub fn undo(&mut self, mark: Mark)
        requires { Fits mark self.old }
        ensures undone { self.new ≡ undone mark self.old }
        ensures fits { Fits mark self.new }
        ensures back { undone mark self.new ≡ self.new }
    {
        while self.trail.len() > mark.taken {
            self.untake();
        }
        self.conflicts.truncate(mark.conflicts);
        self.path.truncate(mark.depth);
        self.set_scope(mark.start..mark.end);
        self.current = mark.current;
    }

    /// What was done since a mark; refused only for want of memory.
    ///
    /// Going back to the mark and then doing these steps again leaves everything as it is.
    pub fn steps(&self, mark: &Mark) -> Result<Steps, AllocError>
        requires { HasReached mark.now self.now }
        ensures steps { IfOk result (λ steps. steps ≡ steps_since mark.now self.now) }
        ensures fit { IfOk result (λ steps. CanRedo steps (undone mark.now self.now)) }
        ensures again { IfOk result (λ steps. redone steps (undone mark.now self.now) ≡ self.now) }
    {
        let alloc = self.alloc();
        Ok(Steps {
            taken: TakenPlaces::from_slice(alloc, &self.trail[mark.taken..])?,
            conflicts: Vec::from_slice(alloc, &self.conflicts[mark.conflicts..])?,
            path: copy_path(alloc, &self.path[mark.depth..])?,
            start: self.start,
            end: self.end,
            current: self.current,
        })
    }

    /// Does steps again; refused only for want of memory, and then nothing changes.
    pub fn redo(&mut self, steps: Steps) -> Result<(), AllocError>
        requires { CanRedo steps self.old }
        ensures ok { OnOk result (self.new ≡ redone steps self.old) }
        ensures marks { KeepsMarks self.old self.new }
        ensures err { OnErr result (self.new ≡ self.old) }
    {
        let mut steps = steps;
        self.conflicts.reserve(steps.conflicts.len())?;
        self.path.append(&mut steps.path)?;
        self.conflicts.append(&mut steps.conflicts)?;
        self.put_all(steps.taken.as_slice());
        self.set_scope(steps.start..steps.end);
        self.current = steps.current;
        Ok(())
    }

    /// Takes places that are present in turn, and leaves the current one.
    fn put_all(&mut self, places: &[usize])
        requires { PresentInTurn self.old places.now }
        ensures { self.new ≡ with_trail self.old (self.old.trail ++ places.now) }
    {
        for place in places {
            self.put(*place);
        }
    }

    /// The place that was taken last is present again; the current place stays.
    fn untake(&mut self)
        requires { 0 < length self.old.trail }
        ensures { self.new ≡ cut_to self.old (length self.old.trail - 1) }
    {
        let last = self.trail.len() - 1;
        let place = self.trail[last];
        self.trail.truncate(last);
        bits::clear(&mut self.bits, place);
        let within = lies_within(place, self.start, self.end);
        self.left += usize::from(within);
        self.first = earlier(self.first, place, within);
        self.behind = earlier(self.behind, place, self.keys_end <= place);
        self.aside = self.aside.up_to(last);
        chains::reach_back(&mut self.chains, place);
    }

    /// Makes other places the scope, and keeps what is known of the one that is left.
    pub(crate) fn change_scope(&mut self, start: usize, end: usize)
        requires ordered { start ≤ end }
        requires inside { end ≤ length self.old.context.line }
        ensures { self.new ≡ with_scope self.old start end }
    {
        let (left, first) = self.survey(start, end);
        self.aside = Aside {
            start: self.start,
            end: self.end,
            left: self.left,
            first: self.first,
            taken: self.trail.len(),
        };
        self.left = left;
        self.first = first;
        self.start = start;
        self.end = end;
    }

    /// How many places are present in another scope, and which is the first; its end, where none
    /// is.
    ///
    /// Nothing is counted where that scope leaves out taken places in front alone. Of the scope
    /// that was left last the places taken since then are looked at alone.
    fn survey(&self, start: usize, end: usize) -> (usize, usize)
        requires ordered { start ≤ end }
        requires inside { end ≤ length self.now.context.line }
        ensures { IsSurvey self.now start end result.0 result.1 }
    {
        if end == self.end && self.start <= start && start <= self.first {
            return (self.left, self.first);
        }
        if self.aside.is_of(start, end) {
            let gone = count_within(&self.trail[self.aside.taken..], start, end);
            let first = bits::first_clear(&self.bits, self.aside.first, end);
            return (self.aside.left - gone, first);
        }
        let left = bits::count_clear(&self.bits, start, end);
        let first = bits::first_clear(&self.bits, start, end);
        (left, first)
    }
}

/// The first of a place that was the first and, where it is in scope, another.
fn earlier(first: usize, place: usize, within: bool) -> usize
    ensures { result ≡ (if within then min first place else first) }
{
    if within { first.min(place) } else { first }
}
