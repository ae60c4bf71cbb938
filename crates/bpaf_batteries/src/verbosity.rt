//! Levels of verbosity, as a number or as a member of a list.
ghost use Rattle.bpaf_batteries.specs.Verbosity.{counts_grammar, AreVerboseAndQuiet, PicksItem};
ghost use Rattle.bpaf_grammar.specs.Grammar.{closed, made, mapped, outcome_of};
ghost use Rattle.bpaf_batteries.specs.Verbosity.{VerbosityCounts, VerbosityPicks};
ghost use Rattle.bpaf_batteries.specs.Keys.{IsLevelOf};
ghost use Rattle.std.specs.Prelude.{◌≡◌, ◌<◌, ◌≤◌, ◌≤ℤ◌, ◌-ℤ◌, IfOk, length, pos, ℤ};

use crate::counts::verbose_and_quiet;
use crate::pair::KeyCounts;
use bpaf::{Error, Meta, Parser, State};
use std::alloc::{AllocError, Global};

/// A level of verbosity between two bounds (bpaf's `verbose_and_quiet_by_number` answers an
/// `impl Parser`).
#[derive(Drop)]
pub struct VerboseQuiet {
    /// The keys that raise and lower it, counted.
    pub counts: KeyCounts,
    /// The level without any key.
    pub offset: isize,
    /// The lowest level.
    pub min: isize,
    /// The highest level.
    pub max: isize,
    pub ghost in_order: { min ≤ℤ max },
}

/// A level that `-v`, `--verbose` raises and `-q`, `--quiet` lowers, each as often as it stands
/// there (bpaf's `verbose_and_quiet_by_number`, in `batteries.rs`): the offset plus the first count
/// minus the second, kept between the bounds. It can't overflow, where bpaf's may.
///
/// Refused only for want of memory.
///
/// ```text
/// verbose_and_quiet_by_number(alloc, 2, 0, 5)?      reads `-vv` as 4, `-qqq` as 0
/// ```
pub fn verbose_and_quiet_by_number(
    alloc: Global,
    offset: isize,
    min: isize,
    max: isize,
) -> Result<VerboseQuiet, AllocError>
    requires { min ≤ℤ max }
    ensures keys { IfOk result (λ p. AreVerboseAndQuiet p.counts) }
    ensures offset { IfOk result (λ p. p.offset ≡ offset) }
    ensures min { IfOk result (λ p. p.min ≡ min) }
    ensures max { IfOk result (λ p. p.max ≡ max) }
{
    Ok(VerboseQuiet {
        counts: verbose_and_quiet(alloc),
        offset,
        min,
        max,
    })
}

/// The offset plus the first count minus the second, within the bounds.
fn level(offset: isize, min: isize, max: isize, more: usize, fewer: usize) -> isize
    requires { min ≤ℤ max }
    ensures { IsLevelOf offset min max (more, fewer) result }
{
    let moved = offset as i128 + more as i128 - fewer as i128;
    moved.clamp(min as i128, max as i128) as isize
}

/// The level of both counts; a refusal of the keys is passed on.
impl Parser<isize> for VerboseQuiet {
    ghost can_eval = { λ p. Unit {0} };

    ghost grammar = { λ p.
        closed (mapped (IsLevelOf p.offset p.min p.max))
        (counts_grammar ⟦<() as Clone>⟧.is_clone p.counts) };

    fn eval(&self, state: &mut State) -> Result<isize, Error>
        ensures outcome { outcome_of (closed (mapped (IsLevelOf self.now.offset self.now.min
            self.now.max)) (counts_grammar ⟦<() as Clone>⟧.is_clone self.now.counts))
            state.old result state.new }
        ensures verbosity_counts { IfOk result (VerbosityCounts self.now.counts
            self.now.offset self.now.min self.now.max state.old state.new) }
    {
        match self.counts.eval(state) {
            Ok((more, fewer)) => Ok(level(self.offset, self.min, self.max, more, fewer)),
            Err(error) => Err(error),
        }
    }

    fn meta(&self, alloc: Global) -> Result<Meta, AllocError> {
        self.counts.meta(alloc)
    }
}

/// A level of verbosity as the item of an array (bpaf's `verbose_by_slice` answers an
/// `impl Parser`).
#[derive(Drop)]
pub struct VerboseSlice<T> {
    /// The keys that raise and lower it, counted.
    pub counts: KeyCounts,
    /// The place of the item without any key.
    pub offset: usize,
    /// The items, the lowest level first.
    pub items: Vec<T>,
    pub ghost some: { 1 ≤ length items.items },
}

/// The item of an array at a level that `-v`, `--verbose` raises and `-q`, `--quiet` lowers (bpaf's
/// `verbose_by_slice`, in `batteries.rs`), from the first to the last item. It can't overflow,
/// where bpaf's may.
///
/// Refused only for want of memory. bpaf wants items that are `Copy`; here the item is cloned when
/// it is given out.
///
/// ```text
/// verbose_by_slice(alloc, 1, [Level::Quiet, Level::Normal, Level::Loud])?
/// ```
pub fn verbose_by_slice<T: Drop, const N: usize>(
    alloc: Global,
    offset: usize,
    items: [T; N],
) -> Result<VerboseSlice<T>, AllocError>
    requires { 1 ≤ N }
    ensures keys { IfOk result (λ p. AreVerboseAndQuiet p.counts) }
    ensures offset { IfOk result (λ p. p.offset ≡ offset) }
    ensures items { IfOk result (λ p. p.items.items ≡ items) }
{
    let counts = verbose_and_quiet(alloc);
    Ok(VerboseSlice {
        counts,
        offset,
        items: Vec::from_array(alloc, items)?,
    })
}

/// The offset plus the first count minus the second, as a place among so many items.
fn place(offset: usize, len: usize, more: usize, fewer: usize) -> usize
    requires { 1 ≤ len }
    ensures level { IsLevelOf (pos offset) (pos 0) (pos len -ℤ pos 1) (more, fewer) (pos result) }
    ensures within { result < len }
{
    let moved = offset as i128 + more as i128 - fewer as i128;
    moved.clamp(0, len as i128 - 1) as usize
}

/// A clone of the item at the level of two counts; refused only for want of memory.
fn item_at<T: Clone + Drop>(
    items: &[T],
    offset: usize,
    more: usize,
    fewer: usize,
) -> Result<T, AllocError>
    requires { 1 ≤ length items.now }
    ensures { IfOk result (PicksItem T.is_clone offset items.now (more, fewer)) }
{
    let at = place(offset, items.len(), more, fewer);
    items[at].clone()
}

/// The item at the level of both counts; a refusal of the keys is passed on, and memory for the
/// item may be wanted.
impl<T: Clone + Drop> Parser<T> for VerboseSlice<T> {
    ghost can_eval = { λ p. Unit {0} };

    ghost grammar = { λ p. made (PicksItem T.is_clone p.offset p.items.items)
        (counts_grammar ⟦<() as Clone>⟧.is_clone p.counts) };

    fn eval(&self, state: &mut State) -> Result<T, Error>
        ensures outcome { outcome_of (made (PicksItem T.is_clone self.now.offset
            self.now.items.items) (counts_grammar ⟦<() as Clone>⟧.is_clone self.now.counts))
            state.old result state.new }
        ensures verbosity_counts { IfOk result (VerbosityPicks self.now.counts T.is_clone
            self.now.offset self.now.items.items state.old state.new) }
    {
        match self.counts.eval(state) {
            Ok((more, fewer)) => Ok(item_at(&self.items, self.offset, more, fewer)?),
            Err(error) => Err(error),
        }
    }

    fn meta(&self, alloc: Global) -> Result<Meta, AllocError> {
        self.counts.meta(alloc)
    }
}
