//! The error of an adjacent group that gives no value.
ghost use Rattle.std.specs.Prelude.{◌≡◌, true, false, None, Some, Ok, Err, OnOk, OnErr};
ghost use Rattle.std.specs.Prelude.{MatchResult};
ghost use Rattle.bpaf_doc.specs.Shape.{part_of};
ghost use Rattle.bpaf_line.specs.{Marks.Fits, Marks.undone, Messages.is_memory};
ghost use Rattle.bpaf_laws.specs.Laws.{Keeps};
ghost use Rattle.bpaf.specs.Remembering.{IsEnd, IsMissingFirst, IsRemembered, TriesFrom};

use super::attempts::count_present;
use bpaf_doc::Item;
use bpaf_line::{Error, Mark, State, Steps};

/// An attempt that failed: its error, and the steps that led there.
#[derive(Drop)]
pub(super) struct Failed {
    error: Error,
    steps: Steps,
}

/// The failure so far that took most places, and how many items of the group's scope it left
/// present.
#[derive(Drop)]
pub(super) struct Remembered {
    left: usize,
    failed: Option<Failed>,
}

impl Remembered {
    /// No failure yet.
    pub(super) fn nothing(state: &State) -> Remembered
        ensures sound { IsRemembered state.now result }
        ensures none { result.failed ≡ None }
    {
        Remembered {
            left: state.len(),
            failed: None,
        }
    }

    /// Remembers this failure.
    fn replace(&mut self, failed: Failed, left: usize)
        ensures { self.new ≡ record self.old { left = left; failed = Some failed } }
    {
        let before = self.failed.replace(failed);
        drop(before);
        self.left = left;
    }

    /// Remembers a failure, where it took more places since the mark, at which the scope was this
    /// one. Want of memory is refused.
    pub(super) fn keep(
        &mut self,
        state: &mut State,
        mark: &Mark,
        start: usize,
        end: usize,
        error: Error,
    ) -> Result<(), Error>
        requires sound { IsRemembered (undone mark.now state.old) self.old }
        requires fits { Fits mark.now state.old }
        requires keeps { Keeps (undone mark.now state.old) state.old }
        requires start { start ≡ (undone mark.now state.old).start }
        requires end { end ≡ (undone mark.now state.old).end }
        ensures ok { OnOk result (TriesFrom (undone mark.now state.old) self.old error state.old
            self.new) }
        ensures told { MatchResult result (λ _. is_memory error.0 ≡ false)
            (λ refused. is_memory refused.0 ≡ true) }
        ensures err { OnErr result (self.new ≡ self.old) }
        ensures same { state.new ≡ state.old }
    {
        if error.is_memory() {
            return Err(error);
        }
        let left = count_present(state, start, end);
        if self.left <= left {
            drop(error);
            return Ok(());
        }
        match state.steps(mark) {
            Ok(steps) => {
                self.replace(Failed { error, steps }, left);
                Ok(())
            }
            Err(refused) => {
                drop(error);
                Err(Error::from(refused))
            }
        }
    }

    /// The failure, and where it led; without one that the first item is missing.
    pub(super) fn end(self, state: &mut State, first: &Item) -> Error
        requires { IsRemembered state.old self }
        ensures { IsEnd state.old (part_of first.now) self result state.new }
    {
        match self.failed {
            None => missing(state, first),
            Some(Failed { error, steps }) => match state.redo(steps) {
                Ok(()) => error,
                Err(refused) => Error::from(refused),
            },
        }
    }
}

/// That the first item of a group is missing; also the refusal where memory for that is wanted.
fn missing(state: &State, first: &Item) -> Error
    ensures { IsMissingFirst state.now (part_of first.now) result }
{
    match first.copy() {
        Ok(item) => match state.missing(Some(item)) {
            Ok(error) => error,
            Err(refused) => Error::from(refused),
        },
        Err(refused) => Error::from(refused),
    }
}
