//! A list that has mostly one member.
ghost use Rattle.std.specs.Prelude.{◌≡◌, [], ◌∷◌, ◌++◌, IfOk};
ghost use Rattle.std.specs.Mem.{FitsInMemory};

use crate::named::copy_texts;
use bpaf_doc::Text;
use std::alloc::{AllocError, Global};
use std::marker::Model;
use std::{fmt, slice};

/// A list that contracts see as its members; one of at most one member takes no memory.
pub(crate) struct Few<T> {
    kept: Kept<T>,
}

/// What the members of a list are kept in.
#[derive(Drop)]
enum Kept<T> {
    One(T),
    Many(Vec<T>),
}

impl<T> Model for Few<T> {
    ghost use Rattle.std.specs.Prelude.{List};

    ghost Value = { List T };

    ghost use Rattle.bpaf_text.specs.Meaning.{members_of};

    ghost view = { λ few. members_of few.kept };
}

/// One call, so that a function that drops a list isn't checked for each way to keep one.
impl<T: Drop> Drop for Few<T> {
    fn drop(self) {
        let Few { kept } = self;
        drop(kept);
    }
}

impl<T> Few<T> {
    /// A list of no members.
    pub(crate) fn new(alloc: Global) -> Few<T>
        ensures { result ≡ [] }
    {
        Few {
            kept: Kept::Many(Vec::new(alloc)),
        }
    }

    /// A list of one member.
    pub(crate) fn one(member: T) -> Few<T>
        ensures { result ≡ member ∷ [] }
    {
        Few {
            kept: Kept::One(member),
        }
    }

    /// The members, in the order in which they were given.
    pub(crate) fn as_slice(&self) -> &[T]
        requires { FitsInMemory T.row }
        ensures { result.now ≡ self.now }
    {
        match &self.kept {
            Kept::One(member) => slice::from_ref(member),
            Kept::Many(members) => members.as_slice(),
        }
    }
}

impl<T: Drop> Few<T> {
    /// The list with one more member, behind those that it has; refused only for want of memory.
    ///
    /// It stands in its callers, where it is mostly known that the list has no member yet.
    #[inline(always)]
    pub(crate) fn push(self, alloc: Global, member: T) -> Result<Few<T>, AllocError>
        ensures { IfOk result (λ few. few ≡ self ++ member ∷ []) }
    {
        let Few { kept } = self;
        let kept = match kept {
            Kept::Many(members) if members.is_empty() => Kept::One(member),
            Kept::Many(mut members) => {
                members.push(member)?;
                Kept::Many(members)
            }
            Kept::One(first) => {
                let mut members = Vec::with_capacity(alloc, 2)?;
                members.push(first)?;
                members.push(member)?;
                Kept::Many(members)
            }
        };
        Ok(Few { kept })
    }
}

impl Few<char> {
    /// An equal list; refused only for want of memory.
    pub(crate) fn copy(&self) -> Result<Few<char>, AllocError>
        ensures { IfOk result (λ few. few ≡ self.now) }
    {
        let kept = match &self.kept {
            Kept::One(member) => Kept::One(*member),
            Kept::Many(members) => Kept::Many(members.clone()?),
        };
        Ok(Few { kept })
    }
}

impl Few<Text> {
    /// An equal list; refused only for want of memory.
    pub(crate) fn copy(&self) -> Result<Few<Text>, AllocError>
        ensures { IfOk result (λ few. few ≡ self.now) }
    {
        let kept = match &self.kept {
            Kept::One(member) => Kept::One(member.copy()?),
            Kept::Many(members) => Kept::Many(copy_texts(*members.allocator(), members)?),
        };
        Ok(Few { kept })
    }
}

impl<T: fmt::Debug> fmt::Debug for Few<T> {
    fn fmt<W: fmt::Write>(&self, f: &mut fmt::Formatter<W>) -> fmt::Result {
        match &self.kept {
            Kept::One(member) => f.debug_list().entry(member).finish(),
            Kept::Many(members) => fmt::Debug::fmt(members, f),
        }
    }
}
