//! The collections that are filled from a list of values.
ghost use Rattle.std.specs.Prelude.{List, IfOk, ◌≡◌, []};
ghost use Rattle.bpaf_text.specs.Meaning.{inserted};

use std::alloc::AllocError;
use std::collections::{BTreeSet, VecDeque};

/// What a list of values fills, front to back. bpaf has `FromIterator` in its place.
///
/// A type of your own says by `fills` what it holds then, and says it again of its `from_list`:
///
/// ```text
/// impl FromList<u64> for Sum {
///     ghost fills = { λ items sum. sum.0 ≡ sum_of items };
///
///     fn from_list(items: Vec<u64>) -> Result<Sum, AllocError>
///         ensures { IfOk result (λ sum. sum.0 ≡ sum_of items.items) }
///     { .. }
/// }
/// ```
pub trait FromList<T>: Sized {
    /// What a collection may be that is filled from these values.
    ghost fills: { List T → Self → Type 0 };

    /// Fills a collection; refused only for want of memory, which drops the values.
    fn from_list(items: Vec<T>) -> Result<Self, AllocError>
        ensures { IfOk result (λ filled. fills items.items filled) };
}

/// The list itself.
impl<T: Drop> FromList<T> for Vec<T> {
    ghost fills = { λ items list. list.items ≡ items };

    fn from_list(items: Vec<T>) -> Result<Vec<T>, AllocError>
        ensures { IfOk result (λ list. list.items ≡ items.items) }
    {
        Ok(items)
    }
}

/// The values in order, the first in front.
impl<T: Drop> FromList<T> for VecDeque<T> {
    ghost fills = { λ items queue. queue.items ≡ items };

    fn from_list(items: Vec<T>) -> Result<VecDeque<T>, AllocError>
        ensures { IfOk result (λ queue. queue.items ≡ items.items) }
    {
        Ok(VecDeque::from(items))
    }
}

/// The values inserted one after another: of two equal ones the first stays.
impl<T: Ord + Drop> FromList<T> for BTreeSet<T> {
    ghost fills = { λ items set. set.keys ≡ inserted T.cmp [] items };

    #[tactic(auto, using(crate::proofs::Inserting::inserted_more))]
    fn from_list(items: Vec<T>) -> Result<BTreeSet<T>, AllocError>
        ensures { IfOk result (λ set. set.keys ≡ inserted T.cmp [] items.items) }
    {
        let mut set = BTreeSet::new(*items.allocator());
        for item in items {
            set.insert(item)?;
        }
        Ok(set)
    }
}
