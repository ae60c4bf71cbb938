//! The places of a line, chained by the names of their items.
ghost use Rattle.std.specs.Prelude.{ℕ, ◌≡◌, ◌*◌, ◌+◌, ◌<◌, ◌≤◌, IfOk, IfSome, [], Some, length};
ghost use Rattle.std.specs.Prelude.{slice_get, slice_index, ◌-◌, false, true};
ghost use Rattle.bpaf_base.specs.declared.arg.Arg.TheVariants.{Short, Long, Word};
ghost use Rattle.bpaf_index.specs.Chained.{class_of, IsNextOf, IsChainStart, HasWalked};
ghost use Rattle.bpaf_index.specs.Chained.{AreBehind, IsChainStartOf, ReachBack, IfChained};
ghost use Rattle.std.specs.Option.{option_map_or};
ghost use Rattle.bpaf_base.specs.{declared.arg.Arg.Arg, Items.is_key};
ghost use Rattle.bpaf_index.specs.{Bits.has_bit, Chained.HasNoKeyFrom};

use crate::bits;
use crate::classes::{NameClasses, OWN_CLASSES};
use bpaf_base::{Arg, Text, is_key};
use std::alloc::{AllocError, Global};
use std::marker::Model;

/// A line with no more places up to its last key has no chains: to look at all of them costs less.
const SHORT_LINE: usize = 32;

/// The places of a line up to its last key, each linked to the next one of its class, and for each
/// class the place at which its chain begins. Items of the same name are of one class, and each
/// name of the line has a class of its own; so have words.
///
/// Contracts see the classes, the beginnings and the names (`Chained`).
pub struct Chains {
    links: Box<Links>,
    heads: Vec<usize>,
}

/// The classes of names and of places, and each place's next one: what no walk changes.
struct Links {
    names: NameClasses,
    classes: Vec<usize>,
    next: Vec<usize>,
}

/// One call, as of the chains.
impl Drop for Links {
    fn drop(self) {
        let Links {
            names: _names,
            classes: _classes,
            next: _next,
        } = self;
    }
}

/// One call, so that a function that drops a state isn't checked for each part of it.
impl Drop for Chains {
    fn drop(self) {
        let Chains {
            links: _links,
            heads: _heads,
        } = self;
    }
}

impl Model for Chains {
    ghost use Rattle.bpaf_index.specs.Chained.{Chained};

    ghost Value = { Chained };

    ghost use Rattle.bpaf_index.specs.InsideChains.{chained_of, IsLinked};

    ghost view = { chained_of };

    ghost invariant = { λ s.
        IsLinked s.links.value.classes.items s.links.value.next.items s.heads.items };
}

impl Chains {
    /// The chains of the first places of a line, behind which it has no key, where these aren't
    /// few.
    ///
    /// Refused only for want of memory.
    pub fn of_line(alloc: Global, items: &[Arg], keys: usize) -> Result<Option<Chains>, AllocError>
        requires within { keys ≤ length items.now }
        requires keyless { HasNoKeyFrom items.now keys }
        ensures { IfOk result (λ found. IfSome found (AreBehind items.now (λ p. false))) }
    {
        if keys <= SHORT_LINE {
            return Ok(None);
        }
        Ok(Some(Chains::of_long_line(alloc, items, keys)?))
    }

    /// The chains of such places, also of few; refused only for want of memory.
    fn of_long_line(alloc: Global, items: &[Arg], keys: usize) -> Result<Chains, AllocError>
        requires within { keys ≤ length items.now }
        requires keyless { HasNoKeyFrom items.now keys }
        ensures { IfOk result (AreBehind items.now (λ p. false)) }
    {
        let (names, classes) = NameClasses::of_items(alloc, &items[..keys])?;
        let mut next = vec![in alloc; keys; keys]?;
        let mut heads = vec![in alloc; keys; OWN_CLASSES + keys]?;
        link(&classes, &mut next, &mut heads);
        let links = Links {
            names,
            classes,
            next,
        };
        Ok(Chains {
            links: Box::new(alloc, links)?,
            heads,
        })
    }

    /// The place at which to begin to look for a short name.
    pub fn first_short(&self, name: char) -> usize
        ensures { IsChainStart self.now (Short name false []) result }
    {
        self.first_of(self.links.names.class_of_short(name))
    }

    /// The place at which to begin to look for a long name.
    pub fn first_long(&self, name: &Text) -> usize
        ensures { IsChainStart self.now (Long name.now false []) result }
    {
        self.first_of(self.links.names.class_of_long(name))
    }

    /// The place at which to begin to look for a word.
    pub fn first_word(&self) -> usize
        ensures { IsChainStart self.now (Word []) result }
    {
        self.first_of(Some(0))
    }

    /// The place at which the chain of a class begins; the number of places, where there is none.
    fn first_of(&self, class: Option<usize>) -> usize
        ensures { IsChainStartOf self.now class result }
    {
        match class {
            Some(class) if class < self.heads.len() => self.heads[class],
            _ => self.len(),
        }
    }

    /// The next place of a place's class.
    pub fn after(&self, place: usize) -> usize
        requires { place < length self.now.classes }
        ensures { IsNextOf self.now.classes (slice_index self.now.classes place) (place + 1)
            result }
    {
        self.links.next[place]
    }

    /// How many places there are.
    pub fn len(&self) -> usize
        ensures { result ≡ length self.now.classes }
    {
        self.links.classes.len()
    }

    /// The first place from one on along its chain whose bit is not set.
    fn first_clear(&self, words: &[u64], from: usize) -> usize
        requires { length self.now.classes ≤ 64 * length words.now }
        ensures { HasWalked self.now.classes (has_bit words.now) from result }
    {
        let mut place = from;
        while place < self.len() && bits::is_set(words, place) {
            place = self.after(place);
        }
        place
    }

    /// Lets the chain of a place's class begin later, past places whose bits are set. At a place
    /// behind the last key nothing changes.
    fn pass(&mut self, items: &[Arg], words: &[u64], place: usize)
        requires worded { length self.old.classes ≤ 64 * length words.now }
        requires behind { AreBehind items.now (has_bit words.now) self.old }
        ensures { AreBehind items.now (has_bit words.now) self.new }
    {
        if place < self.len() {
            let class = self.links.classes[place];
            let head = self.heads[class];
            let first = self.first_clear(words, head);
            self.heads[class] = first;
        }
    }

    /// Lets the chain of a place's class begin no later than there. At a place behind the last key
    /// nothing changes.
    fn reach_back(&mut self, place: usize)
        ensures { ReachBack place self.old self.new }
    {
        if place >= self.len() {
            return;
        }
        let class = self.links.classes[place];
        let head = self.heads[class].min(place);
        self.heads[class] = head;
    }
}

/// Lets the chain of a place's class begin later, past places whose bits are set.
pub fn pass(chains: &mut Option<Chains>, items: &[Arg], words: &[u64], place: usize)
    requires worded { IfSome chains.old (λ c. length c.classes ≤ 64 * length words.now) }
    requires behind { IfSome chains.old (AreBehind items.now (has_bit words.now)) }
    ensures { IfSome chains.new (AreBehind items.now (has_bit words.now)) }
{
    if let Some(chains) = chains {
        chains.pass(items, words, place);
    }
}

/// Lets the chain of a place's class begin no later than there.
pub fn reach_back(chains: &mut Option<Chains>, place: usize)
    ensures { IfChained (ReachBack place) chains.old chains.new }
{
    if let Some(chains) = chains {
        chains.reach_back(place);
    }
}

/// How many places there are up to a line's last key and with it; none, where it has no key. It
/// stays a call, so that its loop keeps no count of its caller's.
#[inline(never)]
#[tactic(auto, using(crate::proofs::Chained::keyless_more))]
pub fn count_to_last_key(items: &[Arg]) -> usize
    ensures within { result ≤ length items.now }
    ensures keyless { HasNoKeyFrom items.now result }
    ensures last { 0 < result
        → option_map_or is_key (slice_get items.now (result - 1)) false ≡ true }
{
    let mut count = items.len();
    while count > 0 && !is_key(&items[count - 1]) {
        count -= 1;
    }
    count
}

/// Links each place to the next one of its class, and each class to its first place.
fn link(classes: &[usize], next: &mut [usize], heads: &mut [usize])
    requires whole { length next.old ≡ length classes.now }
    requires numbered { (p : ℕ) → p < length classes.now
        → slice_index classes.now p < length heads.old }
    requires empty { (k : ℕ) → k < length heads.old
        → slice_index heads.old k ≡ length classes.now }
    ensures linked { (p : ℕ) → p < length classes.now → IsNextOf classes.now
        (slice_index classes.now p) (p + 1) (slice_index next.new p) }
    ensures first { (k : ℕ) → k < length heads.old
        → IsNextOf classes.now k 0 (slice_index heads.new k) }
{
    let mut place = classes.len();
    while place > 0 {
        place -= 1;
        let class = classes[place];
        next[place] = heads[class];
        heads[class] = place;
    }
}
