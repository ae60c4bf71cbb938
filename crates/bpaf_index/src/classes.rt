//! The classes of a line's names, by which its places are chained.
ghost use Rattle.std.specs.Prelude.{◌≡◌, [], IfOk, false, length};
ghost use Rattle.bpaf_base.specs.declared.arg.Arg.TheVariants.{Short, Long};
ghost use Rattle.bpaf_index.specs.Chained.{class_of, AreGiven, IsNoted};

use bpaf_base::{Arg, Text};
use std::alloc::{AllocError, Global};
use std::collections::BTreeMap;
use std::marker::Model;

/// So many classes hold one short name each, which are those of ASCII.
pub(crate) const OWN_CLASSES: usize = 128;

/// Which class each name of a line has: a short name of ASCII has one of its own, and so has each
/// name that is kept here.
pub(crate) struct NameClasses {
    shorts: BTreeMap<char, usize>,
    longs: BTreeMap<String, usize>,
}

/// One call, as of the chains.
impl Drop for NameClasses {
    fn drop(self) {
        let NameClasses {
            shorts: _shorts,
            longs: _longs,
        } = self;
    }
}

impl Model for NameClasses {
    ghost use Rattle.bpaf_index.specs.Chained.{Naming};

    ghost Value = { Naming };

    ghost view = { λ n. record { shorts = n.shorts.entries; longs = n.longs.entries } };
}

impl NameClasses {
    /// The classes of the names of items, and those of these items, which are fewer than one for
    /// each short name of ASCII and one for each item; refused only for want of memory.
    pub(crate) fn of_items(
        alloc: Global,
        items: &[Arg],
    ) -> Result<(NameClasses, Vec<usize>), AllocError>
        ensures { IfOk result (λ r. AreGiven r.0 items.now (length items.now) r.1.items) }
    {
        let mut names = NameClasses {
            shorts: BTreeMap::new(alloc),
            longs: BTreeMap::new(alloc),
        };
        let mut classes = Vec::with_capacity(alloc, items.len())?;
        for (place, item) in items.iter().enumerate() {
            classes.push(names.note(alloc, item, OWN_CLASSES + place)?)?;
        }
        Ok((names, classes))
    }

    /// The class of an item; the next one, where it has none yet, which its name then has. Refused
    /// only for want of memory.
    fn note(&mut self, alloc: Global, item: &Arg, next: usize) -> Result<usize, AllocError>
        ensures { IfOk result (IsNoted self.old self.new item.now next) }
    {
        if let Some(class) = self.class_of(item) {
            return Ok(class);
        }
        match item {
            Arg::Short(c, _, _) => self.shorts.insert(*c, next)?,
            Arg::Long(name, _, _) => self
                .longs
                .insert(String::from_str(alloc, name.as_str())?, next)?,
            Arg::ArgWord(_) | Arg::Word(_) | Arg::PosWord(_) => None,
        };
        Ok(next)
    }

    /// The class of an item, where it has one.
    #[inline(always)]
    fn class_of(&self, item: &Arg) -> Option<usize>
        ensures { result ≡ class_of self.now item.now }
    {
        match item {
            Arg::Short(c, _, _) => self.class_of_short(*c),
            Arg::Long(name, _, _) => self.class_of_long(name),
            Arg::ArgWord(_) => Some(1),
            Arg::Word(_) | Arg::PosWord(_) => Some(0),
        }
    }

    /// The class of a short name, where it has one.
    pub(crate) fn class_of_short(&self, name: char) -> Option<usize>
        ensures { result ≡ class_of self.now (Short name false []) }
    {
        if (name as usize) < OWN_CLASSES {
            return Some(name as usize);
        }
        self.shorts.get(&name).copied()
    }

    /// The class of a long name, where it has one.
    pub(crate) fn class_of_long(&self, name: &Text) -> Option<usize>
        ensures { result ≡ class_of self.now (Long name.now false []) }
    {
        self.longs.get(name.as_str()).copied()
    }
}
