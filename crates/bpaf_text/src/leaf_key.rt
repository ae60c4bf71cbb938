//! The key of a flag or an argument.
ghost use Rattle.std.specs.Prelude.{◌≡◌, IfOk, List, false};
ghost use Rattle.std.specs.Option.{option_map};
ghost use Rattle.bpaf_doc.specs.{declared.doc.Piece.Piece, Shape.part_of};
ghost use Rattle.bpaf_text.specs.Named.{flag_part, argument_part, with_help};

use crate::named::NamedArg;
use bpaf_doc::{Doc, Help, Item, Metavar, Text};
use std::alloc::{AllocError, Global};
use std::marker::Model;

/// The key of a flag or an argument: its names, and a help, which may be a text of the program's
/// own. Contracts see it as they see a [`NamedArg`].
#[derive(Debug)]
pub struct LeafKey {
    named: NamedArg,
    help: Option<Help>,
}

impl Model for LeafKey {
    ghost use Rattle.bpaf_text.specs.Named.{Named, helped};

    ghost Value = { Named };

    ghost view = { λ key. helped key.named key.help };
}

/// One call, so that a function that drops many keys isn't checked for each way to keep one.
impl Drop for LeafKey {
    fn drop(self) {
        let LeafKey {
            named: _named,
            help: _help,
        } = self;
    }
}

impl From<NamedArg> for LeafKey {
    ghost use Rattle.std.specs.Prelude.{◌≡◌};

    ghost from_gives = { λ named key. key ≡ named };

    fn from(named: NamedArg) -> LeafKey {
        LeafKey { named, help: None }
    }
}

impl LeafKey {
    /// The key with this help, in place of the one that it has. It takes no memory.
    pub fn help<H: Into<Help>>(mut self, help: H) -> LeafKey
        ensures { (pieces : List Piece) × H.converts help pieces
            × (result ≡ with_help self pieces) }
    {
        self.help = Some(help.into());
        self
    }

    /// The key with its names, whatever its help is.
    pub fn key(&self) -> &NamedArg
        ensures { result.now.names ≡ self.now.names }
    {
        &self.named
    }

    /// All short names, in the order in which they were given.
    pub fn shorts(&self) -> &[char]
        ensures { result.now ≡ self.now.names.shorts }
    {
        self.named.shorts()
    }

    /// All long names, in the order in which they were given.
    pub fn longs(&self) -> &[Text]
        ensures { result.now ≡ self.now.names.longs }
    {
        self.named.longs()
    }

    /// All names in the environment, in the order in which they were given.
    pub fn envs(&self) -> &[Text]
        ensures { result.now ≡ self.now.envs }
    {
        self.named.envs()
    }

    /// The help that is shown beside the key, where one is set; refused only for want of memory.
    fn shown(&self, alloc: Global) -> Result<Option<Doc>, AllocError>
        ensures { IfOk result (λ help. help ≡ self.now.help) }
    {
        match &self.help {
            Some(help) => Ok(Some(help.doc(alloc)?)),
            None => Doc::copy_of(&self.named.help),
        }
    }

    /// What the key shows as a flag (bpaf's `flag_item`, in `params.rs`): `None` where it has no
    /// name; refused only for want of memory.
    pub fn flag_item(&self, alloc: Global) -> Result<Option<Item>, AllocError>
        ensures { IfOk result (λ item. option_map part_of item ≡ flag_part self.now) }
    {
        self.named.flag_item_with(alloc, self.shown(alloc)?)
    }

    /// What the key shows as an argument with this metavar (bpaf's `ParseArgument::item`, in
    /// `params.rs`): `None` where it has no name; refused only for want of memory.
    pub fn argument_item(&self, alloc: Global, metavar: Metavar) -> Result<Option<Item>, AllocError>
        ensures { IfOk result (λ item.
            option_map part_of item ≡ argument_part (record {
              named = self.now;
              metavar = metavar.0.now;
              adjacent = false;
              last = false;
            })) }
    {
        match self.named.shown_name(alloc)? {
            Some(name) => Ok(Some(Item::Argument {
                name,
                shorts: Vec::from_slice(alloc, self.shorts())?,
                metavar: Text::new(alloc, metavar.0)?,
                env: self.named.first_env()?,
                help: self.shown(alloc)?,
            })),
            None => Ok(None),
        }
    }

    /// An equal key; refused only for want of memory.
    pub fn copy(&self) -> Result<LeafKey, AllocError>
        ensures { IfOk result (λ key. key ≡ self.now) }
    {
        Ok(LeafKey {
            named: self.named.copy()?,
            help: Help::copy_of(&self.help)?,
        })
    }
}
