//! Equal copies of items and of trees of them.
ghost use Rattle.std.specs.Prelude.{◌≡◌, IfOk, map};
ghost use Rattle.bpaf_doc.specs.Shape.{shape_of, part_of, name_of, Any, Flag, Argument};

use crate::doc::Doc;
use crate::item::{Item, ShortLong};
use crate::meta::Meta;
use bpaf_base::Text;
use std::alloc::AllocError;

/// An equal Any of these parts; refused only for want of memory.
fn copy_any(metavar: &Doc, help: &Option<Doc>, anywhere: bool) -> Result<Item, AllocError>
    ensures { IfOk result (λ new. part_of new ≡ Any metavar.now help.now anywhere) }
{
    Ok(Item::Any {
        metavar: metavar.copy()?,
        help: Doc::copy_of(help)?,
        anywhere,
    })
}

/// An equal Flag of these parts; refused only for want of memory.
fn copy_flag(
    name: &ShortLong,
    shorts: &Vec<char>,
    env: &Option<Text>,
    help: &Option<Doc>,
) -> Result<Item, AllocError>
    ensures { IfOk result (λ new.
        part_of new ≡ Flag (name_of name.now) shorts.now.items env.now help.now) }
{
    Ok(Item::Flag {
        name: name.copy()?,
        shorts: copy_shorts(shorts)?,
        env: Text::copy_of(env)?,
        help: Doc::copy_of(help)?,
    })
}

/// An equal Argument of these parts; refused only for want of memory.
fn copy_argument(
    name: &ShortLong,
    shorts: &Vec<char>,
    metavar: &Text,
    env: &Option<Text>,
    help: &Option<Doc>,
) -> Result<Item, AllocError>
    ensures { IfOk result (λ new.
        part_of new
        ≡ Argument (name_of name.now) shorts.now.items metavar.now env.now help.now) }
{
    Ok(Item::Argument {
        name: name.copy()?,
        shorts: copy_shorts(shorts)?,
        metavar: metavar.copy()?,
        env: Text::copy_of(env)?,
        help: Doc::copy_of(help)?,
    })
}

/// Equal names; refused only for want of memory.
fn copy_shorts(shorts: &Vec<char>) -> Result<Vec<char>, AllocError>
    ensures { IfOk result (λ new. new.items ≡ shorts.now.items) }
{
    Vec::from_slice(*shorts.allocator(), shorts)
}

/// A tree that shows the same, in a box of its own; refused only for want of memory.
#[cycle(copy)]
fn copy_boxed(meta: &Box<Meta>) -> Result<Box<Meta>, AllocError>
    ensures { IfOk result (λ new. shape_of new.value ≡ shape_of meta.now.value) }
{
    let inner = meta.copy()?;
    Ok(Box::new(*Box::allocator(meta), inner)?)
}

/// Trees that show the same, in order; refused only for want of memory.
#[cycle(copy)]
fn copy_all(all: &Vec<Meta>) -> Result<Vec<Meta>, AllocError>
    ensures { IfOk result (λ new. map shape_of new.items ≡ map shape_of all.now.items) }
{
    let mut copies = Vec::new(*all.allocator());
    for member in all {
        copies.push(member.copy()?)?;
    }
    Ok(copies)
}

impl ShortLong {
    /// Equal names; refused only for want of memory.
    pub fn copy(&self) -> Result<ShortLong, AllocError>
        ensures { IfOk result (λ new. new ≡ self.now) }
    {
        match self {
            ShortLong::Short(short) => Ok(ShortLong::Short(*short)),
            ShortLong::Long(long) => Ok(ShortLong::Long(long.copy()?)),
            ShortLong::Both(short, long) => Ok(ShortLong::Both(*short, long.copy()?)),
        }
    }
}

impl Item {
    /// An item that shows the same; refused only for want of memory.
    #[cycle(copy)]
    pub fn copy(&self) -> Result<Item, AllocError>
        ensures { IfOk result (λ new. part_of new ≡ part_of self.now) }
    {
        match self {
            Item::Any {
                metavar,
                help,
                anywhere,
            } => copy_any(metavar, help, *anywhere),
            Item::Positional { metavar, help } => Ok(Item::Positional {
                metavar: metavar.copy()?,
                help: Doc::copy_of(help)?,
            }),
            Item::Command {
                name,
                short,
                help,
                meta,
            } => Ok(Item::Command {
                name: name.copy()?,
                short: *short,
                help: Doc::copy_of(help)?,
                meta: copy_boxed(meta)?,
            }),
            Item::Flag {
                name,
                shorts,
                env,
                help,
            } => copy_flag(name, shorts, env, help),
            Item::Argument {
                name,
                shorts,
                metavar,
                env,
                help,
            } => copy_argument(name, shorts, metavar, env, help),
        }
    }
}

impl Meta {
    /// A tree that shows the same; refused only for want of memory.
    #[cycle(copy)]
    pub fn copy(&self) -> Result<Meta, AllocError>
        ensures { IfOk result (λ new. shape_of new ≡ shape_of self.now) }
    {
        match self {
            Meta::And(all) => Ok(Meta::And(copy_all(all)?)),
            Meta::Or(all) => Ok(Meta::Or(copy_all(all)?)),
            Meta::Optional(inner) => Ok(Meta::Optional(copy_boxed(inner)?)),
            Meta::Required(inner) => Ok(Meta::Required(copy_boxed(inner)?)),
            Meta::Adjacent(inner) => Ok(Meta::Adjacent(copy_boxed(inner)?)),
            Meta::Many(inner) => Ok(Meta::Many(copy_boxed(inner)?)),
            Meta::Strict(inner) => Ok(Meta::Strict(copy_boxed(inner)?)),
            Meta::Subsection(inner, title) => {
                Ok(Meta::Subsection(copy_boxed(inner)?, title.copy()?))
            }
            Meta::Suffix(inner, text) => Ok(Meta::Suffix(copy_boxed(inner)?, text.copy()?)),
            Meta::CustomUsage(inner, text) => {
                Ok(Meta::CustomUsage(copy_boxed(inner)?, text.copy()?))
            }
            Meta::Item(item) => Ok(Meta::Item(item.copy()?)),
            Meta::Skip => Ok(Meta::Skip),
        }
    }
}
