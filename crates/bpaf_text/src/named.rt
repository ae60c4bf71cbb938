//! Keys by their names, before it is said what they give.
ghost use Rattle.bpaf_text.specs.Named.{flag_part, first_text, key_named, nothing_named};
ghost use Rattle.std.specs.Prelude.{◌≡◌, ◌≤◌, length, Some, None, true, false, IfOk, [], ◌∷◌};
ghost use Rattle.std.specs.Option.{option_map};
ghost use Rattle.bpaf_doc.specs.Shape.{name_of, part_of, shown_name};
ghost use Rattle.bpaf_text.specs.Named.{with_short, with_long, with_env, with_help};

use crate::few::Few;
use crate::params::{ParseArgument, ParseFlag, build_argument, build_flag_parser};
use bpaf_doc::{Doc, Item, ShortLong, Text};
use std::alloc::{AllocError, Global};
use std::marker::Model;

/// The names of a key, before it is said what the key gives (bpaf's `NamedArg`, in `params.rs`).
///
/// It starts with [`short()`] or [`long()`], takes more names, and becomes a parser at last:
///
/// ```text
/// let verbose = short(alloc, 'v')?.long("verbose")?.switch();
/// let size = long(alloc, "size")?.short('s')?.argument::<u32>("NUM");
/// ```
///
/// The first short and the first long name are shown. The others are hidden aliases, which a user
/// may type all the same.
///
/// Unlike in bpaf the names are copies, so they need not live for the whole program.
#[derive(Debug)]
pub struct NamedArg {
    shorts: Few<char>,
    longs: Few<Text>,
    envs: Vec<Text>,
    pub(crate) help: Option<Doc>,
}

impl Model for NamedArg {
    ghost use Rattle.bpaf_text.specs.Named.{Named};

    ghost Value = { Named };

    ghost view = { λ named.
        record {
          names = record { shorts = named.shorts; longs = named.longs };
          envs = named.envs.items;
          help = named.help;
        } };
}

/// One call, so that a function that drops many keys isn't checked for each way to keep one.
impl Drop for NamedArg {
    fn drop(self) {
        let NamedArg {
            shorts: _shorts,
            longs: _longs,
            envs: _envs,
            help: _help,
        } = self;
    }
}

/// A key with these names and nothing else. It takes no memory.
fn build_named(alloc: Global, shorts: Few<char>, longs: Few<Text>) -> NamedArg
    ensures { result ≡ key_named (record { shorts = shorts; longs = longs }) }
{
    NamedArg {
        shorts,
        longs,
        envs: Vec::new(alloc),
        help: None,
    }
}

/// A key with one short name, such as `v` for `-v` (bpaf's `short`, in `lib.rs`); refused only
/// for want of memory.
///
/// ```text
/// short(alloc, 'v')?.switch()      true off `-v`, false off no words
/// ```
pub fn short(alloc: Global, name: char) -> Result<NamedArg, AllocError>
    ensures { IfOk result (λ named. named ≡ with_short nothing_named name) }
{
    Ok(short_key(alloc, name))
}

/// A key with one long name, such as `size` for `--size` (bpaf's `long`, in `lib.rs`); refused
/// only for want of memory.
///
/// ```text
/// long(alloc, "accept")?.req_flag(7)      7 off `--accept`
/// ```
pub fn long(alloc: Global, name: &str) -> Result<NamedArg, AllocError>
    ensures { IfOk result (λ named. named ≡ with_long nothing_named name.now) }
{
    let name = Text::new(alloc, name)?;
    Ok(build_named(alloc, Few::new(alloc), Few::one(name)))
}

/// A key with a short and a long name, as `short(alloc, letter)?.long(name)`. It takes no memory,
/// so the name has at most 23 bytes.
///
/// ```text
/// key(alloc, 'v', "verbose").switch()      true off `-v` and off `--verbose`
/// ```
pub fn key(alloc: Global, letter: char, name: &str) -> NamedArg
    requires { length name.now ≤ 23 }
    ensures { result
        ≡ key_named (record { shorts = letter ∷ []; longs = name.now ∷ [] }) }
{
    build_named(alloc, Few::one(letter), Few::one(Text::short(name)))
}

/// A key with one short name, as `short(alloc, letter)`. It takes no memory.
///
/// ```text
/// short_key(alloc, 'v').switch()      true off `-v`
/// ```
pub fn short_key(alloc: Global, letter: char) -> NamedArg
    ensures { result ≡ key_named (record { shorts = letter ∷ []; longs = [] }) }
{
    build_named(alloc, Few::one(letter), Few::new(alloc))
}

/// A key with one long name, as `long(alloc, name)`. It takes no memory, so the name has at most 23
/// bytes.
///
/// ```text
/// long_key(alloc, "verbose").switch()      true off `--verbose`
/// ```
pub fn long_key(alloc: Global, name: &str) -> NamedArg
    requires { length name.now ≤ 23 }
    ensures { result ≡ key_named (record { shorts = []; longs = name.now ∷ [] }) }
{
    build_named(alloc, Few::new(alloc), Few::one(Text::short(name)))
}

/// A key with one name in the environment and none on the line (bpaf's `env`, in `lib.rs`); refused
/// only for want of memory.
///
/// ```text
/// let home = env(alloc, "HOME")?.argument::<String>("DIR");
/// ```
pub fn env(alloc: Global, name: &str) -> Result<NamedArg, AllocError>
    ensures { IfOk result (λ named. named ≡ with_env nothing_named name.now) }
{
    build_named(alloc, Few::new(alloc), Few::new(alloc)).env(name)
}

impl NamedArg {
    /// The key with one more short name, behind those that it has; refused only for want of memory,
    /// and then the key is gone.
    ///
    /// ```text
    /// long(alloc, "verbose")?.short('v')?.short('w')?.switch()      true off `-w`
    /// ```
    // In its caller's place, so that a key is put together where it is to stand.
    #[inline(always)]
    pub fn short(self, name: char) -> Result<NamedArg, AllocError>
        ensures { IfOk result (λ named. named ≡ with_short self name) }
    {
        let NamedArg {
            shorts,
            longs,
            envs,
            help,
        } = self;
        let shorts = shorts.push(*envs.allocator(), name)?;
        Ok(NamedArg {
            shorts,
            longs,
            envs,
            help,
        })
    }

    /// The key with one more long name, behind those that it has; refused only for want of memory,
    /// and then the key is gone.
    ///
    /// ```text
    /// short(alloc, 'n')?.long("num")?.argument::<u64>("NUM")      3 off `--num=3`
    /// ```
    // In its caller's place, as `short`.
    #[inline(always)]
    pub fn long(self, name: &str) -> Result<NamedArg, AllocError>
        ensures { IfOk result (λ named. named ≡ with_long self name.now) }
    {
        let NamedArg {
            shorts,
            longs,
            envs,
            help,
        } = self;
        let alloc = *envs.allocator();
        let longs = longs.push(alloc, Text::new(alloc, name)?)?;
        Ok(NamedArg {
            shorts,
            longs,
            envs,
            help,
        })
    }

    /// The key with one more name in the environment, behind those that it has; refused only for
    /// want of memory, and then the key is gone.
    ///
    /// Where no key stands on the line, the first of these names that is set counts in its place.
    ///
    /// ```text
    /// short(alloc, 'n')?.env("NUM")?.argument::<u64>("NUM")
    /// ```
    ///
    /// Where `NUM` is `5`, that is 5 off no words, and 3 off `-n 3`.
    pub fn env(mut self, name: &str) -> Result<NamedArg, AllocError>
        ensures { IfOk result (λ named. named ≡ with_env self name.now) }
    {
        let name = Text::new(*self.envs.allocator(), name)?;
        self.envs.push(name)?;
        Ok(self)
    }

    /// The key with this help, in place of the one that it has. It takes no memory.
    ///
    /// ```text
    /// key(alloc, 'v', "verbose").help(Doc::from_text(alloc, "Print more")?).switch()
    /// ```
    ///
    /// The help page has the line `-v, --verbose  Print more` of it. What it becomes takes a text
    /// as its help, for which no document has to be made: [`ParseFlag::help`],
    /// [`ParseArgument::help`].
    pub fn help(mut self, help: Doc) -> NamedArg
        ensures { result ≡ with_help self help }
    {
        self.help = Some(help);
        self
    }

    /// All short names, in the order in which they were given.
    pub fn shorts(&self) -> &[char]
        ensures { result.now ≡ self.now.names.shorts }
    {
        self.shorts.as_slice()
    }

    /// All long names, in the order in which they were given.
    pub fn longs(&self) -> &[Text]
        ensures { result.now ≡ self.now.names.longs }
    {
        self.longs.as_slice()
    }

    /// All names in the environment, in the order in which they were given.
    pub fn envs(&self) -> &[Text]
        ensures { result.now ≡ self.now.envs }
    {
        self.envs.as_slice()
    }

    /// A flag that is true where the key stands on the line, and false where it does not.
    ///
    /// ```text
    /// short(alloc, 'v')?.long("verbose")?.switch()      true off `-v` and `--verbose`, else false
    /// ```
    pub fn switch(self) -> ParseFlag<bool>
        ensures { result ≡ record { present = true; absent = Some false; named = self } }
    {
        build_flag_parser(true, Some(false), self)
    }

    /// A flag with the value `present` where the key stands on the line, and `absent` where it does
    /// not.
    ///
    /// ```text
    /// short(alloc, 'q')?.flag(Level::Quiet, Level::Normal)
    /// ```
    pub fn flag<T>(self, present: T, absent: T) -> ParseFlag<T>
        ensures { result ≡ record { present = present; absent = Some absent; named = self } }
    {
        build_flag_parser(present, Some(absent), self)
    }

    /// A flag that must stand on the line, and then has the value `present`.
    ///
    /// ```text
    /// long(alloc, "accept")?.req_flag(7)      7 off `--accept`; off no words it is refused
    /// ```
    pub fn req_flag<T>(self, present: T) -> ParseFlag<T>
        ensures { result ≡ record { present = present; absent = None; named = self } }
    {
        build_flag_parser(present, None, self)
    }

    /// A key with a value of the type `T`, for which `metavar` stands where the key is shown.
    ///
    /// ```text
    /// long(alloc, "size")?.argument::<u32>("NUM")
    /// ```
    pub fn argument<T>(self, metavar: &'static str) -> ParseArgument<T>
        ensures { result ≡ record {
          named = self;
          metavar = metavar.now;
          adjacent = false;
          last = false;
        } }
    {
        build_argument(self, metavar)
    }

    /// What the key shows as a flag (bpaf's `flag_item`, in `params.rs`): `None` where it has no
    /// name; refused only for want of memory.
    pub fn flag_item(&self, alloc: Global) -> Result<Option<Item>, AllocError>
        ensures { IfOk result (λ item. option_map part_of item ≡ flag_part self.now) }
    {
        self.flag_item_with(alloc, Doc::copy_of(&self.help)?)
    }

    /// The same with another help.
    pub(crate) fn flag_item_with(
        &self,
        alloc: Global,
        help: Option<Doc>,
    ) -> Result<Option<Item>, AllocError>
        ensures { IfOk result (λ item.
            option_map part_of item ≡ flag_part (record self.now { help = help })) }
    {
        match self.shown_name(alloc)? {
            Some(name) => Ok(Some(Item::Flag {
                name,
                shorts: Vec::from_slice(alloc, self.shorts())?,
                env: self.first_env()?,
                help,
            })),
            None => Ok(None),
        }
    }

    /// The first short and the first long name, where there are such (bpaf's
    /// `ShortLong::try_from`); refused only for want of memory.
    pub(crate) fn shown_name(&self, alloc: Global) -> Result<Option<ShortLong>, AllocError>
        ensures { IfOk result (λ name. option_map name_of name ≡ shown_name self.now.names) }
    {
        match (self.shorts().first(), self.longs().first()) {
            (None, None) => Ok(None),
            (Some(short), None) => Ok(Some(ShortLong::Short(*short))),
            (None, Some(long)) => Ok(Some(ShortLong::Long(Text::new(alloc, long.as_str())?))),
            (Some(short), Some(long)) => Ok(Some(ShortLong::Both(
                *short,
                Text::new(alloc, long.as_str())?,
            ))),
        }
    }

    /// An equal key; refused only for want of memory.
    pub fn copy(&self) -> Result<NamedArg, AllocError>
        ensures { IfOk result (λ named. named ≡ self.now) }
    {
        Ok(NamedArg {
            shorts: self.shorts.copy()?,
            longs: self.longs.copy()?,
            envs: copy_texts(*self.envs.allocator(), &self.envs)?,
            help: Doc::copy_of(&self.help)?,
        })
    }

    /// The first name in the environment, where there is one; refused only for want of memory.
    pub(crate) fn first_env(&self) -> Result<Option<Text>, AllocError>
        ensures { IfOk result (λ name. name ≡ first_text self.now.envs) }
    {
        match self.envs.first() {
            Some(name) => Ok(Some(name.copy()?)),
            None => Ok(None),
        }
    }
}

/// Equal texts; refused only for want of memory.
pub fn copy_texts(alloc: Global, texts: &[Text]) -> Result<Vec<Text>, AllocError>
    ensures { IfOk result (λ copies. copies.items ≡ texts.now) }
{
    let mut copies = Vec::new(alloc);
    for text in texts {
        copies.push(text.copy()?)?;
    }
    Ok(copies)
}
