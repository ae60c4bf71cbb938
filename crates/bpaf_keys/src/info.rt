//! What a run knows beside its parser.
ghost use Rattle.std.specs.Prelude.{◌≡◌, ◌==◌, ◌&&◌, ◌++◌, ◌∷◌, [], IfOk, OnOk, map, string_bytes};
ghost use Rattle.std.specs.Prelude.{unwrap_or};
ghost use Rattle.bpaf_doc.specs.Print.{Prints};
ghost use Rattle.bpaf_doc.specs.Shape.{And, members, shape_of, parts};
ghost use Rattle.bpaf_text.specs.Named.{Named};
ghost use Rattle.bpaf_pages.specs.{Help.help_text, InsideHelp.given_by};
ghost use Rattle.bpaf_keys.specs.Info.{ExtraOutcome, IsNotAsked, LooksForVersion, extra_shape};
ghost use Rattle.bpaf_keys.specs.Info.{key_shape, help_key, page_texts, plain_info, short_descr};
ghost use Rattle.bpaf_keys.specs.Info.{usual_key, version_key, known_names};
ghost use Rattle.bpaf_laws.specs.Laws.{shorts_among, ShowsVersion, version_text};
ghost use Rattle.bpaf_line.specs.Situation.{open_count};

use crate::environment::is_present;
use bpaf_doc::{Doc, Meta, Style, Text};
use bpaf_line::{Error, Message, ParseFailure, State};
use bpaf_pages::{HelpTexts, render_help};
use bpaf_text::{NamedArg, short};
use std::alloc::{AllocError, Global};
use std::marker::Model;

/// What a run knows beside its parser (bpaf's `Info`, in `info.rs`): the keys that ask for help and
/// for the version, and the texts of the help page. Both keys are known flags in joined words, also
/// where no version is set.
///
/// It is a parser too, of what a run may be asked for beside its value.
pub struct Info {
    /// The version; where none is set its key isn't looked for.
    pub version: Option<Doc>,
    /// What the parser is for, before the usage.
    pub descr: Option<Doc>,
    /// The text behind the usage.
    pub header: Option<Doc>,
    /// The text at the end of the page.
    pub footer: Option<Doc>,
    /// The whole usage paragraph, in place of the one that is made.
    pub usage: Option<Doc>,
    /// The key that asks for help; where none is set, `-h` and `--help`.
    pub help_arg: Option<NamedArg>,
    /// The key that asks for the version; where none is set, `-V` and `--version`.
    pub version_arg: Option<NamedArg>,
    /// Whether the help page is shown where the line is empty and the parser refuses it.
    pub help_if_no_args: bool,
    /// How many columns a page may have. It is kept, and not used.
    pub max_width: usize,
    /// Whether a negative number is a word: one of `-` and digits alone.
    pub numbers: bool,
}

/// One call, so that a function that drops options isn't checked for each way to keep these.
impl Drop for Info {
    fn drop(self) {
        let Info {
            version: _version,
            descr: _descr,
            header: _header,
            footer: _footer,
            usage: _usage,
            help_arg: _help_arg,
            version_arg: _version_arg,
            help_if_no_args: _,
            max_width: _,
            numbers: _,
        } = self;
    }
}

impl Model for Info {
    ghost use Rattle.std.specs.Prelude.{unwrap_or};
    ghost use Rattle.bpaf_keys.specs.Info.{RunInfo, help_key, version_key};

    ghost Value = { RunInfo };

    ghost view = { λ info.
        record {
          version = info.version;
          descr = info.descr;
          header = info.header;
          footer = info.footer;
          usage = info.usage;
          help_arg = unwrap_or info.help_arg help_key;
          version_arg = unwrap_or info.version_arg version_key;
          help_if_no_args = info.help_if_no_args;
          max_width = info.max_width;
          numbers = info.numbers;
        } };
}

/// What a run was asked for beside its value (bpaf's `ExtraParams`, in `info.rs`).
#[derive(Debug, Drop)]
pub enum ExtraParams {
    /// Help, and whether it was asked for more than once, which shows all of it.
    Help(bool),
    /// The version, with its text.
    Version(Doc),
}

impl ExtraParams {
    /// An equal one; refused only for want of memory.
    pub fn copy(&self) -> Result<ExtraParams, AllocError>
        ensures { IfOk result (λ params. params ≡ self.now) }
    {
        match self {
            ExtraParams::Help(full) => Ok(ExtraParams::Help(*full)),
            ExtraParams::Version(version) => Ok(ExtraParams::Version(version.copy()?)),
        }
    }
}

/// An equal key; refused only for want of memory.
fn copy_of(key: &Option<NamedArg>) -> Result<Option<NamedArg>, AllocError>
    ensures { IfOk result (λ copied. copied ≡ key.now) }
{
    match key {
        Some(key) => Ok(Some(key.copy()?)),
        None => Ok(None),
    }
}

/// Appends the short names of a key, or the usual one where none is set; refused for want of
/// memory.
fn push_shorts(key: &Option<NamedArg>, usual: char, names: &mut Vec<char>) -> Result<(), AllocError>
    ensures { OnOk result ((name : _) (help : _) → names.new.items ≡ names.old.items
        ++ (unwrap_or key.now (usual_key usual name help)).names.shorts) }
{
    match key {
        Some(key) => names.extend_from_slice(key.shorts()),
        None => Ok(names.push(usual)?),
    }
}

/// A key of one short and one long name, with a help of one line; refused only for want of memory.
fn usual_key(alloc: Global, name: char, long_name: &str, help: &str) -> Result<NamedArg, AllocError>
    ensures { IfOk result (λ key. key ≡ usual_key name long_name.now help.now) }
{
    let help = Doc::from_pieces(alloc, &[(help, Style::Text)])?;
    Ok(short(alloc, name)?.long(long_name)?.help(help))
}

/// What a key shows that must be there; refused only for want of memory.
fn key_meta(alloc: Global, key: NamedArg) -> Result<Meta, AllocError>
    ensures { IfOk result (λ meta. shape_of meta ≡ key_shape key) }
{
    match key.flag_item(alloc)? {
        Some(item) => Ok(Meta::Item(item)),
        None => Ok(Meta::Skip),
    }
}

/// What two keys show; refused only for want of memory.
fn both_metas(alloc: Global, first: Meta, second: Meta) -> Result<Meta, AllocError>
    ensures { IfOk result (λ meta.
        shape_of meta ≡ And (members (shape_of first ∷ shape_of second ∷ []))) }
{
    Ok(Meta::And(vec![in alloc; first, second]?))
}

/// The text of a version, as a run shows it; or want of memory for that.
pub fn version_page(alloc: Global, version: &Doc) -> ParseFailure
    ensures { ShowsVersion version.now result }
{
    match version_doc(alloc, version) {
        Ok(doc) => ParseFailure::Stdout(doc, false),
        Err(_) => ParseFailure::Memory,
    }
}

/// That text; refused only for want of memory.
fn version_doc(alloc: Global, version: &Doc) -> Result<Doc, AllocError>
    ensures { IfOk result (Prints (version_text version.now)) }
{
    let mut doc = Doc::new(alloc);
    doc.literal("Version: ")?;
    doc.doc(version)?;
    doc.literal("\n")?;
    Ok(doc)
}

impl Info {
    /// The keys `-h`, `--help` and `-V`, `--version`, no version, no texts, 100 columns, and no
    /// number that is a word (bpaf's `Info::default`). It takes no memory.
    pub fn new() -> Info
        ensures { result ≡ plain_info }
    {
        Info {
            version: None,
            descr: None,
            header: None,
            footer: None,
            usage: None,
            help_arg: None,
            version_arg: None,
            help_if_no_args: false,
            max_width: 100,
            numbers: false,
        }
    }

    /// An equal one; refused only for want of memory.
    pub fn copy(&self) -> Result<Info, AllocError>
        ensures { IfOk result (λ info. info ≡ self.now) }
    {
        Ok(Info {
            version: Doc::copy_of(&self.version)?,
            descr: Doc::copy_of(&self.descr)?,
            header: Doc::copy_of(&self.header)?,
            footer: Doc::copy_of(&self.footer)?,
            usage: Doc::copy_of(&self.usage)?,
            help_arg: copy_of(&self.help_arg)?,
            version_arg: copy_of(&self.version_arg)?,
            help_if_no_args: self.help_if_no_args,
            max_width: self.max_width,
            numbers: self.numbers,
        })
    }

    /// The first line of the description, where there is one; refused only for want of memory.
    pub fn short_descr(&self) -> Result<Option<Doc>, AllocError>
        ensures { IfOk result (λ line. line ≡ short_descr self.now) }
    {
        match &self.descr {
            Some(descr) => descr.first_line(),
            None => Ok(None),
        }
    }

    /// Whether help is shown in place of a message: the program wants it so, and there is nothing
    /// to read. It takes no memory.
    pub fn wants_usage(&self, state: &State) -> bool
        ensures { result ≡ (self.now.help_if_no_args && (open_count state.now == 0)) }
    {
        self.help_if_no_args && state.is_empty()
    }

    /// The short names by which joined words are read, of what a parser shows: those of its flags,
    /// of help and of version as flags, and those of its arguments; refused only for want of
    /// memory.
    pub fn known_shorts(
        &self,
        alloc: Global,
        meta: &Meta,
    ) -> Result<(Vec<char>, Vec<char>), AllocError>
        ensures { IfOk result (λ r. let names = (known_names self.now (shorts_among
            (parts (shape_of meta.now)))).names in (r.0.items ≡ names.flags)
            × (r.1.items ≡ names.arguments)) }
    {
        let mut flags = Vec::new(alloc);
        let mut arguments = Vec::new(alloc);
        meta.collect_shorts(&mut flags, &mut arguments)?;
        self.push_shorts(&mut flags)?;
        Ok((flags, arguments))
    }

    /// Appends the short names of both keys, that for help first; refused for want of memory.
    pub fn push_shorts(&self, names: &mut Vec<char>) -> Result<(), AllocError>
        ensures { OnOk result (names.new.items ≡ names.old.items
            ++ self.now.help_arg.names.shorts ++ self.now.version_arg.names.shorts) }
    {
        push_shorts(&self.help_arg, 'h', names)?;
        push_shorts(&self.version_arg, 'V', names)
    }

    /// The help page of what a parser shows, at a path; refused only for want of memory.
    pub fn page(&self, alloc: Global, path: &[String], meta: &Meta) -> Result<Doc, AllocError>
        ensures { IfOk result (Prints (help_text (map string_bytes path.now)
            (page_texts self.now) (shape_of meta.now) (extra_shape self.now))) }
    {
        let extra = self.keys_meta(alloc)?;
        render_help(alloc, path, self.texts(), meta, &extra)
    }

    /// The texts around the help page. It takes no memory.
    fn texts(&self) -> HelpTexts<'_>
        ensures { given_by result ≡ page_texts self.now }
    {
        HelpTexts {
            usage: self.usage.as_ref(),
            descr: self.descr.as_ref(),
            header: self.header.as_ref(),
            footer: self.footer.as_ref(),
        }
    }

    /// The key that asks for help; refused only for want of memory.
    fn help_key(&self, alloc: Global) -> Result<NamedArg, AllocError>
        ensures { IfOk result (λ key. key ≡ self.now.help_arg) }
    {
        match &self.help_arg {
            Some(key) => key.copy(),
            None => usual_key(alloc, 'h', "help", "Prints help information"),
        }
    }

    /// The key that asks for the version; refused only for want of memory.
    fn version_key(&self, alloc: Global) -> Result<NamedArg, AllocError>
        ensures { IfOk result (λ key. key ≡ self.now.version_arg) }
    {
        match &self.version_arg {
            Some(key) => key.copy(),
            None => usual_key(alloc, 'V', "version", "Prints version information"),
        }
    }

    /// The version, where one is set and its key is present, which is then taken; refused only for
    /// want of memory.
    fn version(&self, state: &mut State) -> Result<Option<Doc>, Error>
        ensures { LooksForVersion self.now state.old result state.new }
    {
        let Some(version) = &self.version else {
            return Ok(None);
        };
        let key = self.version_key(state.alloc())?;
        if is_present(&key, state) {
            return Ok(Some(version.copy()?));
        }
        Ok(None)
    }

    /// What the run is asked for beside its value: help, where its key is present, which is then
    /// taken, and once more where it is present again; else the version, where one is set and its
    /// key is present (bpaf's `Info`, in `info.rs`).
    ///
    /// Refused with ParseFail, where the scope has neither; and for want of memory.
    pub fn look(&self, state: &mut State) -> Result<ExtraParams, Error>
        ensures { ExtraOutcome self.now state.old result state.new }
    {
        let help = self.help_key(state.alloc())?;
        if is_present(&help, state) {
            return Ok(ExtraParams::Help(is_present(&help, state)));
        }
        match self.version(state)? {
            Some(version) => Ok(ExtraParams::Version(version)),
            None => Err(not_asked(state.alloc())),
        }
    }

    /// What is shown of its keys: that of help, and where a version is set that of the version too;
    /// refused only for want of memory.
    pub fn keys_meta(&self, alloc: Global) -> Result<Meta, AllocError>
        ensures { IfOk result (λ meta. shape_of meta ≡ extra_shape self.now) }
    {
        let help = key_meta(alloc, self.help_key(alloc)?)?;
        match &self.version {
            Some(_) => both_metas(alloc, help, key_meta(alloc, self.version_key(alloc)?)?),
            None => Ok(help),
        }
    }
}

/// That neither is asked for; or want of memory for the text.
fn not_asked(alloc: Global) -> Error
    ensures { IsNotAsked result.0 }
{
    match Text::new(alloc, "not a version or help") {
        Ok(text) => Error(Message::ParseFail(text)),
        Err(refused) => Error::from(refused),
    }
}
