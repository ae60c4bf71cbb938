//! Commands: a word that opens a run of its own over the items after it.
ghost use Rattle.std.specs.Prelude.{◌≡◌, ◌≤◌, length, IfOk, Some, None, true, false};
ghost use Rattle.bpaf_doc.specs.Print.{text_pieces};
ghost use Rattle.bpaf_laws.specs.Command.{named_only, with_long_name, with_short_name};

use crate::options::OptionParser;
use bpaf_doc::Doc;
use bpaf_keys::{CommandNames, Info};
use std::alloc::{AllocError, Global};
use std::marker::PhantomData;

mod entering;

/// A word that opens a run of its own over the items after it (bpaf's `ParseCommand`, in
/// `params.rs`).
#[derive(Drop)]
pub struct ParseCommand<T, P> {
    /// The names by which it is called.
    pub names: CommandNames,
    /// Its help, shown beside its name; where none is set, the first line of the description.
    pub help: Option<Doc>,
    /// What runs behind it.
    pub inner: P,
    /// The keys of help and of the version behind it, and the texts of its page.
    pub info: Info,
    /// From where memory is taken.
    pub alloc: Global,
    /// Whether it reads the items behind its word without a gap alone.
    pub adjacent: bool,
    /// The type of the value.
    pub of: PhantomData<T>,
}

/// A command of this name, which runs the parser over the items behind it (bpaf's `command`).
///
/// Its help is the first line of the parser's description, where it has one. Refused only for want
/// of memory, and then the parser is gone; the allocator is the parser's own.
///
/// ```text
/// let build = command("build", num.to_options(alloc)?)?.short('b')?;
/// ```
pub fn command<T, P: Drop>(
    name: &str,
    subparser: OptionParser<T, P>,
) -> Result<ParseCommand<T, P>, AllocError>
    ensures names { IfOk result (λ command. command.names ≡ named_only name.now) }
    ensures help { IfOk result (λ command. command.help ≡ None) }
    ensures inner { IfOk result (λ command. command.inner ≡ subparser.inner) }
    ensures info { IfOk result (λ command. command.info ≡ subparser.info) }
    ensures adjacent { IfOk result (λ command. command.adjacent ≡ false) }
{
    let names = CommandNames::new(subparser.alloc, name)?;
    Ok(called(names, subparser))
}

/// The command of these names.
fn called<T, P>(names: CommandNames, subparser: OptionParser<T, P>) -> ParseCommand<T, P>
    ensures names { result.names ≡ names }
    ensures help { result.help ≡ None }
    ensures inner { result.inner ≡ subparser.inner }
    ensures info { result.info ≡ subparser.info }
    ensures adjacent { result.adjacent ≡ false }
{
    let OptionParser {
        inner,
        info,
        alloc,
        ..
    } = subparser;
    ParseCommand {
        names,
        help: None,
        inner,
        info,
        alloc,
        adjacent: false,
        of: PhantomData,
    }
}

impl<T, P> OptionParser<T, P> {
    /// Makes the command of this name that runs these options, as [`command`]. It takes no memory,
    /// so the name has at most 23 bytes.
    ///
    /// ```text
    /// num.into_options(alloc).into_command("build")
    /// ```
    pub fn into_command(self, name: &str) -> ParseCommand<T, P>
        requires { length name.now ≤ 23 }
        ensures names { result.names ≡ named_only name.now }
        ensures help { result.help ≡ None }
        ensures inner { result.inner ≡ self.inner }
        ensures info { result.info ≡ self.info }
        ensures adjacent { result.adjacent ≡ false }
    {
        called(CommandNames::plain(self.alloc, name), self)
    }
}

impl<T, P: Drop> OptionParser<T, P> {
    /// Makes the command of this name that runs these options, as [`command`] (bpaf's
    /// `OptionParser::command`).
    ///
    /// ```text
    /// num.to_options(alloc)?.command("build")?
    /// ```
    pub fn command(self, name: &str) -> Result<ParseCommand<T, P>, AllocError>
        ensures names { IfOk result (λ command. command.names ≡ named_only name.now) }
        ensures help { IfOk result (λ command. command.help ≡ None) }
        ensures inner { IfOk result (λ command. command.inner ≡ self.inner) }
        ensures info { IfOk result (λ command. command.info ≡ self.info) }
        ensures adjacent { IfOk result (λ command. command.adjacent ≡ false) }
    {
        command(name, self)
    }
}

impl<T, P: Drop> ParseCommand<T, P> {
    /// Sets the help (bpaf's `ParseCommand::help`). It takes no memory.
    pub fn help(mut self, help: Doc) -> ParseCommand<T, P>
        ensures { result ≡ record self { help = Some help } }
    {
        self.help = Some(help);
        self
    }

    /// Sets the help to this text, as [`Doc::from_text`] makes it; refused only for want of memory,
    /// and then the command is gone.
    pub fn help_str(self, help: &str) -> Result<ParseCommand<T, P>, AllocError>
        ensures { IfOk result (λ helped.
            helped ≡ record self { help = Some (text_pieces help.now) }) }
    {
        let alloc = self.alloc;
        Ok(self.help(Doc::from_text(alloc, help)?))
    }

    /// Reads only the items behind the word without a gap, so that other commands may follow
    /// (bpaf's `ParseCommand::adjacent`). It takes no memory.
    ///
    /// The parser runs over the unbroken stretch of present items behind the word. Where that
    /// fails, it runs once more, over those before the first one that it left; where this fails
    /// too, the first failure is the answer.
    ///
    /// ```text
    /// let turn = construct!(left, degrees).to_options(alloc)?.command("turn")?.adjacent();
    /// construct!([step, turn]).many()     reads `move 1 2 turn --left 90 move 3 4`
    /// ```
    pub fn adjacent(mut self) -> ParseCommand<T, P>
        ensures { result ≡ record self { adjacent = true } }
    {
        self.adjacent = true;
        self
    }

    /// Adds a short name, which is typed as a word of one character (bpaf's `ParseCommand::short`).
    /// The first one is shown.
    ///
    /// Refused only for want of memory, and then the command is gone.
    ///
    /// ```text
    /// command("build", options)?.short('b')?
    /// ```
    pub fn short(self, name: char) -> Result<ParseCommand<T, P>, AllocError>
        ensures { IfOk result (λ command.
            command ≡ record self { names = with_short_name self.names name }) }
    {
        Ok(ParseCommand {
            names: self.names.short(name)?,
            help: self.help,
            inner: self.inner,
            info: self.info,
            alloc: self.alloc,
            adjacent: self.adjacent,
            of: PhantomData,
        })
    }

    /// Adds a long name, which isn't shown (bpaf's `ParseCommand::long`).
    ///
    /// Refused only for want of memory, and then the command is gone.
    ///
    /// ```text
    /// command("remove", options)?.long("rm")?
    /// ```
    pub fn long(self, name: &str) -> Result<ParseCommand<T, P>, AllocError>
        ensures { IfOk result (λ command.
            command ≡ record self { names = with_long_name self.names name.now }) }
    {
        Ok(ParseCommand {
            names: self.names.long(name)?,
            help: self.help,
            inner: self.inner,
            info: self.info,
            alloc: self.alloc,
            adjacent: self.adjacent,
            of: PhantomData,
        })
    }
}
