//! Options: a parser, and the texts and keys of its run.
ghost use Rattle.bpaf_grammar.specs.{Grammar.describes_of, Run.TellsOrder};
ghost use Rattle.std.specs.Prelude.{◌≡◌, IfOk, List, Ok, Some, true};
ghost use Rattle.bpaf_doc.specs.{Print.text_pieces, Print.Prints, declared.doc.Piece.Piece};
ghost use Rattle.bpaf_doc.specs.Shape.{Shape};
ghost use Rattle.bpaf_pages.specs.Help.{usage_text};

use crate::parser::Parser;
use bpaf_doc::Doc;
use bpaf_keys::Info;
use bpaf_pages::usage_of;
use bpaf_text::NamedArg;
use std::alloc::{AllocError, Global};
use std::marker::PhantomData;

mod running;

/// Options: a parser that can run over words, with the texts and keys of its run (bpaf's
/// `OptionParser`, in `info.rs`).
#[derive(Drop)]
pub struct OptionParser<T, P> {
    pub inner: P,
    pub info: Info,
    pub alloc: Global,
    pub of: PhantomData<T>,
}

impl<T, P> OptionParser<T, P> {
    /// Sets the description (bpaf's `OptionParser::descr`). It takes no memory.
    ///
    /// A command made of these options shows its first line, where no other help is set.
    ///
    /// ```text
    /// num.to_options(alloc)?.descr(Doc::from_text(alloc, "Builds the program")?)
    /// ```
    pub fn descr(mut self, descr: Doc) -> OptionParser<T, P>
        ensures { result ≡ record self { info = record self.info { descr = Some descr } } }
    {
        self.info.descr = Some(descr);
        self
    }

    /// Sets the version, which `-V` and `--version` print (bpaf's `OptionParser::version`). It
    /// takes no memory. Without a version these keys are unknown.
    ///
    /// ```text
    /// num.to_options(alloc)?.version(Doc::from_text(alloc, "1.2")?)
    /// ```
    pub fn version(mut self, version: Doc) -> OptionParser<T, P>
        ensures { result ≡ record self { info = record self.info { version = Some version } } }
    {
        self.info.version = Some(version);
        self
    }

    /// Sets the text behind the usage line (bpaf's `OptionParser::header`). It takes no memory.
    ///
    /// ```text
    /// switch.to_options(alloc)?.header(Doc::from_text(alloc, "This is a header")?)
    /// ```
    ///
    /// Off `--help` a paragraph `This is a header` stands between `Usage: [-s]` and the options.
    pub fn header(mut self, header: Doc) -> OptionParser<T, P>
        ensures { result ≡ record self { info = record self.info { header = Some header } } }
    {
        self.info.header = Some(header);
        self
    }

    /// Sets the text at the end of the help page (bpaf's `OptionParser::footer`). It takes no
    /// memory.
    ///
    /// ```text
    /// switch.to_options(alloc)?.footer(Doc::from_text(alloc, "This is a footer")?)
    /// ```
    ///
    /// Off `--help` the page ends in a paragraph `This is a footer`.
    pub fn footer(mut self, footer: Doc) -> OptionParser<T, P>
        ensures { result ≡ record self { info = record self.info { footer = Some footer } } }
    {
        self.info.footer = Some(footer);
        self
    }

    /// Replaces the whole usage paragraph (bpaf's `OptionParser::usage`). It takes no memory.
    ///
    /// ```text
    /// switch.to_options(alloc)?.usage(Doc::from_text(alloc, "Use it")?)
    /// ```
    ///
    /// Off `--help` the page has `Use it` in place of `Usage: [-s]`.
    pub fn usage(mut self, usage: Doc) -> OptionParser<T, P>
        ensures { result ≡ record self { info = record self.info { usage = Some usage } } }
    {
        self.info.usage = Some(usage);
        self
    }

    /// Sets the key of help, in place of `-h` and `--help` (bpaf's `OptionParser::help_parser`). It
    /// takes no memory.
    ///
    /// ```text
    /// let key = long(alloc, "usage")?.help(Doc::from_text(alloc, "Tells how")?);
    /// num.to_options(alloc)?.help_parser(key)
    /// ```
    pub fn help_parser(mut self, key: NamedArg) -> OptionParser<T, P>
        ensures { result ≡ record self { info = record self.info { help_arg = key } } }
    {
        self.info.help_arg = Some(key);
        self
    }

    /// Sets the key of the version, in place of `-V` and `--version` (bpaf's
    /// `OptionParser::version_parser`). It takes no memory.
    pub fn version_parser(mut self, key: NamedArg) -> OptionParser<T, P>
        ensures { result ≡ record self { info = record self.info { version_arg = key } } }
    {
        self.info.version_arg = Some(key);
        self
    }

    /// Shows the help page where the line is empty and would be refused (bpaf's
    /// `OptionParser::fallback_to_usage`). It takes no memory.
    ///
    /// ```text
    /// num.to_options(alloc)?.fallback_to_usage()      help off no words; `-v` is refused as ever
    /// ```
    pub fn fallback_to_usage(mut self) -> OptionParser<T, P>
        ensures { result ≡ record self { info = record self.info { help_if_no_args = true } } }
    {
        self.info.help_if_no_args = true;
        self
    }

    /// Sets how many columns a page may have (bpaf's `OptionParser::max_width`). The number is kept
    /// and not used: nothing is wrapped. It takes no memory.
    pub fn max_width(mut self, width: usize) -> OptionParser<T, P>
        ensures { result ≡ record self { info = record self.info { max_width = width } } }
    {
        self.info.max_width = width;
        self
    }

    /// Reads negative numbers as words: before the first `--` a word of `-` and one or more ASCII
    /// digits, and nothing else, is read as `5` is, so that users need no `=` for it. It takes no
    /// memory. bpaf has no such call.
    ///
    /// Only the setting of the options that run over the words counts: it holds behind the words of
    /// commands too, and the setting of a command's own options has no effect. A flag or an
    /// argument whose short name is a digit can then no longer be given as `-1`.
    ///
    /// ```text
    /// num.to_options(alloc)?.numbers_as_words()      reads `-n -5`; without it, `-n=-5` alone
    /// ```
    pub fn numbers_as_words(mut self) -> OptionParser<T, P>
        ensures { result ≡ record self { info = record self.info { numbers = true } } }
    {
        self.info.numbers = true;
        self
    }
}

impl<T, P: Drop> OptionParser<T, P> {
    /// Sets the description to this text, as [`Doc::from_text`] makes it; refused only for want of
    /// memory, and then the options are gone.
    pub fn descr_str(self, descr: &str) -> Result<OptionParser<T, P>, AllocError>
        ensures { IfOk result (λ parser. parser
            ≡ record self { info = record self.info { descr = Some (text_pieces descr.now) } }) }
    {
        let alloc = self.alloc;
        Ok(self.descr(Doc::from_text(alloc, descr)?))
    }

    /// Sets the version to this text, as [`Doc::from_text`] makes it; refused only for want of
    /// memory, and then the options are gone.
    pub fn version_str(self, version: &str) -> Result<OptionParser<T, P>, AllocError>
        ensures { IfOk result (λ parser. parser
            ≡ record self {
              info = record self.info { version = Some (text_pieces version.now) };
            }) }
    {
        let alloc = self.alloc;
        Ok(self.version(Doc::from_text(alloc, version)?))
    }

    /// Sets the header to this text, as [`Doc::from_text`] makes it; refused only for want of
    /// memory, and then the options are gone.
    pub fn header_str(self, header: &str) -> Result<OptionParser<T, P>, AllocError>
        ensures { IfOk result (λ parser. parser
            ≡ record self { info = record self.info { header = Some (text_pieces header.now) } }) }
    {
        let alloc = self.alloc;
        Ok(self.header(Doc::from_text(alloc, header)?))
    }

    /// Sets the footer to this text, as [`Doc::from_text`] makes it; refused only for want of
    /// memory, and then the options are gone.
    pub fn footer_str(self, footer: &str) -> Result<OptionParser<T, P>, AllocError>
        ensures { IfOk result (λ parser. parser
            ≡ record self { info = record self.info { footer = Some (text_pieces footer.now) } }) }
    {
        let alloc = self.alloc;
        Ok(self.footer(Doc::from_text(alloc, footer)?))
    }

    /// Sets the usage paragraph to this text, as [`Doc::from_text`] makes it; refused only for want
    /// of memory, and then the options are gone.
    pub fn usage_str(self, usage: &str) -> Result<OptionParser<T, P>, AllocError>
        ensures { IfOk result (λ parser. parser
            ≡ record self { info = record self.info { usage = Some (text_pieces usage.now) } }) }
    {
        let alloc = self.alloc;
        Ok(self.usage(Doc::from_text(alloc, usage)?))
    }
}

impl<T: Drop, P: Parser<T>> OptionParser<T, P> {
    /// Replaces the whole usage paragraph by what the closure makes of the usage text (bpaf's
    /// `OptionParser::with_usage`). The closure gets the text without the path; its Err is want of
    /// memory.
    ///
    /// Refused only for want of memory, and then the options are gone.
    ///
    /// ```text
    /// num.to_options(alloc)?.with_usage(|usage| {
    ///     let mut text = Doc::from_text(alloc, "Use it so: ")?;
    ///     text.doc(&usage)?;
    ///     Ok(text)
    /// })?
    /// ```
    pub fn with_usage<F: Fn(Doc) -> Result<Doc, AllocError>>(
        self,
        f: F,
    ) -> Result<OptionParser<T, P>, AllocError>
    where
        P: Drop,
        requires can { P.can_eval self.inner }
        requires callable { F.IsAlwaysCallable f }
        ensures { IfOk result (λ parser. (shape : Shape) × describes_of (P.grammar self.inner) shape
            × (shown usage : List Piece) × Prints (usage_text shape) shown
            × F.post f shown (Ok usage)
            × (parser ≡ record self { info = record self.info { usage = Some usage } })) }
    {
        let meta = self.inner.meta(self.alloc)?;
        let usage = f(usage_of(self.alloc, &meta)?)?;
        Ok(self.usage(usage))
    }

    /// Whether each word and command stands behind all keys in the parser's shape (bpaf's
    /// `OptionParser::check_invariants`, which panics in place of the answer `false`).
    ///
    /// The flag isn't used, nor is it in bpaf. Refused only for want of memory.
    ///
    /// ```text
    /// construct!(switch, word)      true
    /// construct!(word, switch)      false
    /// ```
    pub fn check_invariants(&self, _cosmetic: bool) -> Result<bool, AllocError>
        requires { P.can_eval self.now.inner }
        ensures { IfOk result (λ good. TellsOrder (describes_of (P.grammar self.now.inner)) good) }
    {
        Ok(self.inner.meta(self.alloc)?.positional_order())
    }
}
