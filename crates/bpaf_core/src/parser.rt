//! The trait of all parsers: of what one is made, what it answers and what it shows.
ghost use Rattle.std.specs.Prelude.{◌≡◌, IfOk, false, Some, None};
ghost use Rattle.std.specs.Result.{IfErr};
ghost use Rattle.bpaf_doc.specs.Shape.{shape_of};
ghost use Rattle.bpaf_words.specs.{Arguments.given_of};
ghost use Rattle.bpaf_grammar.specs.Grammar.{Grammar, describes_of, outcome_of};
ghost use Rattle.bpaf_keys.specs.Info.{plain_info};
ghost use Rattle.bpaf_grammar.specs.{Run.IsNotMemoryFailure};
ghost use Rattle.bpaf_grammar.specs.Words.{Answers, AnswersSpared, Deals, Refuses};

use crate::choice::ParseOrElse;
use crate::collect::ParseCollect;
use crate::count::{ParseCount, ParseLast};
use crate::fallback::{ParseFallback, ParseFallbackWith};
use crate::hide::ParseHide;
use crate::optional::ParseOptional;
use crate::options::OptionParser;
use crate::repeat::{ParseMany, ParseSome};
use crate::transform::{ParseGuard, ParseMap, ParseWith};
use crate::usage::{ParseGroupHelp, ParseUsage, ParseWithGroupHelp};
use bpaf_doc::{Doc, Meta, MetaInfo};
use bpaf_keys::Info;
use bpaf_line::{Error, ParseFailure, State};
use bpaf_text::FromList;
use bpaf_words::Args;
use std::alloc::{AllocError, Global};
use std::fmt::Display;
use std::marker::PhantomData;

/// A parser: it reads a value off a line (bpaf's `Parser`).
pub trait Parser<T>: Sized {
    /// Whether it may be evaluated: its closures may be called on every value. `eval`, `meta` and a
    /// run ask for it; the combinators below don't, so a function that only joins parsers needs
    /// not.
    ghost can_eval: { Self → Type 0 };

    /// Of what it is made. That tells what one evaluation may answer and which situation it leaves
    /// (`outcome_of`), which values may be read off which places of a line (`reads_of`), what it
    /// may show of itself (`describes_of`) and the short names of that, by which joined letters are
    /// read (`shorts_of`); and that it keeps to the laws (`lawful_of`).
    ghost grammar: { Self → Grammar T };

    /// Reads a value off the present items in scope, and takes these.
    ///
    /// Which values it answers and what it refuses, want of memory too, is what its grammar
    /// allows.
    fn eval(&self, state: &mut State) -> Result<T, Error>
        requires { can_eval self.now }
        ensures { outcome_of (grammar self.now) state.old result state.new };

    /// Its shape on the help page and in usage; refused only for want of memory.
    fn meta(&self, alloc: Global) -> Result<Meta, AllocError>
        requires { can_eval self.now }
        ensures { IfOk result (λ meta. describes_of (grammar self.now) (shape_of meta)) };

    /// Applies a closure to the value (bpaf's `Parser::map`).
    ///
    /// ```text
    /// long(alloc, "size")?.argument::<u64>("KB").map(|kilobytes| Size(kilobytes))
    /// ```
    final fn map<F: Fn(T) -> R, R>(self, map: F) -> ParseMap<T, Self, F, R>
        requires callable { F.IsAlwaysCallable map }
        ensures inner { result.inner ≡ self }
        ensures map_fn { result.map_fn ≡ map }
    {
        ParseMap {
            inner: self,
            map_fn: map,
            inner_res: PhantomData,
            res: PhantomData,
        }
    }

    /// Applies a closure to the value; where that answers a fault, the value is refused with it
    /// (bpaf's `Parser::parse`).
    ///
    /// ```text
    /// long(alloc, "size")?.argument::<u64>("KB").parse(|size| {
    ///     if size < 10 { Ok(size) } else { Err("too big") }
    /// })
    /// ```
    final fn parse<F: Fn(T) -> Result<R, E>, R, E: Display>(
        self,
        f: F,
    ) -> ParseWith<T, Self, F, E, R>
        requires callable { F.IsAlwaysCallable f }
        ensures inner { result.inner ≡ self }
        ensures parse_fn { result.parse_fn ≡ f }
    {
        ParseWith {
            inner: self,
            parse_fn: f,
            inner_res: PhantomData,
            err: PhantomData,
            res: PhantomData,
        }
    }

    /// Refuses a value of which the check is false, with the message (bpaf's `Parser::guard`).
    ///
    /// ```text
    /// long(alloc, "size")?.argument::<u64>("KB").guard(|size| *size < 10, "below 10")
    /// ```
    final fn guard<'m, F: Fn(&T) -> bool>(
        self,
        check: F,
        message: &'m str,
    ) -> ParseGuard<'m, Self, F>
        requires callable { F.IsAlwaysCallable check }
        ensures inner { result.inner ≡ self }
        ensures check { result.check ≡ check }
        ensures message { result.message ≡ message.entry }
    {
        ParseGuard {
            inner: self,
            check,
            message,
        }
    }

    /// Makes the value optional: `None` where there is nothing to read (bpaf's `Parser::optional`).
    ///
    /// A value that is there and can't be read is still refused.
    ///
    /// ```text
    /// long(alloc, "size")?.argument::<u64>("KB").optional()
    /// ```
    final fn optional(self) -> ParseOptional<Self>
        ensures inner { result.inner ≡ self }
        ensures catch { result.catch ≡ false }
    {
        ParseOptional {
            inner: self,
            catch: false,
        }
    }

    /// Answers this value where there is nothing to read (bpaf's `Parser::fallback`). It is cloned
    /// each time.
    ///
    /// A value that is there and can't be read is still refused.
    ///
    /// ```text
    /// long(alloc, "jobs")?.argument::<u64>("N").fallback(1)
    /// ```
    final fn fallback(self, value: T) -> ParseFallback<Self, T>
        ensures inner { result.inner ≡ self }
        ensures value { result.value ≡ value }
        ensures shown { result.shown ≡ None }
    {
        ParseFallback {
            inner: self,
            value,
            shown: None,
        }
    }

    /// Answers the closure's value where there is nothing to read, or refuses with its fault
    /// (bpaf's `Parser::fallback_with`).
    ///
    /// A value that is there and can't be read is still refused, without a call of the closure.
    ///
    /// ```text
    /// long(alloc, "version")?.argument::<u64>("N").fallback_with(|| newest_version())
    /// ```
    final fn fallback_with<F: Fn() -> Result<T, E>, E: Display>(
        self,
        fallback: F,
    ) -> ParseFallbackWith<T, Self, F, E>
        requires callable { F.IsAlwaysCallable fallback }
        ensures inner { result.inner ≡ self }
        ensures fallback { result.fallback ≡ fallback }
        ensures shown { result.shown ≡ None }
    {
        ParseFallbackWith {
            inner: self,
            fallback,
            shown: None,
            inner_res: PhantomData,
            err: PhantomData,
        }
    }

    /// Reads all values, perhaps none, into a `Vec` (bpaf's `Parser::many`). Each but the first
    /// takes an item.
    ///
    /// A value that is there and can't be read is still refused.
    ///
    /// ```text
    /// positional::<String>("FILE").many()
    /// ```
    final fn many(self) -> ParseMany<Self>
        ensures inner { result.inner ≡ self }
        ensures catch { result.catch ≡ false }
    {
        ParseMany {
            inner: self,
            catch: false,
        }
    }

    /// Reads all values, at least one, into a `Vec`; without one it refuses with the message
    /// (bpaf's `Parser::some`).
    ///
    /// ```text
    /// positional::<String>("FILE").some("name a file")
    /// ```
    final fn some<'m>(self, message: &'m str) -> ParseSome<'m, Self>
        ensures inner { result.inner ≡ self }
        ensures message { result.message ≡ message.entry }
        ensures catch { result.catch ≡ false }
    {
        ParseSome {
            inner: self,
            message,
            catch: false,
        }
    }

    /// Reads all values into a collection, in line order (bpaf's `Parser::collect`).
    ///
    /// ```text
    /// short(alloc, 'n')?.argument::<u64>("NUM").collect::<BTreeSet<u64>>()
    /// ```
    final fn collect<C: FromList<T>>(self) -> ParseCollect<Self, C, T>
        ensures inner { result.inner ≡ self }
        ensures catch { result.catch ≡ false }
    {
        ParseCollect {
            inner: self,
            catch: false,
            collection: PhantomData,
            inner_res: PhantomData,
        }
    }

    /// Counts the values (bpaf's `Parser::count`); one that takes no item is counted and is the
    /// last.
    ///
    /// ```text
    /// short(alloc, 'v')?.req_flag(()).count()
    /// ```
    final fn count(self) -> ParseCount<Self, T>
        ensures { result.inner ≡ self }
    {
        ParseCount {
            inner: self,
            inner_res: PhantomData,
        }
    }

    /// Reads all values and answers the last one (bpaf's `Parser::last`). Where there is none it
    /// refuses as the parser alone does.
    ///
    /// ```text
    /// short(alloc, 'n')?.argument::<u64>("NUM").last()
    /// ```
    final fn last(self) -> ParseLast<Self>
        ensures { result.inner ≡ self }
    {
        ParseLast { inner: self }
    }

    /// Reads what one of two parsers reads (bpaf's `Parser::or_else`).
    ///
    /// Both are evaluated from the same state. Of two values the one of the parser that took the
    /// leftmost item counts. Items that only the other one took stay on the line, in conflict with
    /// that item.
    ///
    /// ```text
    /// long(alloc, "meters")?.argument::<u64>("M").or_else(long(alloc, "miles")?.argument("MI"))
    /// ```
    final fn or_else<P: Parser<T>>(self, that: P) -> ParseOrElse<Self, P>
        ensures this { result.this ≡ self }
        ensures that { result.that ≡ that }
    {
        ParseOrElse { this: self, that }
    }

    /// Hides the parser from help and usage (bpaf's `Parser::hide`). Messages name no missing item
    /// of it.
    ///
    /// ```text
    /// long(alloc, "trace")?.switch().hide()
    /// ```
    final fn hide(self) -> ParseHide<Self>
        ensures { result.inner ≡ self }
    {
        ParseHide { inner: self }
    }

    /// Hides the parser from the usage line (bpaf's `Parser::hide_usage`). The help page lists it.
    ///
    /// ```text
    /// short(alloc, 'v')?.switch().hide_usage()
    /// ```
    final fn hide_usage(self) -> ParseUsage<Self>
        ensures inner { result.inner ≡ self }
        ensures usage { result.usage ≡ None }
    {
        ParseUsage {
            inner: self,
            usage: None,
        }
    }

    /// Sets the parser's text in the usage line (bpaf's `Parser::custom_usage`).
    ///
    /// ```text
    /// dates.custom_usage(Doc::from_text(alloc, "FROM..TO")?)
    /// ```
    final fn custom_usage(self, usage: Doc) -> ParseUsage<Self>
        ensures inner { result.inner ≡ self }
        ensures usage { result.usage ≡ Some usage }
    {
        ParseUsage {
            inner: self,
            usage: Some(usage),
        }
    }

    /// Lists the parser in a section of the help page with this title (bpaf's
    /// `Parser::group_help`).
    ///
    /// ```text
    /// construct!(width, height).group_help(Doc::from_text(alloc, "Size of the page")?)
    /// ```
    final fn group_help(self, message: Doc) -> ParseGroupHelp<Self>
        ensures inner { result.inner ≡ self }
        ensures message { result.message ≡ message }
    {
        ParseGroupHelp {
            inner: self,
            message,
        }
    }

    /// Lists the parser in a section of the help page whose title the closure makes of the parser's
    /// shape (bpaf's `Parser::with_group_help`).
    ///
    /// ```text
    /// page.with_group_help(|shown| title_of(alloc, shown.first_item()))
    /// ```
    final fn with_group_help<F: Fn(MetaInfo<'_>) -> Result<Doc, AllocError>>(
        self,
        f: F,
    ) -> ParseWithGroupHelp<Self, F>
        requires callable { F.IsAlwaysCallable f }
        ensures inner { result.inner ≡ self }
        ensures f { result.f ≡ f }
    {
        ParseWithGroupHelp { inner: self, f }
    }

    /// Makes options of the parser, which can run over words. It takes no memory.
    final fn into_options(self, alloc: Global) -> OptionParser<T, Self>
        ensures inner { result.inner ≡ self }
        ensures info { result.info ≡ plain_info }
    {
        OptionParser {
            info: Info::new(),
            inner: self,
            alloc,
            of: PhantomData,
        }
    }

    /// The same under the name that bpaf has for it; it is never refused.
    final fn to_options(self, alloc: Global) -> Result<OptionParser<T, Self>, AllocError>
        ensures inner { IfOk result (λ options. options.inner ≡ self) }
        ensures info { IfOk result (λ options. options.info ≡ plain_info) }
    {
        Ok(self.into_options(alloc))
    }

    /// Runs the parser over words, without texts of the program's own, and drops it (bpaf's
    /// `Parser::run`): [`Parser::into_options`] and [`OptionParser::run_once`] in one.
    ///
    /// ```text
    /// construct!(Options { verbose, num }).run_once(alloc, Args::from(words))
    /// ```
    final fn run_once(self, alloc: Global, args: Args<'_>) -> Result<T, ParseFailure>
    where
        T: Drop,
        Self: Drop,
        requires { can_eval self }
        ensures outcome { Answers (grammar self) plain_info (given_of args.entry) result }
        ensures named { IfErr result (Refuses (grammar self) plain_info (given_of args.entry)) }
        ensures dealt { IfOk result (Deals (grammar self) plain_info (given_of args.entry)) }
        ensures memory_is_never_caught { IsNotMemoryFailure result →
            AnswersSpared (grammar self) plain_info (given_of args.entry) result }
    {
        self.to_options(alloc)?.run_once(args)
    }
}
