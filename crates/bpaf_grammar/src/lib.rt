//! The grammar of parsers: of what one is made, in one data type, and all that this tells of it.
//!
//! Each parser above has a grammar (specs/Grammar.antt). A constructor of `GrammarOf` is a kind of
//! parser: a flag, an argument or a word; a closure, another look, a default, a repeat, a choice or
//! a command round others; the fields of a product, and what a constructor makes of their values. A
//! kind that a caller writes is `own`: it says what it is, with its laws (specs/Own.antt). For the
//! layers above:
//!
//! - Functions on grammars say what a parser is: what one evaluation may answer and which situation
//!   it leaves (`outcome_of`), which values may be read off which places of a line (`reads_of`),
//!   what it may show (`describes_of`) and the short names of that (`shorts_of`), its keys
//!   (`keys_of`) and the words of its commands (`command_words`). Each clause names the definition
//!   of its kind: those of `bpaf_laws`, of positional words (specs/Positional.antt), of commands
//!   (specs/Command.antt) and of leaves that no other kind is built of (specs/Leaves.antt).
//! - Laws are proved once, by recursion: each parser keeps to the laws (`lawful_of`) and shows its
//!   short names (`shows_of`, both in specs/Laws.antt).
//! - What is so of each answer beside its outcome is told by the kind too (specs/Promises.antt),
//!   and proved in proofs/Promises.antt: no parser catches want of memory, a repeat is bounded, a
//!   default takes nothing, of two values of a choice the leftmost wins, a key comes before its
//!   variables, a command leaves nothing in its scope and hands on a failure of its own run alone,
//!   and an adjacent command or group takes one stretch.
//! - A run is told by the outcome of what runs: its value or its end (specs/Run.antt,
//!   specs/Ending.antt), the twelve names of its refusals (specs/Refusals.antt), and the attempts of
//!   an adjacent command (specs/Command.antt).
//!
//! It stands on `bpaf_laws` and on the definitions of keys and messages. Of code it has
//! [`Position`] alone, which a grammar names.
#![tactic(auto)]

mod position;

pub use position::Position;
