//! What parsers mean, in definitions and lemmas alone: no function stands here.
//!
//! It stands on `bpaf_doc`, `bpaf_pages`, `bpaf_words`, `bpaf_line` and `bpaf_text`, whose types it
//! speaks of.
//! For the layers above:
//!
//! - A share is a set of places, a reading a relation between a context, a share and a value, an
//!   outcome a relation between a situation, an answer and the situation that is left
//!   (specs/Reading.antt).
//! - The laws that every parser keeps to are `Lawful` (specs/Laws.antt). What evaluations keep is
//!   put together by the lemmas of proofs/Keeping.antt: no combinator builds a `Keeps` of its own.
//! - For each leaf and combinator there is its outcome, its readings and what it may show, over
//!   those of its inner parsers (specs/Leaves.antt, specs/Combinators.antt, specs/Choice.antt,
//!   specs/Product.antt, specs/Command.antt, specs/Adjacent.antt), and the lemma that it keeps to
//!   the laws where its inner parsers do, in proofs/LeafLaws.antt and those beside it.
//! - Which short names a parser shows, by which joined words are read, is the same whichever shape
//!   it shows (`ShowsNames`, specs/Laws.antt; proofs/ShownNames.antt has one lemma for each
//!   combinator).
//! - A refusal has one of twelve names (specs/Laws.antt). By the laws one that a run inside
//!   ended with has one too.
//! - What follows from the laws alone: the count of present items falls by what was newly taken
//!   (specs/Laws.antt). Want of memory is told apart by specs/Laws.antt.
//!
//! What names a type of the crates above, as a run over words or the side of `--` on which a word
//! stands, is defined there.
#![tactic(auto)]
