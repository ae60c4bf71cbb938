//! What a flat record is, a named part and a program with commands, and that a run of one is exact:
//! definitions and lemmas alone, no function stands here.
//!
//! It stands on `bpaf_doc`, `bpaf_words`, `bpaf_line`, `bpaf_text` and `bpaf_laws`, whose types and
//! tables it speaks of. For the layers above:
//!
//! - A line is a list of cells, each with the item that is present there. A field has items of its
//!   own; they begin its pieces, and the whole line is cut into pieces (specs/Pieces.antt).
//! - What one evaluation of a field answers and takes depends on its own pieces alone, whatever
//!   fields before it took: `FieldLaw`; so does that of a list of fields: `FieldsLaw`
//!   (specs/Flat.antt). Single evaluations of words, which repeats and defaults build on, keep to
//!   `SingleLaw` (specs/Flat.antt). Named fields keep to the law of their parts, `PartLaw`
//!   (specs/Parts.antt), and so to that of their forms (`named_law`, proofs/ProgramForm.antt).
//! - A named part is a key, or a group of options, a choice, a closure, a default or a repeat of
//!   such. Its first entry and what it is where it is absent tell its values (specs/Parts.antt):
//!   one evaluation takes the first entry, or what it leaves has none.
//! - What a parser is to a flat record, and to a program, is its `ProgramForm`: how it reads what
//!   is present. Each combinator is a function on forms; what is nothing to a program computes to
//!   `no_program` (specs/ProgramForm.antt, specs/Flat.antt). Keys are kept apart by their names
//!   (specs/Pieces.antt).
//! - The value of a record on a line is read off the pieces of its cut, and each answer of a run is
//!   exact (specs/ProgramForm.antt).
//! - A line that is cut holds together (`HoldsTogether`): each key is one of the record's, behind
//!   an argument's key stands its value, which no positional field gets, an attached value stands
//!   nowhere else, and what is left to positional fields are words (`cut_holds_together`,
//!   proofs/Cuts.antt). An occurrence or a word too many leaves no value, nor does an occurrence
//!   that can't be read: what each value says of its pieces (specs/Says.antt) says so.
//! - What the value of a field says of its own pieces, whatever the other fields are and whatever
//!   stands round it, is told by names (specs/Says.antt), and follows of each form
//!   (proofs/ProgramSays.antt, one lemma for each combinator).
//! - A line may have several values that differ in what contracts don't see, such as the room of a
//!   text. Where closures can't tell apart what looks alike, the values of a line look alike
//!   (specs/Says.antt, `values_look_one` of proofs/OneView.antt).
//!
//! - A program is a flat record, or named fields and parts and then words or commands, behind the
//!   word of each of which stands a program again. Its values are said of the cells of its scope:
//!   the fields' own pieces are taken away, the first thing left opens a command, and what stands
//!   behind it is that command's (specs/ProgramForm.antt). Each answer of a run is exact where the
//!   parser is a
//!   program (`runs_as_program`, proofs/ProgramForm.antt). What its values say of the cells stands
//!   in specs/Says.antt and proofs/ProgramSays.antt.
//!
//! Proofs that closures, repeats, choices and products keep to these laws by their tables stand in
//! proofs/: proofs/ProgramForm.antt has one lemma for each type of parser,
//! and the theorems.
#![tactic(auto)]
