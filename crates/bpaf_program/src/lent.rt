//! That words which are lent are texts in UTF-8.
ghost use Rattle.std.specs.Prelude.{All, IsUtf8};
ghost use Rattle.bpaf_words.specs.Arguments.{words_of};

use bpaf::Args;

/// The words are texts, as all lent words are: a caller whose contract says which words have a
/// value learns it here of `&[&str]`, for `complete`, `refused` and `answered` of a run that is
/// exact. Of `&[String]` the lemma `are_texts` of proofs/Running.antt tells it without a call.
///
/// It reads each word once and takes no memory. bpaf has no such call.
///
/// ```text
/// see_texts(Args::from(&["-n", "3"]));
/// ```
pub fn see_texts(args: Args<'_>)
    ensures { All IsUtf8 (words_of args.entry) }
{
    let words = args.words();
    for index in 0..words.len() {
        let _text = words.at(index);
    }
}
