//! Documents: texts in styles, one after another.
ghost use Rattle.std.specs.Prelude.{◌≡◌, ◌==◌, Bool, true, IfOk, OnOk, OnErr, List, [], ◌∷◌, ◌++◌};
ghost use Rattle.bpaf_doc.specs.Print.{prints, is_empty, printed, shown_as, in_backticks};
ghost use Rattle.bpaf_doc.specs.Print.{first_line, text_pieces, folded_whole};
ghost use Rattle.std.specs.{Prelude.map, Prelude.string_bytes, List.before_first};

use crate::fold::text_pieces;
use bpaf_base::Text;
use std::alloc::{AllocError, Global};
use std::marker::Model;

/// What a piece of a document stands for. It changes nothing in the text.
#[derive(Clone, Copy, Debug)]
pub enum Style {
    /// Plain words.
    Text,
    /// Text to type literally, such as a name.
    Literal,
    /// A name that stands for a value.
    Metavar,
    /// Text that was typed and does not fit.
    Invalid,
}

/// One piece of a document: a text, what it stands for, and whether it is detail, which only a full
/// print shows.
#[derive(Debug, Drop)]
pub struct Piece {
    /// The text, as it is printed.
    pub text: Text,
    /// What the text stands for.
    pub style: Style,
    /// Whether only a full print shows it.
    pub detail: bool,
}

impl Piece {
    /// An equal piece; refused only for want of memory.
    pub fn copy(&self) -> Result<Piece, AllocError>
        ensures { IfOk result (λ piece. piece ≡ self.now) }
    {
        Ok(Piece {
            text: self.text.copy()?,
            style: self.style,
            detail: self.detail,
        })
    }
}

/// A document: the list of the pieces that its calls appended (bpaf's `Doc`, in `buffer.rs`).
///
/// A call that is refused for want of memory leaves it as it was.
#[derive(Debug)]
pub struct Doc {
    pieces: Vec<Piece>,
}

/// One call, as of a `Text`.
impl Drop for Doc {
    fn drop(self) {
        let Doc { pieces: _pieces } = self;
    }
}

impl Model for Doc {
    ghost use Rattle.std.specs.Prelude.{List};
    ghost use Rattle.bpaf_doc.specs.declared.doc.Piece.{Piece};

    ghost Value = { List Piece };

    ghost view = { λ d. d.pieces.items };
}

/// Equal pieces, in order; refused only for want of memory.
fn copy_pieces(alloc: Global, pieces: &[Piece]) -> Result<Vec<Piece>, AllocError>
    ensures { IfOk result (λ all. all.items ≡ pieces.now) }
{
    let mut all = Vec::with_capacity(alloc, pieces.len())?;
    for piece in pieces {
        all.push(piece.copy()?)?;
    }
    Ok(all)
}

/// What stands before the first line break, or the whole text.
fn line_of(text: &str) -> &str
    ensures { result.now ≡ before_first (λ c. c == 10) text.now }
{
    match text.split_once('\n') {
        None => text,
        Some((line, _)) => line,
    }
}

impl Doc {
    /// The allocator that it keeps.
    pub fn alloc(&self) -> Global {
        *self.pieces.allocator()
    }

    /// A document without pieces. It takes no memory.
    pub fn new(alloc: Global) -> Doc
        ensures { result ≡ [] }
    {
        Doc {
            pieces: Vec::new(alloc),
        }
    }

    /// A document of one text, as `text` appends it (bpaf's `From<&str>`); refused only for want of
    /// memory.
    pub fn from_text(alloc: Global, text: &str) -> Result<Doc, AllocError>
        ensures { IfOk result (λ doc. doc ≡ text_pieces text.now) }
    {
        Ok(Doc {
            pieces: text_pieces(alloc, text)?,
        })
    }

    /// A document of one piece for each text, the text as it is (bpaf's `From<&[(&str, Style)]>`);
    /// refused only for want of memory.
    ///
    /// ```text
    /// Doc::from_pieces(alloc, &[("Use ", Style::Text), ("--all", Style::Literal)])?
    /// ```
    pub fn from_pieces(alloc: Global, pieces: &[(&str, Style)]) -> Result<Doc, AllocError>
        ensures { IfOk result (λ doc.
            doc ≡ map (λ piece. shown_as piece.1 piece.0.now) pieces.now) }
    {
        let mut doc = Doc::new(alloc);
        for (text, style) in pieces {
            doc.push(*style, Text::new(alloc, *text)?)?;
        }
        Ok(doc)
    }

    /// An equal document; refused only for want of memory.
    pub fn copy(&self) -> Result<Doc, AllocError>
        ensures { IfOk result (λ doc. doc ≡ self.now) }
    {
        Ok(Doc {
            pieces: copy_pieces(*self.pieces.allocator(), &self.pieces)?,
        })
    }

    /// An equal document, where there is one; refused only for want of memory.
    pub fn copy_of(doc: &Option<Doc>) -> Result<Option<Doc>, AllocError>
        ensures { IfOk result (λ copy. copy ≡ doc.now) }
    {
        match doc {
            Some(doc) => Ok(Some(doc.copy()?)),
            None => Ok(None),
        }
    }

    /// Appends pieces; refused only for want of memory.
    fn append(&mut self, more: Vec<Piece>) -> Result<(), AllocError>
        ensures ok { OnOk result (self.new ≡ self.old ++ more.items) }
        ensures err { OnErr result (self.new ≡ self.old) }
    {
        let mut more = more;
        self.pieces.append(&mut more)
    }

    /// Appends one piece that is no detail; refused only for want of memory.
    fn push(&mut self, style: Style, text: Text) -> Result<(), AllocError>
        ensures ok { OnOk result (self.new ≡ self.old ++ shown_as style text ∷ []) }
        ensures err { OnErr result (self.new ≡ self.old) }
    {
        self.pieces.push(Piece {
            text,
            style,
            detail: false,
        })?;
        Ok(())
    }

    /// Appends a text: its part before the first empty line, folded, and where there is one a
    /// second piece, detail, of a line break and what follows the empty line, folded; refused only
    /// for want of memory.
    ///
    /// Folded, a line break stays where a space or a line break follows it, where a line break
    /// stands before it, or at the end; every other line break becomes one space.
    ///
    /// ```text
    /// doc.text("Reads each\nfile.\n\nFiles are read\nin order.")?
    /// ```
    ///
    /// appends `Reads each file.`, and as detail a line break and `Files are read in order.`
    #[tactic(auto, using(crate::proofs::Folding::printed_text))]
    pub fn text(&mut self, text: &str) -> Result<(), AllocError>
        ensures ok { OnOk result (self.new ≡ self.old ++ text_pieces text.now) }
        ensures printed { OnOk result (
            printed true self.new ≡ printed true self.old ++ folded_whole text.now) }
        ensures err { OnErr result (self.new ≡ self.old) }
    {
        let more = text_pieces(*self.pieces.allocator(), text)?;
        self.append(more)
    }

    /// Appends one piece, the text as it is (bpaf's `Doc::write`); refused only for want of memory.
    pub fn write(&mut self, style: Style, text: &str) -> Result<(), AllocError>
        ensures ok { OnOk result (self.new ≡ self.old ++ shown_as style text.now ∷ []) }
        ensures printed { OnOk result ((full : Bool) →
            printed full self.new ≡ printed full self.old ++ text.now) }
        ensures err { OnErr result (self.new ≡ self.old) }
    {
        let text = Text::new(*self.pieces.allocator(), text)?;
        self.push(style, text)
    }

    /// Appends one literal piece, the text as it is; refused only for want of memory.
    pub fn literal(&mut self, text: &str) -> Result<(), AllocError>
        ensures ok { OnOk result (self.new ≡ self.old ++ shown_as Style.Literal text.now ∷ []) }
        ensures err { OnErr result (self.new ≡ self.old) }
    {
        self.write(Style::Literal, text)
    }

    /// Appends one piece: the text between two backticks; refused only for want of memory.
    pub fn term(&mut self, style: Style, text: &str) -> Result<(), AllocError>
        ensures ok { OnOk result (
            self.new ≡ self.old ++ shown_as style (in_backticks text.now) ∷ []) }
        ensures printed { OnOk result ((full : Bool) →
            printed full self.new ≡ printed full self.old ++ in_backticks text.now) }
        ensures err { OnErr result (self.new ≡ self.old) }
    {
        let mut quoted = String::new(*self.pieces.allocator());
        quoted.push('`')?;
        quoted.push_str(text)?;
        quoted.push('`')?;
        self.push(style, Text::from(quoted))
    }

    /// Appends the pieces of another document; refused only for want of memory.
    pub fn doc(&mut self, other: &Doc) -> Result<(), AllocError>
        ensures ok { OnOk result (self.new ≡ self.old ++ other.now) }
        ensures printed { OnOk result ((full : Bool) →
            printed full self.new ≡ printed full self.old ++ printed full other.now) }
        ensures err { OnErr result (self.new ≡ self.old) }
    {
        let more = copy_pieces(*self.pieces.allocator(), &other.pieces)?;
        self.append(more)
    }

    /// What is printed without detail, up to its first line break, as one plain piece; `None` where
    /// that is empty (bpaf's `first_line`). Refused only for want of memory.
    pub fn first_line(&self) -> Result<Option<Doc>, AllocError>
        ensures { IfOk result (λ line. line ≡ first_line self.now) }
    {
        let alloc = *self.pieces.allocator();
        let all = self.monochrome(false)?;
        let line = line_of(all.as_str());
        if line.is_empty() {
            return Ok(None);
        }
        let mut doc = Doc::new(alloc);
        doc.push(Style::Text, Text::new(alloc, line)?)?;
        Ok(Some(doc))
    }

    /// Its pieces, in order.
    pub fn pieces(&self) -> &[Piece]
        ensures { result.now ≡ self.now }
    {
        self.pieces.as_slice()
    }

    /// Whether it prints nothing, also in full. It takes no memory.
    #[tactic(auto, using(crate::proofs::Folding::not_empty))]
    pub fn is_empty(&self) -> bool
        ensures { result ≡ is_empty (prints self.now) }
    {
        for piece in &self.pieces {
            if !piece.text.as_str().is_empty() {
                return false;
            }
        }
        true
    }

    /// The texts of all pieces in order, of the detail pieces only where `full` is true; refused
    /// only for want of memory.
    pub fn monochrome(&self, full: bool) -> Result<String, AllocError>
        ensures { IfOk result (λ text. string_bytes text ≡ printed full self.now) }
    {
        let mut all = String::new(*self.pieces.allocator());
        for piece in &self.pieces {
            if full || !piece.detail {
                all.push_str(piece.text.as_str())?;
            }
        }
        Ok(all)
    }
}
