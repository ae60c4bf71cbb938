//! A text that is written, or a beginning of it where a write fails.
ghost use Rattle.std.specs.Prelude.{◌≡◌, ◌||◌, OnErr, OnOk, not, true};
ghost use Rattle.bpaf_doc.specs.Print.{printed};
ghost use Rattle.bpaf_program.specs.Ending.{error_line, Writes, WritesPart, wrote};

use crate::sink::Sink;
use bpaf::{Doc, Piece};
use std::io;

/// Writes a text. An error comes only where a write failed; then a beginning of the text stands
/// there, not all of it, and nothing behind that.
pub fn write_text<S: Sink>(text: &[u8], out: &mut S) -> io::Result<()>
    ensures whole { OnOk result (Writes (wrote S.known out.old out.new) text.now) }
    ensures part { OnErr result (WritesPart (wrote S.known out.old out.new) text.now) }
{
    let mut rest = text;
    while !rest.is_empty() {
        match out.write_once(rest) {
            Ok(0) => return Err(io::Error::from(io::ErrorKind::WriteZero)),
            Ok(count) => rest = &rest[count..],
            Err(error) => return Err(error),
        }
    }
    Ok(())
}

/// Writes what a document prints, as [`write_text`].
pub(crate) fn write_doc<S: Sink>(doc: &Doc, full: bool, out: &mut S) -> io::Result<()>
    ensures whole { OnOk result
        (Writes (wrote S.known out.old out.new) (printed full doc.now)) }
    ensures part { OnErr result
        (WritesPart (wrote S.known out.old out.new) (printed full doc.now)) }
{
    for piece in doc.pieces() {
        if is_shown(piece, full) {
            write_text(piece.text.as_str().as_bytes(), out)?;
        }
    }
    Ok(())
}

/// Whether a print shows a piece: detail only a full one.
fn is_shown(piece: &Piece, full: bool) -> bool
    ensures { result ≡ full || not piece.now.detail }
{
    full || !piece.detail
}

/// Writes the line of a message, as [`write_text`].
pub(crate) fn write_message<E: Sink>(doc: &Doc, err: &mut E) -> io::Result<()>
    ensures whole { OnOk result
        (Writes (wrote E.known err.old err.new) (error_line (printed true doc.now))) }
    ensures part { OnErr result
        (WritesPart (wrote E.known err.old err.new) (error_line (printed true doc.now))) }
{
    write_text("Error: ".as_bytes(), err)?;
    write_doc(doc, true, err)?;
    write_text("\n".as_bytes(), err)
}
