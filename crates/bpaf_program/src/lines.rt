//! Lines of a text that a program prints.
ghost use Rattle.std.specs.Prelude.{◌≡◌, ◌++◌, OnOk, map, string_bytes};
ghost use Rattle.bpaf_program.specs.Ending.{line, line_each};

use std::alloc::AllocError;

/// Appends a line: `front`, and then `rest`; refused only for want of memory.
///
/// ```text
/// push_line(&mut text, "dir: ", dir.as_str())?;             dir: old
/// ```
pub fn push_line(text: &mut String, front: &str, rest: &str) -> Result<(), AllocError>
    ensures { OnOk result (string_bytes text.new
        ≡ string_bytes text.old ++ line (front.now ++ rest.now)) }
{
    writeln!(text, "{front}{rest}")
}

/// Appends a line for each text, with `front` before it; refused only for want of memory.
///
/// ```text
/// push_lines(&mut text, "file: ", files.as_slice())?;      file: a, file: b, a line each
/// ```
pub fn push_lines(text: &mut String, front: &str, texts: &[String]) -> Result<(), AllocError>
    ensures { OnOk result (string_bytes text.new
        ≡ string_bytes text.old ++ line_each front.now (map string_bytes texts.now)) }
{
    for line in texts {
        push_line(text, front, line.as_str())?;
    }
    Ok(())
}
