//! Laws of lines.

ghost use Rattle.std.specs.Prelude.{Bool};
ghost use Rattle.target_lines.specs.declared.line.Line.{Line};
ghost use Rattle.target_lines.specs.Texts.{line_text, IsOneLine};
ghost use Rattle.target_lines.specs.Fits.{LineFits};

/// No line has a line feed in it.
pub fn a_line_is_one_line()
    ensures { (lends : Bool) (l : Line) → LineFits lends l → IsOneLine (line_text lends l) }
{}
