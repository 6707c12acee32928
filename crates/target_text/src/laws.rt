//! Laws of texts.

ghost use Rattle.std.specs.Prelude.{◌≡◌};
ghost use Rattle.target_code.specs.declared.tree.Program.{Program};
ghost use Rattle.target_code.specs.Formed.{Formed};
ghost use Rattle.target_lines.specs.Programs.{program_text};

/// Formed programs with one text are one program.
pub fn texts_tell_programs_apart()
    ensures { (t u : Program) → Formed t → Formed u → program_text t ≡ program_text u → t ≡ u }
{}
