//! Lines with the colours of a terminal. What a stranger wrote is escaped before it is coloured, so each code on a line is one of these.
ghost use Rattle.std.specs.Prelude.{◌≡◌, IfOk, OnOk, string_bytes};
ghost use Rattle.oci_findings.specs.Colors.{code_of, IsColored, IsColoredLine};

use crate::finding::Severity;
use oci_base::escaped;
use oci_base::laws::is_one_line;
use std::alloc::{AllocError, Global};

/// How a part of a line is shown.
#[derive(Clone, Copy, Debug, PartialEq, Eq)]
pub enum Color {
    /// As the terminal shows text.
    Plain,
    /// In bold.
    Bold,
    /// In red.
    Red,
    /// In green.
    Green,
    /// In yellow.
    Yellow,
    /// In cyan.
    Cyan,
}

impl Color {
    /// The code that sets it, and ends what was set before (ECMA-48, section 8.3.117, "SGR").
    fn code(self) -> &'static str
        ensures { result.now ≡ code_of self }
    {
        match self {
            Color::Plain => "\x1b[0m",
            Color::Bold => "\x1b[0;1m",
            Color::Red => "\x1b[0;31m",
            Color::Green => "\x1b[0;32m",
            Color::Yellow => "\x1b[0;33m",
            Color::Cyan => "\x1b[0;36m",
        }
    }

    /// That of findings of this severity.
    pub(crate) fn of(severity: Severity) -> Color {
        match severity {
            Severity::Error => Color::Red,
            Severity::Warning => Color::Yellow,
            Severity::Note => Color::Cyan,
        }
    }
}

/// Adds a part as it is shown. Fails if out of memory.
pub fn push_part(line: &mut String, part: &str, alloc: Global) -> Result<(), AllocError>
    ensures { OnOk result (IsColored (string_bytes line.old) → IsColored (string_bytes line.new)) }
{
    is_one_line();
    let shown = escaped(part, alloc)?;
    line.push_str(shown.as_str())?;
    Ok(())
}

/// Adds a part as it is shown, in a colour. Fails if out of memory.
pub fn push_colored(
    line: &mut String,
    color: Color,
    part: &str,
    alloc: Global,
) -> Result<(), AllocError>
    ensures { OnOk result (IsColored (string_bytes line.old) → IsColored (string_bytes line.new)) }
{
    line.push_str(color.code())?;
    push_part(line, part, alloc)?;
    line.push_str(Color::Plain.code())?;
    Ok(())
}

/// A line in a colour: the text as it is shown, and a newline. Fails if out of memory.
pub fn colored_line(color: Color, text: &str, alloc: Global) -> Result<String, AllocError>
    ensures { IfOk result (λ t. IsColoredLine (string_bytes t)) }
{
    let mut line = String::new(alloc);
    push_colored(&mut line, color, text, alloc)?;
    line.push_str("\n")?;
    Ok(line)
}
