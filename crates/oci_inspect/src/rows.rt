//! Rows of a summary.
ghost use Rattle.std.specs.Prelude.{IfOk, OnOk, string_bytes};
ghost use Rattle.oci_inspect.specs.Shown.{AreLines};

use json::Writer;
use oci_base::line_of;
use std::alloc::{AllocError, Global};

/// Rows of a summary: a label in twelve columns and a text, or a text that belongs to the label above.
pub(crate) struct Rows {
    rows: Vec<String>,
    alloc: Global,
}

impl Drop for Rows {
    fn drop(self) {
        let Rows { rows, alloc } = self;
    }
}

impl Rows {
    /// No row.
    pub fn new(alloc: Global) -> Rows {
        Rows {
            rows: Vec::new(alloc),
            alloc,
        }
    }

    /// Adds a row. Fails if out of memory.
    pub fn add(&mut self, label: &str, text: &str) -> Result<(), AllocError> {
        let mut row = String::from_str(self.alloc, label)?;
        for _ in label.len()..12 {
            row.push_str(" ")?;
        }
        row.push_str(text)?;
        self.rows.push(row)?;
        Ok(())
    }

    /// Adds a row, if there is a text. Fails if out of memory.
    pub fn add_optional(&mut self, label: &str, text: &Option<String>) -> Result<(), AllocError> {
        match text {
            Some(text) => self.add(label, text.as_str()),
            None => Ok(()),
        }
    }

    /// Adds a row with texts as a JSON array, if there are any. Fails if out of memory.
    pub fn add_array(
        &mut self,
        label: &str,
        texts: &Option<Vec<String>>,
    ) -> Result<(), AllocError> {
        match texts {
            Some(texts) => {
                let array = array_of(texts, self.alloc)?;
                self.add(label, array.as_str())
            }
            None => Ok(()),
        }
    }

    /// Adds a row below the last one. Fails if out of memory.
    pub fn add_below(&mut self, text: &str) -> Result<(), AllocError> {
        let row = format!(in self.alloc; "  {text}")?;
        self.rows.push(row)?;
        Ok(())
    }

    /// Adds a label and a row below for each text, if there are any. Fails if out of memory.
    pub fn add_list(&mut self, label: &str, texts: &Option<Vec<String>>) -> Result<(), AllocError> {
        let Some(texts) = texts else {
            return Ok(());
        };
        if texts.is_empty() {
            return Ok(());
        }
        self.rows.push(String::from_str(self.alloc, label)?)?;
        for text in texts {
            self.add_below(text.as_str())?;
        }
        Ok(())
    }

    /// The rows as lines, in which characters that end a line or move a cursor are escaped. Fails if out of memory.
    pub fn into_lines(self) -> Result<String, AllocError>
        ensures { IfOk result (λ t. AreLines (string_bytes t)) }
    {
        let Rows { rows, alloc } = self;
        lines_of(rows.as_slice(), alloc)
    }
}

/// The rows as lines. Fails if out of memory.
#[tactic(auto, using(crate::proofs::Appended::no_lines))]
fn lines_of(rows: &[String], alloc: Global) -> Result<String, AllocError>
    ensures { IfOk result (λ t. AreLines (string_bytes t)) }
{
    let mut text = String::new(alloc);
    for row in rows {
        push_line(&mut text, row.as_str(), alloc)?;
    }
    Ok(text)
}

/// Adds a row as a line. Fails if out of memory.
#[tactic(auto, using(crate::proofs::Appended::more_lines))]
fn push_line(text: &mut String, row: &str, alloc: Global) -> Result<(), AllocError>
    requires { AreLines (string_bytes text.old) }
    ensures { OnOk result (AreLines (string_bytes text.new)) }
{
    let line = line_of(row, alloc)?;
    text.push_str(line.as_str())?;
    Ok(())
}

/// Texts as a JSON array. Fails if out of memory.
fn array_of(texts: &[String], alloc: Global) -> Result<String, AllocError> {
    let mut out = Writer::new(Vec::new(alloc));
    out.begin_array()?;
    for text in texts {
        out.string(text.as_str())?;
    }
    out.end_array()?;
    let bytes = out.into_inner();
    String::from_utf8_lossy(alloc, bytes.as_slice())
}
