//! How findings are written.

/// How findings and differences are written.
#[derive(Clone, Copy, Debug, PartialEq, Eq)]
pub enum Style {
    /// Lines for people.
    Text,
    /// The same lines, with the colours of a terminal.
    Color,
    /// An object a line (JSON Lines).
    Json,
    /// One SARIF 2.1.0 log.
    Sarif,
    /// A workflow command of GitHub a line.
    Github,
}
