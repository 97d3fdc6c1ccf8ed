//! Rules and what breaks them, for people.
use crate::rule::{Broken, Level, Rule};
use oci_base::Escaped;
use std::fmt;

impl fmt::Display for Level {
    fn fmt<W: fmt::Write>(&self, f: &mut fmt::Formatter<W>) -> fmt::Result {
        f.write_str(self.word())
    }
}

/// The line of what breaks a rule: its pointer, and the rule's name, level, section and what it wants. All texts are escaped: names of
/// members are a stranger's, and a rule may be one of a policy.
impl fmt::Display for Broken<'_> {
    fn fmt<W: fmt::Write>(&self, f: &mut fmt::Formatter<W>) -> fmt::Result {
        let pointer = Escaped(self.pointer.as_str());
        write!(f, "{pointer}: ")?;
        write_rule(self.rule, f)
    }
}

/// Writes a rule's name, level, section and what it wants.
fn write_rule<W: fmt::Write>(rule: &Rule<'_>, f: &mut fmt::Formatter<W>) -> fmt::Result {
    let (name, level, section) = (Escaped(rule.name), rule.level, Escaped(rule.section));
    let wanted = Escaped(rule.wanted);
    write!(f, "{name} ({level}, {section}): {wanted}")
}
