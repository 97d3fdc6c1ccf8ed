//! Which broken rules make a document wrong, and which are worth a warning.
ghost use Rattle.std.specs.Prelude.{◌≡◌};
ghost use Rattle.oci_rules.specs.Tables.{level_of, rule_of};
ghost use Rattle.oci_findings.specs.Checks.{counts as does_count, binds as does_bind, is_error as makes_wrong, is_heard as does_hear};

use crate::asked::Check;
use oci_rules::{Level, Rule};

/// Whether a document that breaks a rule is wrong.
pub(crate) fn is_error(asked: &Check<'_>, rule: &Rule<'_>) -> bool
    ensures { result ≡ makes_wrong asked.now (rule_of rule.now) }
{
    is_heard(asked, rule) && (asked.strict || binds(rule.level))
}

/// Whether something is said of a document that breaks a rule.
pub(crate) fn is_heard(asked: &Check<'_>, rule: &Rule<'_>) -> bool
    ensures { result ≡ does_hear asked.now (rule_of rule.now) }
{
    asked.asks(rule.name) && counts(asked.level, rule.level)
}

/// Whether a document that breaks a rule of this level is wrong, and not just worth a warning.
pub(crate) fn binds(level: Level) -> bool
    ensures { result ≡ does_bind (level_of level) }
{
    match level {
        Level::Must | Level::Stated => true,
        Level::Should | Level::Host => false,
    }
}

/// Whether a level is no weaker than the one that is asked for.
fn counts(asked: Level, level: Level) -> bool
    ensures { result ≡ does_count (level_of asked) (level_of level) }
{
    match (asked, level) {
        (Level::Must, Level::Must)
        | (Level::Stated, Level::Must | Level::Stated)
        | (Level::Should, Level::Must | Level::Stated | Level::Should)
        | (Level::Host, _) => true,
        _ => false,
    }
}
