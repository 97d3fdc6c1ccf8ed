//! The levels of rules, by their numbers.
ghost use Rattle.std.specs.Prelude.{◌≡◌, option_map};
ghost use Rattle.oci_rules.specs.Tables.{level_of as level_for};
ghost use Rattle.oci_ffi.specs.Rules.{level_numbered, is_up_to};

use oci_rules::Level;

/// MUST, MUST NOT, REQUIRED.
pub const MUST: u32 = 0;
/// And formats, ranges and lists of values, without such a word.
pub const STATED: u32 = 1;
/// And SHOULD, SHOULD NOT, RECOMMENDED, DEPRECATED.
pub const SHOULD: u32 = 2;
/// And what no sentence of a specification asks: a manual page, the kernel or every runtime refuses it, or it is a hint.
pub const HOST: u32 = 3;

/// Returns the level with a number, or `None` if the number is that of no level.
pub(crate) fn level_of(level: u32) -> Option<Level>
    ensures { option_map level_for result ≡ level_numbered level }
{
    match level {
        MUST => Some(Level::Must),
        STATED => Some(Level::Stated),
        SHOULD => Some(Level::Should),
        HOST => Some(Level::Host),
        _ => None,
    }
}

/// Whether a rule of this level is asked for, if all up to the other are.
pub(crate) fn is_within(level: Level, last: Level) -> bool
    ensures { result ≡ is_up_to (level_for last) (level_for level) }
{
    match (last, level) {
        (Level::Host, _)
        | (_, Level::Must)
        | (Level::Stated | Level::Should, Level::Stated)
        | (Level::Should, Level::Should) => true,
        _ => false,
    }
}
