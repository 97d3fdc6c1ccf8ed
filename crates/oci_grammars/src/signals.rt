//! Signals by their names and numbers.
ghost use Rattle.std.specs.Prelude.{◌≡◌, map};
ghost use Rattle.oci_grammars.specs.DecidedSignals as decided;
ghost use Rattle.oci_grammars.specs.DecidedUris.{is_word_of as is_one_of};
ghost use Rattle.oci_grammars.specs.Signals.{signal_words};

use crate::classes::Class;
use crate::cuts::{behind, cut, front};
use crate::numbers::number;
use crate::uris::is_any_case;

/// The names without `SIG`.
static SIGNALS: [&str; 40] = [
    "ABRT", "ALRM", "BUS", "CHLD", "CLD", "CONT", "EMT", "FPE", "HUP", "ILL", "INFO", "INT", "IO",
    "IOT", "KILL", "LOST", "PIPE", "POLL", "PROF", "PWR", "QUIT", "RTMAX", "RTMIN", "SEGV",
    "STKFLT", "STOP", "SYS", "TERM", "TRAP", "TSTP", "TTIN", "TTOU", "UNUSED", "URG", "USR1",
    "USR2", "VTALRM", "WINCH", "XCPU", "XFSZ",
];

fn signals() -> &'static [&'static str]
    ensures { map (λ t. t.now) result.now ≡ signal_words }
{
    &SIGNALS
}

pub(crate) fn is_signal(text: &[u8]) -> bool
    ensures { result ≡ decided.is_signal text.now }
{
    is_signal_name(text) | is_plain(text, 64)
}

/// Returns whether the text is a number without a zero in front, and no larger than this.
fn is_plain(text: &[u8], high: u64) -> bool
    ensures { result ≡ decided.is_plain high text.now }
{
    Class::Positive.begins(text, Class::Digit) & (number(text) <= high)
}

fn is_signal_name(text: &[u8]) -> bool
    ensures { result ≡ decided.is_signal_name text.now }
{
    let prefixed = is_any_case(front(text, 3), b"SIG");
    is_bare_signal(text) | (prefixed & is_bare_signal(behind(text, 3)))
}

fn is_bare_signal(text: &[u8]) -> bool
    ensures { result ≡ decided.is_bare_signal text.now }
{
    is_word_of(signals(), text) | is_real_time(text)
}

/// Returns whether the text is one of the words, but for the case of letters.
fn is_word_of(words: &[&str], text: &[u8]) -> bool
    ensures { result ≡ is_one_of (map (λ t. t.now) words.now) text.now }
{
    for word in words {
        if is_any_case(text, word.as_bytes()) {
            return true;
        }
    }
    false
}

fn is_real_time(text: &[u8]) -> bool
    ensures { result ≡ decided.is_real_time text.now }
{
    let (first, up) = cut(text, b'+');
    let (last, down) = cut(text, b'-');
    (is_any_case(first, b"RTMIN") & is_plain(up, 30))
        | (is_any_case(last, b"RTMAX") & is_plain(down, 30))
}
