//! An example of a rule.
ghost use Rattle.std.specs.Prelude.{◌≡◌, IfSome};

/// How a document breaks a rule, and how another keeps it. Of each is said what it has at JSON Pointers (RFC 6901): the value, or `absent`.
#[derive(Clone, Copy)]
pub struct Example {
    /// The name of the rule.
    pub name: &'static str,
    /// Why it is asked: the word of its sentence, or the reason where no sentence asks for it.
    pub why: &'static str,
    /// What both documents are, with the platform for which they are judged, unless they say it.
    pub within: &'static str,
    /// How the one breaks it.
    pub breaks: &'static str,
    /// How the other keeps it.
    pub keeps: &'static str,
}

/// The example of this name in some of several lists.
pub(crate) fn found_in(lists: &[&'static [Example]], name: &str) -> Option<&'static Example>
    ensures { IfSome result (λ e. e.now.name.now ≡ name.now) }
{
    for list in lists {
        if let Some(found) = found_among(list, name) {
            return Some(found);
        }
    }
    None
}

fn found_among(list: &'static [Example], name: &str) -> Option<&'static Example>
    ensures { IfSome result (λ e. e.now.name.now ≡ name.now) }
{
    for example in list {
        if example.name == name {
            return Some(example);
        }
    }
    None
}
