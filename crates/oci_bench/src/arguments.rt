//! What the words ask for.
ghost use Rattle.std.specs.Prelude.{IfSome, map, string_bytes};
ghost use Rattle.oci_bench.specs.Words.{Names, NamesWords};

use crate::documents::TypedCall;
use crate::references::TextCall;
use crate::schemas::SchemaCall;
use oci_schemas::Kind;

/// A call, and how often it is made.
#[derive(Clone, Copy)]
pub struct Run<C> {
    /// The call.
    pub call: C,
    /// How often.
    pub count: u32,
}

/// What to do.
#[derive(Clone, Copy)]
pub enum Task<'a> {
    /// A call on a typed record of a kind, from a file.
    Typed(Kind, &'a str, Run<TypedCall>),
    /// A call by the schema of a kind on the bytes of a file.
    Schema(Kind, &'a str, Run<SchemaCall>),
    /// A call on each reference in a file, one a line.
    Texts(&'a str, Run<TextCall>),
}

impl<'a> Task<'a> {
    /// The task that the words ask for, if they ask for one.
    pub fn from_words(words: &'a [String]) -> Option<Task<'a>>
        ensures { IfSome result (λ task. NamesWords task (map string_bytes words.now)) }
    {
        match words {
            [kind, path, count, call] => {
                let count = count.as_str().parse::<u32>().ok()?;
                Task::of(kind.as_str(), path.as_str(), count, call.as_str())
            }
            _ => None,
        }
    }

    fn of(kind: &str, path: &'a str, count: u32, call: &str) -> Option<Task<'a>>
        ensures { IfSome result (λ task. Names task kind.now path.entry.now call.now) }
    {
        if kind == "texts" {
            let call = TextCall::from_word(call)?;
            return Some(Task::Texts(path, Run { call, count }));
        }
        let kind = Kind::from_word(kind)?;
        match TypedCall::from_word(call) {
            Some(call) => Some(Task::Typed(kind, path, Run { call, count })),
            None => {
                let call = SchemaCall::from_word(call)?;
                Some(Task::Schema(kind, path, Run { call, count }))
            }
        }
    }
}
