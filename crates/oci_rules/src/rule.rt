//! Rules as values.
use oci_grammars::Grammar;

/// How strongly a specification asks (RFC 2119).
#[derive(Clone, Copy)]
pub enum Level {
    /// MUST, MUST NOT, REQUIRED.
    Must,
    /// A format, a range or a list of values, without such a word.
    Stated,
    /// SHOULD, SHOULD NOT, RECOMMENDED, DEPRECATED.
    Should,
    /// No sentence of the specification: a manual page that it names, the kernel or every runtime refuses it, or it is a hint.
    Host,
}

/// A platform that a document is for.
#[derive(Clone, Copy)]
pub enum RuntimePlatform {
    /// Linux.
    Linux,
    /// Windows.
    Windows,
    /// Solaris.
    Solaris,
    /// A virtual machine.
    Vm,
    /// z/OS.
    Zos,
    /// FreeBSD.
    FreeBsd,
}

/// The platforms that a rule is for.
#[derive(Clone, Copy)]
pub enum Platforms<'a> {
    /// All of them.
    Every,
    /// These.
    These(&'a [RuntimePlatform]),
}

/// From where a condition looks.
#[derive(Clone, Copy)]
pub enum Origin {
    /// From the value that has been come to.
    Part,
    /// From the whole document.
    Document,
}

/// What may be so of the value that a way of names leads to. Nothing is so of no value, and null is none.
#[derive(Clone, Copy)]
pub enum Predicate<'a> {
    /// There is a value.
    There,
    /// It is one of these strings.
    OneOf(&'a [&'a str]),
    /// It is this boolean.
    Boolean(bool),
    /// It is an integer, from the one bound to the other, both included.
    Within(i128, i128),
    /// It is an array with one of these strings.
    Lists(&'a [&'a str]),
    /// It is an array with an item that has one of the strings (second) under the name (first), each of the members (third), and
    /// none of the members (fourth). A member that is an empty string is none.
    ListsItem(&'a str, &'a [&'a str], &'a [&'a str], &'a [&'a str]),
}

/// A condition.
#[derive(Clone, Copy)]
pub struct Condition<'a> {
    /// From where it looks.
    pub origin: Origin,
    /// The names of the members that lead to the value.
    pub way: &'a [&'a str],
    /// Whether the check has to be so, or has not to be.
    pub holds: bool,
    /// What is checked there.
    pub check: Predicate<'a>,
}

/// One step from a value to its parts.
#[derive(Clone, Copy)]
pub enum Step<'a> {
    /// To the member of this name, unless it is null.
    Member(&'a str),
    /// To each item of an array.
    EachItem,
    /// To each member of an object.
    EachMember,
    /// To the name of each member of an object, as a string.
    EachName,
    /// To the value itself, if the condition holds.
    When(Condition<'a>),
}

/// By what the items of an array are compared; an item without it is like no other.
#[derive(Clone, Copy)]
pub enum Key<'a> {
    /// By themselves, where they are strings or integers.
    Itself,
    /// By the strings or integers to which these ways of names lead, all of them.
    Members(&'a [&'a [&'a str]]),
    /// By what stands before the first `=` of a string, as the name of an environment entry does.
    EntryName,
}

/// What a rule asks of a part. Of a part of another kind it asks nothing, which the schema is for.
#[derive(Clone, Copy)]
pub enum Test<'a> {
    /// A string is of this grammar.
    Text(Grammar),
    /// A string that is a licence expression (SPDX) has licences of the first list, and exceptions of the second, in any case; each list
    /// is identifiers joined by spaces.
    SpdxIdentifiers(&'a str, &'a str),
    /// A string is one of these.
    OneOf(&'a [&'a str]),
    /// A string is none of these.
    NoneOf(&'a [&'a str]),
    /// A string begins with this.
    Begins(&'a str),
    /// A string has a match of this regular expression, in the syntax of the crate `regex`; `^` and `$` hold it to the ends. None has a
    /// match of what is no regular expression.
    Matches(&'a str),
    /// A string that begins with the first is one of the others.
    Reserved(&'a str, &'a [&'a str]),
    /// An integer is from the one bound to the other, both included.
    Within(i128, i128),
    /// A boolean is this one.
    Boolean(bool),
    /// An object has this member; null is none.
    There(&'a str),
    /// An object has no such member; null is none.
    Absent(&'a str),
    /// An object's member of this name, if it is there, is not null.
    NotNull(&'a str),
    /// An object's member of this name, if it is there, is a boolean; null is none.
    BooleanMember(&'a str),
    /// An object has one of these members; null is none.
    Either(&'a [&'a str]),
    /// A string has a byte, an array an item, an object a member.
    NotEmpty,
    /// A string has at most so many bytes, an array so many items, an object so many members.
    LengthAtMost(usize),
    /// Of an object: the first member is no larger than the second, where both are integers.
    AtMost(&'a str, &'a str),
    /// Of an object: the second member is of no lower precedence than the first, where both are semantic versions.
    VersionsInOrder(&'a str, &'a str),
    /// Of an object: the two members together are no larger than this, where both are integers that are not negative.
    SumAtMost(&'a str, &'a str, u64),
    /// Of an object: the items of the array to which the first names lead, without those that have `true` under the name, are as
    /// many as the items of the array to which the last names lead, where both arrays are there.
    AsMany(&'a [&'a str], &'a str, &'a [&'a str]),
    /// An array has one of these strings.
    Lists(&'a [&'a str]),
    /// An array has an item with the second string under the first name.
    ListsItem(&'a str, &'a str),
    /// No path under this name in an item of an array is inside that of another, as Windows compares paths.
    Apart(&'a str),
    /// No two items of an array have the same key.
    Distinct(Key<'a>),
    /// Of an object: each string of the array under the first name is in the array under the second, of which none has no strings.
    Among(&'a str, &'a str),
}

/// A rule: of each part that the steps lead to it asks for this.
#[derive(Clone, Copy)]
pub struct Rule<'a> {
    /// Its name, which stays.
    pub name: &'a str,
    /// How strongly it is asked for.
    pub level: Level,
    /// Where it is stated.
    pub section: &'a str,
    /// What is wanted, for people.
    pub wanted: &'a str,
    /// The platforms that it is for.
    pub platforms: Platforms<'a>,
    /// The steps from the document to the parts.
    pub place: &'a [Step<'a>],
    /// What is asked of each part.
    pub test: Test<'a>,
}

/// A part that breaks a rule.
#[derive(Drop)]
pub struct Broken<'a> {
    /// The rule.
    pub rule: &'a Rule<'a>,
    /// Where the part stands, as a JSON pointer (RFC 6901).
    pub pointer: String,
}
