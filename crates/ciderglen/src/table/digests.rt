//! The arguments of the commands on digests.
use crate::described::{Argument, Bond, FILE, FORMAT, PLAIN, Takes};

/// Those of `digest`.
pub const DIGEST: &[Argument] = &[
    Argument {
        name: "algorithm",
        help: "The algorithm
[possible values: sha256, sha384, sha512]",
        takes: Takes::Value("ALGORITHM"),
        short: Some('a'),
        values: &["sha256", "sha384", "sha512"],
        lists_values: true,
        default: &["sha256"],
        ..PLAIN
    },
    Argument {
        name: "parse",
        help: "Take digests in place of files, and write their parts",
        ..PLAIN
    },
    Argument {
        help: "How to write the parts of digests
[possible values: text, json]",
        lists_values: true,
        ..FORMAT
    },
    Argument {
        name: "check",
        help: "Take lists of digests with files, and check the files",
        bond: Bond::Without(&["parse"]),
        ..PLAIN
    },
    Argument {
        help: "The files, lists or digests; - is standard input, and so is no FILE",
        takes: Takes::Any,
        bond: Bond::With("parse"),
        ..FILE
    },
];

/// Those of `pin`.
pub const PIN: &[Argument] = &[
    Argument {
        name: "TEXT",
        help: "The reference",
        takes: Takes::Word,
        ..PLAIN
    },
    Argument {
        name: "digest",
        help: "The digest itself, in place of a descriptor",
        takes: Takes::Value("DIGEST"),
        ..PLAIN
    },
    Argument {
        name: "manifest",
        help: "A manifest or an index, whose bytes have the digest",
        takes: Takes::Value("FILE"),
        ..PLAIN
    },
    Argument {
        name: "layout",
        help: "The image layout, a folder or a tar archive, whose index has the digest",
        takes: Takes::Value("DIR"),
        ..PLAIN
    },
    Argument {
        name: "tag",
        help: "The name of the content in the index of --layout",
        takes: Takes::Value("TAG"),
        ..PLAIN
    },
    Argument {
        help: "The descriptor; - is standard input, and so is no FILE",
        ..FILE
    },
];
