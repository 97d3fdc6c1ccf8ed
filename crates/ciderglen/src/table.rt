//! The commands of the program, with their arguments and help texts, in a few tables: one alone is more than the prover takes at once.
mod digests;

use self::digests::{DIGEST, PIN};
use crate::described::{
    Argument, Bond, COLOR, Described, FILE, FINDINGS, FORMAT, IGNORE, KIND, KINDS, LEVEL,
    NO_CONFIG, ONLY, PLAIN, POLICY, QUIET, RULES, Takes, UNKNOWN,
};

/// What checks documents.
pub static CHECKING: [Described; 1] = [Described {
    name: "check",
    about: "Lists what is wrong with documents",
    example: "Example: ciderglen check --kind manifest image/manifest.json",
    arguments: &[
        KIND,
        RULES,
        POLICY,
        LEVEL,
        Argument {
            name: "platform",
            help: "The platform of the documents; without it, they say it
[possible values: linux, windows, solaris, vm, zos, freebsd]",
            takes: Takes::Value("PLATFORM"),
            values: &["linux", "windows", "solaris", "vm", "zos", "freebsd"],
            lists_values: true,
            ..PLAIN
        },
        UNKNOWN,
        Argument {
            name: "skip-unknown",
            help: "Say nothing of JSON of which no kind of documents is found",
            ..PLAIN
        },
        ONLY,
        IGNORE,
        Argument {
            name: "strict",
            help: "Warnings make a document wrong too",
            ..PLAIN
        },
        NO_CONFIG,
        FINDINGS,
        COLOR,
        Argument {
            help: "Write no findings; the exit status says all",
            ..QUIET
        },
        Argument {
            help: "The files to check, and folders; - is standard input, and so is no FILE",
            takes: Takes::Any,
            ..FILE
        },
    ],
}];

/// What writes their canonical forms.
pub static FORMATTING: [Described; 1] = [Described {
    name: "fmt",
    about: "Writes the canonical form of a document, and says what is left out of it",
    example: "Example: ciderglen fmt --pretty config.json",
    arguments: &[
        KIND,
        Argument {
            name: "pretty",
            help: "Indent the text by two spaces a level",
            ..PLAIN
        },
        Argument {
            name: "compact",
            help: "Write no spaces; this is the default",
            bond: Bond::Without(&["pretty"]),
            ..PLAIN
        },
        Argument {
            name: "check",
            help: "Write nothing; say which files are not canonical, by the exit status too",
            ..PLAIN
        },
        Argument {
            name: "output",
            help: "Write to this file, which is replaced as a whole",
            takes: Takes::Value("FILE"),
            short: Some('o'),
            bond: Bond::Without(&["check"]),
            ..PLAIN
        },
        Argument {
            name: "write",
            help: "Write each file in place, as --output with its own name does",
            short: Some('w'),
            bond: Bond::Without(&["check", "output"]),
            ..PLAIN
        },
        Argument {
            name: "keep-unknown",
            help: "Write members that the schema does not list, too, in their places",
            ..PLAIN
        },
        Argument {
            name: "drop-unknown",
            help: "Write a file also where members are left out of it:
unknown ones, and earlier ones of one name",
            bond: Bond::Without(&["keep-unknown"]),
            ..PLAIN
        },
        Argument {
            help: "Do not say what is left out",
            ..QUIET
        },
        Argument {
            name: "verbose",
            help: "Say the digests before and after",
            ..PLAIN
        },
        Argument {
            help: "The file to read, or files with --write or --check;
- is standard input, and so is no FILE",
            takes: Takes::Any,
            ..FILE
        },
    ],
}];

/// What verifies, compares and shows images.
pub static IMAGES: [Described; 4] = [
    Described {
        name: "verify",
        about: "Verifies that all that an image layout reaches is there and is what it claims to be",
        example: "Example: ciderglen verify image",
        arguments: &[
            RULES,
            POLICY,
            LEVEL,
            UNKNOWN,
            ONLY,
            IGNORE,
            Argument {
                name: "strict",
                help: "Warnings and notes are wrong too",
                ..PLAIN
            },
            NO_CONFIG,
            FINDINGS,
            COLOR,
            Argument {
                name: "quick",
                help: "Look at the sizes of layers alone, and do not read them",
                ..PLAIN
            },
            Argument {
                name: "progress",
                help: "Write a line a second of what was done on standard error",
                ..PLAIN
            },
            Argument {
                name: "verbose",
                help: "Write how much was verified on standard error",
                ..PLAIN
            },
            Argument {
                name: "IMAGE",
                help: "The image layout: a folder, or a tar archive of one, which gzip may have
compressed; - is one on standard input",
                takes: Takes::Word,
                ..PLAIN
            },
        ],
    },
    Described {
        name: "inspect",
        about: "Shows an image of an image layout, found by its name and platform",
        example: "Example: ciderglen inspect --platform linux/arm64 image:latest",
        arguments: &[
            Argument {
                name: "platform",
                help: "The platform on which it is to run, as linux/arm64/v8;\nof several images the one is taken that runs there best",
                takes: Takes::Value("PLATFORM"),
                ..PLAIN
            },
            Argument {
                name: "manifest",
                help: "Write the bytes of the manifest",
                ..PLAIN
            },
            Argument {
                name: "config",
                help: "Write the bytes of the configuration",
                bond: Bond::Without(&["manifest"]),
                ..PLAIN
            },
            Argument {
                name: "digest",
                help: "Write the digest of the manifest",
                bond: Bond::Without(&["manifest", "config"]),
                ..PLAIN
            },
            FORMAT,
            Argument {
                name: "IMAGE",
                help: "The image layout, a folder or a tar archive, and behind a colon\nthe name of an image in it, where it has several",
                takes: Takes::Word,
                ..PLAIN
            },
        ],
    },
    Described {
        name: "diff",
        about: "Lists what differs between the canonical forms of two documents",
        example: "Example: ciderglen diff old.json new.json",
        arguments: &[
            KIND,
            FORMAT,
            COLOR,
            Argument {
                help: "Write no differences; the exit status says all",
                ..QUIET
            },
            Argument {
                name: "A",
                help: "The file before",
                takes: Takes::Word,
                ..PLAIN
            },
            Argument {
                name: "B",
                help: "The file after",
                takes: Takes::Word,
                ..PLAIN
            },
        ],
    },
    Described {
        name: "tree",
        about: "Shows an image index, a manifest or an image layout as a tree",
        example: "Example: ciderglen tree index.json",
        arguments: &[Argument {
            help: "The file to read, or an image layout: a folder, or a tar archive of one;
- is standard input, and so is no FILE",
            ..FILE
        }],
    },
];

/// What writes the kinds of documents, and the parts of references and digests.
pub static NAMES: [Described; 4] = [
    Described {
        name: "kind",
        about: "Writes the kind of each document, as check finds it out",
        example: "Example: ciderglen kind *.json",
        arguments: &[
            FORMAT,
            Argument {
                help: "The documents; - is standard input, and so is no FILE",
                takes: Takes::Any,
                ..FILE
            },
        ],
    },
    Described {
        name: "ref",
        about: "Writes the parts of image references",
        example: "Example: ciderglen ref busybox:1",
        arguments: &[
            FORMAT,
            Argument {
                name: "TEXT",
                help: "The references",
                takes: Takes::Words,
                ..PLAIN
            },
        ],
    },
    Described {
        name: "digest",
        about: "Writes or checks the digests of files, or writes the parts of digests",
        example: "Example: ciderglen digest blob.tar.gz",
        arguments: DIGEST,
    },
    Described {
        name: "pin",
        about: "Writes an image reference with the digest of a descriptor or manifest",
        example: "Example: ciderglen pin busybox:1 descriptor.json",
        arguments: PIN,
    },
];

/// What shows rules and schemas.
pub static BOOKS: [Described; 3] = [
    Described {
        name: "rules",
        about: "Lists the rules of the specifications",
        example: "Example: ciderglen rules image-config",
        arguments: &[
            FORMAT,
            Argument {
                name: "NAME",
                help: "A kind of documents, or the name of a rule",
                takes: Takes::Maybe,
                ..PLAIN
            },
        ],
    },
    Described {
        name: "explain",
        about: "Says what a rule asks, where and why, with an example",
        example: "Example: ciderglen explain manifest-schema-version",
        arguments: &[Argument {
            name: "RULE",
            help: "The name of the rule",
            takes: Takes::Word,
            ..PLAIN
        }],
    },
    Described {
        name: "schema",
        about: "Lists the members of a kind of documents",
        example: "Example: ciderglen schema manifest",
        arguments: &[
            Argument {
                help: "How to write it: as a table, or as a JSON Schema (draft 2020-12)
[possible values: text, json-schema]",
                values: &["text", "json-schema"],
                lists_values: true,
                ..FORMAT
            },
            Argument {
                name: "KIND",
                help: "The kind of documents
[possible values: manifest, index, config, image-config, artifact,
layout, descriptor, error, repositories, tags, reference, spec,
runtime-config, state, process-state, features]",
                takes: Takes::Word,
                values: KINDS,
                lists_values: true,
                ..PLAIN
            },
        ],
    },
];
