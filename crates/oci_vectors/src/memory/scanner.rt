//! The scanner against a plain reading of the grammar.

use grammar::answer;
use oci_reference::{ParseError, Places, Scanner};
use oci_test_support::Harness;

mod grammar;

fn push(scanner: &mut Scanner, byte: u8) {
    if scanner.room() {
        scanner.push(byte);
    }
}

fn scanned(bytes: &[u8]) -> Scanner {
    let mut scanner = Scanner::new();
    for byte in bytes {
        push(&mut scanner, *byte);
    }
    scanner
}

/// Counts a scanner that answers behind a text as the plain reading does.
fn check_scanner(harness: &mut Harness<'_>, scanner: &Scanner, text: &[u8]) {
    match str::from_utf8(text) {
        Ok(text) => harness.count(text, 0, scanner.finish() == answer(text)),
        Err(_) => harness.count("no text", 0, false),
    }
}

static LETTERS: [u8; 8] = *b"aA0._-:/";

/// Pushes the five letters that a number names by its octal digits, and compares behind each push behind which only the first letter
/// follows. So over all numbers each text of one letter to five is compared once.
fn check_number(harness: &mut Harness<'_>, number: u32) {
    let mut scanner = Scanner::new();
    let (mut text, mut rest) = ([0u8; 5], number);
    for place in 0..5usize {
        let letter = LETTERS[(rest % 8) as usize];
        text[place] = letter;
        push(&mut scanner, letter);
        rest /= 8;
        if rest == 0 {
            check_scanner(harness, &scanner, &text[..place + 1]);
        }
    }
}

/// All 37,449 texts of at most five of the letters.
fn short_texts(harness: &mut Harness<'_>) {
    check_scanner(harness, &Scanner::new(), b"");
    for number in 0..32_768u32 {
        check_number(harness, number);
    }
    harness.end("scanner", "short texts");
}

/// Texts with digests, and longer tags and ports.
static LONGER: [&str; 8] = [
    "a@sha256:00000000000000000000000000000000",
    "a@sha256:0000000000000000000000000000000",
    "a.b:5000/c__d:t.-_@a+b.c:0123456789abcdefABCDEF0123456789",
    "a:t@a+:00000000000000000000000000000000",
    "a___b",
    "a-----b",
    "localhost:5000/a/b:c",
    "A.B/c:D",
];

fn longer_texts(harness: &mut Harness<'_>) {
    for text in &LONGER {
        check_scanner(harness, &scanned(text.as_bytes()), text.as_bytes());
    }
    harness.end("scanner", "longer texts");
}

/// Bytes, and what is found of them.
static PLACES: [(&[u8], Result<Places, ParseError>); 5] = [
    (
        b"test:5000",
        Ok(Places {
            name: 4,
            tag: Some((5, 9)),
            digest: None,
        }),
    ),
    (b"test:5000/", Err(ParseError::ReferenceInvalidFormat)),
    (
        b"test:5000/repo",
        Ok(Places {
            name: 14,
            tag: None,
            digest: None,
        }),
    ),
    (b"\xe9", Err(ParseError::ReferenceInvalidFormat)),
    (b"a\xe9", Err(ParseError::ReferenceInvalidFormat)),
];

fn places(harness: &mut Harness<'_>) {
    for (bytes, expected) in &PLACES {
        let found = scanned(bytes).finish();
        harness.count("places", bytes.len(), found == *expected);
    }
}

fn many_letters(harness: &mut Harness<'_>) {
    let mut scanner = Scanner::new();
    for _ in 0..100_000 {
        push(&mut scanner, b'a');
    }
    let places = Places {
        name: 100_000,
        tag: None,
        digest: None,
    };
    harness.count("letters", 100_000, scanner.finish() == Ok(places));
}

/// A copy of a scanner stays as it was.
fn copied_scanners(harness: &mut Harness<'_>) {
    let mut one = Scanner::new();
    let other = one;
    push(&mut one, b'a');
    harness.count("copy", 0, one.count() == 1 && other.count() == 0);
}

pub fn all(harness: &mut Harness<'_>) {
    short_texts(harness);
    longer_texts(harness);
    places(harness);
    many_letters(harness);
    copied_scanners(harness);
    harness.end("scanner", "answers");
}
