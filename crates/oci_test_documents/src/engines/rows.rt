use crate::checks::Answer;
use std::io::ErrorKind;

const NO_JSON: Answer<'_> = Err(("Json", ""));

/// A text, and the compact text of the list of repositories that it is.
pub(super) static LISTS: [(&[u8], Answer<'_>); 32] = [
    (br#"{"repositories":[]}"#, Ok(r#"{"repositories":[]}"#)),
    (
        b"\t\r\n {\"other\" : [ 1.5 , null ] , \"repositories\" : [ \"b\" , \"a\" , \"b\" ] } \n",
        Ok(r#"{"repositories":["b","a","b"]}"#),
    ),
    (
        br#"{"\u0072epositories":["\u0062usybox","\ud83d\ude00","\/"]}"#,
        Ok("{\"repositories\":[\"busybox\",\"\u{1f600}\",\"/\"]}"),
    ),
    (
        br#"{"repositories":["\"\\\b\f\n\r\t\u0001"]}"#,
        Ok(r#"{"repositories":["\"\\\b\f\n\r\t\u0001"]}"#),
    ),
    (b"[]", Err(("RepositoryList", ""))),
    (b"{}", Err(("RepositoryList", "repositories"))),
    (
        br#"{"repositories":["a",1]}"#,
        Err(("RepositoryList", "repositories")),
    ),
    (b"", NO_JSON),
    (b" ", NO_JSON),
    (b"{", NO_JSON),
    (br#"{"repositories":[]"#, NO_JSON),
    (br#"{"repositories":[]}}"#, NO_JSON),
    (br#"{"repositories":[]}{"repositories":[]}"#, NO_JSON),
    (br#"{"repositories":[],}"#, NO_JSON),
    (br#"{"repositories":["a",]}"#, NO_JSON),
    (br#"{"repositories":[] /* none */}"#, NO_JSON),
    (br#"{'repositories':[]}"#, NO_JSON),
    (br#"{repositories:[]}"#, NO_JSON),
    (br#"{"repositories":["\x"]}"#, NO_JSON),
    (br#"{"repositories":["\ud83d"]}"#, NO_JSON),
    (b"{\"repositories\":[\"\n\"]}", NO_JSON),
    (br#"{"repositories":[],"other":01}"#, NO_JSON),
    (br#"{"repositories":[],"other":+1}"#, NO_JSON),
    (br#"{"repositories":[],"other":.5}"#, NO_JSON),
    (br#"{"repositories":[],"other":NaN}"#, NO_JSON),
    (br#"{"repositories":[],"other":1e400}"#, NO_JSON),
    (b"\xef\xbb\xbf{\"repositories\":[]}", NO_JSON),
    // no UTF-8: a lone byte of a sequence, one cut short, one longer than needed, half of a surrogate pair
    (b"{\"repositories\":[\"\xff\"]}", NO_JSON),
    (b"{\"repositories\":[\"\xe9\"]}", NO_JSON),
    (b"{\"repositories\":[\"\xc0\xaf\"]}", NO_JSON),
    (b"{\"repositories\":[\"\xed\xa0\x80\"]}", NO_JSON),
    (b"{\"repositories\":[]}\x80", NO_JSON),
];

/// How many bytes a reader gives at most, the read that fails, and how.
pub(super) static FAILING_READERS: [(usize, usize, ErrorKind); 6] = [
    (usize::MAX, 1, ErrorKind::PermissionDenied),
    (usize::MAX, 1, ErrorKind::Interrupted),
    (5, 2, ErrorKind::Interrupted),
    (1, 7, ErrorKind::BrokenPipe),
    // after the last byte
    (usize::MAX, 2, ErrorKind::Other),
    (1, 20, ErrorKind::UnexpectedEof),
];

/// A text of an error reply, its compact text and its pretty text.
pub(super) static REPLIES: [(&str, &str, &str); 3] = [
    (
        r#"{"errors":[]}"#,
        r#"{"errors":[]}"#,
        "{\n  \"errors\": []\n}",
    ),
    (
        r#"{"errors":[{"code":"DENIED","detail":{"b":1,"a":null}}]}"#,
        r#"{"errors":[{"code":"DENIED","detail":{"a":null,"b":1}}]}"#,
        r#"{
  "errors": [
    {
      "code": "DENIED",
      "detail": {
        "a": null,
        "b": 1
      }
    }
  ]
}"#,
    ),
    (
        r#"{"more":1.5,"errors":[{"message":"\"\u00e9\n\u0000/","detail":[{},[],["x",-1],true],"code":"UNSUPPORTED"},{"code":"NAME_INVALID"}]}"#,
        "{\"errors\":[{\"code\":\"UNSUPPORTED\",\"detail\":[{},[],[\"x\",-1],true],\"message\":\"\\\"\u{e9}\\n\\u0000/\"},{\"code\":\"NAME_INVALID\"}]}",
        "{
  \"errors\": [
    {
      \"code\": \"UNSUPPORTED\",
      \"detail\": [
        {},
        [],
        [
          \"x\",
          -1
        ],
        true
      ],
      \"message\": \"\\\"\u{e9}\\n\\u0000/\"
    },
    {
      \"code\": \"NAME_INVALID\"
    }
  ]
}",
    ),
];

/// A writer that fails: how many bytes it takes at most, the write that fails, if one does, whether a flush fails, how, and how many
/// bytes were taken before.
pub(super) static FAILING_WRITERS: [(usize, usize, bool, ErrorKind, usize); 8] = [
    (usize::MAX, 1, false, ErrorKind::Interrupted, 0),
    (1, 1, false, ErrorKind::BrokenPipe, 0),
    (1, 2, false, ErrorKind::Interrupted, 1),
    (3, 5, false, ErrorKind::BrokenPipe, 12),
    (4, 3, false, ErrorKind::Interrupted, 8),
    // a write that takes no byte
    (0, usize::MAX, false, ErrorKind::WriteZero, 0),
    // behind the whole text
    (
        usize::MAX,
        usize::MAX,
        true,
        ErrorKind::Interrupted,
        usize::MAX,
    ),
    (10, usize::MAX, true, ErrorKind::StorageFull, usize::MAX),
];

/// A text that code sets as the `detail` of an error, and what is written of the error: the value of that text, or nothing where
/// it is no JSON or holds a number that is no 64-bit whole one.
pub(super) static DETAILS: [(&str, Answer<'_>); 15] = [
    (
        r#"{ "b": 1, "a": null }"#,
        Ok(r#"{"code":"UNAUTHORIZED","detail":{"a":null,"b":1}}"#),
    ),
    ("null", Ok(r#"{"code":"UNAUTHORIZED","detail":null}"#)),
    (r#""\u0061""#, Ok(r#"{"code":"UNAUTHORIZED","detail":"a"}"#)),
    (
        " [ -1 , 18446744073709551615 ] ",
        Ok(r#"{"code":"UNAUTHORIZED","detail":[-1,18446744073709551615]}"#),
    ),
    ("abcd", Err(("ErrorInfo", "detail"))),
    ("", Err(("ErrorInfo", "detail"))),
    ("{", Err(("ErrorInfo", "detail"))),
    ("{ \"key\": }", Err(("ErrorInfo", "detail"))),
    ("1.5", Err(("ErrorInfo", "detail"))),
    ("-0", Err(("ErrorInfo", "detail"))),
    ("[1e0]", Err(("ErrorInfo", "detail"))),
    ("{\"a\":[-0]}", Err(("ErrorInfo", "detail"))),
    ("18446744073709551616", Err(("ErrorInfo", "detail"))),
    ("-9223372036854775809", Err(("ErrorInfo", "detail"))),
    ("{} {}", Err(("ErrorInfo", "detail"))),
];
