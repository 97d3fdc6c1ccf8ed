//! Distribution documents made in code: built, written and copied.

use crate::checks::{check, written};
use oci_base::Result;
use oci_distribution::{
    ErrorCode, ErrorInfo, ErrorInfoBuilder, ErrorResponse, ErrorResponseBuilder, RepositoryList,
    RepositoryListBuilder, TagList, TagListBuilder,
};
use oci_test_support::Harness;
use std::alloc::Global;

pub fn info(alloc: Global, detail: &str) -> Result<ErrorInfo> {
    let detail = String::from_str(alloc, detail)?;
    ErrorInfoBuilder::default()
        .code(ErrorCode::Unauthorized)
        .detail(detail)
        .build(alloc)
}

pub fn reply(alloc: Global, detail: &str) -> Result<ErrorResponse> {
    let errors = vec![in alloc; info(alloc, detail)?]?;
    ErrorResponseBuilder::default().errors(errors).build(alloc)
}

fn strings(alloc: Global, text: &str) -> Result<Vec<String>> {
    Ok(vec![in alloc; String::from_str(alloc, text)?]?)
}

fn repositories(alloc: Global) -> Result<RepositoryList> {
    RepositoryListBuilder::default()
        .repositories(strings(alloc, "busybox")?)
        .build(alloc)
}

fn tags(alloc: Global) -> Result<TagList> {
    let name = String::from_str(alloc, "busybox")?;
    TagListBuilder::default()
        .name(name)
        .tags(strings(alloc, "latest")?)
        .build(alloc)
}

/// A copy of each document.
#[derive(Clone, Copy)]
enum Document {
    Info,
    Reply,
    Repositories,
    Tags,
}

static COPIES: [(Document, &str); 4] = [
    (Document::Info, r#"{"code":"UNAUTHORIZED","detail":5}"#),
    (
        Document::Reply,
        r#"{"errors":[{"code":"UNAUTHORIZED","detail":5}]}"#,
    ),
    (Document::Repositories, r#"{"repositories":["busybox"]}"#),
    (Document::Tags, r#"{"name":"busybox","tags":["latest"]}"#),
];

fn copied(alloc: Global, document: Document) -> Result<String> {
    match document {
        Document::Info => written(alloc, info(alloc, "5")?.clone(alloc)),
        Document::Reply => written(alloc, reply(alloc, "5")?.clone(alloc)),
        Document::Repositories => written(alloc, repositories(alloc)?.clone(alloc)),
        Document::Tags => written(alloc, tags(alloc)?.clone(alloc)),
    }
}

pub fn all(harness: &mut Harness<'_>) {
    let alloc = harness.rt.alloc();
    for (document, text) in &COPIES {
        check(harness, text, copied(alloc, *document), Ok(*text));
    }
    harness.end("distribution", "copies");
}
