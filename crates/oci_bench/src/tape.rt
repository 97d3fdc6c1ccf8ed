//! What JSON alone costs, below both lanes: a text as a tape, and the tape as a text.
use anyhow::{Context, Result};
use json::{Error, Node, Scratch, Tape, Writer, is_number};
use std::alloc::Global;

/// Makes the compact text of a text, and drops it. Fails if it is no JSON, or if out of memory.
pub fn copy(alloc: Global, bytes: &[u8], scratch: &mut Scratch) -> Result<()> {
    let text = simdutf8::compat::from_utf8(bytes).context("the text is not UTF-8")?;
    let tape = Tape::parse(text, scratch, Vec::new(alloc))?;
    let mut writer = Writer::new(Vec::with_capacity(alloc, text.len())?);
    for node in tape.nodes() {
        write_node(&mut writer, *node)?;
    }
    Ok(())
}

/// Writes the token of a node.
fn write_node(writer: &mut Writer, node: Node<'_>) -> std::result::Result<(), Error> {
    match node {
        Node::Object(_) => writer.begin_object()?,
        Node::EndObject => writer.end_object()?,
        Node::Array(_) => writer.begin_array()?,
        Node::EndArray => writer.end_array()?,
        Node::Key(name) => writer.key(name)?,
        Node::String(text) => writer.string(text)?,
        Node::Number(text) => {
            if !is_number(text) {
                return Err(Error::Invalid);
            }
            writer.number(text)?;
        }
        Node::Bool(flag) => writer.boolean(flag)?,
        Node::Null => writer.null()?,
    }
    Ok(())
}
