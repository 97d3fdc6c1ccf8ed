//! From bytes to documents.
ghost use Rattle.std.specs.Prelude.{◌≡◌, ◌+◌, ◌<◌, ◌≤◌, ℕ, List, length, vec_len, take, drop, IfOk, IfErr, IfSome, OnOk, OnErr};
ghost use Rattle.std.specs.Io.KnownBytes.{Consumes, Keeps, IsAtEnd};
ghost use Rattle.oci_base.specs.Refused.{IsSchema, IsJson, IsMemoryOrSerDe, IsMemorySerDeOrIo, IsMemoryOrIo};
ghost use Rattle.serde_json.specs.View.{view};
ghost use Rattle.oci_json.specs.Engines.{ReadsAs, MeansBytes, IsNoJson, IsNoDocument};

use oci_base::{OciSpecError, Result, SerDeError};
use oci_model::OciRecord;
use serde_json::Value;
use std::alloc::{AllocError, Global};
use std::io;
use std::io::Read;

/// How many bytes the first read asks for. The buffer doubles whenever it is full.
const FIRST_READ: usize = 512;

/// Deserializes a document from bytes. Fails with `SerDe(Json)` if they are not JSON (not UTF-8 or nested deeper than 127 levels,
/// too), with `SerDe(Schema)` if they are JSON that the schema rejects, and with `Memory` if out of memory.
pub fn from_slice<T: OciRecord>(alloc: Global, bytes: &[u8]) -> Result<T>
    ensures ok { IfOk result (λ x. MeansBytes T.shape bytes.now (T.plain x)) }
    ensures json { IfErr result (λ e. IsJson e → IsNoJson bytes.now) }
    ensures schema { IfErr result (λ e. IsSchema e → IsNoDocument T.shape bytes.now) }
    ensures kind { IfErr result IsMemoryOrSerDe }
{
    let value = value_from_slice(alloc, bytes)?;
    T::from_value_owned(alloc, value)
}

/// Parses bytes as JSON. Fails with `SerDe(Json)` if they are not JSON (not UTF-8 or nested deeper than 127 levels, too), and with
/// `Memory` if out of memory.
pub fn value_from_slice(alloc: Global, bytes: &[u8]) -> Result<Value>
    ensures ok { IfOk result (λ v. ReadsAs bytes.now (view v)) }
    ensures json { IfErr result (λ e. IsJson e → IsNoJson bytes.now) }
    ensures no_schema { IfErr result (λ e. ¬ IsSchema e) }
    ensures kind { IfErr result IsMemoryOrSerDe }
{
    match Value::from_slice(alloc, bytes) {
        Ok(value) => Ok(value),
        Err(fault) => {
            if fault.is_memory() {
                Err(OciSpecError::Memory)
            } else {
                Err(OciSpecError::SerDe(SerDeError::Json(fault)))
            }
        }
    }
}

/// Reads to the end. Fails with the reader's first error, an interrupted read included, and with `Memory` if out of memory, as for
/// a reader that never ends; then a beginning was read.
pub fn bytes_from_reader<R: Read>(alloc: Global, reader: &mut R) -> Result<Vec<u8>>
    ensures ok { IfOk result (λ bytes. IfSome (R.remaining reader.old) (λ all. bytes.items ≡ all)) }
    ensures end { OnOk result (IsAtEnd (R.remaining reader.new)) }
    ensures begun { OnErr result ((begun : List ℕ) × Consumes (R.remaining reader.old) (R.remaining reader.new) begun) }
    ensures kind { IfErr result IsMemoryOrIo }
{
    let mut bytes = Vec::new(alloc);
    let mut filled = 0;
    loop {
        let count = read_more(reader, &mut bytes, filled)?;
        if count == 0 {
            bytes.truncate(filled);
            return Ok(bytes);
        }
        filled += count;
    }
}

/// One read after the first `filled` bytes, which are kept. A full buffer grows first. After an error nothing was read.
fn read_more<R: Read>(reader: &mut R, bytes: &mut Vec<u8>, filled: usize) -> Result<usize>
    requires { filled ≤ vec_len bytes.old }
    ensures front { OnOk result (take filled bytes.new.items ≡ take filled bytes.old.items) }
    ensures fits { IfOk result (λ n. filled + n ≤ vec_len bytes.new) }
    ensures ok { IfOk result (λ n. Consumes (R.remaining reader.old) (R.remaining reader.new) (take n (drop filled bytes.new.items))) }
    ensures end { IfOk result (λ n. n ≡ 0 → IsAtEnd (R.remaining reader.new)) }
    ensures unread { OnErr result (Keeps (R.remaining reader.old) (R.remaining reader.new)) }
    ensures kind { IfErr result IsMemoryOrIo }
{
    grow_if_full(bytes, filled)?;
    Ok(read_after(reader, bytes.as_mut_slice(), filled)?)
}

/// Doubles the buffer if it is full.
fn grow_if_full(bytes: &mut Vec<u8>, filled: usize) -> std::result::Result<(), AllocError>
    requires { filled ≤ vec_len bytes.old }
    ensures room { OnOk result (filled < vec_len bytes.new) }
    ensures front { OnOk result (take filled bytes.new.items ≡ take filled bytes.old.items) }
{
    if filled == bytes.len() {
        bytes.resize(filled + filled.max(FIRST_READ), 0)?;
    }
    Ok(())
}

/// One read into what follows the first `at` bytes.
fn read_after<R: Read>(reader: &mut R, bytes: &mut [u8], at: usize) -> io::Result<usize>
    requires { at < length bytes.old }
    ensures front { take at bytes.new ≡ take at bytes.old }
    ensures fits { IfOk result (λ n. at + n ≤ length bytes.new) }
    ensures ok { IfOk result (λ n. Consumes (R.remaining reader.old) (R.remaining reader.new) (take n (drop at bytes.new))) }
    ensures end { IfOk result (λ n. n ≡ 0 → IsAtEnd (R.remaining reader.new)) }
    ensures unread { OnErr result (Keeps (R.remaining reader.old) (R.remaining reader.new)) }
{
    reader.read(&mut bytes[at..])
}

/// Reads to the end and parses the bytes as JSON. Fails with `SerDe(Json)` if they are not JSON, or with `Io` if a read fails. The
/// bytes are dropped before the value is returned.
pub fn value_from_reader<R: Read + Drop>(alloc: Global, mut reader: R) -> Result<Value>
    ensures ok { IfOk result (λ v. IfSome (R.remaining reader) (λ bytes. ReadsAs bytes (view v))) }
    ensures json { IfErr result (λ e. IsJson e → IfSome (R.remaining reader) IsNoJson) }
    ensures no_schema { IfErr result (λ e. ¬ IsSchema e) }
    ensures kind { IfErr result IsMemorySerDeOrIo }
{
    let bytes = bytes_from_reader(alloc, &mut reader)?;
    value_from_slice(alloc, bytes.as_slice())
}

/// Reads to the end and deserializes a document. Fails as `from_slice`, and with `Io` if a read fails.
pub fn from_reader<T: OciRecord, R: Read + Drop>(alloc: Global, reader: R) -> Result<T>
    ensures ok { IfOk result (λ x. IfSome (R.remaining reader) (λ bytes. MeansBytes T.shape bytes (T.plain x))) }
    ensures json { IfErr result (λ e. IsJson e → IfSome (R.remaining reader) IsNoJson) }
    ensures schema { IfErr result (λ e. IsSchema e → IfSome (R.remaining reader) (IsNoDocument T.shape)) }
    ensures kind { IfErr result IsMemorySerDeOrIo }
{
    let value = value_from_reader(alloc, reader)?;
    T::from_value_owned(alloc, value)
}
