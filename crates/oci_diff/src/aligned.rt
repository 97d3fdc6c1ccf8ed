//! Alignments of two arrays.
ghost use Rattle.std.specs.Prelude.{◌≡◌, ◌≤◌, ◌<◌, ◌+◌, ◌-◌, ◌⊎◌, length, slice_index, IfOk};
ghost use Rattle.std.specs.List.{All};
ghost use Rattle.serde_json.specs.View.{items_view};
ghost use Rattle.oci_diff.specs.Aligned.{AreAligned, IsStep, IsWithin, first_after, second_after};
ghost use Rattle.oci_diff.specs.Best.{IsLongest, IsStepOf, IsRow, HasRows, best, gain_of, score_at, worth};

use oci_model::alike::equal_trees;
use serde_json::Value;
use std::alloc::{AllocError, Global};

/// An array of at most so many items is short.
pub const SHORT: usize = 64;

/// What a pair of items that are the same counts in an alignment. A pair at the same index counts one more, so that it decides between
/// alignments with as many items that are the same, and no others: a short array has fewer items.
const SAME: usize = SHORT + 1;

/// A step of an alignment: to the next item of one array, or of both.
#[derive(Clone, Copy)]
pub enum Step {
    /// To an item of each array, which are the same.
    Same,
    /// To an item of each array, at this index in both.
    Both(usize),
    /// To an item of the first array alone, at this index.
    First(usize),
    /// To an item of the second array alone, at this index.
    Second(usize),
}

/// Returns an alignment of two arrays. That of two short ones names as many items that are the same as any, the longest common part, and
/// of those alignments it has as many pairs at the same index as any. In another one the pairs are those at the same index. Fails if out
/// of memory.
pub fn alignment(
    items: &Vec<Value>,
    others: &Vec<Value>,
    alloc: Global,
) -> Result<Vec<Step>, AllocError>
    ensures aligned { IfOk result (λ v. AreAligned v.items (items_view items.now.items) (items_view others.now.items)) }
    ensures longest { IfOk result (λ v. length items.now.items ≤ SHORT → length others.now.items ≤ SHORT → IsLongest v.items (items_view items.now.items) (items_view others.now.items)) }
    ensures each { IfOk result (λ v. All (IsStepOf (items_view items.now.items) (items_view others.now.items)) v.items) }
    ensures within { IfOk result (λ v. All (IsWithin (length items.now.items) (length others.now.items)) v.items) }
{
    let rows = rows_of(items, others, alloc)?;
    let mut steps = Vec::new(alloc);
    let (mut i, mut j) = (0, 0);
    while i < items.len() || j < others.len() {
        let step = next_step(items, others, i, j, &rows);
        steps.push(step)?;
        (i, j) = after(step, i, j);
    }
    Ok(steps)
}

/// Returns the next step of an alignment that has come to these indexes. With a table of scores it goes where the best alignment goes on.
fn next_step(
    items: &Vec<Value>,
    others: &Vec<Value>,
    i: usize,
    j: usize,
    rows: &Vec<Vec<usize>>,
) -> Step
    requires first { i ≤ length items.now.items }
    requires second { j ≤ length others.now.items }
    requires more { (i < length items.now.items) ⊎ (j < length others.now.items) }
    ensures step { IsStep (items_view items.now.items) (items_view others.now.items) i j result }
    ensures best { let ds = items_view items.now.items in let es = items_view others.now.items in let m = length items.now.items in let n = length others.now.items in HasRows ds es m n (m + 1) rows.now.items → best ds es m n (m - i) (n - j) ≤ worth i j result + best ds es m n (m - first_after result i) (n - second_after result j) }
    ensures within { IsWithin (length items.now.items) (length others.now.items) result }
    ensures first { first_after result i ≤ length items.now.items }
    ensures second { second_after result j ≤ length others.now.items }
{
    if i == items.len() {
        return Step::Second(j);
    }
    if j == others.len() {
        return Step::First(i);
    }
    if rows.is_empty() && i == j {
        return Step::Both(i);
    }
    let (r, c) = (items.len() - i, others.len() - j);
    let found = score(rows, r, c);
    if found == score(rows, r - 1, c) {
        Step::First(i)
    } else if found == score(rows, r, c - 1) {
        Step::Second(j)
    } else if equal_trees(&items[i], &others[j]) {
        Step::Same
    } else if i == j {
        Step::Both(i)
    } else {
        Step::First(i)
    }
}

/// Returns the indexes to which a step goes from these.
fn after(step: Step, i: usize, j: usize) -> (usize, usize)
    requires first { first_after step i ≤ usize.MAX }
    requires second { second_after step j ≤ usize.MAX }
    ensures first { result.0 ≡ first_after step i }
    ensures second { result.1 ≡ second_after step j }
{
    match step {
        Step::Same | Step::Both(_) => (i + 1, j + 1),
        Step::First(_) => (i + 1, j),
        Step::Second(_) => (i, j + 1),
    }
}

/// Returns the table of scores of two short arrays, and no rows for others. Row `r` has at `c` what the best alignment of the last `r`
/// items of the one and the last `c` of the other counts.
fn rows_of(
    items: &Vec<Value>,
    others: &Vec<Value>,
    alloc: Global,
) -> Result<Vec<Vec<usize>>, AllocError>
    ensures { IfOk result (λ v. length items.now.items ≤ SHORT → length others.now.items ≤ SHORT → HasRows (items_view items.now.items) (items_view others.now.items) (length items.now.items) (length others.now.items) (length items.now.items + 1) v.items) }
{
    let mut rows = Vec::new(alloc);
    if items.len() > SHORT || others.len() > SHORT {
        return Ok(rows);
    }
    let mut row = Vec::new(alloc);
    for left in 0..items.len() {
        let next = next_row(items, items.len() - 1 - left, others, &row, alloc)?;
        rows.push(row)?;
        row = next;
    }
    rows.push(row)?;
    Ok(rows)
}

/// Returns the row of scores with one more item of the one array: that at this index.
fn next_row(
    items: &Vec<Value>,
    index: usize,
    others: &Vec<Value>,
    row: &Vec<usize>,
    alloc: Global,
) -> Result<Vec<usize>, AllocError>
    requires below { index < length items.now.items }
    requires short { length others.now.items ≤ SHORT }
    requires row { IsRow (items_view items.now.items) (items_view others.now.items) (length items.now.items) (length others.now.items) (length items.now.items - (index + 1)) row.now.items }
    ensures { IfOk result (λ v. IsRow (items_view items.now.items) (items_view others.now.items) (length items.now.items) (length others.now.items) (length items.now.items - index) v.items) }
{
    let mut next = Vec::new(alloc);
    let mut best: usize = 0;
    next.push(best)?;
    for left in 0..others.len() {
        let worth = gain(items, index, others, others.len() - 1 - left);
        best = best.max(at(row, left + 1)).max(at(row, left) + worth);
        next.push(best)?;
    }
    Ok(next)
}

/// Returns what a pair of items counts.
fn gain(items: &Vec<Value>, i: usize, others: &Vec<Value>, j: usize) -> usize
    requires first { i < length items.now.items }
    requires second { j < length others.now.items }
    ensures gain { result ≡ gain_of (items_view items.now.items) (items_view others.now.items) i j }
    ensures most { result ≤ 66 }
{
    let same = if equal_trees(&items[i], &others[j]) {
        SAME
    } else {
        0
    };
    let extra = if i == j { 1 } else { 0 };
    same + extra
}

/// Returns the score at a place of a row. It is 0 past the row's end, where one array has no items left.
fn at(row: &Vec<usize>, place: usize) -> usize
    ensures { result ≡ slice_index row.now.items place }
{
    row.get(place).copied().unwrap_or(0)
}

/// Returns the score of the last `r` items of the one array and the last `c` of the other.
fn score(rows: &Vec<Vec<usize>>, r: usize, c: usize) -> usize
    ensures { result ≡ score_at rows.now.items r c }
{
    match rows.get(r) {
        Some(row) => at(row, c),
        None => 0,
    }
}
