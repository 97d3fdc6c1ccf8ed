//! The precedence of semantic versions (Semantic Versioning 2.0.0, section 11).
ghost use Rattle.std.specs.Prelude.{◌≡◌, ◌↔◌, ◌&&◌, false, IsTrue};
ghost use Rattle.oci_base.specs.Classes.{dot, has};
ghost use Rattle.oci_grammars.specs.Precedence as precedence;

use crate::classes::Class;
use crate::cuts::cut;
use crate::versions::is_semver;
use std::cmp::Ordering;

/// Returns whether the second of two semantic versions is of no lower precedence than the first. Texts that are none are in order.
pub fn are_in_order(first: &str, second: &str) -> bool
    ensures { IsTrue result ↔ precedence.AreInOrder first.now second.now }
{
    let one = first.as_bytes();
    let other = second.as_bytes();
    let higher = compare(one, other).is_gt();
    !is_semver(one) | (!is_semver(other) | !higher)
}

fn compare(first: &[u8], second: &[u8]) -> Ordering
    ensures { result ≡ precedence.precedence_cmp first.now second.now }
{
    let (first, _) = cut(first, b'+');
    let (second, _) = cut(second, b'+');
    compare_releases(first, second)
}

fn compare_releases(first: &[u8], second: &[u8]) -> Ordering
    ensures { result ≡ precedence.release_cmp first.now second.now }
{
    let (first_core, first_pre) = cut(first, b'-');
    let (second_core, second_pre) = cut(second, b'-');
    compare_parts(first_core, second_core).then(compare_pre_releases(first_pre, second_pre))
}

fn compare_pre_releases(first: &[u8], second: &[u8]) -> Ordering
    ensures { result ≡ precedence.pre_cmp first.now second.now }
{
    release_rank(first)
        .cmp(&release_rank(second))
        .then(compare_parts(first, second))
}

fn release_rank(pre_release: &[u8]) -> u8
    ensures { result ≡ precedence.release_rank pre_release.now }
{
    if pre_release.is_empty() { 1 } else { 0 }
}

/// Compares identifiers that are joined by dots, from left to right.
fn compare_parts(first: &[u8], second: &[u8]) -> Ordering
    ensures { result ≡ precedence.parts_cmp first.now second.now }
{
    let (mut left, mut right) = (first, second);
    while left.contains(&b'.') & right.contains(&b'.') {
        let (one, left_rest) = cut(left, b'.');
        let (other, right_rest) = cut(right, b'.');
        match compare_identifiers(one, other) {
            Ordering::Equal => (),
            order => return order,
        }
        left = left_rest;
        right = right_rest;
    }
    compare_last(left, right)
}

/// Compares identifiers that are joined by dots, one alone with one or more.
fn compare_last(first: &[u8], second: &[u8]) -> Ordering
    requires { (has dot first.now && has dot second.now) ≡ false }
    ensures { result ≡ precedence.parts_cmp first.now second.now }
{
    let (one, _) = cut(first, b'.');
    let (other, _) = cut(second, b'.');
    let order = compare_identifiers(one, other);
    if first.contains(&b'.') {
        order.then(Ordering::Greater)
    } else if second.contains(&b'.') {
        order.then(Ordering::Less)
    } else {
        order
    }
}

fn compare_identifiers(first: &[u8], second: &[u8]) -> Ordering
    ensures { result ≡ precedence.identifier_cmp first.now second.now }
{
    if Class::Digit.has_all(first) {
        if Class::Digit.has_all(second) {
            first.len().cmp(&second.len()).then(first.cmp(second))
        } else {
            Ordering::Less
        }
    } else if Class::Digit.has_all(second) {
        Ordering::Greater
    } else {
        first.cmp(second)
    }
}
