//! The results for all members of a record put together, so that reading or copying it has one exit and not one a member. All are
//! inlined: a call would fill its locals with zeros and copy the members, and those of a `Spec` are 4 KB.
ghost use Rattle.std.specs.Prelude.{◌≡◌, ◌⊎◌, Ok, Err, IfOk, IfErr, IsOk};

use oci_base::Result;

/// Returns both results, or the first error.
#[inline(always)]
pub fn try_join2<A: Drop, B: Drop>(first: Result<A>, second: Result<B>) -> Result<(A, B)>
    ensures ok { IfOk result (λ x. (first ≡ Ok x.0) × (second ≡ Ok x.1)) }
    ensures err { IfErr result (λ e. (first ≡ Err e) ⊎ (IsOk first × (second ≡ Err e))) }
{
    Ok((first?, second?))
}

/// Returns all three results, or the first error.
#[inline(always)]
pub fn try_join3<A: Drop, B: Drop, C: Drop>(
    first: Result<A>,
    second: Result<B>,
    third: Result<C>,
) -> Result<(A, B, C)>
    ensures ok { IfOk result (λ x. (first ≡ Ok x.0) × (second ≡ Ok x.1) × (third ≡ Ok x.2)) }
    ensures err { IfErr result (λ e. (first ≡ Err e) ⊎ ((IsOk first × (second ≡ Err e)) ⊎ (IsOk first × IsOk second × (third ≡ Err e)))) }
{
    let ((first, second), third) = try_join2(try_join2(first, second), third)?;
    Ok((first, second, third))
}

/// Returns all four results, or the first error.
#[inline(always)]
pub fn try_join4<A: Drop, B: Drop, C: Drop, D: Drop>(
    first: Result<A>,
    second: Result<B>,
    third: Result<C>,
    fourth: Result<D>,
) -> Result<(A, B, C, D)>
    ensures ok { IfOk result (λ x. (first ≡ Ok x.0) × (second ≡ Ok x.1) × (third ≡ Ok x.2) × (fourth ≡ Ok x.3)) }
    ensures err { IfErr result (λ e. (first ≡ Err e) ⊎ ((IsOk first × (second ≡ Err e)) ⊎ ((IsOk first × IsOk second × (third ≡ Err e)) ⊎ (IsOk first × IsOk second × IsOk third × (fourth ≡ Err e))))) }
{
    let ((first, second), (third, fourth)) = try_join2(
        try_join2(first, second),
        try_join2(third, fourth),
    )?;
    Ok((first, second, third, fourth))
}

/// Returns all five results, or the first error.
#[inline(always)]
pub fn try_join5<A: Drop, B: Drop, C: Drop, D: Drop, E: Drop>(
    first: Result<A>,
    second: Result<B>,
    third: Result<C>,
    fourth: Result<D>,
    fifth: Result<E>,
) -> Result<(A, B, C, D, E)>
    ensures ok { IfOk result (λ x. (first ≡ Ok x.0) × (second ≡ Ok x.1) × (third ≡ Ok x.2) × (fourth ≡ Ok x.3) × (fifth ≡ Ok x.4)) }
    ensures err { IfErr result (λ e. (first ≡ Err e) ⊎ ((IsOk first × (second ≡ Err e)) ⊎ ((IsOk first × IsOk second × (third ≡ Err e)) ⊎ ((IsOk first × IsOk second × IsOk third × (fourth ≡ Err e)) ⊎ (IsOk first × IsOk second × IsOk third × IsOk fourth × (fifth ≡ Err e)))))) }
{
    let ((first, second, third), (fourth, fifth)) = try_join2(
        try_join3(first, second, third),
        try_join2(fourth, fifth),
    )?;
    Ok((first, second, third, fourth, fifth))
}
