//! Constants in brackets.

ghost use Rattle.std.specs.Prelude.{◌≡◌};
ghost use Rattle.wire_pairs.specs.Brackets as spec;

use crate::facts::{Bracket, Unlinked};
use nm_base::Pos;

fn is_free(greatest: Option<u16>, bracket: Option<Bracket>) -> bool
    ensures { result ≡ spec.is_free greatest bracket }
{
    greatest.is_some() && bracket.is_none()
}

fn may_stand(greatest: Option<u16>, bracket: Option<Bracket>) -> bool
    ensures { result ≡ spec.may_stand greatest bracket }
{
    greatest.is_some() || bracket.is_none()
}

fn matches(g: Option<u16>, h: Option<u16>, a: Option<Bracket>, b: Option<Bracket>) -> bool
    ensures { result ≡ spec.matches g h a b }
{
    may_stand(g, a) && may_stand(h, b) && is_free(g, a) == is_free(h, b)
}

fn at_most(at: Pos, greatest: u16, n: u16) -> Result<Option<u16>, Unlinked>
    ensures { result ≡ spec.at_most at greatest n }
{
    if greatest < n {
        Err(Unlinked::NotConstant(at))
    } else {
        Ok(Some(n))
    }
}

fn within(at: Pos, greatest: Option<u16>, value: i64) -> Result<Option<u16>, Unlinked>
    ensures { result ≡ spec.within at greatest value }
{
    let Some(greatest) = greatest else {
        return Ok(None);
    };
    match u16::try_from(value) {
        Ok(n) => at_most(at, greatest, n),
        Err(_) => Err(Unlinked::NotConstant(at)),
    }
}

fn value_at(greatest: Option<u16>, bracket: Option<Bracket>) -> Result<Option<u16>, Unlinked>
    ensures { result ≡ spec.value_at greatest bracket }
{
    match bracket {
        None => Ok(None),
        Some(bracket) => within(bracket.at, greatest, bracket.value?),
    }
}

/// Whether a place of a file stands before another one of the same file.
pub fn is_before(a: Pos, b: Pos) -> bool
    ensures { result ≡ spec.is_before a b }
{
    a.line < b.line || (a.line == b.line && a.col < b.col)
}

fn begins_before(a: Option<Bracket>, b: Option<Bracket>) -> bool
    ensures { result ≡ spec.begins_before a b }
{
    match (a, b) {
        (Some(a), Some(b)) => !is_before(b.at, a.at),
        _ => true,
    }
}

/// The values of the brackets at two ends with these parameters. Refuses, at the wire, a bracket at an end without a parameter and
/// a parameter that one end alone leaves free; then, in the order of the text, a bracket without a value or with one that its
/// parameter does not have.
pub fn bracketed(
    at: Pos,
    g: Option<u16>,
    h: Option<u16>,
    a: Option<Bracket>,
    b: Option<Bracket>,
) -> Result<(Option<u16>, Option<u16>), Unlinked>
    ensures { result ≡ spec.bracketed at g h a b }
{
    if !matches(g, h, a, b) {
        return Err(Unlinked::WireMismatch(at));
    }
    if begins_before(a, b) {
        let x = value_at(g, a)?;
        let y = value_at(h, b)?;
        Ok((x, y))
    } else {
        let y = value_at(h, b)?;
        let x = value_at(g, a)?;
        Ok((x, y))
    }
}
