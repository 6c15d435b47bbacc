//! Reading once more with a token behind what was read, which tells whether it could stand there.

ghost use Rattle.std.specs.Prelude.{◌≡◌, IfOk, suc, true, [], ◌∷◌, ◌++◌, codes};
ghost use Rattle.nesc_tree.specs.Phrase.{fits_one_level};
ghost use Rattle.nesc_grammar.specs.Reach.{Begins, BeginsIn};
ghost use Rattle.nesc_left_out.specs.Left as left;
ghost use Rattle.nesc_left_out.specs.declared.left.Place.TheVariants.{Declarator, FieldEnd, HeaderName, Statement};
ghost use Rattle.nesc_left_out.specs.Probes.{Tells, TellsForm, TellsRow};

use crate::left::{Place, Row, comma_row, ends_long, row};
use crate::reader::Reader;
use nesc_tree::TypeNames;
use nm_base::{Kind, Left, Name, NoMemory, Pos, Token};
use std::alloc::Global;

/// A token of this spelling.
fn token(alloc: Global, kind: Kind, text: &[u8]) -> Result<Token, NoMemory>
    ensures { IfOk result (λ t. t ≡ left.token kind text.now) }
{
    Ok(Token {
        kind,
        text: Name::new(alloc, text)?,
        pos: Pos {
            file: 0,
            line: 1,
            col: 1,
        },
        first: false,
    })
}

/// The tokens with one more behind them.
fn with_token(alloc: Global, before: &[Token], probe: Token) -> Result<Vec<Token>, NoMemory>
    ensures { IfOk result (λ ts. ts.items ≡ before.now ++ (probe ∷ [])) }
{
    let mut longer = before.to_vec(alloc)?;
    longer.push(probe)?;
    Ok(longer)
}

/// Whether a token of this spelling could stand behind those that were read.
fn could_stand<R: Reader>(
    reader: &R,
    alloc: Global,
    names: &mut TypeNames,
    before: &[Token],
    kind: Kind,
    text: &[u8],
) -> Result<bool, NoMemory>
    requires fits { fits_one_level (R.phrase reader.now) ≡ true }
    requires begins { BeginsIn (suc (R.spare reader.now)) (R.phrase reader.now) names.old before.now }
    ensures told { IfOk result (Tells (Begins (R.phrase reader.now) names.old (before.now ++ (left.token kind text.now ∷ [])))) }
    ensures back { names.new ≡ names.old }
{
    let probe = token(alloc, kind, text)?;
    let longer = with_token(alloc, before, probe)?;
    reader.reads_all(alloc, names, longer.as_slice())
}

/// Whether a sign could stand there.
fn sign_stands<R: Reader>(
    reader: &R,
    alloc: Global,
    names: &mut TypeNames,
    before: &[Token],
    text: &[u8],
) -> Result<bool, NoMemory>
    requires fits { fits_one_level (R.phrase reader.now) ≡ true }
    requires begins { BeginsIn (suc (R.spare reader.now)) (R.phrase reader.now) names.old before.now }
    ensures told { IfOk result (Tells (Begins (R.phrase reader.now) names.old (before.now ++ (left.sign text.now ∷ [])))) }
    ensures back { names.new ≡ names.old }
{
    could_stand(reader, alloc, names, before, Kind::Sign, text)
}

/// Whether two signs could stand there.
fn both_stand<R: Reader>(
    reader: &R,
    alloc: Global,
    names: &mut TypeNames,
    before: &[Token],
    one: &[u8],
    two: &[u8],
) -> Result<bool, NoMemory>
    requires fits { fits_one_level (R.phrase reader.now) ≡ true }
    requires begins { BeginsIn (suc (R.spare reader.now)) (R.phrase reader.now) names.old before.now }
    ensures told { IfOk result (Tells (left.Stands (R.phrase reader.now) names.old before.now (left.sign one.now) × left.Stands (R.phrase reader.now) names.old before.now (left.sign two.now))) }
    ensures back { names.new ≡ names.old }
{
    if !sign_stands(reader, alloc, names, before, one)? {
        return Ok(false);
    }
    sign_stands(reader, alloc, names, before, two)
}

/// Whether the first sign could stand there, and the second could not.
fn one_stands<R: Reader>(
    reader: &R,
    alloc: Global,
    names: &mut TypeNames,
    before: &[Token],
    one: &[u8],
    two: &[u8],
) -> Result<bool, NoMemory>
    requires fits { fits_one_level (R.phrase reader.now) ≡ true }
    requires begins { BeginsIn (suc (R.spare reader.now)) (R.phrase reader.now) names.old before.now }
    ensures told { IfOk result (Tells (left.Stands (R.phrase reader.now) names.old before.now (left.sign one.now) × left.StandsNot (R.phrase reader.now) names.old before.now (left.sign two.now))) }
    ensures back { names.new ≡ names.old }
{
    if !sign_stands(reader, alloc, names, before, one)? {
        return Ok(false);
    }
    if sign_stands(reader, alloc, names, before, two)? {
        Ok(false)
    } else {
        Ok(true)
    }
}

/// Whether a field could end there.
fn ends_field<R: Reader>(
    reader: &R,
    alloc: Global,
    names: &mut TypeNames,
    before: &[Token],
) -> Result<bool, NoMemory>
    requires fits { fits_one_level (R.phrase reader.now) ≡ true }
    requires begins { BeginsIn (suc (R.spare reader.now)) (R.phrase reader.now) names.old before.now }
    ensures told { IfOk result (Tells (left.IsMeant (R.phrase reader.now) names.old before.now FieldEnd)) }
    ensures back { names.new ≡ names.old }
{
    if !both_stand(reader, alloc, names, before, b";", b",")? {
        return Ok(false);
    }
    if !one_stands(reader, alloc, names, before, b"[", b"=")? {
        return Ok(false);
    }
    if sign_stands(reader, alloc, names, before, b"+")? {
        Ok(false)
    } else {
        Ok(true)
    }
}

/// Whether the name of what a header declares stands before it.
fn is_behind_name<R: Reader>(
    reader: &R,
    alloc: Global,
    names: &mut TypeNames,
    before: &[Token],
) -> Result<bool, NoMemory>
    requires fits { fits_one_level (R.phrase reader.now) ≡ true }
    requires begins { BeginsIn (suc (R.spare reader.now)) (R.phrase reader.now) names.old before.now }
    ensures told { IfOk result (Tells (left.IsMeant (R.phrase reader.now) names.old before.now HeaderName)) }
    ensures back { names.new ≡ names.old }
{
    if !sign_stands(reader, alloc, names, before, b"(")? {
        return Ok(false);
    }
    one_stands(reader, alloc, names, before, b".", b"[")
}

/// Whether a statement could begin there, or end.
fn begins_statement<R: Reader>(
    reader: &R,
    alloc: Global,
    names: &mut TypeNames,
    before: &[Token],
) -> Result<bool, NoMemory>
    requires fits { fits_one_level (R.phrase reader.now) ≡ true }
    requires begins { BeginsIn (suc (R.spare reader.now)) (R.phrase reader.now) names.old before.now }
    ensures told { IfOk result (Tells (left.IsMeant (R.phrase reader.now) names.old before.now Statement)) }
    ensures back { names.new ≡ names.old }
{
    if !could_stand(reader, alloc, names, before, Kind::Number, b"0")? {
        return Ok(false);
    }
    sign_stands(reader, alloc, names, before, b";")
}

/// Whether a star and a name could stand there.
fn begins_declarator<R: Reader>(
    reader: &R,
    alloc: Global,
    names: &mut TypeNames,
    before: &[Token],
) -> Result<bool, NoMemory>
    requires fits { fits_one_level (R.phrase reader.now) ≡ true }
    requires begins { BeginsIn (suc (R.spare reader.now)) (R.phrase reader.now) names.old before.now }
    ensures told { IfOk result (Tells (left.IsMeant (R.phrase reader.now) names.old before.now Declarator)) }
    ensures back { names.new ≡ names.old }
{
    if !sign_stands(reader, alloc, names, before, b"*")? {
        return Ok(false);
    }
    could_stand(reader, alloc, names, before, Kind::Word, b"a")
}

/// Whether the place behind those that were read is such a one.
fn is_meant<R: Reader>(
    reader: &R,
    alloc: Global,
    names: &mut TypeNames,
    before: &[Token],
    place: Place,
) -> Result<bool, NoMemory>
    requires fits { fits_one_level (R.phrase reader.now) ≡ true }
    requires begins { BeginsIn (suc (R.spare reader.now)) (R.phrase reader.now) names.old before.now }
    ensures told { IfOk result (Tells (left.IsMeant (R.phrase reader.now) names.old before.now place)) }
    ensures back { names.new ≡ names.old }
{
    match place {
        Place::Anywhere => Ok(true),
        Place::Type => could_stand(reader, alloc, names, before, Kind::Word, b"void"),
        Place::Operand => could_stand(reader, alloc, names, before, Kind::Number, b"0"),
        Place::Statement => begins_statement(reader, alloc, names, before),
        Place::Declarator => begins_declarator(reader, alloc, names, before),
        Place::FieldEnd => ends_field(reader, alloc, names, before),
        Place::HeaderName => is_behind_name(reader, alloc, names, before),
        Place::Element => could_stand(reader, alloc, names, before, Kind::Word, b"interface"),
        Place::Bracket => one_stands(reader, alloc, names, before, b"]", b"+"),
        Place::SecondLong => Ok(ends_long(names, before)),
    }
}

/// The form of this row, where it is meant behind those that were read.
fn meant_form<R: Reader>(
    reader: &R,
    alloc: Global,
    names: &mut TypeNames,
    before: &[Token],
    row: Row,
) -> Result<Option<Left>, NoMemory>
    requires fits { fits_one_level (R.phrase reader.now) ≡ true }
    requires begins { BeginsIn (suc (R.spare reader.now)) (R.phrase reader.now) names.old before.now }
    ensures told { IfOk result (TellsRow (R.phrase reader.now) names.old before.now row) }
    ensures back { names.new ≡ names.old }
{
    match row {
        None => Ok(None),
        Some((word, place)) => {
            if is_meant(reader, alloc, names, before, place)? {
                Ok(Some(word))
            } else {
                Ok(None)
            }
        }
    }
}

/// The form that is left out, where the token begins one behind those that were read. The names are afterwards what they were.
pub fn left_out<R: Reader>(
    reader: &R,
    alloc: Global,
    names: &mut TypeNames,
    before: &[Token],
    token: &Token,
) -> Result<Option<Left>, NoMemory>
    requires fits { fits_one_level (R.phrase reader.now) ≡ true }
    requires begins { BeginsIn (suc (R.spare reader.now)) (R.phrase reader.now) names.old before.now }
    ensures told { IfOk result (TellsForm (R.phrase reader.now) names.old before.now token.now) }
    ensures back { names.new ≡ names.old }
{
    match meant_form(reader, alloc, names, before, row(token))? {
        Some(word) => Ok(Some(word)),
        None => meant_form(reader, alloc, names, before, comma_row(token)),
    }
}
