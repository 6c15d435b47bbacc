//! Initialisers and attributes made of their parts.

ghost use Rattle.std.specs.Prelude.{◌≡◌, IfOk, None, Some, [], ◌∷◌};
ghost use Rattle.nesc_grammar.specs.Declarations as spec;
ghost use Rattle.nesc_tree.specs.declared.declarations.Init.TheVariants as variants;
ghost use Rattle.nesc_tree.specs.declared.declarations.AttrArg.TheVariants as arguments;
ghost use Rattle.nesc_parse_decls.specs.Parts as parts;

use nesc_tree::{Attr, AttrArg, Init, Inits, Operand};
use nm_base::{List, Name, NoMemory, Token, beside};
use std::alloc::Global;

/// An initialiser that is an expression.
pub fn one_init(value: Operand) -> Init
    ensures { result ≡ variants.One value.expr }
{
    Init::One(value.expr)
}

pub fn first_init(alloc: Global, first: Init) -> Result<Inits, NoMemory>
    ensures { IfOk result (λ l. l ≡ spec.first_init first) }
{
    Ok(Inits {
        list: single(alloc, first)?,
        ended: false,
    })
}

/// The initialisers with one more, or with a comma alone behind them.
pub fn more_inits(so_far: Inits, next: Option<Init>) -> Result<Inits, NoMemory>
    ensures { IfOk result (λ l. l ≡ spec.more_inits next so_far) }
{
    let Inits { list, .. } = so_far;
    match next {
        None => Ok(Inits { list, ended: true }),
        Some(init) => Ok(Inits {
            list: added(list, init)?,
            ended: false,
        }),
    }
}

/// The initialisers as one.
pub fn many_inits(inits: Inits) -> Init
    ensures { result ≡ variants.Many inits.list }
{
    Init::Many(inits.list)
}

/// An argument of an attribute that is a text.
pub fn text_argument(alloc: Global, text: &Token) -> Result<AttrArg, NoMemory>
    ensures { IfOk result (λ a. a ≡ arguments.Text text.now.text) }
{
    Ok(AttrArg::Text(Name::new(alloc, text.text.as_bytes())?))
}

/// An argument of an attribute that is a value.
pub fn value_argument(value: Operand) -> AttrArg
    ensures { result ≡ arguments.Value value.expr }
{
    AttrArg::Value(value.expr)
}

pub fn attribute_of(alloc: Global, name: &Token, args: List<AttrArg>) -> Result<Attr, NoMemory>
    ensures { IfOk result (λ a. a ≡ parts.attribute_of name.now args) }
{
    let (args, name) = beside(args, Name::new(alloc, name.text.as_bytes()))?;
    Ok(Attr { name, args })
}

pub fn no_list<T>(alloc: Global) -> List<T>
    ensures { result ≡ [] }
{
    List::new(Vec::new(alloc))
}

pub fn single<T: Drop>(alloc: Global, first: T) -> Result<List<T>, NoMemory>
    ensures { IfOk result (λ l. l ≡ first ∷ []) }
{
    let mut list = Vec::new(alloc);
    list.push(first)?;
    Ok(List::new(list))
}

/// The list with one more.
pub fn added<T: Drop>(so_far: List<T>, next: T) -> Result<List<T>, NoMemory>
    ensures { IfOk result (λ l. l ≡ spec.added next so_far) }
{
    let mut longer = so_far.into_vec();
    longer.push(next)?;
    Ok(List::new(longer))
}
