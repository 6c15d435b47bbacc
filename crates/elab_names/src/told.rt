//! What is told to a body: its uses of `unique`, and the items of its elements.

ghost use Rattle.std.specs.Prelude.{◌≡◌, bytes_eq, map};
ghost use Rattle.elab_meaning.specs.Answers.{Follows};
ghost use Rattle.elab_meaning.specs.Operators as operators;
ghost use Rattle.elab_meaning.specs.Scope as spec;
ghost use Rattle.elab_meaning.specs.View.{item_of, unique_count_of, unique_of};

use elab_meaning::{Item, Unique, UniqueCount};
use elab_values::{bad_type, unknown_name};
use nm_base::{Fault, Name, Pos};

fn is_same_place(p: Pos, q: Pos) -> bool
    ensures { result ≡ spec.same_place p q }
{
    p.file == q.file && p.line == q.line && p.col == q.col
}

/// The number of the use of `unique` at a place.
#[tactic(auto, using(crate::proofs::Tables::told))]
pub fn unique_at(uniques: &[Unique], at: Pos) -> Option<u32>
    ensures { result ≡ spec.unique_at (map unique_of uniques.now) at }
{
    for unique in uniques {
        if is_same_place(unique.at, at) {
            return Some(unique.number);
        }
    }
    None
}

fn has_text(count: &UniqueCount, text: &Name) -> bool
    ensures { result ≡ bytes_eq (unique_count_of count.now).text text.now }
{
    count.text == *text
}

/// How often `unique` is used with a text.
#[tactic(auto, using(crate::proofs::Tables::told))]
pub fn count_of(counts: &[UniqueCount], text: &Name) -> Option<u32>
    ensures { result ≡ spec.count_of (map unique_count_of counts.now) text.now }
{
    for count in counts {
        if has_text(count, text) {
            return Some(count.count);
        }
    }
    None
}

fn is_item(item: &Item, element: &Name, name: &Name) -> bool
    ensures { result ≡ spec.is_item (item_of item.now) element.now name.now }
{
    item.element == *element && item.name == *name
}

// The item, where it is called as what it is, with its number, which is below 2^32 where memory holds the items.
fn directed(at: Pos, signal: bool, k: usize, item: &Item) -> Result<(u32, &Item), Fault>
    ensures { Follows (λ f. (f.0, item_of f.1.now)) result (operators.directed at signal (k, item_of item.now)) }
{
    if signal != item.is_signal {
        return bad_type(at);
    }
    let Ok(number) = u32::try_from(k) else {
        return Err(Fault::NoMemory);
    };
    Ok((number, item))
}

/// The item that is called or signalled, with its number among the items.
#[tactic(auto, using(crate::proofs::Tables::told))]
pub fn item_named<'a>(
    at: Pos,
    signal: bool,
    items: &'a [Item],
    element: &Name,
    name: &Name,
) -> Result<(u32, &'a Item), Fault>
    ensures { Follows (λ f. (f.0, item_of f.1.now)) result (operators.item_named at signal (spec.item_from 0 (map item_of items.now) element.now name.now)) }
{
    for (k, item) in items.iter().enumerate() {
        if is_item(item, element, name) {
            return directed(at, signal, k, item);
        }
    }
    unknown_name(at)
}
