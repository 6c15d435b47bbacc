//! Least chains, read from what a search found.

ghost use Rattle.std.specs.Prelude.{◌≡◌, ℕ, IfOk, List, [], option_map};
ghost use Rattle.least_paths.specs.Backward.{EndsAt, turned};
ghost use Rattle.least_paths.specs.Searched.{HasChain, IsLeastTo, IsSearched, IsTraced};
ghost use Rattle.least_paths.specs.Visits as visits;

use crate::ways::{Search, Way};
use nm_base::NoMemory;
use std::alloc::Global;

/// The least chain of calls from a root of the search to body `f`; None where the search did not find it. In time linear in
/// the chain.
pub fn path_to(alloc: Global, s: &Search, f: u32) -> Result<Option<Vec<u32>>, NoMemory>
    requires { IsSearched s.now }
    ensures { IfOk result (λ found. IsLeastTo s.now f (option_map (λ v. v.items) found)) }
{
    if is_found(&s.ways, f) {
        return Ok(Some(chain(alloc, &s.ways, f)?));
    }
    Ok(None)
}

fn way_to(ways: &[Option<Way>], f: u32) -> Option<Way>
    ensures { result ≡ visits.way_at ways.now f }
{
    match ways.get(f as usize) {
        Some(way) => *way,
        None => None,
    }
}

fn is_found(ways: &[Option<Way>], f: u32) -> bool
    ensures { result ≡ visits.is_found ways.now f }
{
    way_to(ways, f).is_some()
}

fn caller_in(way: Way) -> Option<u32>
    ensures { result ≡ visits.caller_in way }
{
    match way {
        Way::Root => None,
        Way::CalledBy(caller) => Some(caller),
    }
}

// The body that calls body `f` on the way to it.
fn caller_of(ways: &[Option<Way>], f: u32) -> Option<u32>
    ensures { result ≡ visits.caller_at (visits.way_at ways.now f) }
{
    match way_to(ways, f) {
        Some(way) => caller_in(way),
        None => None,
    }
}

// From the body back to a root, and then turned.
fn chain(alloc: Global, ways: &[Option<Way>], f: u32) -> Result<Vec<u32>, NoMemory>
    requires { HasChain ways.now f }
    ensures { IfOk result (λ v. (back : List ℕ) → EndsAt f back → IsTraced ways.now back → v.items ≡ turned back []) }
{
    let mut bodies = Vec::new(alloc);
    let mut at = f;
    for _ in 0..ways.len() {
        bodies.push(at)?;
        match caller_of(ways, at) {
            Some(caller) => at = caller,
            None => {
                bodies.reverse();
                return Ok(bodies);
            }
        }
    }
    Ok(bodies)
}
