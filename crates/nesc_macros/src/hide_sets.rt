//! Hide sets.

ghost use Rattle.std.specs.Prelude.{◌≡◌, ◌<◌, ◌++◌, ◌∷◌, ◌&&◌, [], cond, filter, nat_le, not, true, IfOk, IfSome, OnOk};
ghost use Rattle.std.specs.Prelude.{ℕ, List as ListOf};
ghost use Rattle.nesc_macros.specs.declared.hide_sets.Link.{Link as LinkOf};
ghost use Rattle.nesc_macros.specs.Numbers.{common, has, joined};
ghost use Rattle.nesc_macros.specs.Sets.{AreOf, EndsWith, Extends, IsNewest, is_link_of, numbers_in};

use nm_base::NoMemory;
use std::alloc::Global;

/// A hide set: the numbers of the macros that are not replaced in a token any more. It stands in a table of sets, at the place
/// of its newest number; all of its numbers lie within the bounds.
#[derive(Clone, Copy, Debug)]
pub struct HideSet {
    len: u32,
    place: u32,
    least: u32,
    greatest: u32,
}

/// The newest number of a set, and the set of the others.
#[derive(Clone, Copy, Debug)]
pub struct Link {
    number: u32,
    rest: HideSet,
}

/// The hide sets of an expansion. Each has one number more than an earlier one, so sets share what they have in common.
#[derive(Debug, Drop)]
pub struct HideSets {
    alloc: Global,
    links: Vec<Link>,
}

impl HideSet {
    /// The set of no macro.
    pub fn empty() -> HideSet
        ensures { (links : ListOf LinkOf) → numbers_in links result ≡ [] }
    {
        HideSet {
            len: 0,
            place: 0,
            least: u32::MAX,
            greatest: 0,
        }
    }

    // Whether the number lies within the bounds.
    fn may_have(&self, number: u32) -> bool
        ensures { result ≡ (nat_le self.now.least number && nat_le number self.now.greatest) }
    {
        self.least <= number && number <= self.greatest
    }

    // Whether the link may be that of the newest number.
    fn is_linked(&self, link: &Link) -> bool
        ensures { result ≡ is_link_of self.now link.now }
    {
        self.may_have(link.number)
            && self.least <= link.rest.least
            && link.rest.greatest <= self.greatest
            && u64::from(self.len) == u64::from(link.rest.len) + 1
    }

    /// Whether it is the same set, by its place.
    pub fn is(&self, other: &HideSet) -> bool
        ensures { result ≡ true → self.now ≡ other.now }
    {
        self.len == other.len
            && self.place == other.place
            && self.least == other.least
            && self.greatest == other.greatest
    }
}

// Appends a number, where it is wanted.
fn push_if(numbers: &mut Vec<u32>, number: u32, is_wanted: bool) -> Result<(), NoMemory>
    ensures { OnOk result (numbers.new.items ≡ numbers.old.items ++ cond is_wanted (number ∷ []) []) }
{
    if is_wanted {
        numbers.push(number)?;
    }
    Ok(())
}

// Whether the number is among those of the set, which are these.
fn is_in(set: &HideSet, numbers: &[u32], number: u32) -> bool
    requires { AreOf set.now numbers.now }
    ensures { result ≡ has numbers.now number }
{
    set.may_have(number) && numbers.contains(&number)
}

// Whether none of the others is among the numbers of the set, which are these.
fn are_apart(set: &HideSet, numbers: &[u32], others: &[u32]) -> bool
    requires { AreOf set.now numbers.now }
    ensures { result ≡ true → filter (λ n. not (has numbers.now n)) others.now ≡ others.now }
{
    for number in others {
        if is_in(set, numbers, *number) {
            return false;
        }
    }
    true
}

// The newest number of the set, whose numbers are these, where the others begin with its older ones and have no more of them:
// the union is then the others with that number.
fn one_more(set: &HideSet, numbers: &[u32], others: &[u32]) -> Option<u32>
    requires { AreOf set.now numbers.now }
    ensures { IfSome result (λ n. joined numbers.now others.now ≡ n ∷ others.now) }
{
    let (newest, older) = numbers.split_first()?;
    let rest = others.strip_prefix(older)?;
    if are_apart(set, numbers, rest) {
        Some(*newest)
    } else {
        None
    }
}

// The numbers of the set, which are these, and the others that are not among them.
fn joined(
    alloc: Global,
    set: &HideSet,
    numbers: &[u32],
    others: &[u32],
) -> Result<Vec<u32>, NoMemory>
    requires { AreOf set.now numbers.now }
    ensures { IfOk result (λ v. v.items ≡ joined numbers.now others.now) }
{
    let mut all = numbers.to_vec(alloc)?;
    for number in others {
        if !is_in(set, numbers, *number) {
            all.push(*number)?;
        }
    }
    Ok(all)
}

impl HideSets {
    /// No set but the empty one.
    pub fn new(alloc: Global) -> HideSets
        ensures { result.links.items ≡ [] }
    {
        HideSets {
            alloc,
            links: Vec::new(alloc),
        }
    }

    // The newest number of a set and the others, where it has one. A place that is not in the table counts as want of memory.
    fn newest(&self, set: &HideSet) -> Result<Option<Link>, NoMemory>
        ensures newest { IfOk result (λ link. (links : ListOf LinkOf) → Extends self.now.links.items links → IsNewest links set.now link) }
        ensures shorter { IfOk result (λ link. IfSome link (λ l. l.rest.len < set.now.len)) }
    {
        if set.len == 0 {
            return Ok(None);
        }
        let Some(link) = self.links.get(set.place as usize) else {
            return Err(NoMemory);
        };
        if set.is_linked(link) {
            Ok(Some(*link))
        } else {
            Ok(None)
        }
    }

    /// Whether the macro of this number is in a set.
    pub fn contains(&self, set: &HideSet, number: u32) -> Result<bool, NoMemory>
        ensures { IfOk result (λ is. (links : ListOf LinkOf) → Extends self.now.links.items links → is ≡ has (numbers_in links set.now) number) }
    {
        let mut rest = *set;
        while rest.may_have(number) {
            let Some(link) = self.newest(&rest)? else {
                return Ok(false);
            };
            if link.number == number {
                return Ok(true);
            }
            rest = link.rest;
        }
        Ok(false)
    }

    /// The set with one more macro.
    pub fn with(&mut self, set: &HideSet, number: u32) -> Result<HideSet, NoMemory>
        ensures grows { Extends self.old.links.items self.new.links.items }
        ensures set { IfOk result (λ s. (links : ListOf LinkOf) → Extends self.new.links.items links → numbers_in links s ≡ number ∷ numbers_in links set.now) }
    {
        let Ok(place) = u32::try_from(self.links.as_slice().len()) else {
            return Err(NoMemory);
        };
        let Some(len) = set.len.checked_add(1) else {
            return Err(NoMemory);
        };
        self.links.push(Link { number, rest: *set })?;
        Ok(HideSet {
            len,
            place,
            least: set.least.min(number),
            greatest: set.greatest.max(number),
        })
    }

    // The set of these numbers.
    fn of(&mut self, mut numbers: Vec<u32>) -> Result<HideSet, NoMemory>
        ensures grows { Extends self.old.links.items self.new.links.items }
        ensures set { IfOk result (λ s. (links : ListOf LinkOf) → Extends self.new.links.items links → numbers_in links s ≡ numbers.items) }
    {
        let mut set = HideSet::empty();
        while let Some(number) = numbers.pop() {
            set = self.with(&set, number)?;
        }
        Ok(set)
    }

    // The numbers of a set, the newest first.
    fn numbers(&self, set: &HideSet) -> Result<Vec<u32>, NoMemory>
        ensures { IfOk result (λ v. (links : ListOf LinkOf) → Extends self.now.links.items links → v.items ≡ numbers_in links set.now) }
    {
        let mut numbers = Vec::new(self.alloc);
        let mut rest = *set;
        while let Some(link) = self.newest(&rest)? {
            numbers.push(link.number)?;
            rest = link.rest;
        }
        Ok(numbers)
    }

    // The numbers that are in both.
    fn common(&self, one: &HideSet, other: &HideSet) -> Result<Vec<u32>, NoMemory>
        ensures { IfOk result (λ v. (links : ListOf LinkOf) → Extends self.now.links.items links → v.items ≡ common (numbers_in links one.now) (numbers_in links other.now)) }
    {
        let mut both = Vec::new(self.alloc);
        let mut rest = *one;
        while let Some(link) = self.newest(&rest)? {
            let is_in_both = self.contains(other, link.number)?;
            push_if(&mut both, link.number, is_in_both)?;
            rest = link.rest;
        }
        Ok(both)
    }

    /// The macros that are in both.
    pub fn intersection(&mut self, one: &HideSet, other: &HideSet) -> Result<HideSet, NoMemory>
        ensures grows { Extends self.old.links.items self.new.links.items }
        ensures set { IfOk result (λ s. (links : ListOf LinkOf) → Extends self.new.links.items links → numbers_in links s ≡ common (numbers_in links one.now) (numbers_in links other.now)) }
    {
        if one.is(other) {
            return Ok(*one);
        }
        let both = self.common(one, other)?;
        self.of(both)
    }

    // Whether the numbers of a set end with those of another, as far as places tell it.
    fn ends_with(&self, set: &HideSet, end: &HideSet) -> Result<bool, NoMemory>
        ensures { IfOk result (λ is. is ≡ true → (links : ListOf LinkOf) → Extends self.now.links.items links → EndsWith (numbers_in links set.now) (numbers_in links end.now)) }
    {
        if end.len == 0 {
            return Ok(true);
        }
        let mut rest = *set;
        while rest.len > end.len {
            let Some(link) = self.newest(&rest)? else {
                return Ok(false);
            };
            rest = link.rest;
        }
        Ok(rest.is(end))
    }

    /// The macros of a set, and those of another that are not in it.
    pub fn union(&mut self, one: &HideSet, other: &HideSet) -> Result<HideSet, NoMemory>
        ensures grows { Extends self.old.links.items self.new.links.items }
        ensures set { IfOk result (λ s. (links : ListOf LinkOf) → Extends self.new.links.items links → numbers_in links s ≡ joined (numbers_in links one.now) (numbers_in links other.now)) }
    {
        if self.ends_with(one, other)? {
            return Ok(*one);
        }
        let numbers = self.numbers(one)?;
        let others = self.numbers(other)?;
        if let Some(newest) = one_more(one, &numbers, &others) {
            return self.with(other, newest);
        }
        let all = joined(self.alloc, one, &numbers, &others)?;
        self.of(all)
    }
}
