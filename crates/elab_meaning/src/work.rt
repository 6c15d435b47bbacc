//! What a body has so far.

ghost use Rattle.std.specs.Prelude.{◌≡◌};
ghost use Rattle.nesc_core.specs.View.{type_of, place_of};
ghost use Rattle.elab_meaning.specs.Answers.{Gives};
ghost use Rattle.elab_meaning.specs.Elab.{add_name, add_struct, add_tag, alone, aside, fresh, mark_taken, with_aside};
ghost use Rattle.elab_meaning.specs.Places as spec;
ghost use Rattle.elab_meaning.specs.View.{aside_of, state_of, meaning_of, struct_of, kind_of};

use crate::scope::{Entry, Kind, Meaning, Struct, Tag};
use nesc_core::{CoreType, Place};
use nm_base::{Fault, Name, Pos, Refusal};
use std::alloc::Global;
use std::mem::replace;

/// A dispatch body that some call needs, and its first call.
#[derive(Clone, Copy)]
pub struct Asked {
    pub instance: u32,
    pub item: u32,
    pub at: Pos,
}

/// The names and tags in force, of which the last of one name counts, where the innermost scope begins, the structs in the
/// order in which their definitions ended, the types of the locals made so far, the objects whose address is taken, and the
/// dispatch bodies that are needed.
#[derive(Drop)]
pub struct Work {
    pub names: Vec<Entry>,
    pub tags: Vec<Tag>,
    pub first_name: usize,
    pub first_tag: usize,
    pub structs: Vec<Struct>,
    pub locals: Vec<CoreType>,
    pub taken: Vec<u32>,
    pub asked: Vec<Asked>,
}

/// What is set aside while an expression is looked at that is not evaluated.
#[derive(Drop)]
pub struct Aside {
    pub locals: Vec<CoreType>,
    pub taken: Vec<u32>,
    pub asked: Vec<Asked>,
}

impl Work {
    /// Sets aside what work on an expression that is not evaluated must not change.
    pub fn set_aside(&mut self, alloc: Global) -> Aside
        ensures kept { aside_of result ≡ aside (state_of self.old) }
        ensures alone { state_of self.new ≡ alone (state_of self.old) }
    {
        Aside {
            locals: replace(&mut self.locals, Vec::new(alloc)),
            taken: replace(&mut self.taken, Vec::new(alloc)),
            asked: replace(&mut self.asked, Vec::new(alloc)),
        }
    }

    /// Puts back what was set aside.
    pub fn restore(&mut self, kept: Aside)
        ensures { state_of self.new ≡ with_aside (aside_of kept) (state_of self.old) }
    {
        self.locals = kept.locals;
        self.taken = kept.taken;
        self.asked = kept.asked;
    }

    /// A new local of this type.
    pub fn fresh(&mut self, t: CoreType) -> Result<u32, Fault>
        ensures { Gives (λ x. x) result (state_of self.new) (fresh (type_of t) (state_of self.old)) }
    {
        let Ok(local) = u32::try_from(self.locals.len()) else {
            return Err(Fault::NoMemory);
        };
        self.locals.push(t)?;
        Ok(local)
    }

    /// Notes that the address of the object is taken.
    pub fn mark_taken(&mut self, object: u32) -> Result<(), Fault>
        ensures { Gives (λ _. tt) result (state_of self.new) (mark_taken object (state_of self.old)) }
    {
        Ok(self.taken.push(object)?)
    }

    /// A name comes in force.
    pub fn add_name(&mut self, name: Name, meaning: Meaning) -> Result<(), Fault>
        ensures { Gives (λ _. tt) result (state_of self.new) (add_name name (meaning_of meaning) (state_of self.old)) }
    {
        self.names.push(Entry { name, meaning })?;
        Ok(())
    }

    /// A tag comes in force.
    pub fn add_tag(&mut self, name: Name, kind: Kind) -> Result<(), Fault>
        ensures { Gives (λ _. tt) result (state_of self.new) (add_tag name (kind_of kind) (state_of self.old)) }
    {
        self.tags.push(Tag { name, kind })?;
        Ok(())
    }

    /// The definition of a struct has ended.
    pub fn add_struct(&mut self, ended: Struct) -> Result<(), Fault>
        ensures { Gives (λ _. tt) result (state_of self.new) (add_struct (struct_of ended) (state_of self.old)) }
    {
        self.structs.push(ended)?;
        Ok(())
    }

    /// Notes that the address of the object is taken with which the place begins.
    pub fn take(&mut self, at: Pos, place: &Place) -> Result<(), Fault>
        ensures { Gives (λ _. tt) result (state_of self.new) (spec.take at (place_of place.now) (state_of self.old)) }
    {
        match place {
            Place::Object(k) => self.mark_taken(*k),
            Place::Local(_) => Err(Fault::Refused(Refusal::AddressOfLocal(at))),
            Place::Deref(_, _) => Ok(()),
            Place::Index(base, _) => self.take(at, base),
            Place::Field(base, _) => self.take(at, base),
        }
    }
}
