//! Bodies that calls of items reach.

ghost use Rattle.std.specs.Prelude.{◌≡◌, ◌+◌, map};
ghost use Rattle.elab_meaning.specs.Answers.{Follows, Gives};
ghost use Rattle.elab_meaning.specs.Places as spec;
ghost use Rattle.elab_meaning.specs.View.{asked_of, env_of, state_of};

use elab_meaning::{Asked, Env, Work};
use nm_base::{Fault, Pos};

fn is_asked(asked: &Asked, instance: u32, item: u32) -> bool
    ensures { result ≡ spec.is_asked instance item (asked_of asked.now) }
{
    asked.instance == instance && asked.item == item
}

// The place of a dispatch body among those that are needed.
#[tactic(auto, using(crate::proofs::Tables::told))]
fn place_among(asked: &[Asked], instance: u32, item: u32) -> Option<usize>
    ensures { result ≡ spec.place_among 0 (map asked_of asked.now) instance item }
{
    for (k, one) in asked.iter().enumerate() {
        if is_asked(one, instance, item) {
            return Some(k);
        }
    }
    None
}

fn ask(
    work: &mut Work,
    instance: u32,
    item: u32,
    at: Pos,
    place: Option<usize>,
) -> Result<usize, Fault>
    ensures { Gives (λ k. k) result (state_of work.new) (spec.ask instance item at place (state_of work.old)) }
{
    match place {
        Some(k) => Ok(k),
        None => {
            let k = work.asked.len();
            work.asked.push(Asked { instance, item, at })?;
            Ok(k)
        }
    }
}

// A dispatch body's number, which is below 2^32 where memory holds the bodies.
fn number_of(first: u32, k: usize) -> Result<u32, Fault>
    ensures { Follows (λ n. n) result (Ok (first + k)) }
{
    let Ok(k) = u32::try_from(k) else {
        return Err(Fault::NoMemory);
    };
    match first.checked_add(k) {
        None => Err(Fault::NoMemory),
        Some(number) => Ok(number),
    }
}

/// The body that a call of an item reaches: the one that is given, or a dispatch body.
pub fn body_reached(
    env: &Env,
    work: &mut Work,
    at: Pos,
    item: u32,
    body: Option<u32>,
) -> Result<u32, Fault>
    ensures { Gives (λ n. n) result (state_of work.new) (spec.body_reached (env_of env.now) at item body (state_of work.old)) }
{
    match body {
        Some(body) => Ok(body),
        None => {
            let place = place_among(work.asked.as_slice(), env.instance, item);
            let k = ask(work, env.instance, item, at, place)?;
            number_of(env.first_dispatch, k)
        }
    }
}
