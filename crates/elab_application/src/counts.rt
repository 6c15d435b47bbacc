//! How often texts are used by `unique`.

ghost use Rattle.std.specs.Prelude.{◌≡◌, ◌++◌, IfOk, OnOk, flat_map, map};
ghost use Rattle.elab_meaning.specs.Scope.{Env as EnvOf};
ghost use Rattle.elab_meaning.specs.View.{unique_count_of};
ghost use Rattle.wire_elements.specs.View.{early_env};
ghost use Rattle.wire_told.specs.View.{application_of};
ghost use Rattle.elab_application.specs.Given as spec;

use elab_meaning::UniqueCount;
use nm_base::NoMemory;
use std::alloc::Global;
use wire_elements::Early;
use wire_told::Sources;

fn copied(one: &UniqueCount) -> Result<UniqueCount, NoMemory>
    ensures { IfOk result (λ c. unique_count_of c ≡ unique_count_of one.now) }
{
    Ok(UniqueCount {
        text: one.text.clone()?,
        count: one.count,
    })
}

fn add(counts: &mut Vec<UniqueCount>, more: &[UniqueCount]) -> Result<(), NoMemory>
    ensures { OnOk result (map unique_count_of counts.new.items ≡ map unique_count_of counts.old.items ++ map unique_count_of more.now) }
{
    for one in more {
        counts.push(copied(one)?)?;
    }
    Ok(())
}

fn add_told(counts: &mut Vec<UniqueCount>, early: &Early) -> Result<(), NoMemory>
    ensures { OnOk result (map unique_count_of counts.new.items ≡ map unique_count_of counts.old.items ++ (early_env early.now).counts) }
{
    add(counts, early.told.env.counts.as_slice())
}

fn add_all(counts: &mut Vec<UniqueCount>, envs: &[Early]) -> Result<(), NoMemory>
    ensures { OnOk result (map unique_count_of counts.new.items ≡ map unique_count_of counts.old.items ++ flat_map (λ (e : EnvOf). e.counts) (map early_env envs.now)) }
{
    for early in envs {
        add_told(counts, early)?;
    }
    Ok(())
}

/// How often each text is used, that headers or instances ask for.
pub fn counts_of(alloc: Global, sources: &Sources) -> Result<Vec<UniqueCount>, NoMemory>
    ensures { IfOk result (λ v. map unique_count_of v.items ≡ spec.counts_of (application_of sources.now)) }
{
    let mut counts = Vec::new(alloc);
    add_told(&mut counts, sources.headers)?;
    add_all(&mut counts, sources.envs)?;
    Ok(counts)
}
