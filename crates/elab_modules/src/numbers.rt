//! The numbers of the structs of headers.

ghost use Rattle.std.specs.Prelude.{◌≡◌, ◌-◌, ◌++◌, IfOk, length};
ghost use Rattle.std.specs.List.{range_with_len};
ghost use Rattle.body_meaning.specs.View.{decl_of};
ghost use Rattle.elab_making.specs.View.{whole_of};
ghost use Rattle.elab_told.specs.View.{met_of};
ghost use Rattle.program_meaning.specs.Modules as spec;

use elab_making::Whole;
use elab_told::Met;
use nesc_tree::Decl;
use nm_base::NoMemory;
use std::alloc::Global;

// The numbers from the first up to the one behind the last.
#[tactic(auto, using(crate::proofs::Counted::numbers))]
fn numbers_from(alloc: Global, first: usize, behind: usize) -> Result<Vec<u32>, NoMemory>
    ensures { IfOk result (λ v. v.items ≡ range_with_len first (behind - first)) }
{
    let mut numbers = Vec::new(alloc);
    for number in first..behind {
        let Ok(number) = u32::try_from(number) else {
            return Err(NoMemory);
        };
        numbers.push(number)?;
    }
    Ok(numbers)
}

/// The numbers of the structs of a declaration that is no function, where there were this many before it and behind it.
pub(crate) fn declared_by(
    alloc: Global,
    d: &Decl,
    before: usize,
    behind: usize,
) -> Result<Vec<u32>, NoMemory>
    ensures { IfOk result (λ v. v.items ≡ spec.declared_by (decl_of d.now) before behind) }
{
    match d {
        Decl::Typedef { .. } => numbers_from(alloc, before, behind),
        Decl::TypeOnly(_, _) => numbers_from(alloc, before, behind),
        Decl::Vars(_) => numbers_from(alloc, before, behind),
        Decl::Func { .. } => Ok(Vec::new(alloc)),
    }
}

/// Puts numbers behind others.
pub(crate) fn add_numbers(all: &mut Vec<u32>, more: Vec<u32>) -> Result<(), NoMemory>
    ensures { IfOk result (λ _. all.new.items ≡ all.old.items ++ more.items) }
{
    let mut more = more;
    all.append(&mut more)?;
    Ok(())
}

/// Which structs the types in wires name, behind all headers.
pub(crate) fn met_behind(numbers: Vec<u32>, whole: &Whole) -> Result<Met, NoMemory>
    ensures { IfOk result (λ m. met_of m ≡ spec.met numbers.items (length (whole_of whole.now).work.structs)) }
{
    let Ok(behind) = u32::try_from(whole.work.structs.len()) else {
        return Err(NoMemory);
    };
    Ok(Met {
        headers: numbers,
        behind,
    })
}
