//! Whether tasks have bodies of their own.

ghost use Rattle.std.specs.Prelude.{◌≡◌, ◌≢◌, true};
ghost use Rattle.well_formed.specs.Formed.{Each};
ghost use Rattle.program_builder.specs.Parts.{HaveOwnBodies};

// Whether the body is that of none of the tasks.
fn is_other(body: u32, tasks: &[u32]) -> bool
    ensures { result ≡ true → Each (λ g. body ≢ g) tasks.now }
{
    for task in tasks {
        if body == *task {
            return false;
        }
    }
    true
}

/// Whether all tasks have bodies of their own. Time grows with the square of their number.
pub(crate) fn have_own_bodies(tasks: &[u32]) -> bool
    ensures { result ≡ true → HaveOwnBodies tasks.now }
{
    let mut left = tasks;
    while let Some((task, others)) = left.split_first() {
        if !is_other(*task, others) {
            return false;
        }
        left = others;
    }
    true
}
