//! Whether a name is called or posted.

ghost use Rattle.std.specs.Prelude.{◌≡◌};
ghost use Rattle.program_meaning.specs.Uses as spec;

use nm_base::Name;
use program_meaning::Use;

fn same_way(wanted: bool, posts: bool) -> bool
    ensures { result ≡ spec.same_way wanted posts }
{
    if wanted { posts } else { !posts }
}

fn is_use(posts: bool, name: &Name, one: &Use) -> bool
    ensures { result ≡ spec.is_use posts name.now one.now }
{
    same_way(posts, one.posts) && one.name == *name
}

/// Whether one of the names is this one, posted or called.
pub fn is_used(uses: &[Use], posts: bool, name: &Name) -> bool
    ensures { result ≡ spec.is_used uses.now posts name.now }
{
    uses.iter().any(|one| is_use(posts, name, one))
}
