//! The rows, in the order of their sites.

ghost use Rattle.std.specs.Prelude.{◌≡◌, ◌<◌, ◌^◌, ◌==◌, ◌++◌, [], ◌∷◌, if◌then◌else◌, IfOk, None, Some, true, length, map};
ghost use Rattle.std.specs.List.{flat_map};
ghost use Rattle.nesc_core.specs.View.{program_of, type_of};
ghost use Rattle.call_graph.specs.View.{use_of};
ghost use Rattle.race_checker.specs.Computed as computed;
ghost use Rattle.race_report.specs.Known.{IsKnown};
ghost use Rattle.race_report.specs.Sites.{Gathers, Grows, body_rows, object_rows, row_at, shared_path, site_rows, use_rows};
ghost use Rattle.race_report.specs.Starts.{is_pointed, may_be, start_of};

use crate::bodies::uses_at;
use crate::kinds::{Kind, known, shared_objects};
use crate::parts::is_marked;
use crate::paths::{async_path, bare_path};
use crate::roots::{Root, root_of};
use crate::sources::Sources;
use call_graph::Use;
use nesc_core::CoreType;
use nm_base::{List, MAX_ROWS, NoMemory, Path, Pos};
use race_checker::Row;
use std::alloc::Global;

/// An access outside every atomic statement of its body: the body, and its node and place there.
#[derive(Clone, Copy)]
pub(crate) struct Site {
    pub body: u32,
    pub node: u32,
    pub pos: Pos,
}

/// The rows so far, and by type the objects at which pointers of sites so far may point.
#[derive(Drop)]
pub(crate) struct Gathered<'a> {
    pub rows: Vec<Row>,
    pub kinds: Vec<Kind<'a>>,
}

// No row more is wanted: the first past the limit is there.
fn is_full(rows: &[Row]) -> bool
    ensures { result ≡ true → 10000 < length rows.now }
{
    rows.len() > MAX_ROWS as usize
}

fn push_found(
    rows: &mut Vec<Row>,
    x: u32,
    site: Site,
    async_path: Vec<u32>,
    path: Vec<u32>,
) -> Result<(), NoMemory>
    ensures { IfOk result (λ _. rows.new.items ≡ rows.old.items ++ row_at x site async_path.items path.items ∷ []) }
{
    rows.push(Row {
        object: x,
        body: site.body,
        node: site.node,
        pos: site.pos,
        path: Path::new(path),
        async_path: Path::new(async_path),
    })?;
    Ok(())
}

// The row of object `x` at a site that touches it, where a bare path leads to the site.
fn push_shared(
    alloc: Global,
    s: &Sources,
    rows: &mut Vec<Row>,
    x: u32,
    site: Site,
    async_path: Vec<u32>,
) -> Result<(), NoMemory>
    requires known { IsKnown s.now }
    requires inside { site.body < length s.now.p.now.bodies }
    requires shared { Some async_path.items ≡ shared_path (program_of s.now.p.now) x }
    ensures { IfOk result (λ _. Grows (λ y. if x == y then site_rows (program_of s.now.p.now) site x else []) rows.old.items rows.new.items) }
{
    match bare_path(alloc, s, site.body)? {
        Some(path) => push_found(rows, x, site, async_path, path),
        None => Ok(()),
    }
}

// The row of object `x` at a site that touches it, where it has one.
fn push_row(
    alloc: Global,
    s: &Sources,
    rows: &mut Vec<Row>,
    x: u32,
    site: Site,
) -> Result<(), NoMemory>
    requires known { IsKnown s.now }
    requires inside { site.body < length s.now.p.now.bodies }
    ensures { IfOk result (λ _. Grows (λ y. if x == y then site_rows (program_of s.now.p.now) site x else []) rows.old.items rows.new.items) }
{
    if is_full(rows) {
        return Ok(());
    }
    match async_path(alloc, s, x)? {
        Some(other) => push_shared(alloc, s, rows, x, site, other),
        None => Ok(()),
    }
}

fn push_all(
    alloc: Global,
    s: &Sources,
    rows: &mut Vec<Row>,
    objects: &[u32],
    site: Site,
) -> Result<(), NoMemory>
    requires known { IsKnown s.now }
    requires inside { site.body < length s.now.p.now.bodies }
    ensures { IfOk result (λ _. Grows (λ y. flat_map (λ x. if x == y then site_rows (program_of s.now.p.now) site x else []) objects.now) rows.old.items rows.new.items) }
{
    for x in objects {
        push_row(alloc, s, rows, *x, site)?;
    }
    Ok(())
}

// The objects of a type that is not among the kinds so far.
fn push_new<'a>(
    alloc: Global,
    s: &Sources<'a>,
    gathered: &mut Gathered<'a>,
    t: &'a CoreType,
    site: Site,
) -> Result<(), NoMemory>
    requires known { IsKnown s.now }
    requires objects { length s.now.p.now.objects < 2 ^ 32 }
    requires inside { site.body < length s.now.p.now.bodies }
    ensures { IfOk result (λ _. Gathers (program_of s.now.p.now) s.now.handlers.order.items (λ y. if is_pointed (program_of s.now.p.now) (type_of t.now) y then site_rows (program_of s.now.p.now) site y else []) gathered.old gathered.new) }
{
    let objects = shared_objects(alloc, s, t)?;
    push_all(alloc, s, &mut gathered.rows, &objects, site)?;
    gathered.kinds.push(Kind {
        ty: t,
        objects: List::new(objects),
    })?;
    Ok(())
}

fn push_pointed<'a>(
    alloc: Global,
    s: &Sources<'a>,
    gathered: &mut Gathered<'a>,
    t: &'a CoreType,
    site: Site,
) -> Result<(), NoMemory>
    requires known { IsKnown s.now }
    requires objects { length s.now.p.now.objects < 2 ^ 32 }
    requires inside { site.body < length s.now.p.now.bodies }
    ensures { IfOk result (λ _. Gathers (program_of s.now.p.now) s.now.handlers.order.items (λ y. if is_pointed (program_of s.now.p.now) (type_of t.now) y then site_rows (program_of s.now.p.now) site y else []) gathered.old gathered.new) }
{
    if is_full(&gathered.rows) {
        return Ok(());
    }
    match known(&gathered.kinds, t) {
        Some(objects) => push_all(alloc, s, &mut gathered.rows, objects, site),
        None => push_new(alloc, s, gathered, t, site),
    }
}

fn push_root<'a>(
    alloc: Global,
    s: &Sources<'a>,
    gathered: &mut Gathered<'a>,
    root: Root<'a>,
    site: Site,
) -> Result<(), NoMemory>
    requires known { IsKnown s.now }
    requires objects { length s.now.p.now.objects < 2 ^ 32 }
    requires inside { site.body < length s.now.p.now.bodies }
    ensures { IfOk result (λ _. Gathers (program_of s.now.p.now) s.now.handlers.order.items (λ y. if may_be (program_of s.now.p.now) (start_of root.entry) y then site_rows (program_of s.now.p.now) site y else []) gathered.old gathered.new) }
{
    match root {
        Root::Object(x) => push_row(alloc, s, &mut gathered.rows, x, site),
        Root::Local => Ok(()),
        Root::Pointed(t) => push_pointed(alloc, s, gathered, t, site),
    }
}

fn push_use<'a>(
    alloc: Global,
    s: &Sources<'a>,
    gathered: &mut Gathered<'a>,
    u: &Use<'a>,
    f: u32,
) -> Result<(), NoMemory>
    requires known { IsKnown s.now }
    requires objects { length s.now.p.now.objects < 2 ^ 32 }
    requires inside { f < length s.now.p.now.bodies }
    ensures { IfOk result (λ _. Gathers (program_of s.now.p.now) s.now.handlers.order.items (use_rows (program_of s.now.p.now) f (use_of u.now)) gathered.old gathered.new) }
{
    match *u {
        Use::Call { .. } => Ok(()),
        Use::Access {
            node,
            is_inside,
            place,
            pos,
        } => {
            if is_inside {
                Ok(())
            } else {
                let site = Site { body: f, node, pos };
                push_root(alloc, s, gathered, root_of(place), site)
            }
        }
    }
}

fn push_uses<'a>(
    alloc: Global,
    s: &Sources<'a>,
    gathered: &mut Gathered<'a>,
    uses: &[Use<'a>],
    f: u32,
) -> Result<(), NoMemory>
    requires known { IsKnown s.now }
    requires objects { length s.now.p.now.objects < 2 ^ 32 }
    requires inside { f < length s.now.p.now.bodies }
    ensures { IfOk result (λ _. Gathers (program_of s.now.p.now) s.now.handlers.order.items (λ y. flat_map (λ u. use_rows (program_of s.now.p.now) f u y) (map use_of uses.now)) gathered.old gathered.new) }
{
    for u in uses {
        push_use(alloc, s, gathered, u, f)?;
    }
    Ok(())
}

// No bare path leads to body `f`.
fn is_out_of_reach(s: &Sources, f: u32) -> bool
    requires known { IsKnown s.now }
    requires inside { f < length s.now.p.now.bodies }
    ensures { result ≡ true → computed.bare_path (program_of s.now.p.now) f ≡ None }
{
    !is_marked(&s.g.bare, f)
}

fn push_body<'a>(
    alloc: Global,
    s: &Sources<'a>,
    gathered: &mut Gathered<'a>,
    f: u32,
) -> Result<(), NoMemory>
    requires known { IsKnown s.now }
    requires objects { length s.now.p.now.objects < 2 ^ 32 }
    requires inside { f < length s.now.p.now.bodies }
    ensures { IfOk result (λ _. Gathers (program_of s.now.p.now) s.now.handlers.order.items (body_rows (program_of s.now.p.now) f) gathered.old gathered.new) }
{
    if is_out_of_reach(s, f) {
        return Ok(());
    }
    push_uses(alloc, s, gathered, uses_at(&s.uses, f), f)
}

/// The rows of all objects, in the order of their sites, up to one past the limit.
pub(crate) fn all_rows(alloc: Global, s: &Sources) -> Result<Vec<Row>, NoMemory>
    requires known { IsKnown s.now }
    requires objects { length s.now.p.now.objects < 2 ^ 32 }
    ensures { IfOk result (λ rows. Grows (object_rows (program_of s.now.p.now)) [] rows.items) }
{
    let mut gathered = Gathered {
        rows: Vec::new(alloc),
        kinds: Vec::new(alloc),
    };
    for f in 0..s.uses.as_slice().len() {
        push_body(alloc, s, &mut gathered, f as u32)?;
    }
    Ok(gathered.rows)
}
