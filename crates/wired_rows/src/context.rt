//! What is in force where the expressions of the lines stand.

use elab_exprs::Told;
use elab_meaning::{Entry, Env, Item, Kind, Meaning, Struct, Tag, Unique, UniqueCount, Work};
use nesc_core::{CoreType, Field, Layout};
use nesc_tree::TypeNames;
use nesc_types::Constant;
use nm_base::{Fault, IntType, List, Name, NoMemory, Pos};
use std::alloc::Global;

/// The number of the file that the lines stand in.
pub const FILE: u32 = 1;

const INT: CoreType = CoreType::Int(IntType::I16);

fn int(t: IntType) -> CoreType {
    CoreType::Int(t)
}

fn pointer(alloc: Global, part: CoreType) -> Result<CoreType, NoMemory> {
    Ok(CoreType::Pointer(Box::new(alloc, part)?))
}

fn array(alloc: Global, part: CoreType, n: u32) -> Result<CoreType, NoMemory> {
    Ok(CoreType::Array(Box::new(alloc, part)?, n))
}

fn declare(alloc: Global, work: &mut Work, text: &[u8], meaning: Meaning) -> Result<(), Fault> {
    let name = Name::new(alloc, text)?;
    work.add_name(name, meaning)
}

fn object(alloc: Global, work: &mut Work, text: &[u8], k: u32, t: CoreType) -> Result<(), Fault> {
    declare(alloc, work, text, Meaning::Object(k, t, false))
}

fn local(alloc: Global, work: &mut Work, text: &[u8], t: CoreType) -> Result<(), Fault> {
    let again = elab_values::copied(alloc, &t)?;
    let k = work.fresh(again)?;
    declare(alloc, work, text, Meaning::Local(k, t, false))
}

/// The names of types that the lines may use.
pub fn known_types(alloc: Global) -> Result<TypeNames, NoMemory> {
    let mut names = TypeNames::new(alloc);
    names.add(&Name::new(alloc, b"uint8_t")?)?;
    names.add(&Name::new(alloc, b"fixed_t")?)?;
    names.add(&Name::new(alloc, b"z_t")?)?;
    Ok(names)
}

fn field(alloc: Global, fields: &mut Vec<Field>, text: &[u8], ty: CoreType) -> Result<(), Fault> {
    let name = Name::new(alloc, text)?;
    fields.push(Field { name, ty })?;
    Ok(())
}

// struct S { uint8_t f; int e[2]; const int d; }, and a struct F without fields.
fn add_structs(alloc: Global, work: &mut Work) -> Result<(), Fault> {
    let mut fields = Vec::new(alloc);
    field(alloc, &mut fields, b"f", int(IntType::U8))?;
    let two = array(alloc, INT, 2)?;
    field(alloc, &mut fields, b"e", two)?;
    field(alloc, &mut fields, b"d", INT)?;
    work.add_struct(Struct {
        fields,
        consts: vec![in alloc; false, false, true]?,
        layout: Layout { size: 8, align: 2 },
    })?;
    work.add_struct(Struct {
        fields: Vec::new(alloc),
        consts: Vec::new(alloc),
        layout: Layout { size: 0, align: 1 },
    })?;
    work.add_tag(Name::new(alloc, b"S")?, Kind::Struct(0))?;
    work.add_tag(Name::new(alloc, b"E")?, Kind::Enum)?;
    work.add_tag(Name::new(alloc, b"F")?, Kind::Struct(1))
}

fn add_functions(alloc: Global, work: &mut Work) -> Result<(), Fault> {
    let behind = pointer(alloc, INT)?;
    let params = List::new(vec![in alloc; INT, behind]?);
    let fun = Meaning::Function(3, params, int(IntType::U8));
    declare(alloc, work, b"fun", fun)?;
    let nop = Meaning::Function(4, List::new(Vec::new(alloc)), CoreType::Void);
    declare(alloc, work, b"nop", nop)?;
    declare(alloc, work, b"tick", Meaning::Task(2))
}

fn add_types(alloc: Global, work: &mut Work) -> Result<(), Fault> {
    declare(
        alloc,
        work,
        b"uint8_t",
        Meaning::Type(int(IntType::U8), false),
    )?;
    declare(alloc, work, b"fixed_t", Meaning::Type(INT, true))?;
    declare(alloc, work, b"ONE", Meaning::Constant(IntType::I16, 1))
}

fn add_objects(alloc: Global, work: &mut Work) -> Result<(), Fault> {
    object(alloc, work, b"x", 0, int(IntType::U16))?;
    let v = array(alloc, INT, 4)?;
    object(alloc, work, b"v", 1, v)?;
    object(alloc, work, b"s", 2, CoreType::Struct(0))?;
    object(alloc, work, b"t", 3, CoreType::Struct(0))?;
    let r = pointer(alloc, CoreType::Struct(0))?;
    object(alloc, work, b"r", 4, r)?;
    let h = array(alloc, CoreType::Struct(0), 2)?;
    object(alloc, work, b"h", 5, h)?;
    let row = array(alloc, int(IntType::U8), 3)?;
    let g = array(alloc, row, 2)?;
    object(alloc, work, b"g", 6, g)?;
    let n = array(alloc, INT, 2)?;
    declare(alloc, work, b"n", Meaning::Object(7, n, true))?;
    object(alloc, work, b"o", 8, CoreType::Struct(1))
}

fn add_locals(alloc: Global, work: &mut Work) -> Result<(), Fault> {
    local(alloc, work, b"c", int(IntType::I8))?;
    local(alloc, work, b"a", int(IntType::U8))?;
    local(alloc, work, b"b", int(IntType::U8))?;
    local(alloc, work, b"i", INT)?;
    local(alloc, work, b"u", int(IntType::U16))?;
    local(alloc, work, b"l", int(IntType::I32))?;
    local(alloc, work, b"m", int(IntType::U32))?;
    let p = pointer(alloc, INT)?;
    local(alloc, work, b"p", p)?;
    let q = pointer(alloc, INT)?;
    local(alloc, work, b"q", q)?;
    let k = work.fresh(INT)?;
    declare(alloc, work, b"k", Meaning::Local(k, INT, true))?;
    let w = array(alloc, INT, 3)?;
    local(alloc, work, b"w", w)
}

/// The number of locals that the names of the lines name.
pub const LOCALS: usize = 11;

/// The names in force: the innermost scope has the tag F and no names.
pub fn start(alloc: Global) -> Result<Work, Fault> {
    let mut work = Work {
        names: Vec::new(alloc),
        tags: Vec::new(alloc),
        first_name: 0,
        first_tag: 2,
        structs: Vec::new(alloc),
        locals: Vec::new(alloc),
        taken: Vec::new(alloc),
        asked: Vec::new(alloc),
    };
    add_structs(alloc, &mut work)?;
    add_types(alloc, &mut work)?;
    add_functions(alloc, &mut work)?;
    add_objects(alloc, &mut work)?;
    add_locals(alloc, &mut work)?;
    work.first_name = work.names.len();
    Ok(work)
}

fn item(
    alloc: Global,
    element: &[u8],
    name: &[u8],
    parameter: Option<IntType>,
    params: List<CoreType>,
    gives: CoreType,
    body: Option<u32>,
) -> Result<Item, NoMemory> {
    Ok(Item {
        element: Name::new(alloc, element)?,
        name: Name::new(alloc, name)?,
        is_signal: params.as_slice().is_empty(),
        parameter,
        params,
        result: gives,
        body,
    })
}

fn one_int(alloc: Global) -> Result<List<CoreType>, NoMemory> {
    Ok(List::new(vec![in alloc; INT]?))
}

// I.go and T.start have one target, P has a parameter, and I.done, which is signalled, has several targets.
fn items(alloc: Global) -> Result<List<Item>, NoMemory> {
    let mut items = Vec::new(alloc);
    let params = one_int(alloc)?;
    items.push(item(alloc, b"I", b"go", None, params, int(IntType::U8), Some(9))?)?;
    let params = one_int(alloc)?;
    items.push(item(
        alloc,
        b"P",
        b"go",
        Some(IntType::U8),
        params,
        int(IntType::U8),
        None,
    )?)?;
    let params = List::new(Vec::new(alloc));
    items.push(item(alloc, b"I", b"done", None, params, CoreType::Void, None)?)?;
    let params = one_int(alloc)?;
    items.push(item(
        alloc,
        b"T",
        b"start",
        None,
        params,
        CoreType::Void,
        Some(12),
    )?)?;
    Ok(List::new(items))
}

fn use_at(col: u32, number: u32) -> Unique {
    Unique {
        at: Pos {
            file: FILE,
            line: 1,
            col,
        },
        number,
    }
}

/// What is told: two uses of `unique`, one text of `uniqueCount`, the items, and the value 2 for the parameter of T.start's
/// target.
pub fn told(alloc: Global) -> Result<Told, NoMemory> {
    let counted = UniqueCount {
        text: Name::new(alloc, b"\"s\"")?,
        count: 7,
    };
    let values: Vec<Option<Constant>> = vec![in alloc; None, None, None, Some((IntType::U8, 2))]?;
    Ok(Told {
        env: Env {
            instance: 6,
            uniques: List::new(vec![in alloc; use_at(1, 3), use_at(5, 40_000)]?),
            counts: List::new(vec![in alloc; counted]?),
            items: items(alloc)?,
            first_dispatch: 20,
        },
        values: List::new(values),
    })
}
