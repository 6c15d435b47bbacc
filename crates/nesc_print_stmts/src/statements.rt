//! Statements and declarations as words: a statement of a block, and a declaration of a list, begins a line. Each function goes down
//! so many levels of statements, and as many of the expressions in each: where more are in it, it answers `NoMemory`.

ghost use Rattle.std.specs.Prelude.{◌≡◌, ◌++◌, ◌∷◌, [], codes, option_map, OnOk};
ghost use Rattle.nesc_tree.specs.Level as level;
ghost use Rattle.nesc_tree.specs.View.{expr_of};
ghost use Rattle.nesc_print_words.specs.Expressions.{words_at};
ghost use Rattle.nesc_print_words.specs.Lexemes.{in_braces, in_parentheses, semicolon, sign, word};
ghost use Rattle.nesc_print_words.specs.Statements as spec;

use crate::declarations::{put_head, put_type_only, put_typedef, put_vars};
use nesc_print_exprs::{Words, put_expr};
use nesc_tree::level::{COMMA, CONDITIONAL};
use nesc_tree::{Decl, Expr, ForStart, Stmt};
use nm_base::{Boxed, List, NoMemory};
use printed_words::Gap;

// ---- what stands in statements

fn put_whole(words: &mut Words, gap: Gap, e: &Expr, levels: u32) -> Result<(), NoMemory>
    ensures { OnOk result (words.new ≡ words.old ++ spec.whole e.now) }
{
    put_expr(words, gap, COMMA, e, levels)
}

fn put_maybe(words: &mut Words, gap: Gap, e: &Option<Expr>, levels: u32) -> Result<(), NoMemory>
    ensures { OnOk result (words.new ≡ words.old ++ spec.maybe_words e.now) }
{
    match e {
        None => Ok(()),
        Some(e) => put_whole(words, gap, e, levels),
    }
}

// A test in its parentheses.
fn put_condition(words: &mut Words, e: &Expr, levels: u32) -> Result<(), NoMemory>
    ensures { OnOk result (words.new ≡ words.old ++ spec.condition_words e.now) }
{
    words.sign(Gap::Spaced, b"(")?;
    put_whole(words, Gap::Joined, e, levels)?;
    words.sign(Gap::Joined, b")")
}

// A keyword and the test behind it.
fn put_test(
    words: &mut Words,
    gap: Gap,
    keyword: &[u8],
    e: &Expr,
    levels: u32,
) -> Result<(), NoMemory>
    ensures { OnOk result (words.new ≡ words.old ++ word keyword.now ∷ spec.condition_words e.now) }
{
    words.word(gap, keyword)?;
    put_condition(words, e, levels)
}

fn put_eval(words: &mut Words, gap: Gap, e: &Expr, levels: u32) -> Result<(), NoMemory>
    ensures { OnOk result (words.new ≡ words.old ++ (spec.whole e.now ++ semicolon ∷ [])) }
{
    put_whole(words, gap, e, levels)?;
    words.sign(Gap::Joined, b";")
}

fn put_start(words: &mut Words, start: &ForStart, levels: u32) -> Result<(), NoMemory>
    ensures { OnOk result (words.new ≡ words.old ++ spec.start_words start.now) }
{
    match start {
        ForStart::Nothing => words.sign(Gap::Joined, b";"),
        ForStart::Eval(e) => put_eval(words, Gap::Joined, e, levels),
        ForStart::Vars(group) => put_vars(words, Gap::Joined, group, levels),
    }
}

// The test and the step of a `for`.
fn put_turn(
    words: &mut Words,
    test: &Option<Expr>,
    step: &Option<Expr>,
    levels: u32,
) -> Result<(), NoMemory>
    ensures { OnOk result (words.new ≡ words.old ++ (spec.maybe_words test.now ++ semicolon ∷ spec.maybe_words step.now)) }
{
    put_maybe(words, Gap::Spaced, test, levels)?;
    words.sign(Gap::Joined, b";")?;
    put_maybe(words, Gap::Spaced, step, levels)
}

// What stands in the parentheses of a `for`, with these.
fn put_turns(
    words: &mut Words,
    start: &ForStart,
    test: &Option<Expr>,
    step: &Option<Expr>,
    levels: u32,
) -> Result<(), NoMemory>
    ensures { OnOk result (words.new ≡ words.old ++ in_parentheses (spec.start_words start.now ++ (spec.maybe_words test.now ++ semicolon ∷ spec.maybe_words step.now))) }
{
    words.sign(Gap::Spaced, b"(")?;
    put_start(words, start, levels)?;
    put_turn(words, test, step, levels)?;
    words.sign(Gap::Joined, b")")
}

// `case`, its value and the colon.
fn put_case_label(words: &mut Words, gap: Gap, e: &Expr, levels: u32) -> Result<(), NoMemory>
    ensures { OnOk result (words.new ≡ words.old ++ word (codes "case") ∷ (words_at level.conditional (expr_of e.now) ++ sign (codes ":") ∷ [])) }
{
    words.word(gap, b"case")?;
    put_expr(words, Gap::Spaced, CONDITIONAL, e, levels)?;
    words.sign(Gap::Joined, b":")
}

fn put_default_label(words: &mut Words, gap: Gap) -> Result<(), NoMemory>
    ensures { OnOk result (words.new ≡ words.old ++ word (codes "default") ∷ sign (codes ":") ∷ []) }
{
    words.word(gap, b"default")?;
    words.sign(Gap::Joined, b":")
}

fn put_jump(words: &mut Words, gap: Gap, keyword: &[u8]) -> Result<(), NoMemory>
    ensures { OnOk result (words.new ≡ words.old ++ word keyword.now ∷ semicolon ∷ []) }
{
    words.word(gap, keyword)?;
    words.sign(Gap::Joined, b";")
}

fn put_return(words: &mut Words, gap: Gap, e: &Option<Expr>, levels: u32) -> Result<(), NoMemory>
    ensures { OnOk result (words.new ≡ words.old ++ word (codes "return") ∷ (spec.maybe_words e.now ++ semicolon ∷ [])) }
{
    words.word(gap, b"return")?;
    put_maybe(words, Gap::Spaced, e, levels)?;
    words.sign(Gap::Joined, b";")
}

// `else` stands on the line of a brace, and otherwise begins a line where its `if` does.
fn gap_of_else(gap: Gap, then: &Stmt) -> Gap {
    match then {
        Stmt::Block(_, _) => Gap::Spaced,
        _ => gap,
    }
}

// The brace of an empty block is on the line of the first one.
fn gap_of_end(stmts: &[Stmt]) -> Gap {
    if stmts.is_empty() {
        Gap::Spaced
    } else {
        Gap::Line
    }
}

// ---- statements

/// Adds the statement.
#[cycle(statements)]
pub fn put_stmt(words: &mut Words, gap: Gap, s: &Stmt, levels: u32) -> Result<(), NoMemory>
    ensures { OnOk result (words.new ≡ words.old ++ spec.stmt_words s.now) }
{
    if levels == 0 {
        return Err(NoMemory);
    }
    put_form(words, gap, s, levels - 1)
}

#[cycle(statements)]
fn put_form(words: &mut Words, gap: Gap, s: &Stmt, levels: u32) -> Result<(), NoMemory>
    ensures { OnOk result (words.new ≡ words.old ++ spec.stmt_words s.now) }
{
    match s {
        Stmt::Block(stmts, _) => put_block(words, gap, stmts, levels),
        Stmt::Empty(_) => words.sign(gap, b";"),
        Stmt::Eval(e, _) => put_eval(words, gap, e, levels),
        Stmt::Atomic(body, _) => put_atomic(words, gap, body.get(), levels),
        Stmt::If(e, then, other, _) => put_if(words, gap, e, then.get(), other, levels),
        Stmt::While(e, body, _) => put_tested(words, gap, b"while", e, body.get(), levels),
        Stmt::DoWhile(body, e, _) => put_do(words, gap, body.get(), e, levels),
        Stmt::For {
            start,
            test,
            step,
            body,
            ..
        } => {
            words.word(gap, b"for")?;
            put_turns(words, start, test, step, levels)?;
            put_stmt(words, Gap::Spaced, body.get(), levels)
        }
        Stmt::Switch(e, body, _) => put_tested(words, gap, b"switch", e, body.get(), levels),
        Stmt::Case(e, body, _) => put_case(words, gap, e, body.get(), levels),
        Stmt::Default(body, _) => put_default(words, gap, body.get(), levels),
        Stmt::Break(_) => put_jump(words, gap, b"break"),
        Stmt::Continue(_) => put_jump(words, gap, b"continue"),
        Stmt::Return(e, _) => put_return(words, gap, e, levels),
        Stmt::Local(decl, _) => put_decl(words, gap, decl.get(), levels),
    }
}

// A block, each statement of it on a line.
#[cycle(statements)]
fn put_block(words: &mut Words, gap: Gap, stmts: &List<Stmt>, levels: u32) -> Result<(), NoMemory>
    ensures { OnOk result (words.new ≡ words.old ++ in_braces (spec.stmts_words stmts.now)) }
{
    words.sign(gap, b"{")?;
    put_stmts(words, stmts.as_slice(), levels)?;
    words.sign(gap_of_end(stmts.as_slice()), b"}")
}

#[cycle(statements)]
#[tactic(auto, using(crate::proofs::Lists::lists))]
fn put_stmts(words: &mut Words, stmts: &[Stmt], levels: u32) -> Result<(), NoMemory>
    ensures { OnOk result (words.new ≡ words.old ++ spec.stmts_words stmts.now) }
{
    for s in stmts {
        put_stmt(words, Gap::Line, s, levels)?;
    }
    Ok(())
}

#[cycle(statements)]
fn put_atomic(words: &mut Words, gap: Gap, body: &Stmt, levels: u32) -> Result<(), NoMemory>
    ensures { OnOk result (words.new ≡ words.old ++ word (codes "atomic") ∷ spec.stmt_words body.now) }
{
    words.word(gap, b"atomic")?;
    put_stmt(words, Gap::Spaced, body, levels)
}

#[cycle(statements)]
fn put_if(
    words: &mut Words,
    gap: Gap,
    e: &Expr,
    then: &Stmt,
    other: &Option<Boxed<Stmt>>,
    levels: u32,
) -> Result<(), NoMemory>
    ensures { OnOk result (words.new ≡ words.old ++ word (codes "if") ∷ (spec.condition_words e.now ++ (spec.stmt_words then.now ++ spec.else_words (option_map spec.stmt_words other.now)))) }
{
    put_test(words, gap, b"if", e, levels)?;
    put_stmt(words, Gap::Spaced, then, levels)?;
    put_else(words, gap_of_else(gap, then), other, levels)
}

#[cycle(statements)]
fn put_else(
    words: &mut Words,
    gap: Gap,
    other: &Option<Boxed<Stmt>>,
    levels: u32,
) -> Result<(), NoMemory>
    ensures { OnOk result (words.new ≡ words.old ++ spec.else_words (option_map spec.stmt_words other.now)) }
{
    match other {
        None => Ok(()),
        Some(s) => {
            words.word(gap, b"else")?;
            put_stmt(words, Gap::Spaced, s.get(), levels)
        }
    }
}

// `while` and `switch`.
#[cycle(statements)]
fn put_tested(
    words: &mut Words,
    gap: Gap,
    keyword: &[u8],
    e: &Expr,
    body: &Stmt,
    levels: u32,
) -> Result<(), NoMemory>
    ensures { OnOk result (words.new ≡ words.old ++ word keyword.now ∷ (spec.condition_words e.now ++ spec.stmt_words body.now)) }
{
    put_test(words, gap, keyword, e, levels)?;
    put_stmt(words, Gap::Spaced, body, levels)
}

#[cycle(statements)]
fn put_do(words: &mut Words, gap: Gap, body: &Stmt, e: &Expr, levels: u32) -> Result<(), NoMemory>
    ensures { OnOk result (words.new ≡ words.old ++ word (codes "do") ∷ (spec.stmt_words body.now ++ word (codes "while") ∷ (spec.condition_words e.now ++ semicolon ∷ []))) }
{
    words.word(gap, b"do")?;
    put_stmt(words, Gap::Spaced, body, levels)?;
    put_test(words, Gap::Spaced, b"while", e, levels)?;
    words.sign(Gap::Joined, b";")
}

#[cycle(statements)]
fn put_case(words: &mut Words, gap: Gap, e: &Expr, body: &Stmt, levels: u32) -> Result<(), NoMemory>
    ensures { OnOk result (words.new ≡ words.old ++ word (codes "case") ∷ (words_at level.conditional (expr_of e.now) ++ sign (codes ":") ∷ spec.stmt_words body.now)) }
{
    put_case_label(words, gap, e, levels)?;
    put_stmt(words, Gap::Line, body, levels)
}

#[cycle(statements)]
fn put_default(words: &mut Words, gap: Gap, body: &Stmt, levels: u32) -> Result<(), NoMemory>
    ensures { OnOk result (words.new ≡ words.old ++ word (codes "default") ∷ sign (codes ":") ∷ spec.stmt_words body.now) }
{
    put_default_label(words, gap)?;
    put_stmt(words, Gap::Line, body, levels)
}

// ---- declarations

/// Adds the declaration, with the body of a function.
#[cycle(statements)]
pub fn put_decl(words: &mut Words, gap: Gap, decl: &Decl, levels: u32) -> Result<(), NoMemory>
    ensures { OnOk result (words.new ≡ words.old ++ spec.decl_words decl.now) }
{
    match decl {
        Decl::Typedef {
            name,
            ty,
            attrs,
            ..
        } => put_typedef(words, gap, name, ty, attrs, levels),
        Decl::TypeOnly(ty, _) => put_type_only(words, gap, ty, levels),
        Decl::Vars(group) => put_vars(words, gap, group, levels),
        Decl::Func { head, body } => {
            put_head(words, gap, head, levels)?;
            put_body(words, body, levels)
        }
    }
}

// The body of a function, or the `;` in its place.
#[cycle(statements)]
fn put_body(words: &mut Words, body: &Option<Stmt>, levels: u32) -> Result<(), NoMemory>
    ensures { OnOk result (words.new ≡ words.old ++ spec.body_words (option_map spec.stmt_words body.now)) }
{
    match body {
        None => words.sign(Gap::Joined, b";"),
        Some(s) => put_stmt(words, Gap::Spaced, s, levels),
    }
}

/// Adds the declarations, each on a line.
#[tactic(auto, using(crate::proofs::Lists::lists))]
pub fn put_decls(words: &mut Words, decls: &List<Decl>, levels: u32) -> Result<(), NoMemory>
    ensures { OnOk result (words.new ≡ words.old ++ spec.decls_words decls.now) }
{
    for decl in decls.as_slice() {
        put_decl(words, Gap::Line, decl, levels)?;
    }
    Ok(())
}
