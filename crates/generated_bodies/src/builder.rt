//! Trees from their nodes in postfix order.

use crate::node::{ExprNode, Node, PlaceNode, StmtNode};
use nesc_core::{CoreExpr, CoreStmt, CoreType, Place};
use nm_base::{IntType, List, NoMemory, Pos, beside};
use std::alloc::Global;
use std::mem;

const AT: Pos = Pos {
    file: 1,
    line: 1,
    col: 1,
};

/// What is built so far, and waits for what it is a part of. Where a part is missing, a place that is nowhere stands for it.
#[derive(Drop)]
pub(crate) struct Builder {
    alloc: Global,
    places: Vec<Place>,
    exprs: Vec<CoreExpr>,
    cases: Vec<(Option<i64>, u32)>,
    stmts: Vec<CoreStmt>,
}

impl Builder {
    pub(crate) fn new(alloc: Global) -> Builder {
        Builder {
            alloc,
            places: Vec::new(alloc),
            exprs: Vec::new(alloc),
            cases: Vec::new(alloc),
            stmts: Vec::new(alloc),
        }
    }

    /// Builds what the nodes say.
    pub(crate) fn add_all(&mut self, nodes: &[Node]) -> Result<(), NoMemory> {
        for node in nodes {
            self.add(*node)?;
        }
        Ok(())
    }

    fn add(&mut self, node: Node) -> Result<(), NoMemory> {
        match node {
            Node::Place(node) => self.add_place(node),
            Node::Expr(node) => {
                let e = self.expr_of(node)?;
                self.exprs.push(e)?;
                Ok(())
            }
            Node::Case(value, start) => {
                self.cases.push((value, start))?;
                Ok(())
            }
            Node::Stmt(node) => {
                let s = self.stmt_of(node)?;
                self.stmts.push(s)?;
                Ok(())
            }
        }
    }

    fn add_place(&mut self, node: PlaceNode) -> Result<(), NoMemory> {
        let place = self.place_of(node)?;
        self.places.push(place)?;
        Ok(())
    }

    fn place_of(&mut self, node: PlaceNode) -> Result<Place, NoMemory> {
        match node {
            PlaceNode::Object(k) => Ok(Place::Object(k)),
            PlaceNode::Local(x) => Ok(Place::Local(x)),
            PlaceNode::Byte => Ok(Place::Deref(self.boxed()?, CoreType::Int(IntType::U8))),
            PlaceNode::Index => {
                let e = self.boxed()?;
                let (e, base) = beside(e, self.boxed_place())?;
                Ok(Place::Index(base, e))
            }
            PlaceNode::Field(k) => Ok(Place::Field(self.boxed_place()?, k)),
        }
    }

    fn expr_of(&mut self, node: ExprNode) -> Result<CoreExpr, NoMemory> {
        match node {
            ExprNode::Const(t, x) => Ok(CoreExpr::Const(t, x)),
            ExprNode::Null => Ok(CoreExpr::Null),
            ExprNode::Post(k) => Ok(CoreExpr::Post(k)),
            ExprNode::In(port) => Ok(CoreExpr::In(port)),
            ExprNode::Read => Ok(CoreExpr::Read(self.place(), AT)),
            ExprNode::Addr => Ok(CoreExpr::Addr(self.place())),
            ExprNode::Un(op, t) => Ok(CoreExpr::Un(op, t, self.boxed()?)),
            ExprNode::Convert(t) => Ok(CoreExpr::Convert(t, self.boxed()?)),
            ExprNode::Out(port) => Ok(CoreExpr::Out(port, self.boxed()?)),
            ExprNode::Assign => {
                let e = self.boxed()?;
                Ok(CoreExpr::Assign(self.place(), e, AT))
            }
            ExprNode::Update(op, t, gives_old) => {
                let e = self.boxed()?;
                Ok(CoreExpr::Update(self.place(), op, t, e, gives_old, AT))
            }
            ExprNode::Call(f, count) => Ok(CoreExpr::Call(f, self.arguments(count)?, AT)),
            ExprNode::Cond => self.cond(),
            ExprNode::Bin(_, _)
            | ExprNode::Offset
            | ExprNode::Distance
            | ExprNode::And
            | ExprNode::Or
            | ExprNode::Comma => self.of_two(node),
        }
    }

    // An expression with two operands.
    fn of_two(&mut self, node: ExprNode) -> Result<CoreExpr, NoMemory> {
        let b = self.boxed()?;
        let (b, a) = beside(b, self.boxed())?;
        Ok(match node {
            ExprNode::Bin(op, t) => CoreExpr::Bin(op, t, a, b),
            ExprNode::Offset => CoreExpr::Offset(a, b, 1),
            ExprNode::Distance => CoreExpr::Distance(a, b, 1),
            ExprNode::And => CoreExpr::And(a, b),
            ExprNode::Or => CoreExpr::Or(a, b),
            _ => CoreExpr::Comma(a, b),
        })
    }

    fn cond(&mut self) -> Result<CoreExpr, NoMemory> {
        let c = self.boxed()?;
        let (c, b) = beside(c, self.boxed())?;
        let ((c, b), a) = beside((c, b), self.boxed())?;
        Ok(CoreExpr::Cond(a, b, c))
    }

    fn stmt_of(&mut self, node: StmtNode) -> Result<CoreStmt, NoMemory> {
        match node {
            StmtNode::Eval => Ok(CoreStmt::Eval(self.expr())),
            StmtNode::Block(count) => Ok(CoreStmt::Block(self.list(count)?)),
            StmtNode::If => {
                let b = self.boxed_stmt()?;
                let (b, a) = beside(b, self.boxed_stmt())?;
                Ok(CoreStmt::If(self.expr(), a, b))
            }
            StmtNode::Loop(first, has_step) => {
                let body = self.boxed_stmt()?;
                let step = if has_step { Some(self.expr()) } else { None };
                Ok(CoreStmt::Loop {
                    first,
                    test: self.expr(),
                    step,
                    body,
                })
            }
            StmtNode::Switch(count) => {
                let list = self.list(count)?;
                let cases = mem::replace(&mut self.cases, Vec::new(self.alloc));
                Ok(CoreStmt::Switch(self.expr(), List::new(cases), list))
            }
            StmtNode::Break => Ok(CoreStmt::Break),
            StmtNode::Continue => Ok(CoreStmt::Continue),
            StmtNode::Return(true) => Ok(CoreStmt::Return(Some(self.expr()))),
            StmtNode::Return(false) => Ok(CoreStmt::Return(None)),
            StmtNode::Atomic => Ok(CoreStmt::Atomic(self.boxed_stmt()?)),
            StmtNode::Clear(x) => Ok(CoreStmt::Clear(x)),
        }
    }

    fn place(&mut self) -> Place {
        match self.places.pop() {
            Some(place) => place,
            None => Place::Object(u32::MAX),
        }
    }

    fn boxed_place(&mut self) -> Result<Box<Place>, NoMemory> {
        let place = self.place();
        Ok(Box::new(self.alloc, place)?)
    }

    fn expr(&mut self) -> CoreExpr {
        match self.exprs.pop() {
            Some(e) => e,
            None => CoreExpr::Addr(Place::Object(u32::MAX)),
        }
    }

    fn boxed(&mut self) -> Result<Box<CoreExpr>, NoMemory> {
        let e = self.expr();
        Ok(Box::new(self.alloc, e)?)
    }

    fn arguments(&mut self, count: u32) -> Result<List<CoreExpr>, NoMemory> {
        let at = self.exprs.len().saturating_sub(count as usize);
        let args = self.exprs.split_off(at)?;
        Ok(List::new(args))
    }

    /// The statement that was built last.
    pub(crate) fn stmt(&mut self) -> CoreStmt {
        match self.stmts.pop() {
            Some(s) => s,
            None => CoreStmt::Clear(u32::MAX),
        }
    }

    fn boxed_stmt(&mut self) -> Result<Box<CoreStmt>, NoMemory> {
        let s = self.stmt();
        Ok(Box::new(self.alloc, s)?)
    }

    fn list(&mut self, count: u32) -> Result<List<CoreStmt>, NoMemory> {
        let at = self.stmts.len().saturating_sub(count as usize);
        let list = self.stmts.split_off(at)?;
        Ok(List::new(list))
    }
}
