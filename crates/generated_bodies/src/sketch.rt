//! A tree that is being drawn at random.

ghost use Rattle.std.specs.Prelude.{◌<◌};

use crate::form::{Form, MET};
use crate::node::{ExprNode, Node, PlaceNode, StmtNode};
use nesc_core::BinOp;
use nm_base::{IntType, NoMemory};
use rand_core::utils::NextWord;
use rand_pcg::Pcg32;
use std::alloc::Global;

/// The types of numbers.
pub(crate) const TYPES: [IntType; 6] = [
    IntType::I8,
    IntType::U8,
    IntType::I16,
    IntType::U16,
    IntType::I32,
    IntType::U32,
];

const PROMOTED: [IntType; 4] = [IntType::I16, IntType::U16, IntType::I32, IntType::U32];

const OPERATORS: [BinOp; 10] = [
    BinOp::Add,
    BinOp::Sub,
    BinOp::Mul,
    BinOp::Div,
    BinOp::Rem,
    BinOp::And,
    BinOp::Or,
    BinOp::Xor,
    BinOp::Shl,
    BinOp::Shr,
];

const COMPARISONS: [BinOp; 4] = [BinOp::Eq, BinOp::Ne, BinOp::Lt, BinOp::Le];

/// The nodes that were drawn so far, and what draws them.
#[derive(Drop)]
pub(crate) struct Sketch {
    random: Pcg32,
    pub(crate) nodes: Vec<Node>,
}

impl Sketch {
    pub(crate) fn new(alloc: Global, seed: u64) -> Sketch {
        Sketch {
            random: Pcg32::new(seed, 54),
            nodes: Vec::new(alloc),
        }
    }

    /// A number below n.
    pub(crate) fn below(&mut self, n: u32) -> u32
        requires { 0 < n }
        ensures { result < n }
    {
        self.random.next_word() % n
    }

    /// True once in n times.
    pub(crate) fn once_in(&mut self, n: u32) -> bool
        requires { 0 < n }
    {
        self.below(n) == 0
    }

    /// A random number.
    pub(crate) fn word(&mut self) -> u32 {
        self.random.next_word()
    }

    pub(crate) fn number_type(&mut self) -> IntType {
        TYPES[self.below(6) as usize]
    }

    /// A type with which operators compute.
    pub(crate) fn promoted(&mut self) -> IntType {
        PROMOTED[self.below(4) as usize]
    }

    pub(crate) fn operator(&mut self) -> BinOp {
        OPERATORS[self.below(10) as usize]
    }

    pub(crate) fn comparison(&mut self) -> BinOp {
        COMPARISONS[self.below(4) as usize]
    }

    /// One more place.
    pub(crate) fn place(&mut self, node: PlaceNode) -> Result<(), NoMemory> {
        self.nodes.push(Node::Place(node))?;
        Ok(())
    }

    /// One more expression.
    pub(crate) fn expr(&mut self, node: ExprNode) -> Result<(), NoMemory> {
        self.nodes.push(Node::Expr(node))?;
        Ok(())
    }

    /// One more case of the next switch.
    pub(crate) fn case(&mut self, value: Option<i64>, start: u32) -> Result<(), NoMemory> {
        self.nodes.push(Node::Case(value, start))?;
        Ok(())
    }

    /// One more statement.
    pub(crate) fn stmt(&mut self, node: StmtNode) -> Result<(), NoMemory> {
        self.nodes.push(Node::Stmt(node))?;
        Ok(())
    }

    /// An expression that writes that a form was met.
    pub(crate) fn met(&mut self, form: Form) -> Result<(), NoMemory> {
        self.expr(ExprNode::Const(IntType::U16, form as i64))?;
        self.expr(ExprNode::Out(MET))
    }

    /// A statement that writes that a form was met.
    pub(crate) fn meets(&mut self, form: Form) -> Result<(), NoMemory> {
        self.met(form)?;
        self.stmt(StmtNode::Eval)
    }
}
