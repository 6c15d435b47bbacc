//! What the head of a function declares.

use nesc_core::CoreType;
use nesc_tree::FuncKind;
use nm_base::{IntType, List};

/// What the head of a function, a task, a command or an event declares; the type of the parameter in its bracket stands by itself (nesC 1.3
/// Reference, 5 and 6).
#[derive(Drop)]
pub struct Form {
    pub kind: FuncKind,
    pub is_async: bool,
    pub is_default: bool,
    pub bracket: Option<IntType>,
    pub params: List<CoreType>,
    pub result: CoreType,
}
