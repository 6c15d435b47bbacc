//! A machine that does what a body does, with stacks of its own.

use crate::access::Local;
use crate::log::Log;
use crate::scope::Scope;
use crate::stack::Stack;
use crate::task::Task;
use core_meaning::{Flow, Where};

/// What is still to be done, and what it works with: the values, the places and the ways out of statements that wait, and the
/// locals of the body.
#[derive(Drop)]
pub(crate) struct Machine<'a> {
    pub(crate) scope: Scope<'a>,
    pub(crate) tasks: Stack<Task<'a>>,
    pub(crate) values: Stack<i64>,
    pub(crate) places: Stack<Where>,
    pub(crate) flows: Stack<Flow>,
    pub(crate) locals: Vec<Local>,
    pub(crate) log: Log<'a>,
}
