//! What the kernel's program does beside the program.

ghost use Rattle.kernel_contract.specs.Law.{EachKernelKeeps};

use core_meaning::every_source_grows;
use nesc_core::each_struct_is_its_fields;
use queue_law::each_kernel_queues;
use source_laws::{bodies_are_orderly, depth_cuts_nothing};

/// The kernel of a well-formed program without a cycle of calls keeps the contract of a kernel: each post is a call of one statement that puts the
/// task last, and `pop` takes the first task.
pub fn each_kernel_keeps()
    ensures { EachKernelKeeps }
{
    each_struct_is_its_fields();
    each_kernel_queues();
    bodies_are_orderly();
    depth_cuts_nothing();
    every_source_grows();
}
