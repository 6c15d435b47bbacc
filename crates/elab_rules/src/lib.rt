//! Rules on heads and earlier declarations.
#![tactic(auto)]

mod before;
mod bodies;
mod combined_results;
mod lines;
mod meanings;
mod named;
mod printed;
mod refusals;
mod shapes;
mod told;

pub use before::{agrees, earlier, is_definition, is_known, is_new};
pub use bodies::{body, boots, prototype_stands};
pub use combined_results::{called_from_here, combined, loses};
pub use lines::{free_line, line_before, one_line};
pub use meanings::{function_meaning, function_number, function_of, task_meaning, task_of};
pub use named::{first_at, in_module, well_named};
pub use printed::{dispatch_name, instance_name};
pub use shapes::{implemented, well_formed, well_tasked};
pub use told::ModuleTold;
