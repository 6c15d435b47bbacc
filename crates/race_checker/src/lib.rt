//! Which accesses of a program may race.
#![tactic(auto)]

mod laws;
mod row;
mod soundness;
mod worked;

pub use laws::each_report_is_computed;
pub use row::Row;
pub use soundness::{each_bare_access_has_a_site, report_is_sound};
pub use worked::worked_rows;
