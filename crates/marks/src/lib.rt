//! The entries open to callers: for Rattle in `call` and `leaves`, and in `c` those that the crate marks_c exports to C
//! under the same names (include/marks.h). None asks anything of its caller; each answer and every lent number is fixed
//! by an equation.
#![tactic(auto)]

pub mod c;
pub mod call;
pub mod leaves;
