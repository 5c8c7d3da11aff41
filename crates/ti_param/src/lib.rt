//! Parameter strings of terminfo(5): reading, measuring and running texts that take parameters. A
//! text is read as a program, whose output, and the most that it can be, is known before it runs.
#![tactic(auto)]

mod builder;
mod counts;
mod directives;
mod faults;
mod laws;
mod layouts;
mod lengths;
mod machine;
mod marks;
mod measures;
mod padding;
mod phrases;
mod programs;
mod reader;
mod runs;
mod stack;
mod steps;
mod strides;
mod tokens;
mod variables;

pub use faults::{ParamFault, RunFault};
pub use laws::{
    cup_writes_row_and_column, increment_adds_one, number_writes_decimal, padding_is_removed,
    padding_is_removed_once, stack_is_enough, text_has_not_both, text_has_one_fault,
    text_has_one_tree, text_has_tree_or_fault, text_is_bounded, text_is_parsed, text_writes_itself,
};
pub use out_of_memory::NoMemory;
pub use padding::{strip_padding, stripped_length};
pub use programs::Program;
pub use variables::Vars;
