//! Scripts that draw on a screen: reading their lines as commands, what each line does, and what is printed for it.
#![tactic(auto)]

mod call_lines;
mod call_runs;
mod commands;
mod cuts;
mod effects;
mod faults;
mod line_faults;
mod making;
mod obeying;
mod pressing;
mod printing;
mod running;
mod showing;
mod stages;

pub use call_lines::{CallLine, parse_call_line};
pub use commands::{Command, parse_command, read_command};
pub use cuts::cut_line;
pub use line_faults::LineFault;
pub use printing::print_screen;
pub use running::{DemoFault, Output, call_refusals, refusals, run, run_as};
