//! Writes the lines that the commands print, and parses pressure files.
//!
//! The callers compute the values, and this crate only formats them. psi_observe writes its lines
//! with the same [`Piece`]s.
#![tactic(auto)]

mod file;
mod lines;
mod pieces;
mod read;

pub use file::{write_file, write_irq, write_report, write_report_head};
pub use lines::{
    put_timed, write_check, write_end, write_fired, write_kill, write_live, write_stall,
    write_stall_irq,
};
pub use pieces::{Piece, put_pieces};
pub use read::{PressureFile, PressureLine, law_read_again, read_file, read_irq};
