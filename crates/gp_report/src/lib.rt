//! What `oltctl` says on standard error of all that may go wrong, and its exit statuses.
//!
//! Promise: each fault has its line and its status (`run_report` and the others).
//!
//! - `report.rt`: the line and the status of each fault.
//! - `status.rt`: the statuses.
//!
//! Where to make which change: a line stands in `report.rt` and `specs/Report.antt` or `specs/Words.antt`, a status in
//! `status.rt`. Which faults there are is decided where they arise: `gp_replay` for a replay or a storm, `gp_verify`
//! for a verification, `gp_decode` for a code, `gp_explain` for a trace in words, `gp_encode` for words.
#![tactic(auto)]

mod report;
mod status;

pub use report::{
    arguments_report, encode_report, explain_report, few_lines_report, input_report, line_report,
    memory_report, no_line_report, run_report, verify_report, write_report,
};
pub use status::{
    BAD_ARGUMENTS, BAD_INPUT, DISAGREEMENT, JOURNAL_FULL, NOT_A_RUN, NOT_WRITTEN, OUT_OF_MEMORY,
    SUCCESS, TEST_FAILED,
};
