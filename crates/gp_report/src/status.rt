//! The exit statuses of `oltctl` (this profile's own rule).

/// All went well.
pub const SUCCESS: u8 = 0;

/// What was read is no input of the command, or was not read to its end; of a trace that is no run it is `NOT_A_RUN`.
pub const BAD_INPUT: u8 = 1;

/// The command line is none of this program's.
pub const BAD_ARGUMENTS: u8 = 2;

/// Out of memory.
pub const OUT_OF_MEMORY: u8 = 3;

/// A write failed or took nothing, or a flush failed.
pub const NOT_WRITTEN: u8 = 4;

/// What several threads were told does not agree, or a thread was not started.
pub const DISAGREEMENT: u8 = 5;

/// The journal of a port keeps as many entries as it may.
pub const JOURNAL_FULL: u8 = 6;

/// What was read as a trace is none of a run of the machine.
pub const NOT_A_RUN: u8 = 7;

/// A script of a folder is not as what stands beside it, or the folder has none.
pub const TEST_FAILED: u8 = 7;
