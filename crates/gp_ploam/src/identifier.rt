//! The identifiers of messages, octet 2 of their codes (G.984.3, clause 9). Each direction has its own.

/// Those of the line terminal's messages.
pub mod down {
    pub const UPSTREAM_OVERHEAD: u8 = 1;

    pub const ASSIGN_ONU_ID: u8 = 3;

    pub const RANGING_TIME: u8 = 4;

    pub const DEACTIVATE_ONU_ID: u8 = 5;

    pub const DISABLE_SERIAL_NUMBER: u8 = 6;

    pub const ASSIGN_ALLOC_ID: u8 = 10;

    pub const NO_MESSAGE: u8 = 11;

    pub const POPUP: u8 = 12;
}

/// Those of a unit's messages.
pub mod up {
    pub const SERIAL_NUMBER_ONU: u8 = 1;

    pub const DYING_GASP: u8 = 3;

    pub const NO_MESSAGE: u8 = 4;

    pub const ACKNOWLEDGE: u8 = 9;
}
