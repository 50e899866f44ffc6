// The rules of messages on CAN, single frames and series: in the 13-byte form (`specs/Can.antt`), with both round trips, and as frame records
// (`specs/Records.antt`). The code is `can_scan`, `can_reader`, `can_writer` and `can_records`; the constants are the rules' numbers, for the code.
#![tactic(auto)]

// Bytes of a frame: the identifier (4), the DLC and the data.
pub const FRAME_SIZE: usize = 13;

// Bytes of a frame's data.
pub const DATA_SIZE: usize = 8;

// Payload bytes of a full frame in a series; the last byte of its data is the count of frames still to come.
pub const PART_SIZE: usize = 7;

// The most frames still to come.
pub const MOST_LATER: u8 = 36;

// Bytes of the longest series: 37 frames.
pub const LONGEST_SERIES: usize = 481;

// The first type of a series; a lower one is a single frame's.
pub const FIRST_SERIES: u8 = 7;

// A CAN frame as a driver takes it: document 01's frame record.
#[repr(C)]
#[derive(Clone, Copy)]
pub struct CanFrame {
    pub identifier: u32,
    pub dlc: u8,
    pub data: [u8; DATA_SIZE],
}
