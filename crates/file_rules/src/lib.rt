// What unit and sender share: the file of an upload in frames (`specs/File.antt`), the frame checksum (`specs/Checksum.antt`) and the errors that it
// is sure to detect (`specs/Detection.antt`), and the setup that announces a file and the job that it belongs to (`specs/Setup.antt`), with their
// laws. The code is `file_frames`, `file_checksum` and `file_setup`.
#![tactic(auto)]

// How many bytes a setup's payload has: the size and the job number.
pub const SETUP_LENGTH: usize = 8;

// What a setup's payload says: the file's size and the number of the job, document 02's. A job is an `Option<u32>`: none is a case of its own,
// and 0 is a number as any other.
#[derive(Clone, Copy)]
pub struct Announcement {
    pub size: u32,
    pub number: u32,
}
