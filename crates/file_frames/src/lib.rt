// The file of an upload, by the rules of `file_rules`: its legal sizes, how many frames it has, and each of them.
#![tactic(auto)]

ghost use Rattle.std.specs.Prelude.{◌≡◌};
ghost use Rattle.file_rules.specs.File.{size_legal, frame_count, file_frame};

// The most bytes of a file: 65,535 frames.
const LONGEST: usize = 16_776_960;

#[tactic(auto, unfolding(file_rules::specs::File::size_legal))]
pub fn size_legal(size: usize) -> bool
    ensures { result ≡ size_legal size }
{
    1 <= size && size <= LONGEST
}

#[tactic(auto, unfolding(file_rules::specs::File::frame_count))]
pub fn frame_count(size: u32) -> u32
    ensures { result ≡ frame_count size }
{
    size.div_ceil(256)
}

// The bytes of a frame; none past the end of the file.
pub fn file_frame(file: &[u8], frame: u32) -> &[u8]
    ensures { result.now ≡ file_frame file.now frame }
{
    let start = (256 * frame as usize).min(file.len());
    let end = (start + 256).min(file.len());
    &file[start..end]
}
