// The file and the store.
ghost use Rattle.std.specs.Prelude.{◌≡◌, length};

// One byte more than a file may have.
const SPACE: usize = 16776961;

pub(crate) fn space() -> [u8; SPACE]
    ensures { 16776961 ≡ length result }
{
    [0; SPACE]
}

pub(crate) fn fill(file: &mut [u8]) {
    for (i, byte) in file.iter_mut().enumerate() {
        *byte = byte_at(i);
    }
}

// Each frame begins with its number, so no two are the same.
fn byte_at(i: usize) -> u8 {
    match i % 256 {
        0 => (i / 256 % 256) as u8,
        1 => (i / 65536 % 256) as u8,
        _ => (i % 251) as u8,
    }
}

// What no upload stored.
pub(crate) fn clear(store: &mut [u8]) {
    store.fill(0xA5);
}

// The first n bytes, or all where there are fewer.
pub(crate) fn front(bytes: &[u8], n: usize) -> &[u8] {
    bytes.get(..n).unwrap_or(bytes)
}

pub(crate) fn front_mut(bytes: &mut [u8], n: usize) -> &mut [u8] {
    let n = n.min(bytes.len());
    &mut bytes[..n]
}
