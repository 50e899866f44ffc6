// Files by their names.
use std::fs::Files;
use std::io;
use std::io::Read;

// Reads a file to the start of the room, and answers how many bytes that is: the room is full where the file has more.
pub(crate) fn read(rt: &impl Files, name: &[u8], room: &mut [u8]) -> io::Result<usize> {
    let mut file = console::open(rt, name)?;
    read_file(&mut file, room)
}

fn read_file(file: &mut impl Read, room: &mut [u8]) -> io::Result<usize> {
    let n = console::read_full(file, room);
    // A read that failed ends early, as the end of the file does: another read tells them apart.
    let mut more = [0u8; 1];
    let _ = file.read(&mut more)?;
    Ok(n)
}

// One or more decimal digits, and nothing else.
pub(crate) fn is_number(word: &[u8]) -> bool {
    !word.is_empty() && word.iter().all(u8::is_ascii_digit)
}
