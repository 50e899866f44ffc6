// The lines of a script.
ghost use Rattle.std.specs.Prelude.{◌≡◌, ◌+◌, ◌≤◌, false, length, IfSome};

use memchr::memchr;
use std::io::Read;

// The most bytes of a line, without its LF.
pub const LONGEST_LINE: usize = 16384;

// A longest line, and 4,096 bytes behind it.
const SPACE: usize = 20480;

#[derive(Drop)]
pub(crate) struct Lines {
    // What is read is before `have`, and is moved only when more has to be read: measured, on long lines a vector that was drained took five times
    // as long.
    bytes: [u8; SPACE],
    // Where the line begins and ends. No LF lies between.
    start: usize,
    end: usize,
    have: usize,
    // It is longer than a line may be, and its beginning has been dropped.
    too_long: bool,
    // The script ends with it.
    is_last: bool,
    ghost line_inside: { start ≤ end },
    ghost end_inside: { end ≤ have },
    ghost have_inside: { have ≤ 20480 },
}

pub(crate) fn start() -> Lines {
    Lines {
        bytes: [0; SPACE],
        start: 0,
        end: 0,
        have: 0,
        too_long: false,
        is_last: false,
    }
}

impl Lines {
    // The line without its LF; none where it is longer than a line may be.
    pub(crate) fn line(&self) -> Option<&[u8]>
        ensures { IfSome result (λ line. length line.now ≤ 16384) }
    {
        if self.too_long || LONGEST_LINE < self.end - self.start {
            return None;
        }
        Some(&self.bytes[self.start..self.end])
    }

    pub(crate) fn is_last(&self) -> bool {
        self.is_last
    }

    // Goes on to the next line, up to the script's end.
    pub(crate) fn advance(&mut self, script: &mut impl Read) {
        self.drop_line();
        self.too_long = false;
        // The count only bounds the loop, beyond any script.
        for _ in 0..u64::MAX {
            if self.find_end() {
                return;
            }
            if LONGEST_LINE < self.end - self.start {
                self.too_long = true;
                self.start = self.end;
            }
            if !self.read_on(script) {
                break;
            }
        }
        self.is_last = true;
    }

    // Drops the line with its LF.
    fn drop_line(&mut self)
        ensures { self.new.end ≡ self.new.start }
    {
        self.start = self.have.min(self.end + 1);
        self.end = self.start;
    }

    // Goes on to the line's LF, or else to the end of what there is. Whether there is an LF.
    fn find_end(&mut self) -> bool
        ensures same_start { self.new.start ≡ self.old.start }
        ensures same_have { self.new.have ≡ self.old.have }
        ensures at_end { result ≡ false → self.new.end ≡ self.new.have }
    {
        match memchr(b'\n', &self.bytes[self.end..self.have]) {
            Some(more) => {
                self.end += more;
                true
            }
            None => {
                self.end = self.have;
                false
            }
        }
    }

    // Reads on behind what there is, which first goes to the front. Whether there was more to read.
    fn read_on(&mut self, script: &mut impl Read) -> bool {
        self.move_front();
        let n = console::read_some(script, &mut self.bytes[self.have..]);
        self.have += n;
        n > 0
    }

    fn move_front(&mut self)
        ensures at_front { self.new.start ≡ 0 }
        ensures same_line { self.new.end + self.old.start ≡ self.old.end }
        ensures same_rest { self.new.have + self.old.start ≡ self.old.have }
    {
        if self.start > 0 {
            self.bytes.copy_within(self.start..self.have, 0);
            self.end -= self.start;
            self.have -= self.start;
            self.start = 0;
        }
    }
}
