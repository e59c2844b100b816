// The directions of the input: one a line, or packed, twelve bytes each.
ghost use Rattle.std.specs.Prelude.{◌≤◌, length};

use lines::{Text, Words};

// A direction's bytes as they come. What is past the thousandth is not kept, but for one that tells of it.
#[derive(Drop)]
pub struct Piece {
    bytes: Text<1001>,
    pub packed: bool,
}

impl Piece {
    pub fn new(packed: bool) -> Self {
        Piece {
            bytes: Text::new(),
            packed,
        }
    }

    // No byte of it has come.
    pub fn is_empty(&self) -> bool {
        self.bytes.len() == 0
    }

    // How many bytes a packed one still lacks.
    pub fn missing(&self) -> usize {
        12 - self.bytes.len().min(12)
    }

    // So many bytes more as are kept.
    fn keep(&mut self, part: &[u8]) {
        let n = part.len().min(1001 - self.bytes.len());
        self.bytes.push_bytes(&part[..n]);
    }

    // A part of its line, and whether the line has ended: then the part has the line end.
    pub fn take_line(&mut self, part: &[u8]) -> bool {
        match part {
            [line @ .., b'\n'] => {
                self.keep(line);
                true
            }
            _ => {
                self.keep(part);
                false
            }
        }
    }

    // A part of its twelve bytes, and whether these are all.
    pub fn take_packed(&mut self, part: &[u8]) -> bool {
        self.keep(part);
        self.bytes.len() == 12
    }

    // The direction, where it can be read. The next one begins.
    pub fn end(&mut self) -> Option<[i32; 3]> {
        let direction = read(self.bytes.as_bytes(), self.packed);
        self.bytes.clear();
        direction
    }
}

// The three numbers of a line that has no more.
fn read_line(line: &[u8]) -> Option<[i32; 3]> {
    let mut words = Words::of(line);
    let x = lines::read_signed(words.next()?)?;
    let y = lines::read_signed(words.next()?)?;
    let z = lines::read_signed(words.next()?)?;
    if words.is_empty() {
        Some([x, y, z])
    } else {
        None
    }
}

// The three numbers of twelve bytes.
fn read_packed(bytes: &[u8]) -> Option<[i32; 3]> {
    if bytes.len() < 12 {
        return None;
    }
    let x = octets::get_signed4(bytes);
    let y = octets::get_signed4(&bytes[4..]);
    let z = octets::get_signed4(&bytes[8..]);
    Some([x, y, z])
}

fn read(bytes: &[u8], packed: bool) -> Option<[i32; 3]> {
    if packed {
        read_packed(bytes)
    } else if bytes.len() <= 1000 {
        read_line(bytes)
    } else {
        None
    }
}
