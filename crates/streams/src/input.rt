// What a reader gives, byte by byte.
use std::io::Read;

// What is read at once.
const BLOCK: usize = 65536;

// A reader, and the part of its last block that is not used yet.
#[derive(Drop)]
pub struct Input<R> {
    reader: R,
    block: [u8; BLOCK],
    at: usize,
    end: usize,
}

impl<R: Read> Input<R> {
    pub fn new(reader: R) -> Input<R> {
        Input {
            reader,
            block: [0; BLOCK],
            at: 0,
            end: 0,
        }
    }

    // Reads the next block where the last is used up; None where the input ends.
    fn fill(&mut self) -> Option<()> {
        if self.at >= self.end {
            self.end = self.reader.read(&mut self.block).ok()?;
            self.at = 0;
            if self.end == 0 {
                return None;
            }
        }
        Some(())
    }

    pub fn next_byte(&mut self) -> Option<u8> {
        self.fill()?;
        let b = self.block.get(self.at).copied()?;
        self.at += 1;
        Some(b)
    }

    // A number of at most 9 digits, and its newline.
    pub fn number(&mut self) -> Option<usize> {
        let mut n = 0;
        for _ in 0..10usize {
            match self.next_byte()? {
                b'\n' => return Some(n),
                b @ b'0'..=b'9' => n = n * 10 + usize::from(b - b'0'),
                _ => return None,
            }
        }
        None
    }

    // A text, which comes as its length, its bytes and a newline: how long it is. It is put into the room as far as it goes.
    pub fn text(&mut self, room: &mut [u8]) -> Option<usize> {
        let n = self.number()?;
        let mut left = n;
        for _ in 0..n {
            if left == 0 {
                break;
            }
            self.fill()?;
            let waiting = self.block.get(self.at..self.end)?;
            let k = waiting.len().min(left);
            let from = n - left;
            let m = k.min(room.len().saturating_sub(from));
            if let Some(places) = room.get_mut(from..from + m) {
                places.copy_from_slice(&waiting[..m]);
            }
            self.at += k;
            left -= k;
        }
        (self.next_byte()? == b'\n').then_some(n)
    }

    // Does the work over and over, until it answers None. Nothing says that the input ends, so the turns are counted.
    pub fn each<F: FnMut(&mut Input<R>) -> Option<()>>(&mut self, mut work: F)
        requires { F.IsAlwaysCallable work }
    {
        for _ in 0..u64::MAX {
            if work(self).is_none() {
                return;
            }
        }
    }
}
