// Text on its way to standard output, gathered so that one system call writes 65,536 bytes of it.
use std::io::Stdout;

// `used` bytes are gathered. Each u16 is an index of the bytes, so that nothing has to be required of a count. With `arrayvec` the
// program took a fifth longer. It is not `Drop`, so that what is gathered has to be written in the end: the bytes are lent, so that
// they are not copied then.
pub struct Out<'a> {
    bytes: &'a mut [u8; 65536],
    used: u16,
    stdout: Stdout,
}

// Not within the loop of `put`, which it would slow.
#[cold]
fn write_full(stdout: &mut Stdout, bytes: &[u8; 65536]) {
    streams::write_all(stdout, bytes);
}

impl<'a> Out<'a> {
    pub fn new(bytes: &'a mut [u8; 65536], stdout: Stdout) -> Self {
        Out {
            bytes,
            used: 0,
            stdout,
        }
    }

    // The byte that fills the buffer has it written.
    pub fn put(&mut self, word: &str) {
        let mut used = self.used;
        for &byte in word.as_bytes() {
            self.bytes[usize::from(used)] = byte;
            used = used.wrapping_add(1);
            if used == 0 {
                write_full(&mut self.stdout, self.bytes);
            }
        }
        self.used = used;
    }

    // A number in decimal, behind a word.
    pub fn put_number(&mut self, word: &str, number: u32) {
        self.put(word);
        self.put(itoa::Buffer::new().format(number));
    }

    // A word for each bit that is set, from the lowest on.
    pub fn put_flags(&mut self, flags: u8, words: &[&str]) {
        let mut left = flags;
        for word in words {
            if left % 2 == 1 {
                self.put(word);
            }
            left /= 2;
        }
    }

    // Writes what is gathered.
    pub fn flush(self) {
        let Out {
            bytes,
            used,
            mut stdout,
        } = self;
        streams::write_all(&mut stdout, &bytes[..usize::from(used)]);
    }
}
