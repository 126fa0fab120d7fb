ghost use Rattle.std.specs.Prelude.{◌≡◌, ◌≤◌, [], take, Some};

use std::io;

// Room for the line that tells a refusal, whatever its numbers are.
const ROOM: usize = 80;

/// A short text that is made up before it is written, so that it can be written at once.
#[derive(Drop)]
pub(crate) struct Message {
    bytes: [u8; ROOM],
    len: usize,
    ghost inside: { len ≤ 80 },
}

impl Message {
    pub(crate) fn new() -> Message
        ensures { take result.len result.bytes ≡ [] }
    {
        Message {
            bytes: [0; ROOM],
            len: 0,
        }
    }

    pub(crate) fn as_bytes(&self) -> &[u8]
        ensures { result.now ≡ take self.now.len self.now.bytes }
    {
        &self.bytes[..self.len]
    }
}

/// `write` takes as many bytes as there is room for.
impl io::Write for Message {
    ghost contents = { λ m. Some (take m.len m.bytes) };

    fn write(&mut self, buf: &[u8]) -> io::Result<usize> {
        let count = buf.len().min(ROOM - self.len);
        self.bytes[self.len..self.len + count].copy_from_slice(&buf[..count]);
        self.len += count;
        Ok(count)
    }

    fn flush(&mut self) -> io::Result<()> {
        Ok(())
    }
}
