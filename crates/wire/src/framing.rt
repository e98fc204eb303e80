// Bytes and whole frames at the front of a buffer; the rest of it is untouched (01, "Named refusals", last line).
ghost use Rattle.std.specs.Prelude.{◌≡◌, ◌∷◌, ◌+◌, ◌≤◌, length};
ghost use Rattle.meaning.specs.Bytes.{put, part};
ghost use Rattle.meaning.specs.Frames.{sealed};

use crate::sum::xor_from;

pub fn fill(src: &[u8], dst: &mut [u8])
    requires { length src.now ≤ length dst.old }
    ensures { dst.new ≡ put dst.old 0 src.now }
{
    // By index: copy_from_slice becomes a call of memmove, and the board's C library needs nothing from outside; of a zip over iter_mut a proof knows nothing.
    for i in 0..src.len() {
        dst[i] = src[i];
    }
}

// 01, "A frame is address, command, data, checksum": the n bytes of data already stand at place 2.
pub fn seal(address: u8, command: u8, n: usize, buffer: &mut [u8])
    requires { n + 3 ≤ length buffer.old }
    ensures { buffer.new ≡ put buffer.old 0 (sealed (address ∷ command ∷ part buffer.old 2 n)) }
{
    let end = n + 2;
    let sum = xor_from(address ^ command, &buffer[2..end]);
    buffer[0] = address;
    buffer[1] = command;
    buffer[end] = sum;
}

pub fn write(address: u8, command: u8, body: &[u8], buffer: &mut [u8])
    requires { length body.now + 3 ≤ length buffer.old }
    ensures { buffer.new ≡ put buffer.old 0 (sealed (address ∷ command ∷ body.now)) }
{
    fill(body, &mut buffer[2..]);
    seal(address, command, body.len(), buffer);
}
