// Numbers on standard input, highest byte first.
ghost use Rattle.std.specs.Prelude.{◌≤◌, IfOk};

use std::io;
use std::io::{Error, ErrorKind, Read};

// A number of three bytes. One over the limit isn't read.
pub fn read_size(rt: &HostRuntime, limit: usize) -> io::Result<usize>
    ensures { IfOk result (λ n. n ≤ limit) }
{
    let mut bytes = [0u8; 4];
    rt.stdin().read_exact(&mut bytes[1..])?;
    let size = u32::from_be_bytes(bytes) as usize;
    if size > limit {
        return Err(Error::from(ErrorKind::InvalidData));
    }
    Ok(size)
}

// A number of eight bytes.
pub fn read_long(rt: &HostRuntime) -> io::Result<usize> {
    let mut bytes = [0u8; 8];
    rt.stdin().read_exact(&mut bytes)?;
    Ok(u64::from_be_bytes(bytes) as usize)
}

// So many bytes. Those that the input has no more are 0.
fn read_padded<const N: usize>(rt: &HostRuntime) -> [u8; N] {
    let mut bytes = [0u8; N];
    let _ = rt.stdin().read_exact(&mut bytes);
    bytes
}

// An entry, two bytes, 0 at the end of the input.
pub fn read_entry(rt: &HostRuntime) -> u16 {
    u16::from_be_bytes(read_padded(rt))
}

// One byte, 0 at the end of the input.
pub fn read_byte(rt: &HostRuntime) -> u8 {
    u8::from_be_bytes(read_padded(rt))
}
