// Bytes and entries on standard input that go into a buffer or a table.
ghost use Rattle.std.specs.Prelude.{◌≤◌, IfOk};

use crate::numbers::{read_entry, read_size};
use crate::preparing::prepare;
use std::io;
use std::io::Read;
use std::ops::Range;

// Fills a buffer.
pub fn read_whole(rt: &HostRuntime, buffer: &mut [u8]) -> io::Result<()> {
    rt.stdin().read_exact(buffer)
}

// Reads a length and so many bytes into a space, and hands them back.
pub fn read_bounded<'a>(rt: &HostRuntime, space: &'a mut [u8]) -> io::Result<&'a [u8]> {
    let len = read_size(rt, space.len())?;
    let bytes = &mut space[..len];
    read_whole(rt, bytes)?;
    Ok(bytes)
}

// Reads the place and the length of a part of something so long. One that isn't inside isn't read.
fn read_bounds(rt: &HostRuntime, len: usize) -> io::Result<Range<usize>>
    ensures { IfOk result (λ part. (part.start ≤ part.end) × (part.end ≤ len)) }
{
    let start = read_size(rt, len)?;
    let count = read_size(rt, len - start)?;
    Ok(start..start + count)
}

// Reads a place and a length, and then the first entry, the step and the top, which set every entry of that part of the table.
pub fn read_prepared(rt: &HostRuntime, table: &mut [u16]) -> io::Result<()> {
    let part = read_bounds(rt, table.len())?;
    let first = read_entry(rt);
    let step = read_entry(rt);
    let top = read_entry(rt);
    prepare(&mut table[part], u64::from(first), step, top);
    Ok(())
}

// Reads a place, a length and so many entries, which go into the table from that place on.
pub fn read_part(rt: &HostRuntime, table: &mut [u16]) -> io::Result<()> {
    let part = read_bounds(rt, table.len())?;
    for entry in table[part].iter_mut() {
        *entry = read_entry(rt);
    }
    Ok(())
}
