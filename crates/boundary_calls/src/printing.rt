// What is printed of a call. A write that fails is let go.

// What each entry of a table has before the first call: no rule here has so many equations.
pub(crate) const UNTOUCHED: u16 = 51400;

// Prints a space and each of some bytes.
pub(crate) fn print_bytes(rt: &HostRuntime, bytes: &[u8]) {
    for byte in bytes {
        let _ = print!(rt; " {byte}");
    }
}

// The line of a call to which no table was lent: its answer, and the value beside it.
pub(crate) fn print_result(rt: &HostRuntime, name: &str, number: u8, value: usize) {
    let _ = println!(rt; "{name} {number} {value}");
}

// The line of one to which this table was lent: also how many entries of it no call has changed.
pub(crate) fn print_filled(rt: &HostRuntime, name: &str, number: u8, value: usize, table: &[u16]) {
    let untouched = table.iter().filter(|entry| **entry == UNTOUCHED).count();
    let _ = println!(rt; "{name} {number} {value} {untouched}");
}
