// Prints the card of slot sets, a line each: the words of the widths, and the sets of any first and last slot. Each goes on past the last width, 32, and
// the last slot, 31, and ends with some far over these.
#![tactic(auto)]

use reading::slots::{slot_set, slots_under};

fn print_width(rt: &HostRuntime, width: usize) {
    let _ = println!(rt; "under {width} {}", slots_under(width));
}

fn print_set(rt: &HostRuntime, first: u8, last: u8) {
    let _ = println!(rt; "set {first} {last} {}", slot_set(first, last));
}

// The widths 0 to 39.
fn print_widths(rt: &HostRuntime) {
    for width in 0..40 {
        print_width(rt, width);
    }
}

// Every two of the slots 0 to 39.
fn print_sets(rt: &HostRuntime) {
    for first in 0..40 {
        for last in 0..40 {
            print_set(rt, first, last);
        }
    }
}

fn main(rt: HostRuntime) {
    print_widths(&rt);
    print_width(&rt, 261);
    print_width(&rt, 4294967301);
    print_width(&rt, usize::MAX);
    print_sets(&rt);
    print_set(&rt, 5, 255);
    print_set(&rt, 255, 5);
    print_set(&rt, 255, 254);
    print_set(&rt, 254, 255);
}
