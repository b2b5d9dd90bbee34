// What the test programs share. The definitions that the contracts cite stand in specs/.
#![tactic(auto)]

mod buffers;
mod cases;
mod digests;
mod digits;
mod numbers;
mod preparing;
mod printing;
mod records;
mod showing;

pub use buffers::{Buffers, Filling, Run};
pub use cases::{Cases, answer_cases, each_case};
pub use digests::digest;
pub use digits::{Digit, LastDigit};
pub use numbers::{read_byte, read_long, read_size};
pub use preparing::{prepare, refresh};
pub use printing::{
    filled_count, print_checked, print_counted, print_digests, print_filled, print_judged,
};
pub use records::{read_bounded, read_part, read_prepared, read_whole};
pub use showing::{show_checked, show_counted, show_digests, show_filled, show_judged};
