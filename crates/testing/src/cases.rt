// The cases on standard input, one after the other.
use std::io;

// What answers cases, with all that it works on.
pub trait Cases {
    // Answers the next case. It fails where that can't be read.
    fn answer(&mut self, rt: &HostRuntime, case: u64) -> io::Result<()>;
}

// Answers case after case, until one can't be read or written. A proved loop has to end, and nothing says that the input does: so there
// are as many turns as 64 bits can count.
pub fn each_case<F: FnMut(u64) -> io::Result<()>>(mut answer: F)
    requires { F.IsAlwaysCallable answer }
{
    for turn in 0..u64::MAX {
        if answer(turn).is_err() {
            return;
        }
    }
}

// The same by what answers cases, of which nothing is asked.
pub fn answer_cases<C: Cases>(rt: &HostRuntime, cases: &mut C) {
    each_case(|case| cases.answer(rt, case));
}
