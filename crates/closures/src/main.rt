// Reads records from standard input, and answers each by what `testing` does with a closure, or by a print that hands a failed write on.
// A record is one byte of kind and a body:
//   o LENGTH bytes        what counting says of this rule file
//   p LENGTH bytes        the same, with the end of the line
//   f PLACE LIMIT LENGTH bytes
//                         the table is filled within the limit from this rule file, from the place on. The count is what filling answers,
//                         0 where it refuses, and the state is the start. A place behind the end of the table can't be read
//   k COUNT               whether a run of no scans over the table is fit for this count
//   c TABLE OUTPUT VERDICTS LENGTH scans
//                         a run, with so many entries of the table and bytes of each buffer. The state is then what it returns
//   e TABLE OUTPUT VERDICTS LENGTH scans
//                         a run that fails, and no record is answered after it
//   j LENGTH bytes LENGTH bytes
//                         what judging says of a rule file and a model file, with the whole table
//   d LENGTH bytes LENGTH bytes
//                         the digests of both
//   l NUMBER              the last byte and the last entry of a number
//   n                     the end of a line
// PLACE, LIMIT, COUNT and NUMBER are eight bytes, the other numbers three, highest first. The input ends after the last record. Standard error
// says how many records were answered: none after one that can't be read or written.
#![tactic(auto)]

use reading::Refusal;
use running::State;
use std::io;
use std::io::{Error, ErrorKind};
use testing::{
    Buffers, LastDigit, each_case, filled_count, print_checked, print_counted, print_digests,
    print_filled, print_judged, read_bounded, read_byte, read_long,
};

// A rule file, a model file or a byte string of these records has at most so many bytes. That of `f` may fill the space for scans.
const MOST: usize = 4096;

// What the records so far have set, the table left aside.
#[derive(Clone, Copy)]
struct Held {
    count: usize,
    state: State,
}

// What counting says of the next rule file.
fn read_counted(rt: &HostRuntime) -> io::Result<Result<usize, Refusal>> {
    let mut space = [0u8; MOST];
    let rule = read_bounded(rt, &mut space)?;
    Ok(synthesis::count(rule))
}

fn take_judging(rt: &HostRuntime, table: &mut [u16]) -> io::Result<()> {
    let mut space = [0u8; MOST];
    let mut model_space = [0u8; MOST];
    let rule = read_bounded(rt, &mut space)?;
    let model = read_bounded(rt, &mut model_space)?;
    print_judged(rt, models::judge(rule, model, table))
}

fn take_digests(rt: &HostRuntime) -> io::Result<()> {
    let mut space = [0u8; MOST];
    let mut more_space = [0u8; MOST];
    let first = read_bounded(rt, &mut space)?;
    let second = read_bounded(rt, &mut more_space)?;
    print_digests(rt, first, second)
}

fn take_check(rt: &HostRuntime, table: &[u16]) -> io::Result<()> {
    let count = read_long(rt)?;
    let ran = running::run(table, count, running::start(), &[], &mut [], &mut []);
    print_checked(rt, ran.checked)
}

fn take_last(rt: &HostRuntime) -> io::Result<()> {
    let number = read_long(rt)? as u64;
    print!(rt; "{} {}", u8::last(number), u16::last(number))
}

impl Held {
    fn take_rule(&mut self, rt: &HostRuntime, buffers: &mut Buffers) -> io::Result<()> {
        let place = read_long(rt)?;
        let limit = read_long(rt)?;
        let filled = buffers.read_rule(rt, place, |rule, table| {
            synthesis::fill_within(rule, limit, table)
        })?;
        self.count = filled_count(filled);
        self.state = running::start();
        Ok(())
    }

    // Runs, and prints what the run returns.
    fn take_call(&mut self, rt: &HostRuntime, buffers: &mut Buffers, turn: u64) -> io::Result<()> {
        let Held { count, state } = *self;
        self.state = buffers.read_run(rt, turn, |table, scans, output, verdicts| {
            let ran = running::run(table, count, state, scans, output, verdicts);
            print_checked(rt, ran.checked)?;
            print!(rt; " {} {} {}", ran.state.equation, ran.kept, ran.dropped)?;
            Ok(ran.state)
        })?;
        Ok(())
    }

    // Takes the next record.
    fn take_record(
        &mut self,
        rt: &HostRuntime,
        buffers: &mut Buffers,
        turn: u64,
    ) -> io::Result<()> {
        match read_byte(rt) {
            b'o' => print_counted(rt, read_counted(rt)?),
            b'p' => print_filled(rt, read_counted(rt)?),
            b'f' => self.take_rule(rt, buffers),
            b'k' => take_check(rt, &buffers.table),
            b'c' => self.take_call(rt, buffers, turn),
            b'e' => buffers.read_run(rt, turn, |_, _, _, _| Err(Error::from(ErrorKind::Other))),
            b'j' => take_judging(rt, &mut buffers.table),
            b'd' => take_digests(rt),
            b'l' => take_last(rt),
            b'n' => println!(rt),
            _ => Err(Error::from(ErrorKind::InvalidData)),
        }
    }
}

fn main(rt: HostRuntime) {
    let mut held = Held {
        count: 0,
        state: running::start(),
    };
    let mut buffers = Buffers::new();
    let mut answered = 0u64;
    each_case(|turn| {
        held.take_record(&rt, &mut buffers, turn)?;
        answered = turn.saturating_add(1);
        Ok(())
    });
    let _ = eprintln!(rt; "{answered} answered");
}
