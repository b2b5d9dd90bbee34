// Reads records from standard input, and prints a line for each filling and for each call of a run.
// A record is one byte of kind and a body. The records before a call set its table, its count and its state:
//   f PLACE LENGTH FIRST STEP TOP
//                         so many entries of the table from the place on: entry i of these is FIRST + STEP × i, modulo TOP + 1
//   w PLACE LENGTH entries
//                         the table's entries from the place on are these
//   r LENGTH bytes        the table is filled from this rule file, the count is what filling answers, 0 where it refuses, the state is the start
//   n COUNT               the count
//   b                     the state is the start
//   s EQUATION            the state
//   c TABLE OUTPUT VERDICTS LENGTH scans
//                         a call, with so many entries of the table and bytes of each buffer. The state is then what it returns
// COUNT and EQUATION are eight bytes, an entry, FIRST, STEP and TOP two, the other numbers three, highest first. The input ends after the last record.
#![tactic(auto)]

use running::State;
use std::io;
use std::io::{Error, ErrorKind};
use testing::{
    Buffers, Cases, Filling, Run, answer_cases, filled_count, read_byte, read_long, read_part,
    read_prepared, show_checked,
};

// What the records so far have set, the table left aside.
#[derive(Clone, Copy)]
struct Held {
    count: usize,
    state: State,
}

impl Held {
    // The state is the start, and the count is what filling answers.
    fn take_rule(&mut self, rt: &HostRuntime, buffers: &mut Buffers) -> io::Result<()> {
        let filled = buffers.fill_rule(rt, 0, Filling::Long)?;
        self.count = filled_count(filled);
        self.state = running::start();
        Ok(())
    }

    // Takes the next record.
    fn take_record(
        &mut self,
        rt: &HostRuntime,
        buffers: &mut Buffers,
        turn: u64,
    ) -> io::Result<()> {
        match read_byte(rt) {
            b'f' => read_prepared(rt, &mut buffers.table),
            b'w' => read_part(rt, &mut buffers.table),
            b'r' => self.take_rule(rt, buffers),
            b'n' => {
                self.count = read_long(rt)?;
                Ok(())
            }
            b'b' => {
                self.state = running::start();
                Ok(())
            }
            b's' => {
                self.state.equation = read_long(rt)?;
                Ok(())
            }
            b'c' => buffers.run_scans(rt, turn, self),
            _ => Err(Error::from(ErrorKind::InvalidData)),
        }
    }
}

impl Run for Held {
    // The state is then what the run returns.
    fn run(
        &mut self,
        rt: &HostRuntime,
        table: &[u16],
        scans: &[u8],
        output: &mut [u8],
        verdicts: &mut [u8],
    ) {
        let Held { count, state } = *self;
        let ran = running::run(table, count, state, scans, output, verdicts);
        show_checked(rt, ran.checked);
        let _ = print!(rt; " {} {} {}", ran.state.equation, ran.kept, ran.dropped);
        self.state = ran.state;
    }
}

// The records, with all that they change.
#[derive(Drop)]
struct Records {
    held: Held,
    buffers: Buffers,
}

impl Cases for Records {
    fn answer(&mut self, rt: &HostRuntime, turn: u64) -> io::Result<()> {
        let Records { held, buffers } = self;
        held.take_record(rt, buffers, turn)
    }
}

fn main(rt: HostRuntime) {
    let mut records = Records {
        held: Held {
            count: 0,
            state: running::start(),
        },
        buffers: Buffers::new(),
    };
    answer_cases(&rt, &mut records);
}
