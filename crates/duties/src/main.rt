// Reads records from standard input, and prints a line for each filling, for each rule that comes on or goes off duty, and for each run.
// A record is one byte of kind and a body:
//   f PLACE LENGTH FIRST STEP TOP
//                         so many entries of the tables from the place on: entry i of these is FIRST + STEP × i, modulo TOP + 1
//   w PLACE LENGTH entries
//                         the tables' entries from the place on are these
//   r PLACE LENGTH bytes  the tables are filled from this rule file, from the place on
//   m PLACE LENGTH bytes  the same with the short table
//   n                     nobody is on duty
//   s COUNT, and four times NUMBER BASE COUNT EQUATION
//                         the state of the rules on duty, whatever it is
//   a NUMBER TABLES BASE COUNT
//                         a rule comes on, with so many entries of the tables lent
//   l NUMBER              a rule goes off
//   c TABLES OUTPUT VERDICTS LENGTH scans
//                         a run, with so many entries of the tables and bytes of each buffer
// Each of the last three leaves the state that it hands back. BASE, COUNT and EQUATION are eight bytes, an entry, FIRST, STEP and TOP
// two, NUMBER one, the other numbers three, highest first. One of one, two or eight bytes that isn't whole at the end counts as 0. The input ends after the last
// record.
#![tactic(auto)]

use running::{Changed, Duty, OnDuty};
use std::io;
use std::io::{Error, ErrorKind};
use testing::{
    Buffers, Cases, Filling, Run, answer_cases, read_byte, read_long, read_part, read_prepared,
    read_size, show_checked,
};

// Prints the whole state: the count and all four places.
fn print_duty(rt: &HostRuntime, duty: &Duty) {
    let _ = print!(rt; " {}", duty.count);
    for rule in &duty.rules {
        let _ = print!(rt;
            " {} {} {} {}",
            rule.number, rule.base, rule.count, rule.equation
        );
    }
}

// Fills a part of the tables.
fn take_rule(rt: &HostRuntime, buffers: &mut Buffers, filling: Filling) -> io::Result<()> {
    let place = read_size(rt, buffers.table.len())?;
    let _ = buffers.fill_rule(rt, place, filling)?;
    Ok(())
}

// A number of eight bytes, or 0 where it isn't whole.
fn read_number(rt: &HostRuntime) -> usize {
    read_long(rt).unwrap_or(0)
}

fn read_place(rt: &HostRuntime) -> OnDuty {
    OnDuty {
        number: read_byte(rt),
        base: read_number(rt),
        count: read_number(rt),
        equation: read_number(rt),
    }
}

fn read_duty(rt: &HostRuntime) -> Duty {
    Duty {
        count: read_number(rt),
        rules: [
            read_place(rt),
            read_place(rt),
            read_place(rt),
            read_place(rt),
        ],
    }
}

// A rule comes on.
fn take_coming(rt: &HostRuntime, duty: &mut Duty, tables: &[u16]) -> io::Result<()> {
    let number = read_byte(rt);
    let lent = read_size(rt, tables.len())?;
    let base = read_number(rt);
    let count = read_number(rt);
    take_changed(
        rt,
        duty,
        running::come_on(*duty, number, &tables[..lent], base, count),
    );
    Ok(())
}

fn take_going(rt: &HostRuntime, duty: &mut Duty) {
    let number = read_byte(rt);
    take_changed(rt, duty, running::go_off(*duty, number));
}

// Prints a line with what a coming or a going hands back, and keeps its state.
fn take_changed(rt: &HostRuntime, duty: &mut Duty, changed: Changed) {
    show_checked(rt, changed.checked);
    print_duty(rt, &changed.duty);
    let _ = println!(rt);
    *duty = changed.duty;
}

// Who is on duty.
#[derive(Drop)]
struct Present {
    duty: Duty,
}

impl Run for Present {
    // Prints first whether the run would be refused.
    fn run(
        &mut self,
        rt: &HostRuntime,
        tables: &[u16],
        scans: &[u8],
        output: &mut [u8],
        verdicts: &mut [u8],
    ) {
        let duty = self.duty;
        let ahead = running::check_on_duty(tables, duty, scans, output.len(), verdicts.len());
        show_checked(rt, ahead);
        let _ = print!(rt; " ");
        let ran = running::run_on_duty(tables, duty, scans, output, verdicts);
        show_checked(rt, ran.checked);
        print_duty(rt, &ran.state);
        let _ = print!(rt; " {} {}", ran.kept, ran.dropped);
        self.duty = ran.state;
    }
}

// Takes the next record.
fn take_record(
    rt: &HostRuntime,
    present: &mut Present,
    buffers: &mut Buffers,
    turn: u64,
) -> io::Result<()> {
    let duty = &mut present.duty;
    match read_byte(rt) {
        b'f' => read_prepared(rt, &mut buffers.table),
        b'w' => read_part(rt, &mut buffers.table),
        b'r' => take_rule(rt, buffers, Filling::Long),
        b'm' => take_rule(rt, buffers, Filling::Short),
        b'n' => {
            *duty = running::nobody();
            Ok(())
        }
        b's' => {
            *duty = read_duty(rt);
            Ok(())
        }
        b'a' => take_coming(rt, duty, &buffers.table),
        b'l' => {
            take_going(rt, duty);
            Ok(())
        }
        b'c' => buffers.run_scans(rt, turn, present),
        _ => Err(Error::from(ErrorKind::InvalidData)),
    }
}

// The records, with all that they change.
#[derive(Drop)]
struct Records {
    present: Present,
    buffers: Buffers,
}

impl Cases for Records {
    fn answer(&mut self, rt: &HostRuntime, turn: u64) -> io::Result<()> {
        let Records { present, buffers } = self;
        take_record(rt, present, buffers, turn)
    }
}

fn main(rt: HostRuntime) {
    let mut records = Records {
        present: Present {
            duty: running::nobody(),
        },
        buffers: Buffers::new(),
    };
    answer_cases(&rt, &mut records);
}
