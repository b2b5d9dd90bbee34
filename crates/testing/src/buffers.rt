// What the runs of a test program work on.
use crate::numbers::read_size;
use crate::preparing::prepare;
use crate::printing::{print_digests, print_filled};
use crate::records::{read_bounded, read_whole};
use crate::showing::{show_digests, show_filled};
use reading::Refusal;
use std::io;
use std::io::{Error, ErrorKind};

// The filling of a table: with every row, or with the short table's rows.
#[derive(Clone, Copy)]
pub enum Filling {
    Long,
    Short,
}

// What runs over scans.
pub trait Run {
    // Runs, and prints what the run returns.
    fn run(
        &mut self,
        rt: &HostRuntime,
        table: &[u16],
        scans: &[u8],
        output: &mut [u8],
        verdicts: &mut [u8],
    );
}

// A table, scans, and two buffers for what a run writes.
#[derive(Drop)]
pub struct Buffers {
    pub table: [u16; 262144],
    scans: [u8; 65536],
    output: [u8; 65536],
    verdicts: [u8; 65536],
}

impl Buffers {
    pub fn new() -> Buffers {
        Buffers {
            table: [0; 262144],
            scans: [0; 65536],
            output: [0; 65536],
            verdicts: [0; 65536],
        }
    }

    // Reads a rule file, fills the table by it from a place on, and prints and hands back what the filling answers.
    pub fn read_rule<F: FnOnce(&[u8], &mut [u16]) -> Result<usize, Refusal>>(
        &mut self,
        rt: &HostRuntime,
        place: usize,
        fill: F,
    ) -> io::Result<Result<usize, Refusal>>
        requires { F.IsAlwaysCallable fill }
    {
        let Buffers { table, scans, .. } = self;
        let filled = fill_from(rt, scans, table, place, fill)?;
        print_filled(rt, filled)?;
        Ok(filled)
    }

    // The same by one of the library's fillings. A failed write is let go.
    pub fn fill_rule(
        &mut self,
        rt: &HostRuntime,
        place: usize,
        filling: Filling,
    ) -> io::Result<Result<usize, Refusal>> {
        let Buffers { table, scans, .. } = self;
        let filled = match filling {
            Filling::Long => fill_from(rt, scans, table, place, synthesis::fill),
            Filling::Short => fill_from(rt, scans, table, place, synthesis::fill_short),
        }?;
        show_filled(rt, filled);
        Ok(filled)
    }

    // Reads how much is lent of the table and of both buffers, and the scans.
    fn lend(&mut self, rt: &HostRuntime, turn: u64) -> io::Result<Lent<'_>> {
        let Buffers {
            table,
            scans,
            output,
            verdicts,
        } = self;
        lend(rt, table, scans, output, verdicts, turn)
    }

    // Reads how much is lent of the table and of both buffers, and the scans; runs, and ends the line with what both buffers have then.
    pub fn read_run<T, F>(&mut self, rt: &HostRuntime, turn: u64, run: F) -> io::Result<T>
    where
        F: FnOnce(&[u16], &[u8], &mut [u8], &mut [u8]) -> io::Result<T>,
        T: Drop,
        requires { F.IsAlwaysCallable run }
    {
        let Lent {
            table,
            scans,
            output,
            verdicts,
        } = self.lend(rt, turn)?;
        let ran = run(table, scans, output, verdicts)?;
        print_digests(rt, output, verdicts)?;
        Ok(ran)
    }

    // The same by what runs over scans, of which nothing is asked. A failed write is let go.
    pub fn run_scans<R: Run>(
        &mut self,
        rt: &HostRuntime,
        turn: u64,
        runner: &mut R,
    ) -> io::Result<()> {
        let Lent {
            table,
            scans,
            output,
            verdicts,
        } = self.lend(rt, turn)?;
        runner.run(rt, table, scans, output, verdicts);
        show_digests(rt, output, verdicts);
        Ok(())
    }
}

// A function of slices, since a part of a field behind a reference can't be lent.
fn fill_from<F: FnOnce(&[u8], &mut [u16]) -> Result<usize, Refusal>>(
    rt: &HostRuntime,
    scans: &mut [u8],
    table: &mut [u16],
    place: usize,
    fill: F,
) -> io::Result<Result<usize, Refusal>>
    requires { F.IsAlwaysCallable fill }
{
    if place > table.len() {
        return Err(Error::from(ErrorKind::InvalidInput));
    }
    let rule = read_bounded(rt, scans)?;
    Ok(fill(rule, &mut table[place..]))
}

// What is lent to a run.
#[derive(Drop)]
struct Lent<'a> {
    table: &'a [u16],
    scans: &'a [u8],
    output: &'a mut [u8],
    verdicts: &'a mut [u8],
}

fn lend<'a>(
    rt: &HostRuntime,
    table: &'a [u16],
    scans: &'a mut [u8],
    output: &'a mut [u8],
    verdicts: &'a mut [u8],
    turn: u64,
) -> io::Result<Lent<'a>> {
    let lent = read_size(rt, table.len())?;
    let output_len = read_size(rt, output.len())?;
    let verdicts_len = read_size(rt, verdicts.len())?;
    let scans = read_bounded(rt, scans)?;
    let output = &mut output[..output_len];
    let verdicts = &mut verdicts[..verdicts_len];
    prepare(output, turn, 7, 255);
    prepare(verdicts, turn % 251, 11, 255);
    Ok(Lent {
        table: &table[..lent],
        scans,
        output,
        verdicts,
    })
}
