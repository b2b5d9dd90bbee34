// A test program: the three programs one after the other, on as long a rule and as large a model as there may be. First where nothing can
// be written, then where all is, then where not all can be read, and at last on a rule of one equation more than they take.
#![tactic(auto)]

mod signals;

use signals::Signalled;
use std::{fs, io};

// How many colons of a line have come, after one more byte of a text.
fn colons_after(colons: u64, byte: u8) -> u64 {
    match byte {
        b'\n' => 0,
        b':' => colons.saturating_add(1),
        _ => colons,
    }
}

// Prints what stands before the second colon of each line: a program, and what it was about. Why a write fails may be told in other words
// by another file system.
fn print_subjects(rt: &impl Print, text: &[u8]) -> io::Result<()> {
    let mut colons = 0;
    for byte in text {
        colons = colons_after(colons, *byte);
        if colons < 2 {
            rt.write_all(&[*byte])?;
        }
    }
    Ok(())
}

// Nothing can be written: standard output is a file that was opened for reading. Prints how many lines `equations` says that it printed,
// the equation in which `sift` stopped, and what the three said on standard error, without the reason.
fn unwritten(rt: &HostRuntime) -> io::Result<()> {
    let mut said = Vec::new(rt.alloc());
    let mut unwritable = fs::open(rt, "rule.bin")?;
    let mut rule = fs::open(rt, "rule.bin")?;
    let shown = commands::equations_of(&mut rule, &mut unwritable, &mut said);
    let mut scans = fs::open(rt, "scans.bin")?;
    let sifted = commands::sift_of(rt, &mut scans, &mut unwritable, &mut said);
    let _ = commands::meets_of(rt, &mut unwritable, &mut said);
    println!(rt; "lines {} equation {}", shown.lines, sifted.state.equation)?;
    print_subjects(rt, said.as_slice())
}

// All is read and written, though signals interrupt every other read and write.
fn written(rt: &HostRuntime) -> io::Result<()> {
    let mut rule = Signalled::new(fs::open(rt, "rule.bin")?);
    let mut scans = Signalled::new(fs::open(rt, "scans.bin")?);
    let mut stdout = Signalled::new(rt.stdout());
    commands::equations_of(&mut rule, &mut stdout, &mut rt.stderr());
    commands::sift_of(rt, &mut scans, &mut stdout, &mut rt.stderr());
    let _ = commands::meets_of(rt, &mut stdout, &mut rt.stderr());
    Ok(())
}

// Standard input is a folder, and there is no model.bin; then there is no rule.bin either. Prints what was said on standard error.
fn unread(rt: &HostRuntime) -> io::Result<()> {
    let mut said = Vec::new(rt.alloc());
    let mut folder = fs::open(rt, ".")?;
    commands::equations_of(&mut folder, &mut rt.stdout(), &mut said);
    commands::sift_of(rt, &mut folder, &mut rt.stdout(), &mut said);
    fs::remove_file(rt, "model.bin")?;
    let _ = commands::meets_of(rt, &mut rt.stdout(), &mut said);
    fs::remove_file(rt, "rule.bin")?;
    commands::sift_of(rt, &mut folder, &mut rt.stdout(), &mut said);
    let _ = commands::meets_of(rt, &mut rt.stdout(), &mut said);
    rt.write_all(said.as_slice())
}

// The rule has one equation more than the programs take, though the library takes it.
fn over(rt: &HostRuntime) -> io::Result<()> {
    fs::rename(rt, "over.bin", "rule.bin")?;
    let mut rule = fs::open(rt, "rule.bin")?;
    commands::equations_of(&mut rule, &mut rt.stdout(), &mut rt.stderr());
    let mut scans = fs::open(rt, "scans.bin")?;
    commands::sift_of(rt, &mut scans, &mut rt.stdout(), &mut rt.stderr());
    let _ = commands::meets(rt);
    Ok(())
}

fn main(rt: HostRuntime) -> io::Result<()> {
    unwritten(&rt)?;
    written(&rt)?;
    unread(&rt)?;
    over(&rt)
}
