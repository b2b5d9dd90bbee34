// Reading and writing. What fails is said on standard error under a name, with why.
ghost use Rattle.std.specs.Prelude.{◌≡◌, ◌≤◌, length, IfOk, IfErr};
ghost use Rattle.std.specs.Io.{ReadsAtMost};
ghost use Rattle.listing.specs.Positions.{Within};

use listing::Line;
use std::fmt::InlineText;
use std::fs;
use std::io::{Error, ErrorKind, Read, Result, Write};
use std::rt::Files;

// What stands in an error's text behind the system's own words: its number.
const NUMBER: &str = " (os error ";

// The words of an error's text.
fn words_of(text: &str) -> &str {
    text.split_once(NUMBER).map_or(text, |(words, _)| words)
}

// Reads once, and again where a signal interrupts it. 0 bytes come at the end.
pub(crate) fn read_once<R: Read>(input: &mut R, buffer: &mut [u8]) -> Result<usize>
    ensures { ReadsAtMost result buffer.new }
{
    for _ in 0..u64::MAX {
        match input.read(buffer) {
            Err(why) if why.kind() == ErrorKind::Interrupted => {}
            answer => return answer,
        }
    }
    Err(Error::from(ErrorKind::Interrupted))
}

// Reads until the buffer is full or the input ends, and says how many bytes there are.
pub(crate) fn read_whole<R: Read>(input: &mut R, file: &mut [u8]) -> Result<usize>
    ensures { ReadsAtMost result file.new }
{
    let mut done = 0;
    while done < file.len() {
        match read_once(input, &mut file[done..])? {
            0 => break,
            more => done += more,
        }
    }
    Ok(done)
}

// Reads the file of this name in the same way.
pub(crate) fn read_file<F: Files>(files: &F, name: &str, file: &mut [u8]) -> Result<usize>
    ensures { ReadsAtMost result file.new }
{
    let mut input = fs::open(files, name)?;
    read_whole(&mut input, file)
}

// Standard output and error of a program, and the name under which a failed write is said.
#[derive(Drop)]
pub(crate) struct Terminal<'a, W, E> {
    pub(crate) output: &'static str,
    pub(crate) stdout: &'a mut W,
    pub(crate) stderr: &'a mut E,
}

impl<W: Write, E: Write> Terminal<'_, W, E> {
    // Says what failed, and why.
    fn say(&mut self, what: &str, why: Error) {
        let text = InlineText::<128>::of(why);
        let words = words_of(text.as_str());
        let _ = writeln!(self.stderr, "{what}: {words}");
    }

    // How many bytes were read: none where reading failed, which is said.
    pub(crate) fn read(&mut self, what: &str, read: Result<usize>) -> usize
        ensures read { IfOk read (λ n. result ≡ n) }
        ensures failed { IfErr read (λ _. result ≡ 0) }
    {
        match read {
            Ok(n) => n,
            Err(why) => {
                self.say(what, why);
                0
            }
        }
    }

    // Writes all of the bytes, or stops at a write that fails; says whether all were written. A write that a signal interrupts is made again.
    pub(crate) fn write_whole(&mut self, bytes: &[u8]) -> bool {
        match self.stdout.write_all(bytes) {
            Ok(()) => true,
            Err(why) => {
                self.say(self.output, why);
                false
            }
        }
    }

    // Prints a line, and says whether it was written.
    pub(crate) fn print(&mut self, line: Line) -> bool
        requires { Within line }
    {
        self.write_whole(&line.bytes[..line.len])
    }
}
