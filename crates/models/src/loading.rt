// The steps of a model file, read one record after the other into a lent slice.
ghost use Rattle.models.specs.Phone.{steps_at};
ghost use Rattle.models.specs.Loading.{StepsBegun, LoadedAs};

use crate::{Step, records};
use reading::Refusal;

// The steps of a file, put into blank records; how many there are.
pub(crate) fn read_steps(bytes: &[u8], states: usize, steps: &mut [Step]) -> Result<usize, Refusal>
    requires { StepsBegun bytes.now states steps.old 0 2 }
    ensures { LoadedAs (steps_at 512 bytes.now states 2) steps.new result }
{
    let mut n = 0;
    let mut at = 2;
    // By places, since the length of a record is known when it has been read.
    while at < bytes.len() {
        let step = records::read_step(bytes, states, at, 512 - n)?;
        steps[n] = step;
        n += 1;
        at += records::record_length(step);
    }
    Ok(n)
}
