// The kinds of the steps in a model file: the byte with which the record of each begins.
ghost use Rattle.models.specs.Readings.{StepKindRead};

#[derive(Clone, Copy)]
pub(crate) enum StepKind {
    Code,
    Silent,
}

// A byte with which no step begins.
#[derive(Clone, Copy)]
pub(crate) struct NoStep;

impl TryFrom<u8> for StepKind {
    type Error = NoStep;

    ghost try_from_gives = { StepKindRead };

    fn try_from(byte: u8) -> Result<Self, NoStep> {
        match byte {
            17 => Ok(StepKind::Code),
            18 => Ok(StepKind::Silent),
            _ => Err(NoStep),
        }
    }
}
