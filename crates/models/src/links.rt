// The steps of a model, chained by the state from which they go: adjacency lists in two arrays.
ghost use Rattle.std.specs.Prelude.{◌≡◌, ◌<◌, get_or};
ghost use Rattle.models.specs.Exploring.{StepsWithinLimits, Chains};

use crate::Step;

// For each state the number of the last step from it, and for each step that of the last before it from the same state.
#[derive(Drop)]
pub(crate) struct Links {
    last: [Option<u16>; 64],
    earlier: [Option<u16>; 512],
}

impl Links {
    // The chains of these steps.
    pub(crate) fn new(steps: &[Step]) -> Links
        requires { StepsWithinLimits steps.now }
        ensures { Chains steps.now result }
    {
        let mut last = [None; 64];
        let mut earlier = [None; 512];
        for (i, step) in steps.iter().enumerate() {
            let from = usize::from(step.from);
            earlier[i] = last[from];
            last[from] = Some(i as u16);
        }
        Links { last, earlier }
    }

    // The last step from a state.
    pub(crate) fn last_from(&self, state: usize) -> Option<usize>
        requires { state < 64 }
        ensures { result ≡ get_or self.now.last state None }
    {
        self.last[state].map(usize::from)
    }

    // The last step before this one from the same state.
    pub(crate) fn before(&self, step: usize) -> Option<usize>
        requires { step < 512 }
        ensures { result ≡ get_or self.now.earlier step None }
    {
        self.earlier[step].map(usize::from)
    }
}
