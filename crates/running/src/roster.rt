// Who is on duty: the places of up to four rules.
ghost use Rattle.std.specs.Prelude.{◌≡◌, ◌≤◌, ◌<◌, List, [], ◌∷◌, ◌++◌, false, true, MatchResult};
ghost use Rattle.reading.specs.declared.refusals.Fault.TheVariants.{Unfit};
ghost use Rattle.running.specs.declared.OnDuty.{OnDuty};
ghost use Rattle.running.specs.Duty.{nobody, on_duty, duty_of, is_on, are_distinct, is_sound, without};

use crate::{Duty, OnDuty, VACANT, nobody};
use reading::{Fault, Refusal};

// Whether one of the rules has this number.
fn is_on(rules: &[OnDuty], number: u8) -> bool
    ensures { result ≡ is_on number rules.now }
{
    rules.iter().any(|rule| rule.number == number)
}

// Whether no two of the rules have the same number.
#[tactic(auto, unfolding(crate::specs::Duty::are_distinct))]
fn are_distinct(rules: &[OnDuty]) -> bool
    ensures { result ≡ are_distinct rules.now }
{
    let mut all = true;
    for (i, rule) in rules.iter().enumerate() {
        all &= !is_on(&rules[..i], rule.number);
    }
    all
}

// The rules on duty, of which there are at most four; no rule has a place behind them.
#[derive(Clone, Copy)]
pub(crate) struct Roster {
    pub(crate) duty: Duty,
    ghost few: { duty.count ≤ 4 },
    ghost tidy: { duty ≡ duty_of (on_duty duty) },
}

impl Roster {
    // No rule.
    pub(crate) fn new() -> Self
        ensures { result.duty ≡ nobody }
    {
        Roster { duty: nobody() }
    }

    // The rules on duty in a state, if there are at most four, under different numbers; else the state is unfit.
    pub(crate) fn of(duty: Duty) -> Result<Self, Refusal>
        ensures { MatchResult result
            (λ roster. (is_sound duty ≡ true) × (on_duty roster.duty ≡ on_duty duty))
            (λ refusal. (is_sound duty ≡ false) × (refusal ≡ record { fault = Unfit; place = 0 })) }
    {
        if 4 < duty.count {
            return Err(Fault::Unfit.at(0));
        }
        let rules = &duty.rules[..duty.count];
        if !are_distinct(rules) {
            return Err(Fault::Unfit.at(0));
        }
        let mut places = duty.rules;
        // By numbers: `fill` of the library promises clones of the value.
        for i in duty.count..4 {
            places[i] = VACANT;
        }
        Ok(Roster {
            duty: Duty {
                rules: places,
                count: duty.count,
            },
        })
    }

    // The rules, by arrival.
    pub(crate) fn rules(&self) -> &[OnDuty]
        ensures { result.now ≡ on_duty self.now.duty }
    {
        &self.duty.rules[..self.duty.count]
    }

    // Whether one of them has this number.
    pub(crate) fn is_on(&self, number: u8) -> bool
        ensures { result ≡ is_on number (on_duty self.now.duty) }
    {
        is_on(self.rules(), number)
    }

    // One more rule, behind the others.
    pub(crate) fn push(&mut self, rule: OnDuty)
        requires { self.old.duty.count < 4 }
        ensures { self.new.duty ≡ duty_of (on_duty self.old.duty ++ (rule ∷ [])) }
    {
        self.duty.rules[self.duty.count] = rule;
        self.duty.count += 1;
    }

    // Those that have another number, in their order.
    pub(crate) fn without(&self, number: u8) -> Self
        ensures { result.duty ≡ duty_of (without number (on_duty self.now.duty)) }
    {
        let mut others = Roster::new();
        for rule in self.rules() {
            if rule.number != number {
                others.push(*rule);
            }
        }
        others
    }
}
