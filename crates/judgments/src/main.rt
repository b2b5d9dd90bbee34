// Reads rules and phone models from standard input, and prints a line for each pair of them: what reading says of the model and hands back,
// what is judged, and what the table has then, and the same within a limit.
// A case is a table's size in entries, three bytes, a limit, eight bytes, a rule's length and a model's length, three bytes each, all highest first, then the rule
// file and the model file. The input ends after the last.
#![tactic(auto)]

use models::{PhoneModel, Step};
use reading::Refusal;
use std::io;
use testing::{
    Cases, answer_cases, digest, read_long, read_size, read_whole, refresh, show_judged,
};

// The digest that the digits of `high` and then a step make, as four bytes: from, two bytes of label, to.
fn step_digest(high: u64, step: &Step) -> u64 {
    let label = step.label.to_be_bytes();
    digest(high, &[step.from, label[0], label[1], step.to])
}

// The digest of all 512 steps.
fn steps_digest(model: &PhoneModel) -> u64 {
    model.steps.iter().fold(0, step_digest)
}

// A refused file has no model: it has no states and no steps.
fn print_reading(rt: &HostRuntime, reading: &Result<PhoneModel, Refusal>) {
    let _ = match reading {
        Ok(model) => print!(rt;
            "accepted {} {} {}",
            model.states,
            model.nsteps,
            steps_digest(model)
        ),
        Err(refusal) => print!(rt; "{refusal} 0 0 0"),
    };
}

fn answer(rt: &HostRuntime, rule: &[u8], model: &[u8], limit: usize, table: &mut [u16], case: u64) {
    print_reading(rt, &models::read_model(model));
    let _ = print!(rt; " ");
    refresh(table, case);
    show_judged(rt, models::judge(rule, model, table));
    let _ = print!(rt; " {} within ", digest(0, table));
    refresh(table, case);
    show_judged(rt, models::judge_within(rule, model, limit, table));
    let _ = println!(rt; " {}", digest(0, table));
}

// Answers the next case.
fn answer_case(
    rt: &HostRuntime,
    rule: &mut [u8],
    model: &mut [u8],
    table: &mut [u16],
    case: u64,
) -> io::Result<()> {
    let size = read_size(rt, table.len())?;
    let limit = read_long(rt)?;
    let rule_len = read_size(rt, rule.len())?;
    let model_len = read_size(rt, model.len())?;
    let rule = &mut rule[..rule_len];
    let model = &mut model[..model_len];
    read_whole(rt, rule)?;
    read_whole(rt, model)?;
    answer(rt, rule, model, limit, &mut table[..size], case);
    Ok(())
}

// Where the files of a case go, and the table that is filled.
#[derive(Drop)]
struct Spaces {
    rule: [u8; 1024],
    model: [u8; 8192],
    table: [u16; 262144],
}

impl Cases for Spaces {
    fn answer(&mut self, rt: &HostRuntime, case: u64) -> io::Result<()> {
        let Spaces { rule, model, table } = self;
        answer_case(rt, rule, model, table, case)
    }
}

fn main(rt: HostRuntime) {
    let mut spaces = Spaces {
        rule: [0; 1024],
        model: [0; 8192],
        table: [0; 262144],
    };
    answer_cases(&rt, &mut spaces);
}
