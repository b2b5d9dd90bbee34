// A test program: the functions for C, called on the paper's rule, model and scans, on input that is refused, and on a rule of 256 equations. Each call prints its answer and what it
// handed back beside it; where a table was lent to be filled, how many entries of that are untouched; and where it is a run, what both buffers hold.
#![tactic(auto)]

mod inputs;
mod printing;

use inputs::{
    ALIKE, BREAKS, CANCELLED, CUT, EITHER, FIVES, FULL_PAGE, MANY, MEETS, NOTHING, OVER_PAGE,
    PAST_BYTES, POOL, SCANS, SYNCED, UNGUARDED, VIOLATING,
};
use printing::{UNTOUCHED, print_bytes, print_filled, print_result};

fn count<F: FnOnce(&[u8], &mut usize) -> u8>(rt: &HostRuntime, name: &str, count: F, rule: &[u8])
    requires { F.IsAlwaysCallable count }
{
    let mut value = 99;
    let number = count(rule, &mut value);
    print_result(rt, name, number, value);
}

// Fills, and hands back the value.
fn fill_by<F: FnOnce(&[u8], &mut [u16], &mut usize) -> u8>(
    rt: &HostRuntime,
    name: &str,
    fill: F,
    rule: &[u8],
    table: &mut [u16],
) -> usize
    requires { F.IsAlwaysCallable fill }
{
    let mut value = 99;
    let number = fill(rule, table, &mut value);
    print_filled(rt, name, number, value, table);
    value
}

fn fill(rt: &HostRuntime, rule: &[u8], table: &mut [u16]) -> usize {
    fill_by(rt, "fill", boundary::jarveun_fill, rule, table)
}

fn fill_preview(rt: &HostRuntime, rule: &[u8], table: &mut [u16]) -> usize {
    fill_by(
        rt,
        "fill_preview",
        boundary::jarveun_fill_preview,
        rule,
        table,
    )
}

fn fill_short(rt: &HostRuntime, rule: &[u8], table: &mut [u16]) -> usize {
    fill_by(rt, "fill_short", boundary::jarveun_fill_short, rule, table)
}

fn explain(rt: &HostRuntime, rule: &[u8], kept: &[u8], scan: u8) {
    let mut value = 99;
    let number = boundary::jarveun_explain(rule, kept, scan, &mut value);
    print_result(rt, "explain", number, value);
}

fn judge(rt: &HostRuntime, rule: &[u8], model: &[u8], table: &mut [u16]) {
    let mut value = 99;
    let number = boundary::jarveun_judge(rule, model, table, &mut value);
    print_filled(rt, "judge", number, value, table);
}

// Runs over scans. The line has the equation, both counts and both buffers after the answer.
fn run(
    rt: &HostRuntime,
    table: &[u16],
    count: usize,
    from: usize,
    scans: &[u8],
    verdicts: &mut [u8],
) {
    let mut equation = from;
    let mut output = [7u8; 8];
    let mut kept = 99;
    let mut dropped = 99;
    let number = boundary::jarveun_run(
        table,
        count,
        &mut equation,
        scans,
        &mut output,
        verdicts,
        &mut kept,
        &mut dropped,
    );
    let _ = print!(rt; "run {number} {equation} {kept} {dropped}");
    print_bytes(rt, &output);
    print_bytes(rt, verdicts);
    let _ = println!(rt);
}

fn count_all(rt: &HostRuntime, rule: &[u8]) {
    count(rt, "count", boundary::jarveun_count, rule);
    count(rt, "count_preview", boundary::jarveun_count_preview, rule);
    count(rt, "count_short", boundary::jarveun_count_short, rule);
}

// A rule that is refused, with a table of less than a row, and with a model that would be refused too.
fn refuse(rt: &HostRuntime, rule: &[u8]) {
    count_all(rt, rule);
    let mut table = [UNTOUCHED; 255];
    fill(rt, rule, &mut table);
    fill_preview(rt, rule, &mut table);
    fill_short(rt, rule, &mut table);
    judge(rt, rule, &CUT, &mut table);
}

// An entry less than three rows take.
fn fill_less_than_three(rt: &HostRuntime) {
    let mut table = [UNTOUCHED; 767];
    fill(rt, &POOL, &mut table);
    fill_preview(rt, &POOL, &mut table);
    fill_short(rt, &POOL, &mut table);
    fill_short(rt, &ALIKE, &mut table);
    judge(rt, &POOL, &MEETS, &mut table);
    judge(rt, &POOL, &CUT, &mut table);
}

// An entry more.
fn fill_more_than_three(rt: &HostRuntime) {
    let mut table = [UNTOUCHED; 769];
    judge(rt, &POOL, &CUT, &mut table);
    judge(rt, &POOL, &BREAKS, &mut table);
    judge(rt, &POOL, &MEETS, &mut table);
    fill(rt, &POOL, &mut table);
}

// An entry less than the four long rows take, where the three short ones fit.
fn fill_less_than_four(rt: &HostRuntime) {
    let mut table = [UNTOUCHED; 1023];
    fill(rt, &ALIKE, &mut table);
    judge(rt, &ALIKE, &MEETS, &mut table);
    fill_short(rt, &ALIKE, &mut table);
}

// As much as they take.
fn fill_four(rt: &HostRuntime) {
    let mut table = [UNTOUCHED; 1024];
    fill_short(rt, &ALIKE, &mut table);
    fill(rt, &ALIKE, &mut table);
}

// Two rules with more equations than the page shows; the desk counts the first. No table is lent.
fn preview_too_many(rt: &HostRuntime) {
    count_all(rt, &OVER_PAGE);
    let mut table = [UNTOUCHED; 0];
    fill_preview(rt, &OVER_PAGE, &mut table);
    fill_preview(rt, &MANY, &mut table);
}

// As many as it shows, with an entry less than their rows take.
fn preview_less_than_all(rt: &HostRuntime) {
    count_all(rt, &FULL_PAGE);
    let mut table = [UNTOUCHED; 8191];
    fill_preview(rt, &FULL_PAGE, &mut table);
}

// With as much as they take, which helps no rule with more.
fn preview_all(rt: &HostRuntime) {
    let mut table = [UNTOUCHED; 8192];
    fill_preview(rt, &OVER_PAGE, &mut table);
    fill_preview(rt, &FULL_PAGE, &mut table);
}

// Asks for the reasons of scans.
fn explain_all(rt: &HostRuntime) {
    explain(rt, &POOL, &CANCELLED, 5);
    explain(rt, &POOL, &SYNCED, 5);
    explain(rt, &POOL, &VIOLATING, 5);
    explain(rt, &POOL, &VIOLATING, 128);
    explain(rt, &UNGUARDED, &VIOLATING, 5);
    explain(rt, &EITHER, &NOTHING, 5);
    explain(rt, &EITHER, &NOTHING, 37);
    explain(rt, &EITHER, &NOTHING, 6);
    explain(rt, &EITHER, &CANCELLED, 5);
}

// Runs over a table that three rows just fit.
fn run_long(rt: &HostRuntime) {
    let mut table = [UNTOUCHED; 768];
    judge(rt, &POOL, &MEETS, &mut table);
    let count = fill(rt, &POOL, &mut table);
    let mut verdicts = [7u8; 8];
    run(rt, &table, count, 0, &SCANS, &mut verdicts);
    run(rt, &table, count, 3, &SCANS, &mut verdicts);
    let mut few = [7u8; 5];
    run(rt, &table, count, 2, &SCANS, &mut few);
}

// The same with the page's rows.
fn run_preview(rt: &HostRuntime) {
    let mut table = [UNTOUCHED; 768];
    let count = fill_preview(rt, &POOL, &mut table);
    let mut verdicts = [7u8; 8];
    run(rt, &table, count, 0, &SCANS, &mut verdicts);
}

// The same with short rows.
fn run_short(rt: &HostRuntime) {
    let mut table = [UNTOUCHED; 768];
    let count = fill_short(rt, &ALIKE, &mut table);
    let mut verdicts = [7u8; 8];
    run(rt, &table, count, 0, &SCANS, &mut verdicts);
    run(rt, &table, count, 2, &SCANS, &mut verdicts);
}

// 256 equations, with an entry less than their rows take, and with as much. The runs begin in equations 31 and 255, and come to 255 or go on from it.
fn run_past_bytes(rt: &HostRuntime) {
    count_all(rt, &PAST_BYTES);
    let mut less = [UNTOUCHED; 65535];
    fill(rt, &PAST_BYTES, &mut less);
    let mut table = [UNTOUCHED; 65536];
    let count = fill(rt, &PAST_BYTES, &mut table);
    let mut verdicts = [7u8; 8];
    run(rt, &table, count, 31, &FIVES, &mut verdicts);
    run(rt, &table, count, 255, &SCANS, &mut verdicts);
    run(rt, &table, count, 256, &SCANS, &mut verdicts);
}

fn main(rt: HostRuntime) {
    count_all(&rt, &POOL);
    count_all(&rt, &ALIKE);
    refuse(&rt, &UNGUARDED);
    refuse(&rt, &MANY);
    fill_less_than_three(&rt);
    fill_more_than_three(&rt);
    fill_less_than_four(&rt);
    fill_four(&rt);
    preview_too_many(&rt);
    preview_less_than_all(&rt);
    preview_all(&rt);
    explain_all(&rt);
    run_long(&rt);
    run_preview(&rt);
    run_short(&rt);
    run_past_bytes(&rt);
}
