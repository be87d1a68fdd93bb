//! Runs the program's public call, sessions and the planner on streams in memory, row by row of three tables, and
//! prints each row that ends in another way than it says, then a sum. The crate's README.md says how a row reads.
#![tactic(auto)]

mod asked;
mod byte_text;
mod drawn_output;
mod ends;
mod made_stream;
mod outcome_text;
mod plan_row;
mod pushes;
mod row_error;
mod row_output;
mod run_row;
mod session_row;
mod tally;

use crate::plan_row::plan_rows;
use crate::row_error::RowError;
use crate::run_row::run_rows;
use crate::session_row::session_rows;
use crate::tally::Tally;
use std::fs;

fn main(rt: HostRuntime) -> Result<(), RowError> {
    let mut tally = Tally::new(rt.alloc());
    let runs = fs::read_to_string(&rt, "runs.txt")?;
    run_rows(&rt, rt.alloc(), runs.as_str(), &mut tally)?;
    add_plans(&rt, &mut tally)?;
    let sessions = fs::read_to_string(&rt, "sessions.txt")?;
    session_rows(&rt, rt.alloc(), sessions.as_str(), &mut tally)?;
    print_tally(&rt, &tally)
}

/// Plans the rows of `plans.txt`.
fn add_plans(rt: &HostRuntime, tally: &mut Tally) -> Result<(), RowError> {
    let plans = fs::read_to_string(rt, "plans.txt")?;
    plan_rows(rt.alloc(), plans.as_str(), tally)
}

/// Prints in what runs differed, and the sum.
fn print_tally(rt: &HostRuntime, tally: &Tally) -> Result<(), RowError> {
    print!(rt; "{}", tally.differences())?;
    println!(rt; "{}", tally.sum(rt.alloc())?)?;
    Ok(())
}
