//! Tests of the job language, of plans and of the edge of a program, through their public calls alone.
//!
//! The tables have texts with the job or the fault that `job_lang` finds in them, seeds with the jobs that they give,
//! the plan of a small job, written out by hand from the rules of `sp_order`, the runs of a program over two files by
//! `program_io`, and those of a program over scripts by `batch_script`.
#![tactic(auto)]

#[cfg(test)]
mod generated;
#[cfg(test)]
mod language;
#[cfg(test)]
mod names;
#[cfg(test)]
mod objects;
#[cfg(test)]
mod plans;
#[cfg(test)]
mod programs;
#[cfg(test)]
mod replies;
#[cfg(test)]
mod scripts;
#[cfg(test)]
mod texts;
