//! The summary of a run: six lines with totals of its calls, without who made them or when.
ghost use Rattle.std.specs.Prelude.{◌≡◌, ◌++◌, IfOk, OnOk, string_bytes, codes};
ghost use Rattle.std.specs.Fmt.{decimal};
ghost use Rattle.batch_history.specs.Summary.{CanBeSummed, run_line, leaves_line, objects_lines, summary_of_report};

use crate::report::Report;
use crate::tally::Tally;
use crate::words::push_number;
use itoa::Integer;
use sp_order::Job;
use std::alloc::{AllocError, Global};

#[tactic(auto, unfolding(crate::specs::Summary::run_line))]
fn push_run(text: &mut String, seed: u64, size: u32, workers: u32) -> Result<(), AllocError>
    ensures { OnOk result
        (string_bytes text.new ≡ string_bytes text.old ++ run_line seed size workers) }
{
    push_number(text, "seed ", seed)?;
    push_number(text, " size ", size)?;
    push_number(text, " workers ", workers)?;
    text.push_str("\n")
}

/// Appends a line of two numbers, each after its words.
fn push_two<I: Integer>(
    text: &mut String,
    words: &str,
    number: I,
    more_words: &str,
    more: u64,
) -> Result<(), AllocError>
    ensures { OnOk result
        (string_bytes text.new ≡ string_bytes text.old
        ++ (words.now ++ I.text number ++ more_words.now ++ decimal more ++ codes "\n")) }
{
    push_number(text, words, number)?;
    push_number(text, more_words, more)?;
    text.push_str("\n")
}

#[tactic(auto, unfolding(crate::specs::Summary::leaves_line))]
fn push_leaves(text: &mut String, leaves: usize, calls: u64) -> Result<(), AllocError>
    ensures { OnOk result
        (string_bytes text.new ≡ string_bytes text.old ++ leaves_line leaves calls) }
{
    push_two(text, "leaves ", leaves, " calls ", calls)
}

/// Appends the lines of the four objects: counter, stack, tree and queue.
#[tactic(auto, unfolding(crate::specs::Summary::counter_line, crate::specs::Summary::stack_line, crate::specs::Summary::tree_line, crate::specs::Summary::queue_line))]
fn push_objects(text: &mut String, tally: &Tally) -> Result<(), AllocError>
    ensures { OnOk result
        (string_bytes text.new ≡ string_bytes text.old ++ objects_lines tally.now) }
{
    push_number(text, "counter ", tally.counter)?;
    text.push_str("\n")?;
    push_two(
        text,
        "stack pushed ",
        tally.pushed,
        " popped ",
        tally.popped,
    )?;
    push_two(text, "tree keys ", tally.keys, " found ", tally.found)?;
    push_two(
        text,
        "queue inserted ",
        tally.inserted,
        " taken ",
        tally.taken,
    )
}

/// The summary of a report of the job: six lines, each with a final line feed. `seed` and `size` are printed as given.
/// Time: linear in the number of calls. Memory: that of the text.
pub fn made_text(
    alloc: Global,
    seed: u64,
    size: u32,
    job: &Job,
    report: &Report,
) -> Result<Vec<u8>, AllocError>
    requires { CanBeSummed job.now report.now }
    ensures { IfOk result (λ bytes. bytes.items ≡ summary_of_report seed size report.now) }
{
    let tally = Tally::of(&report.history);
    let mut text = String::new(alloc);
    push_run(&mut text, seed, size, report.workers)?;
    push_leaves(&mut text, job.acts().len(), tally.calls)?;
    push_objects(&mut text, &tally)?;
    Ok(text.into_bytes())
}
