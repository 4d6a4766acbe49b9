// The job of each mode.
ghost use Rattle.pr_words.specs.Command.{of_given};
ghost use Rattle.pr_script.specs.Fields.{number_in};
ghost use Rattle.pr_script.specs.Labels.{is_label};
ghost use Rattle.pr_words.specs.Words.{Answers, alone, at_node, job_by, kept_by, made, made_by, node_by, stopped};
ghost use Rattle.std.specs.Prelude.{◌≡◌, None, if◌then◌else◌};

use crate::given::Given;
use crate::mode::Mode;
use crate::{Bytes, Job, WordsFault};
use pr_script::{is_label, number_within};
use pr_stamps::Seq;
use std::alloc::Global;

/// The job in this mode with these options.
pub fn job_by(alloc: Global, mode: Mode, given: &Given<'_>) -> Result<Job, WordsFault>
    ensures { Answers result (of_given (job_by mode) given.now) }
{
    match mode {
        Mode::Sim => alone(Job::Sim, given),
        Mode::Run => alone(Job::Run, given),
        Mode::Check => alone(Job::Check, given),
        Mode::Gen => made_by(given),
        Mode::Kept => kept_by(given),
        Mode::Ask | Mode::Serve | Mode::Pull => node_by(alloc, mode, given),
    }
}

fn alone(job: Job, given: &Given<'_>) -> Result<Job, WordsFault>
    ensures { Answers result (of_given (alone job) given.now) }
{
    match (given.seed, given.size, given.stop, given.node) {
        (None, None, None, None) => Ok(job),
        _ => Err(WordsFault::Usage),
    }
}

fn made_by(given: &Given<'_>) -> Result<Job, WordsFault>
    ensures { Answers result (of_given made_by given.now) }
{
    match (given.seed, given.size, given.stop, given.node) {
        (Some(seed), Some(size), None, None) => made(seed.as_bytes(), size.as_bytes()),
        _ => Err(WordsFault::Usage),
    }
}

fn made(seed: &[u8], size: &[u8]) -> Result<Job, WordsFault>
    ensures { Answers result (made (number_in 0 18446744073709551615 seed.now) (number_in 1 90000 size.now)) }
{
    let Some(seed) = number_within(0, 18446744073709551615, seed) else {
        return Err(WordsFault::Usage);
    };
    let Some(size) = number_within(1, 90000, size) else {
        return Err(WordsFault::Usage);
    };
    Ok(Job::Gen { seed, size })
}

fn kept_by(given: &Given<'_>) -> Result<Job, WordsFault>
    ensures { Answers result (of_given kept_by given.now) }
{
    match (given.seed, given.size, given.stop, given.node) {
        (None, None, None, None) => Ok(Job::Kept { stop: None }),
        (None, None, Some(stop), None) => stopped(stop.as_bytes()),
        _ => Err(WordsFault::Usage),
    }
}

fn stopped(stop: &[u8]) -> Result<Job, WordsFault>
    ensures { Answers result (stopped (number_in 2 1000000000 stop.now)) }
{
    match number_within(2, 1000000000, stop) {
        Some(stop) => Ok(Job::Kept { stop: Some(stop) }),
        None => Err(WordsFault::Usage),
    }
}

fn node_by(alloc: Global, mode: Mode, given: &Given<'_>) -> Result<Job, WordsFault>
    ensures { Answers result (of_given (node_by mode) given.now) }
{
    match (given.seed, given.size, given.stop, given.node) {
        (None, None, None, Some(node)) => labelled(alloc, mode, node.as_bytes()),
        _ => Err(WordsFault::Usage),
    }
}

fn labelled(alloc: Global, mode: Mode, node: &[u8]) -> Result<Job, WordsFault>
    ensures { Answers result (if is_label node.now then at_node mode node.now else None) }
{
    if !is_label(node) {
        return Err(WordsFault::Usage);
    }
    at_node(mode, Seq::copied(alloc, node)?)
}

fn at_node(mode: Mode, node: Bytes) -> Result<Job, WordsFault>
    ensures { Answers result (at_node mode node) }
{
    match mode {
        Mode::Ask => Ok(Job::Ask { node }),
        Mode::Serve => Ok(Job::Serve { node }),
        Mode::Pull => Ok(Job::Pull { node }),
        _ => Err(WordsFault::Usage),
    }
}
