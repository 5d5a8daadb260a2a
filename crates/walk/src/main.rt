// Walks programs by their small steps, as far as they go, and prints each configuration.
#![tactic(auto)]

mod configuration;
mod example;
mod outcome;
mod show;

ghost use Rattle.std.specs.Prelude.{IfOk};
ghost use Rattle.stepping.specs.Trees.{command_of};
ghost use Rattle.walk.specs.Walks.{ComesTo};

use configuration::Configuration;
use outcome::Outcome;
use std::alloc::Global;
use std::io;
use stepping::error::NoStep;
use stepping::tree::Command;

// Takes small steps as long as there is one, up to a limit, and prints each configuration that it comes to.
#[tactic(auto, using(crate::proofs::Walks::walking))]
fn walk<const N: usize>(
    rt: &impl Print,
    heap: Global,
    configuration: &mut Configuration<N>,
    limit: u32,
) -> io::Result<Outcome>
    ensures { IfOk result (ComesTo (command_of configuration.old.command) configuration.old.numbers (command_of configuration.new.command) configuration.new.numbers limit) }
{
    // a counter, since the number of steps is what is answered
    for steps in 0..limit {
        println!(rt; "{steps:>2}  {configuration}")?;
        if configuration.is_end() {
            return Ok(Outcome::Ended(steps));
        }
        match configuration.step(heap) {
            Ok(()) => {}
            Err(NoStep::NoNext) => return Ok(Outcome::Stuck(steps)),
            Err(NoStep::OutOfMemory(refused)) => return Err(refused.into()),
        }
    }
    println!(rt; "{limit:>2}  {configuration}")?;
    if configuration.is_end() {
        Ok(Outcome::Ended(limit))
    } else {
        Ok(Outcome::Unfinished(limit))
    }
}

// Walks a program from no bindings, and says how it came out.
fn show_walk(rt: &impl Print, heap: Global, command: Command, limit: u32) -> io::Result<()> {
    // one number, for the one name
    let mut configuration = Configuration::<1>::start(example::NAMES, command);
    let outcome = walk(rt, heap, &mut configuration, limit)?;
    println!(rt; "{outcome}")
}

fn main(rt: HostRuntime) -> io::Result<()> {
    let heap = Global::new(rt.memory());
    println!(rt; "A loop that goes round once:")?;
    show_walk(&rt, heap, example::one_round(heap)?, 100)?;
    let count = example::one_round_counts();
    println!(rt; "its derivation counts {count}")?;
    println!(rt; "")?;
    println!(rt; "Both sides of a conjunction are evaluated, and foo is not bound:")?;
    show_walk(&rt, heap, example::both_sides(heap)?, 100)?;
    println!(rt; "")?;
    println!(rt; "A loop without end, as far as six steps:")?;
    show_walk(&rt, heap, example::endless(heap)?, 6)
}
