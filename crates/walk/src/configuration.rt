// Configurations: what is left of a program, with the numbers of its names.
ghost use Rattle.std.specs.Prelude.{◌≡◌, None, length, replicate};
ghost use Rattle.imp.specs.Next.{ended};
ghost use Rattle.stepping.specs.Steps.{Answered};
ghost use Rattle.stepping.specs.Trees.{command_of};

use crate::show::Named;
use std::alloc::Global;
use std::fmt;
use stepping::error::NoStep;
use stepping::tree::Command;

#[derive(Drop)]
pub(crate) struct Configuration<const N: usize> {
    // the text of each name
    names: &'static [&'static str],
    command: Command,
    // the number of each name, or none; a list apart from the names, since a step takes it as one, and an array, so that it
    // needs no memory of the heap
    numbers: [Option<i32>; N],
    ghost matching: { length numbers ≡ length names.now },
}

impl<const N: usize> Configuration<N> {
    // A program before its first step, where no name is bound.
    pub(crate) fn start(names: &'static [&'static str], command: Command) -> Configuration<N>
        requires { length names.now ≡ N }
        ensures program { result.command ≡ command }
        ensures unbound { result.numbers ≡ replicate (length names.now) None }
    {
        Configuration {
            names,
            command,
            numbers: [None; N],
        }
    }

    // Whether nothing is left to do.
    pub(crate) fn is_end(&self) -> bool
        ensures { result ≡ ended (command_of self.now.command) }
    {
        self.command.is_skip()
    }

    // Takes the next step; where there is none, or no memory for it, nothing is changed.
    pub(crate) fn step(&mut self, heap: Global) -> Result<(), NoStep>
        ensures answered { Answered (command_of self.old.command) self.old.numbers result (command_of self.new.command) self.new.numbers }
        ensures same_names { length self.new.numbers ≡ length self.old.numbers }
    {
        self.command.step(heap, &mut self.numbers)
    }
}

impl<const N: usize> fmt::Display for Configuration<N> {
    // What is left of the program, and each bound name with its number.
    fn fmt<W: fmt::Write>(&self, f: &mut fmt::Formatter<W>) -> fmt::Result {
        write!(f, "{}", Named::new(self.names, &self.command))?;
        for (text, number) in self.names.iter().zip(&self.numbers) {
            if let Some(number) = number {
                write!(f, " | {text} = {number}")?;
            }
        }
        Ok(())
    }
}
