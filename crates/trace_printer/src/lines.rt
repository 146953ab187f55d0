//! Prints the lines of a trace.

ghost use Rattle.std.specs.Prelude.{◌≡◌, ◌++◌, [], ◌∷◌, OnOk, codes, decimal, map};
ghost use Rattle.std.specs.List.{flat_map};
ghost use Rattle.job_trace.specs.declared.trace.TraceLine.TheVariants.{Core, Thread, Order};
ghost use Rattle.trace_printer.specs.Adds.{Prints, Spelled};
ghost use Rattle.trace_printer.specs.Printed.{line_text, words_of_burst, words_of_const, words_of_line};

use crate::text::Text;
use job_trace::{CoreConsts, NamedConst, TraceLine};
use round_model::{Burst, Ending, OrderLine, Planned};
use sched_base::CoreId;
use std::alloc::AllocError;

impl Text {
    /// A line, with its line feed.
    pub(crate) fn line(&mut self, line: &TraceLine) -> Result<(), AllocError>
        ensures { OnOk result (self.new.bytes.items ≡ self.old.bytes.items ++ line_text line.now) }
    {
        self.words(line)?;
        self.feed()
    }

    /// The words of a line.
    fn words(&mut self, line: &TraceLine) -> Result<(), AllocError>
        ensures { OnOk result (Spelled (words_of_line line.now) self.old self.new) }
    {
        match line {
            TraceLine::Cores(number) => self.with_number(b"cores", *number),
            TraceLine::Rounds(number) => self.with_number(b"rounds", *number),
            TraceLine::Entries(number) => self.with_number(b"entries", *number),
            TraceLine::Core(given) => self.core(given),
            TraceLine::Thread(thread) => self.thread(thread),
            TraceLine::Order(order) => self.order(order),
        }
    }

    /// A word and the number behind it, as the whole line.
    fn with_number(&mut self, word: &[u8], value: u32) -> Result<(), AllocError>
        ensures { OnOk result (Spelled (word.now ∷ decimal value ∷ []) self.old self.new) }
    {
        self.first(word)?;
        self.number(value)
    }

    /// The words of a core's line.
    fn core(&mut self, given: &CoreConsts) -> Result<(), AllocError>
        ensures { OnOk result (Spelled (words_of_line (Core given.now)) self.old self.new) }
    {
        self.first(b"core")?;
        self.number(given.core)?;
        self.consts(given.consts.as_slice())
    }

    fn consts(&mut self, consts: &[NamedConst]) -> Result<(), AllocError>
        ensures { OnOk result (Prints (flat_map words_of_const consts.now) self.old self.new) }
    {
        for given in consts {
            self.given(given)?;
        }
        Ok(())
    }

    /// The name of a constant and its value.
    fn given(&mut self, given: &NamedConst) -> Result<(), AllocError>
        ensures { OnOk result (Prints (words_of_const given.now) self.old self.new) }
    {
        self.word(given.name.as_slice())?;
        self.signed(given.value)
    }

    /// The words of a thread's line.
    fn thread(&mut self, thread: &Planned) -> Result<(), AllocError>
        ensures { OnOk result (Spelled (words_of_line (Thread thread.now)) self.old self.new) }
    {
        self.first(b"thread")?;
        self.number(thread.id)?;
        self.field(b"core", thread.core)?;
        self.field(b"round", thread.round)?;
        self.weight(thread.weight)?;
        self.bursts(thread.bursts.as_slice())
    }

    /// The weight of a thread, also where it is 1.
    fn weight(&mut self, weight: u32) -> Result<(), AllocError>
        ensures { OnOk result (Prints (codes "weight" ∷ decimal weight ∷ []) self.old self.new) }
    {
        self.field(b"weight", weight)
    }

    /// A word and the number behind it.
    fn field(&mut self, word: &[u8], value: u32) -> Result<(), AllocError>
        ensures { OnOk result (Prints (word.now ∷ decimal value ∷ []) self.old self.new) }
    {
        self.word(word)?;
        self.number(value)
    }

    fn bursts(&mut self, bursts: &[Burst]) -> Result<(), AllocError>
        ensures { OnOk result (Prints (flat_map words_of_burst bursts.now) self.old self.new) }
    {
        for burst in bursts {
            self.burst(*burst)?;
        }
        Ok(())
    }

    /// A stretch of a program, and how it ends.
    fn burst(&mut self, burst: Burst) -> Result<(), AllocError>
        ensures { OnOk result (Prints (words_of_burst burst) self.old self.new) }
    {
        match burst.ending {
            Ending::Yield => {
                self.field(b"run", burst.units)?;
                self.word(b"yield")
            }
            Ending::Block(rounds) => {
                self.field(b"run", burst.units)?;
                self.field(b"block", rounds)
            }
            Ending::End => self.field(b"run", burst.units),
            Ending::Forever => self.word(b"forever"),
        }
    }

    /// The words of an order's line.
    fn order(&mut self, order: &OrderLine) -> Result<(), AllocError>
        ensures { OnOk result (Spelled (words_of_line (Order order.now)) self.old self.new) }
    {
        self.first(b"order")?;
        self.number(order.round)?;
        self.cores(order.cores.as_slice())
    }

    fn cores(&mut self, cores: &[CoreId]) -> Result<(), AllocError>
        ensures { OnOk result (Prints (map decimal cores.now) self.old self.new) }
    {
        for core in cores {
            self.number(*core)?;
        }
        Ok(())
    }
}
