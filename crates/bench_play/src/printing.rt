//! How a bench is written: a line for the threads, and one for each total of the history.

ghost use Rattle.std.specs.Prelude.{◌≡◌};
ghost use Rattle.sched_io.specs.Puts.{Puts};
ghost use Rattle.bench_play.specs.Lines.{bench_lines, threads_line};

use crate::playing::BenchTotals;
use sched_io::{Line, PutFault, Sink, put_all};
use sched_report::print_totals;

/// Writes the seven lines.
pub fn print_bench<S: Sink>(out: &mut S, told: &BenchTotals) -> Result<(), PutFault>
    ensures { Puts (bench_lines told.now) result (S.shown out.old) (S.shown out.new) }
{
    put_all(out, threads_line(told.threads).as_bytes())?;
    print_totals(out, &told.totals)
}

/// The line of the threads.
fn threads_line(threads: u32) -> Line
    ensures { result ≡ threads_line threads }
{
    let mut line = Line::new();
    line.add(b"threads ");
    line.add_number(u64::from(threads));
    line.add(b"\n");
    line
}
