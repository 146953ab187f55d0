//! A law, as a function without parameters whose contract it is.

ghost use Rattle.bench_play.specs.Bench.{OneBenchLaw};

/// A seed and a size have one bench.
pub fn law_one_bench()
    ensures { OneBenchLaw }
{}
