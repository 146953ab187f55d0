//! Laws of judging, each a function without parameters whose contract is the law.

ghost use Rattle.history_judge.specs.Laws.{OneJudgement};

/// No history is judged in two ways.
pub fn law_one_judgement()
    ensures { OneJudgement }
{}
