//! Whether a policy is accepted, or can be played.

ghost use Rattle.std.specs.Prelude.{◌≡◌, ℕ, IfErr, IfOk, IsFalse, IsTrue, List};
ghost use Rattle.policy_tree.specs.Meaning.{meaning_of};
ghost use Rattle.policy_answers.specs.Checks.{IsCheckOf};
ghost use Rattle.policy_answers.specs.declared.answer.CheckAnswer.TheVariants as checked;
ghost use Rattle.policy_checker.specs.Playable.{is_playable};
ghost use Rattle.ipanema_cli.specs.PolicyAnswers.{IsAccepted, accepts};
ghost use Rattle.ipanema_cli.specs.Simulations.{lets_play};

use policy_answers::CheckAnswer;
use policy_checker::{AcceptedPolicy, Verdict};

/// The policy that this answer of `check` accepts. Else the answer, back.
pub fn accepted_in(answer: CheckAnswer) -> Result<AcceptedPolicy, CheckAnswer>
    ensures accepted { IfOk result
        (λ kept. (text : List ℕ) → IsCheckOf text answer → IsAccepted text (meaning_of kept)) }
    ensures refused { IfErr result (λ refusal. (refusal ≡ answer) × IsFalse (accepts refusal)) }
{
    match answer {
        CheckAnswer::Judged(Verdict::Accepted(kept)) => Ok(kept),
        refusal => Err(refusal),
    }
}

/// The verdict in this answer of `check`, if its policy can be played. Else the answer, back.
pub fn playable_in(answer: CheckAnswer) -> Result<Verdict, CheckAnswer>
    ensures plays { IfOk result (λ verdict. (checked.Judged verdict ≡ answer) × IsTrue (is_playable verdict)) }
    ensures refused { IfErr result (λ refusal. (refusal ≡ answer) × IsFalse (lets_play refusal)) }
{
    match answer {
        CheckAnswer::Judged(verdict) => {
            if verdict.is_playable() {
                Ok(verdict)
            } else {
                Err(CheckAnswer::Judged(verdict))
            }
        }
        refusal => Err(refusal),
    }
}
