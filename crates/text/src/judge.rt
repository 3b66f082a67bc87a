// What the writer judges of a group. Judgements one after the other are put together by `?`: the first refusal stands.
ghost use Rattle.std.specs.Prelude.{◌≡◌};
ghost use Rattle.text.specs.Judge.{judge};

use crate::kinds::Refusal;

// In range and agreeing, or refusal 11, or refusal 7.
pub fn judge(within: bool, agrees: bool) -> Result<(), Refusal>
    ensures { result ≡ judge within agrees }
{
    if within {
        if agrees {
            Ok(())
        } else {
            Err(Refusal::Disagreement)
        }
    } else {
        Err(Refusal::Value)
    }
}
