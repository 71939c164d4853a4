// Why an import is refused.
ghost use Rattle.std.specs.Prelude.{◌≡◌, ◌≢◌, MatchResult};
ghost use Rattle.avs_model.specs.declared.answer.Refusal.TheVariants.{WrongStamp};
ghost use Rattle.avs_join.specs.Importing.{refusal_of};

use avs_dev::Why;
use avs_model::Refusal;

/// Whether the stamp of a set, `ours`, is that of an import's bitmap, `theirs`.
pub fn check_stamp(ours: u64, theirs: u64) -> Result<(), Refusal>
    ensures { MatchResult result (λ _. ours ≡ theirs) (λ why. (why ≡ WrongStamp ours theirs) × (ours ≢ theirs)) }
{
    if ours == theirs {
        Ok(())
    } else {
        Err(Refusal::WrongStamp { ours, theirs })
    }
}

// Why a disk was refused, as a refusal.
pub(crate) fn refusal_of(why: Why) -> Refusal
    ensures { result ≡ refusal_of why }
{
    match why {
        Why::Size { need, have } => Refusal::Size { need, have },
        Why::BadRecord(field) => Refusal::BadRecord(field),
        Why::NoMemory => Refusal::NoMemory,
        Why::Fault => Refusal::Fault,
    }
}
