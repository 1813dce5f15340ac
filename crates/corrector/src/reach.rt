ghost use Rattle.std.specs.Prelude.{◌≡◌};
ghost use Rattle.code.specs.declared.Refusal.TheVariants as refusal;

use code::Refusal;

// That no codeword is in reach.
#[derive(Clone, Copy, Debug, PartialEq, Eq)]
pub(crate) struct OutOfReach {}

impl From<OutOfReach> for Refusal {
    ghost from_gives = { λ _ e. e ≡ refusal.OutOfReach };

    fn from(_: OutOfReach) -> Refusal {
        Refusal::OutOfReach
    }
}
