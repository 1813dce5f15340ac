// A pair of polynomials over q symbols, lowest coefficient first: the one shows which positions are wrong, the other by how much.
ghost use Rattle.field.specs.Symbols.{Within};

#[derive(Drop)]
pub(crate) struct Pair<'a, const Q: u32> {
    pub(crate) evaluator: &'a [u32],
    pub(crate) locator: &'a [u32],
    ghost left: { Within Q evaluator.now },
    ghost right: { Within Q locator.now },
}
