// The refusal table, apart from any bay: of the rows that a call meets, the topmost.
ghost use Rattle.std.specs.Prelude.{◌≡◌};
ghost use Rattle.second.specs.Sizes.{size};
ghost use Rattle.second.specs.Rules.{number, are_symbols, shape_rule, word_rule, request_rule};

use crate::arithmetic::Arithmetic;
use crate::words::Shape;

// Why a call is refused, each with the number of its row.
// Beside the library's Refusal, and the rules below beside its own tests: this crate shares nothing with what it is held against.
#[derive(Clone, Copy, Debug, PartialEq, Eq)]
pub enum Rule {
    Positions = 1,
    Checks = 2,
    PastTurn = 3,
    FirstRoot = 4,
    Count = 7,
    Map = 8,
    Symbol = 10,
    OutOfReach = 12,
    Buffer = 13,
    Terms = 14,
    Order = 15,
}

impl Rule {
    // The number of the row.
    pub fn number(&self) -> u32
        ensures { result ≡ number self.now }
    {
        *self as u32
    }
}

// Whether each number is one of q symbols.
fn are_symbols(xs: &[u32], q: u32) -> bool
    ensures { result ≡ are_symbols q xs.now }
{
    xs.iter().all(|x| *x < q)
}

// That three numbers are a code.
fn check_shape(shape: Shape) -> Result<(), Rule>
    ensures { result ≡ shape_rule shape }
{
    if shape.n < 2 || shape.n > 928 {
        Err(Rule::Positions)
    } else if shape.checks == 0 || shape.checks >= shape.n || shape.checks > 512 {
        Err(Rule::Checks)
    } else {
        Ok(())
    }
}

// That three numbers are a code over a field, and that it has this word, with a mark or none for each of `marked` positions.
pub fn check_word(field: &Arithmetic, shape: Shape, word: &[u32], marked: usize) -> Result<(), Rule>
    ensures { result ≡ word_rule (size field.now.kind) shape word.now marked }
{
    check_shape(shape)?;
    if shape.n > field.turn() {
        Err(Rule::PastTurn)
    } else if shape.first >= field.turn() {
        Err(Rule::FirstRoot)
    } else if word.len() != shape.n as usize {
        Err(Rule::Count)
    } else if marked != shape.n as usize {
        Err(Rule::Map)
    } else if !are_symbols(word, field.symbols()) {
        Err(Rule::Symbol)
    } else {
        Ok(())
    }
}

// That the solver can be called with n coefficients in order r, and with buffers of these lengths.
pub fn check_request(
    field: &Arithmetic,
    g: &[u32],
    n: u32,
    r: i32,
    left: usize,
    right: usize,
) -> Result<(), Rule>
    ensures { result ≡ request_rule (size field.now.kind) g.now n r left right }
{
    let least = n as usize + 1;
    if g.len() != n as usize {
        Err(Rule::Count)
    } else if !are_symbols(g, field.symbols()) {
        Err(Rule::Symbol)
    } else if left < least || right < least {
        Err(Rule::Buffer)
    } else if n == 0 || n > 512 {
        Err(Rule::Terms)
    } else if r < -511 || r > 511 {
        Err(Rule::Order)
    } else {
        Ok(())
    }
}
