// Encoding: the one codeword with a given message.
// The checks are laid by a shift register over the generator polynomial, the polynomial whose roots are those of the code.
// The register is the first places of the word itself, so nothing is allocated and the message is gone through once.
// And syndromes, the check sums of a word all at once, from what a division by the generator polynomial leaves.
#![tactic(auto)]

ghost use Rattle.std.specs.Prelude.{◌≡◌, ◌-◌, ◌<◌, ◌≤◌, length, None, Ok, MatchResult, OnErr};
ghost use Rattle.field.specs.Symbols.{Within};
ghost use Rattle.code.specs.Shape.{shape};
ghost use Rattle.code.specs.Refusals.{numbered};
ghost use Rattle.code.specs.Fitting.{fitting};
ghost use Rattle.code.specs.Words.{Word, codeword, failing_root};
ghost use Rattle.encoder.specs.Encodes.{Encodes};
ghost use Rattle.encoder.specs.Syndromes.{Summed, summing};
ghost use Rattle.encoder.specs.Register.{Turned, Generates, Divided, Evaluated};

use code::word::is_below;
use code::{CHECKS, Code, FieldCode, POSITIONS, Refusal};
use evaluation::{powers, values};
use field::{Field, Fixed};

// A generator has one coefficient more than a code has checks. Rows of fixed length, since no call here takes memory.
const ROOM: usize = CHECKS + 1;

// to := x · to + c · from, as far as `to` goes; what stood at its top is lost.
// That rows and factors are symbols is a clause of each step: a slice that is written has no type that says so without a copy.
fn turn<F: Field>(field: &F, c: u32, from: &[u32], to: &mut [u32])
    requires some { 0 < length to.old }
    requires read { length to.old ≤ length from.now }
    requires factor { c < (F.Field.means field.now).q }
    requires symbols { Within (F.Field.means field.now).q from.now }
    requires held { Within (F.Field.means field.now).q to.old }
    ensures { Turned (F.Field.means field.now) c (length to.old - 1) from.now to.old to.new }
{
    let mut below = 0;
    // Not by `zip`, after which a proof knows nothing of what was written.
    for (i, x) in to.iter_mut().enumerate() {
        let here = *x;
        *x = field.multiply_add(c, from[i], below);
        below = here;
    }
}

// g := (x + c) · g, as far as `g` goes.
// Beside `turn`, since a row that is written can't be lent to be read as well: one function of both would take a closure, under a
// contract longer than this.
fn multiply<F: Field>(field: &F, c: u32, g: &mut [u32])
    requires some { 0 < length g.old }
    requires factor { c < (F.Field.means field.now).q }
    requires symbols { Within (F.Field.means field.now).q g.old }
    ensures { Turned (F.Field.means field.now) c (length g.old - 1) g.old g.old g.new }
{
    let mut below = 0;
    for x in g.iter_mut() {
        let here = *x;
        *x = field.multiply_add(c, here, below);
        below = here;
    }
}

// The generator: the polynomial with each root of the code once, and leading coefficient 1.
fn generator<F: Fixed<Q, M>, const Q: u32, const M: u32>(over: &FieldCode<F, Q, M>) -> [u32; ROOM]
    ensures { Generates (F.Field.means over.now.field.now) (shape over.now.code).first (shape over.now.code).checks result }
{
    let field = over.field;
    let mut g = [0; ROOM];
    g[0] = 1;
    let a = field.power(1);
    let mut root = field.power(over.code.first_root() as u16);
    // By count: the part that a step writes grows by a place, and no iterator lends parts that overlap.
    for j in 0..over.code.checks() as usize {
        multiply(field, field.opposite(root), &mut g[0..j + 2]);
        root = field.product(a, root);
    }
    g
}

// Takes multiples of the generator off a row, from its top place down: what then stands in the places of the checks has the
// value of the whole row at each root.
fn divide<F: Fixed<Q, M>, const Q: u32, const M: u32>(
    over: &FieldCode<F, Q, M>,
    generator: &[u32; ROOM],
    row: &mut [u32],
)
    requires generates { Generates (F.Field.means over.now.field.now) (shape over.now.code).first (shape over.now.code).checks generator.now }
    requires long { length row.old ≡ (shape over.now.code).n }
    requires symbols { Within (F.Field.means over.now.field.now).q row.old }
    ensures { Divided (F.Field.means over.now.field.now) (shape over.now.code).first (shape over.now.code).checks row.old row.new }
{
    let field = over.field;
    let checks = over.code.checks() as usize;
    // By index: the parts of the row that the steps write to overlap, and no iterator lends such parts.
    for i in (checks..row.len()).rev() {
        let c = field.opposite(row[i]);
        field.add_multiple(c, &generator[0..checks], &mut row[i - checks..i]);
    }
}

// Lays the checks of a word that fits: takes in the message from its top symbol down.
fn lay_checks<F: Fixed<Q, M>, const Q: u32, const M: u32>(
    over: &FieldCode<F, Q, M>,
    word: &mut [u32],
)
    requires { Word Q (shape over.now.code).n word.old }
    ensures { Encodes (F.Field.means over.now.field.now) (shape over.now.code) word.old word.new }
{
    let field = over.field;
    let g = generator(over);
    let checks = over.code.checks() as usize;
    let (register, message) = word.split_at_mut(checks);
    register.fill(0);
    for x in message.iter().rev() {
        let c = field.sum(*x, field.opposite(register[checks - 1]));
        turn(field, c, &g, register);
    }
}

// Replaces the checks, so that the word is the one codeword with its message.
// Where the code is not one of the field or the word not one of the code, says which, and the word stays as it was.
pub fn encode<F: Fixed<Q, M>, const Q: u32, const M: u32>(
    field: &F,
    code: &Code,
    word: &mut [u32],
) -> Result<(), Refusal>
    ensures answer { numbered result ≡ fitting (F.Field.means field.now) (shape code.now) word.old tt }
    ensures encodes { result ≡ Ok tt → Encodes (F.Field.means field.now) (shape code.now) word.old word.new }
    ensures tests { result ≡ Ok tt → failing_root (F.Field.means field.now) (shape code.now) word.new ≡ None }
    ensures kept { OnErr result (word.new ≡ word.old) }
{
    let over = FieldCode::new(field, *code)?;
    over.fit(word)?;
    lay_checks(&over, word);
    Ok(())
}

// Writes the values of a remainder at the roots of the code.
fn evaluate<F: Fixed<Q, M>, const Q: u32, const M: u32>(
    over: &FieldCode<F, Q, M>,
    remainder: &[u32],
    out: &mut [u32],
)
    requires few { length out.old ≤ 512 }
    requires symbols { Within (F.Field.means over.now.field.now).q remainder.now }
    ensures { Evaluated (F.Field.means over.now.field.now) (shape over.now.code).first remainder.now out.new }
{
    let mut room = [0; CHECKS];
    let points = &mut room[0..out.len()];
    powers(over.field, over.code.first_root(), 1, points);
    values(over.field, remainder, points, out);
}

// Writes the check sums of a word that fits; whether all are 0. A Boolean, since it answers a question and refuses nothing.
fn write_syndromes<F: Fixed<Q, M>, const Q: u32, const M: u32>(
    over: &FieldCode<F, Q, M>,
    word: &[u32],
    out: &mut [u32],
) -> bool
    requires word { Word Q (shape over.now.code).n word.now }
    requires written { length out.old ≡ (shape over.now.code).checks }
    ensures all { result ≡ codeword (F.Field.means over.now.field.now) (shape over.now.code) word.now }
    ensures each { Summed (F.Field.means over.now.field.now) (shape over.now.code) word.now out.old out.new }
{
    let mut room = [0; POSITIONS];
    let row = &mut room[0..word.len()];
    row.copy_from_slice(word);
    divide(over, &generator(over), row);
    let remainder = &row[0..out.len()];
    // 0 is the only number below 1.
    if is_below(remainder, 1) {
        out.fill(0);
        return true;
    }
    evaluate(over, remainder, out);
    is_below(out, 1)
}

// Writes the check sums of a word into the first places of a buffer, one for each check, and tells whether all are 0:
// a Boolean, since both answers are accepted. Where the code is not one of the field, the word not one of the code or the buffer too short, says which, and the buffer stays as it was.
pub fn syndromes<F: Fixed<Q, M>, const Q: u32, const M: u32>(
    field: &F,
    code: &Code,
    word: &[u32],
    out: &mut [u32],
) -> Result<bool, Refusal>
    ensures answer { numbered result ≡ summing (F.Field.means field.now) (shape code.now) word.now out.old }
    ensures sums { MatchResult result (λ _. Summed (F.Field.means field.now) (shape code.now) word.now out.old out.new) (λ _. out.new ≡ out.old) }
{
    let over = FieldCode::new(field, *code)?;
    over.fit(word)?;
    let checks = code.checks() as usize;
    if out.len() < checks {
        return Err(Refusal::Buffer);
    }
    Ok(write_syndromes(&over, word, &mut out[0..checks]))
}
