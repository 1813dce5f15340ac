// Words that other people's encoders wrote, from standard input, one to a line: V, then q, R, b and the symbols,
// the lowest position first. The first ten are published: a label, and for each label code the word whose message
// is a single 1, so that its checks are the coefficients of the generator. Each is tested, encoded again from its message alone, and restored after damage at the
// limit: errors only, marks only, and both.
#![tactic(auto)]

use code::Code;
use code::word::first_failing_root;
use corrector::correct;
use encoder::encode;
use f16::F16;
use f256::F256;
use f929::F929;
use field::Fixed;
use std::alloc::{AllocError, Global};
use std::io::{BufRead, BufReader};
use std::{fmt, io};
use text::line::read_line;

// How many words there were, and how many failed each trial.
#[derive(Clone, Copy, Default)]
struct Tally {
    words: u32,
    failing: u32,
    otherwise: u32,
    lost: u32,
}

impl fmt::Display for Tally {
    fn fmt<W: fmt::Write>(&self, f: &mut fmt::Formatter<W>) -> fmt::Result {
        let Tally {
            words,
            failing,
            otherwise,
            lost,
        } = self;
        write!(
            f,
            "{words} words, {failing} with a failing root, {otherwise} encoded otherwise, {lost} not restored"
        )
    }
}

// The words of each field.
#[derive(Clone, Copy, Default)]
struct Tallies {
    labels: Tally,
    reels: Tally,
    controls: Tally,
}

impl fmt::Display for Tallies {
    fn fmt<W: fmt::Write>(&self, f: &mut fmt::Formatter<W>) -> fmt::Result {
        let Tallies {
            labels,
            reels,
            controls,
        } = self;
        write!(
            f,
            "labels: {labels}\nreels: {reels}\ncontrol words: {controls}"
        )
    }
}

// A word of a code.
#[derive(Clone, Copy)]
struct Vector<'a> {
    code: Code,
    word: &'a [u32],
}

// How many positions of a word are marked and changed, and how many more are changed.
#[derive(Clone, Copy)]
struct Damage {
    marks: usize,
    errors: usize,
}

// Another symbol than x.
fn other(x: u32, q: u32) -> u32 {
    if x == 0 || q < 2 { 1 } else { x - 1 }
}

// Whether a word comes back after some damage.
// The field stands beside the word, which is read before its number names a type.
fn comes_back<F: Fixed<Q, M>, const Q: u32, const M: u32>(
    field: &F,
    vector: Vector,
    damage: Damage,
    heap: Global,
) -> Result<bool, AllocError> {
    let Vector { code, word } = vector;
    let Damage { marks, errors } = damage;
    let mut damaged = word.to_vec(heap)?;
    let mut erased = vec![in heap; false; word.len()]?;
    // Every third position from the start, so that checks and message are both hit, and then on from the next.
    let places = (0..3usize).flat_map(|start| (start..word.len()).step_by(3));
    for (k, i) in places.take(marks.saturating_add(errors)).enumerate() {
        if let Some(x) = damaged.get_mut(i) {
            *x = other(*x, Q);
        }
        if let Some(mark) = erased.get_mut(i) {
            *mark = k < marks;
        }
    }
    let answer = correct(field, &code, &erased, &mut damaged);
    Ok(answer.is_ok() && damaged.as_slice() == word)
}

// Whether a word comes back when its checks are encoded again from its message.
fn is_encoded_again<F: Fixed<Q, M>, const Q: u32, const M: u32>(
    field: &F,
    vector: Vector,
    heap: Global,
) -> Result<bool, AllocError> {
    let Vector { code, word } = vector;
    let mut again = word.to_vec(heap)?;
    let checks = (code.checks() as usize).min(again.len());
    again.as_mut_slice()[..checks].fill(0);
    let answer = encode(field, &code, &mut again);
    Ok(answer.is_ok() && again.as_slice() == word)
}

// One word through all trials.
fn try_word<F: Fixed<Q, M>, const Q: u32, const M: u32>(
    field: &F,
    vector: Vector,
    tally: &mut Tally,
    heap: Global,
) -> Result<(), AllocError> {
    tally.words = tally.words.saturating_add(1);
    if !matches!(
        first_failing_root(field, &vector.code, vector.word),
        Ok(None)
    ) {
        tally.failing = tally.failing.saturating_add(1);
    }
    if !is_encoded_again(field, vector, heap)? {
        tally.otherwise = tally.otherwise.saturating_add(1);
    }
    let checks = vector.code.checks() as usize;
    let errors = checks / 4;
    let limits = [
        Damage {
            marks: checks,
            errors: 0,
        },
        Damage {
            marks: 0,
            errors: checks / 2,
        },
        Damage {
            marks: checks - 2 * errors,
            errors,
        },
    ];
    for damage in limits {
        if !comes_back(field, vector, damage, heap)? {
            tally.lost = tally.lost.saturating_add(1);
            break;
        }
    }
    Ok(())
}

// One line: its field, its code and its word.
fn try_line(rt: &HostRuntime, numbers: &[u32], tallies: &mut Tallies) -> io::Result<()> {
    let heap = rt.alloc();
    let [q, checks, first, word @ ..] = numbers else {
        return println!(rt; "a line without a code");
    };
    // 0 stands for more symbols than a u32 counts; no code has either number.
    let Ok(code) = Code::new(u32::try_from(word.len()).unwrap_or(0), *checks, *first) else {
        return println!(rt; "a line with no code");
    };
    let vector = Vector { code, word };
    // The number in the line names the field, whose type all the rest takes.
    match *q {
        929 => try_word(&F929 {}, vector, &mut tallies.labels, heap)?,
        256 => try_word(&F256 {}, vector, &mut tallies.reels, heap)?,
        16 => try_word(&F16 {}, vector, &mut tallies.controls, heap)?,
        _ => println!(rt; "a line of another field")?,
    }
    Ok(())
}

fn main(rt: HostRuntime) -> io::Result<()> {
    let heap = rt.alloc();
    let mut tallies = Tallies::default();
    for line in BufReader::new(heap, rt.stdin())?.lines(heap) {
        let line = line?;
        match read_line(heap, line.as_bytes())? {
            Some(sentence) => try_line(&rt, sentence.numbers.as_slice(), &mut tallies)?,
            None => println!(rt; "a line that says nothing")?,
        }
    }
    println!(rt; "{tallies}")
}
