// Control words: words over the field of sixteen symbols.
ghost use Rattle.f16.specs.Sixteen.{sixteen};
ghost use Rattle.capi.specs.Status.{answer};
ghost use Rattle.capi.specs.Outcomes.{Encoded, Tested, Restored};

use crate::words::{correct_word, encode_word, status, test_word};
use f16::F16;

// Replaces the checks of a word, so that it is the codeword with its message.
#[unsafe(no_mangle)]
pub extern "C" fn softballbay_control_encode(
    n: u32,
    checks: u32,
    first: u32,
    word: &mut [u32],
) -> u32
    ensures { Encoded sixteen n checks first word.old (answer result) word.new }
{
    status(encode_word(&F16 {}, n, checks, first, word))
}

// Tells in two places whether a root of a word fails, and which is the lowest.
#[unsafe(no_mangle)]
pub extern "C" fn softballbay_control_test(
    n: u32,
    checks: u32,
    first: u32,
    word: &[u32],
    failing: &mut [u32],
) -> u32
    ensures { Tested sixteen n checks first word.now failing.old (answer result) failing.new }
{
    status(test_word(&F16 {}, n, checks, first, word, failing))
}

// Makes a word the codeword in reach, where the map marks the positions that are not relied on.
#[unsafe(no_mangle)]
pub extern "C" fn softballbay_control_correct(
    n: u32,
    checks: u32,
    first: u32,
    word: &mut [u32],
    map: &[u8],
) -> u32
    ensures { Restored sixteen n checks first word.old map.now (answer result) word.new }
{
    status(correct_word(&F16 {}, n, checks, first, word, map))
}
