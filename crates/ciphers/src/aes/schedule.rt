// The key expansion, over as many words of four bytes as the key has: nk, a plain number, as FIPS 197 has it.
ghost use Rattle.std.specs.Prelude.{◌≡◌, ◌-◌, ◌/◌, ◌%◌, ◌<◌, ◌≤◌, [], length, get_or};
ghost use Rattle.base.specs.Bytes.{xor_front};
ghost use Rattle.ciphers.specs.AesSchedule.{rot_word, sub_word, round_constant, turned_at, substituted_at, temp, expanded};

use super::field::double;
use super::tables::substitute;
use base::xor_front;

// x to the power j - 1, the first byte of a round constant.
fn round_constant(j: usize) -> u8
    ensures { result ≡ round_constant j }
{
    (1..j).fold(1, |power, _| double(power))
}

// Every byte of a word substituted.
fn sub_word(w: [u8; 4]) -> [u8; 4]
    ensures { result ≡ sub_word w }
{
    w.map(substitute)
}

// A word turned left by one byte.
fn rot_word(w: [u8; 4]) -> [u8; 4]
    ensures { result ≡ rot_word w }
{
    [w[1], w[2], w[3], w[0]]
}

// Whether word i comes from a turned word, with a round constant.
fn is_turned(nk: usize, i: usize) -> bool
    requires { 0 < nk }
    ensures { result ≡ turned_at nk i }
{
    i % nk == 0
}

// Whether word i comes from a word that is substituted and not turned, as long keys have it.
fn is_substituted(nk: usize, i: usize) -> bool
    requires { 0 < nk }
    ensures { result ≡ substituted_at nk i }
{
    nk > 6 && i % nk == 4
}

// What is added to word i - nk to give word i, from word i - 1.
fn temp_word(nk: usize, i: usize, last: [u8; 4]) -> [u8; 4]
    requires { 0 < nk }
    ensures { result ≡ temp nk i last }
{
    if is_turned(nk, i) {
        let mut turned = sub_word(rot_word(last));
        turned[0] ^= round_constant(i / nk);
        turned
    } else if is_substituted(nk, i) {
        sub_word(last)
    } else {
        last
    }
}

// The word that comes after these.
fn next_word(nk: usize, words: &[[u8; 4]]) -> [u8; 4]
    requires { (0 < nk) × (nk ≤ length words.now) }
    ensures { result ≡ xor_front (get_or words.now (length words.now - nk) []) (temp nk (length words.now) (get_or words.now (length words.now - 1) [])) }
{
    let i = words.len();
    let mut next = words[i - nk];
    let temp = temp_word(nk, i, words[i - 1]);
    xor_front(&mut next, &temp);
    next
}

// Fills the schedule with the key's words and those that follow from them. It is filled where it lies and not returned: a part lent
// of an array whose length is a parameter is not covered by proofs yet.
pub(super) fn expand(key: &[u8], schedule: &mut [u8])
    requires key_nonzero { (0 < length key.now) × (length key.now % 4 ≡ 0) }
    requires key_in_bounds { (length key.now ≤ length schedule.old) × (length schedule.old % 4 ≡ 0) }
    ensures { schedule.new ≡ expanded (length key.now / 4) key.now (length schedule.old / 4 - length key.now / 4) }
{
    let nk = key.len() / 4;
    schedule[..key.len()].copy_from_slice(key);
    // by place: a word is made from those before it, which stand in the schedule that it is written into
    for i in nk..schedule.len() / 4 {
        let (words, _) = schedule[..4 * i].as_chunks::<4>();
        let next = next_word(nk, words);
        schedule[4 * i..4 * i + 4].copy_from_slice(&next);
    }
}
