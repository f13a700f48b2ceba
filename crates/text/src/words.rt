ghost use Rattle.std.specs.Prelude.{◌≡◌, ℕ, ◌^◌, ◌<◌, ◌↔◌, map, vec_len, IsTrue, IsUtf8, IfOk, IfSome, OnOk, MatchResult};
ghost use Rattle.std.specs.Io.{StopsAt};
ghost use Rattle.std.specs.Io.BufRead.{take_through, DropsThrough};
ghost use Rattle.std.specs.Io.KnownBytes.{Consumes};
ghost use Rattle.text.specs.Decimal.{Spells};
ghost use Rattle.text.specs.Faults.{AtFault, AtFaultOrFull};
ghost use Rattle.text.specs.Lines.{ReadAs};

use crate::fault::Fault;
use std::alloc::Global;
use std::io;
use std::io::BufRead;

// Reads the next line into `line`; false at the end of the input. A flag, since the buffer is lent to be used again.
pub fn read_line<R: BufRead>(input: &mut R, line: &mut Vec<u8>) -> io::Result<bool>
    ensures more { IfOk result (λ more. IsTrue more ↔ (0 < vec_len line.new)) }
    ensures stops { StopsAt line.new.items 10 }

    // where the bytes of the input are known
    ensures line { OnOk result (IfSome (R.remaining input.old) (λ xs. line.new.items ≡ take_through 10 xs)) }
    ensures rest { OnOk result (DropsThrough (R.remaining input.old) (R.remaining input.new) 10) }
    ensures none_lost { Consumes (R.remaining input.old) (R.remaining input.new) line.new.items }
{
    line.clear();
    Ok(input.read_until(b'\n', line)? > 0)
}

// The words of a line: none where it is empty or a comment.
pub fn words_of<'a>(heap: Global, line: &'a [u8]) -> Result<Vec<&'a str>, Fault>
    ensures { MatchResult result (λ words. ReadAs line.now (map (λ w. w.now) words.items)) (λ fault. AtFaultOrFull fault (IsUtf8 line.now → ⊥)) }
{
    let Ok(text) = std::str::from_utf8(line) else {
        return Err(Fault::Line("the line is not text"));
    };
    let mut words = Vec::new(heap);
    for word in text.split_whitespace() {
        if words.is_empty() && word.starts_with('#') {
            return Ok(words);
        }
        words.push(word)?;
    }
    Ok(words)
}

// The number that a word spells in decimal digits.
pub fn number(word: &str) -> Result<usize, Fault>
    ensures { MatchResult result (λ n. Spells word.now n) (λ fault. AtFault fault ((n : ℕ) → n < 2 ^ 64 → Spells word.now n → ⊥)) }
{
    if !word.bytes().all(|c| c.is_ascii_digit()) {
        return Err(Fault::Line("not a number"));
    }
    word.parse()
        .map_err(|_| Fault::Line("not a number that can be held"))
}
