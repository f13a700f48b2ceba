// The commands of the program, and their answers.
ghost use Rattle.std.specs.Prelude.{◌≡◌, ℕ, List, [], length, map, Some, None, IfOk, MatchOption, MatchResult, string_bytes};
ghost use Rattle.text.specs.Faults.{AtFaultOrFull};
ghost use Rattle.text.specs.Hexadecimal.{bytes_of};
ghost use Rattle.text.specs.Lines.{ReadAs};
ghost use Rattle.sealer.specs.Commands.{accepted, Turned, Coded, Hashed, OnMessage, Accepted, Answered};

use crate::kinds::under;
use crate::sealing::Sealing;
use crate::work::{Way, turn};
use ciphers::{Aes128, Speck128};
use mode::{cmac_under_key, hash};
use std::alloc::{AllocError, Global};
use text::{CipherKind, Fault, decode, encode, words_of};

// One line's answer, or nothing for a line that is passed over. As in the other programs, a few lines around its own commands.
pub fn respond(heap: Global, line: &[u8]) -> Result<Option<String>, AllocError>
    ensures { IfOk result (λ answer. MatchOption answer (Answered line.now None) (λ text. Answered line.now (Some (string_bytes text)))) }
{
    match try_respond(heap, line) {
        Ok(answer) => Ok(answer),
        Err(fault) => Ok(Some(fault.answer(heap)?)),
    }
}

fn try_respond(heap: Global, line: &[u8]) -> Result<Option<String>, Fault>
    ensures { IfOk result (λ answer. MatchOption answer (ReadAs line.now []) (λ text. (words : List (List ℕ)) × ReadAs line.now words × Accepted words (string_bytes text))) }
{
    let words = words_of(heap, line)?;
    if words.is_empty() {
        return Ok(None);
    }
    Ok(Some(obey(heap, &words)?))
}

// The answer to a command.
fn obey(heap: Global, words: &[&str]) -> Result<String, Fault>
    ensures { IfOk result (λ line. Accepted (map (λ w. w.now) words.now) (string_bytes line)) }
{
    match words {
        ["encrypt", cipher, key, block] => on_block(heap, Way::Forward, cipher, key, block),
        ["decrypt", cipher, key, block] => on_block(heap, Way::Back, cipher, key, block),
        ["cmac", cipher, key, message] => on_code(heap, cipher, key, message),
        ["hash", tau, message] => on_hash(heap, tau, message),
        [name, rest @ ..] => on_message(heap, name, rest),
        [] => Err(Fault::Line("not a command")),
    }
}

// The answer to a command that seals or opens a message, by its name and the words after it.
fn on_message(heap: Global, name: &str, words: &[&str]) -> Result<String, Fault>
    ensures { IfOk result (λ line. OnMessage name.now (map (λ w. w.now) words.now) (string_bytes line)) }
{
    match name {
        "seal" => ok(heap, &Sealing::read(heap, words)?.seal()?),
        "open" => ok(heap, &Sealing::read(heap, words)?.open()?),
        "seal-proof" => ok(heap, &Sealing::read(heap, words)?.seal_with_proof()?),
        "open-proof" => ok(heap, &Sealing::read(heap, words)?.open_with_proof()?),
        _ => Err(Fault::Line("not a command")),
    }
}

// The line of an accepted call that answers bytes.
fn ok(heap: Global, bytes: &[u8]) -> Result<String, Fault>
    ensures { IfOk result (λ line. string_bytes line ≡ accepted bytes.now) }
{
    let spelled = encode(heap, bytes)?;
    Ok(format!(in heap; "ok {spelled}")?)
}

// A block under a key, forward or back.
fn on_block(heap: Global, way: Way, cipher: &str, key: &str, block: &str) -> Result<String, Fault>
    ensures { IfOk result (λ line. Turned way cipher.now key.now block.now (string_bytes line)) }
{
    let kind: CipherKind = cipher.parse()?;
    let key = decode(heap, key)?;
    let mut block = sixteen(heap, block, "a block has sixteen bytes")?;
    under!(kind, turn(way, &key, &mut block))?;
    ok(heap, &block)
}

// Sixteen bytes from a word.
fn sixteen(heap: Global, word: &str, wrong: &'static str) -> Result<[u8; 16], Fault>
    ensures { MatchResult result (λ bytes. bytes_of word.now ≡ Some bytes) (λ fault. AtFaultOrFull fault ((bytes : List ℕ) → length bytes ≡ 16 → bytes_of word.now ≡ Some bytes → ⊥)) }
{
    let bytes = decode(heap, word)?;
    <[u8; 16]>::try_from(bytes.as_slice()).map_err(|_| Fault::Line(wrong))
}

fn on_code(heap: Global, cipher: &str, key: &str, message: &str) -> Result<String, Fault>
    ensures { IfOk result (λ line. Coded cipher.now key.now message.now (string_bytes line)) }
{
    let kind: CipherKind = cipher.parse()?;
    let key = decode(heap, key)?;
    let message = decode(heap, message)?;
    let mut code = [0u8; 16];
    under!(kind, cmac_under_key(&key, &message, &mut code))?;
    ok(heap, &code)
}

fn on_hash(heap: Global, tau: &str, message: &str) -> Result<String, Fault>
    ensures { IfOk result (λ line. Hashed tau.now message.now (string_bytes line)) }
{
    let tau = sixteen(heap, tau, "tau has sixteen bytes")?;
    let message = decode(heap, message)?;
    ok(heap, &hash(&tau, &message)?)
}
