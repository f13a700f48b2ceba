// The limits of the calls, and what the calls check of lengths.
ghost use Rattle.std.specs.Prelude.{◌≡◌, ◌≤◌, length, Ok, OnOk, IfOk};
ghost use Rattle.base.specs.Bytes.{AllBytes};
ghost use Rattle.base.specs.Refusals.{decided};
ghost use Rattle.mode.specs.Calls.{context_limit, shortest_message, longest_message, message_checks, length_checks, outcome};

use base::Refusal;

// the longest nonce and the longest associated data, in bytes
pub const CONTEXT_LIMIT: usize = 1024;

// the shortest message, in bytes
pub const SHORTEST_MESSAGE: usize = 16;

// the longest message, in bytes
pub const LONGEST_MESSAGE: usize = 65536;

// the length of a block, of tau and of the spare bytes
pub const BLOCK: usize = 16;

// Checks a message by its length.
pub fn check_message(message: usize) -> Result<(), Refusal>
    ensures answer { result ≡ decided (message_checks message) (Ok tt) }
    ensures fits { OnOk result ((shortest_message ≤ message) × (message ≤ longest_message)) }
{
    if !(SHORTEST_MESSAGE..=LONGEST_MESSAGE).contains(&message) {
        return Err(Refusal::WrongLength);
    }
    Ok(())
}

// What a message is bound to, each part within its limit: nonce, associated data and the message's length.
#[derive(Drop)]
pub struct Binding<'a> {
    pub nonce: &'a [u8],
    pub ad: &'a [u8],
    pub message: usize,
    ghost context_fits: { (length nonce.now ≤ context_limit) × (length ad.now ≤ context_limit) },
    ghost message_fits: { (shortest_message ≤ message) × (message ≤ longest_message) },
    ghost bytes: { AllBytes nonce.now × AllBytes ad.now },
}

impl<'a> Binding<'a> {
    // The binding, or the refusal of the first part that is not within its limit.
    pub fn new(nonce: &'a [u8], ad: &'a [u8], message: usize) -> Result<Binding<'a>, Refusal>
        ensures answer { outcome result ≡ decided (length_checks (length nonce.now) (length ad.now) message) (Ok 0) }
        ensures parts { IfOk result (λ bound. (bound.nonce.now ≡ nonce.now) × (bound.ad.now ≡ ad.now) × (bound.message ≡ message)) }
    {
        if nonce.len() > CONTEXT_LIMIT || ad.len() > CONTEXT_LIMIT {
            return Err(Refusal::ContextTooLong);
        }
        check_message(message)?;
        Ok(Binding { nonce, ad, message })
    }
}
