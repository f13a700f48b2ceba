// A board's label, and the nonces of its slots.
ghost use Rattle.std.specs.Prelude.{◌≡◌, ◌<◌, ◌≤◌, length, MatchResult};
ghost use Rattle.base.specs.Bytes.{AllBytes};
ghost use Rattle.base.specs.declared.refusals.Refusal.TheVariants.{ContextTooLong};
ghost use Rattle.boards.specs.Contexts.{label_limit, padded_label, context_of};

use base::Refusal;

// the longest label, in bytes
pub const LABEL_LIMIT: usize = 12;

// A label, with zeros behind it up to the longest one's length.
#[derive(Drop)]
pub(crate) struct Label {
    bytes: [u8; LABEL_LIMIT],
    ghost formed: { (length bytes ≡ 12) × AllBytes bytes },
}

impl TryFrom<&[u8]> for Label {
    type Error = Refusal;

    ghost try_from_gives = { λ label result. MatchResult result (λ l. (length label.now ≤ label_limit) × (l.bytes ≡ padded_label label.now)) (λ why. (label_limit < length label.now) × (why ≡ ContextTooLong)) };

    // The label, or ContextTooLong.
    fn try_from(label: &[u8]) -> Result<Label, Refusal> {
        if label.len() > LABEL_LIMIT {
            return Err(Refusal::ContextTooLong);
        }
        let mut bytes = [0u8; LABEL_LIMIT];
        bytes[..label.len()].copy_from_slice(label);
        Ok(Label { bytes })
    }
}

impl Label {
    // The nonce of a slot: its number in four bytes, the lowest first, and the label. That there is such a slot no type of the number
    // alone can say.
    pub(crate) fn nonce(&self, slot: usize) -> [u8; 16]
        requires { slot < 64 }
        ensures { result ≡ (context_of slot self.now.bytes).nonce }
    {
        let mut nonce = [0u8; 16];
        nonce[0..4].copy_from_slice(&(slot as u32).to_le_bytes());
        nonce[4..16].copy_from_slice(&self.bytes);
        nonce
    }
}
