// A call under the cipher of a kind: the one place in this program where each kind stands beside its type. A macro, since no closure can be generic
// over the cipher.
macro_rules! under {
    ($kind:expr, $call:ident($($arg:expr),*)) => {
        match $kind {
            CipherKind::Aes128 => $call::<Aes128>($($arg),*),
            CipherKind::Speck128 => $call::<Speck128>($($arg),*),
        }
    };
}

pub(crate) use under;
