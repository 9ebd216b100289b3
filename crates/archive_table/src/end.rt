//! Either end of a transfer.

/// The end of a transfer: `S` sends, `R` receives.
#[derive(Drop)]
pub(crate) enum End<S, R> {
    Sending(S),
    Receiving(R),
}
