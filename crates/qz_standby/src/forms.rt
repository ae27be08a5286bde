//! What a new trigger store has of a stream.
ghost use Rattle.std.specs.Prelude.{◌≡◌};
ghost use Rattle.qz_follow.specs.Kept.{keeps_payloads};
ghost use Rattle.qz_standby.specs.Forms.{needs_payloads};

use qz_follow::Keeping;

/// What a new trigger store has of a stream.
#[derive(Clone, Copy, PartialEq, Eq, Debug)]
pub enum Form {
    /// All its entries, one after another.
    Entries,
    /// A snapshot of the tables that its entries leave, in their place.
    Snapshot,
}

impl Form {
    /// What a follower of the stream has to keep for it.
    pub(crate) fn keeping(self) -> Keeping
        ensures { keeps_payloads result ≡ needs_payloads self }
    {
        match self {
            Form::Entries => Keeping::Payloads,
            Form::Snapshot => Keeping::Tables,
        }
    }
}
