//! The two ends of a context, and how its sender is authenticated.

ghost use Rattle.std.specs.Prelude.{◌≡◌};
ghost use Rattle.key_schedule.specs.Schedule.{mode_id};

/// The end of a context: SetupS makes a sender's, SetupR a recipient's (RFC 9180, 5.1). Their
/// secrets are the same; what they may do with them is the context's affair.
#[derive(Clone, Copy, Debug, PartialEq, Eq)]
pub enum Role {
    /// Encrypts, and exports secrets
    Sender,
    /// Decrypts, and exports secrets
    Recipient,
}

/// How the sender is authenticated (RFC 9180, 5, table 1).
#[derive(Clone, Copy, Debug, PartialEq, Eq)]
pub enum Mode {
    /// mode_base: not at all
    Base,
    /// mode_psk: by a pre-shared key
    Psk,
}

impl Mode {
    // The number that stands for the mode in key_schedule_context.
    pub(crate) fn id(self) -> u8
        ensures { result ≡ mode_id self }
    {
        match self {
            Mode::Base => 0,
            Mode::Psk => 1,
        }
    }
}
