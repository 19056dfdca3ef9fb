// Why the program fails.
ghost use Rattle.std.specs.Prelude.{◌≡◌};
ghost use Rattle.hound_commands.specs.Commands.{failure_of, rejection_of};
ghost use Rattle.hound_commands.specs.declared.error.CommandError.TheVariants.{InputOrOutput, Rejected};

use hound_spec::Error;
use hound_text::TextError;
use std::io;
use thiserror::Error as DeriveError;

/// Why the program ends with status 1; its line on standard error says it.
#[derive(Debug, Drop, DeriveError)]
pub enum CommandError {
    #[error("bad number")]
    BadNumber,
    #[error("input or output failed")]
    InputOrOutput,
    #[error(transparent)]
    Rejected(Error),
}

impl From<Error> for CommandError {
    ghost from_gives = { λ error failure. failure ≡ failure_of error };

    fn from(error: Error) -> CommandError {
        match error {
            Error::IoError(_) => CommandError::InputOrOutput,
            rejection => CommandError::Rejected(rejection),
        }
    }
}

impl From<TextError> for CommandError {
    ghost from_gives = { λ rejection failure. failure ≡ rejection_of rejection };

    fn from(rejection: TextError) -> CommandError {
        match rejection {
            TextError::BadNumber => CommandError::BadNumber,
            TextError::InputOrOutput | TextError::TooLong => CommandError::InputOrOutput,
            TextError::OutOfMemory => CommandError::Rejected(Error::OutOfMemory),
        }
    }
}

impl From<io::Error> for CommandError {
    ghost from_gives = { λ _ failure. failure ≡ InputOrOutput };

    fn from(_: io::Error) -> CommandError {
        CommandError::InputOrOutput
    }
}
