//! How a call ends that stopped.

ghost use Rattle.std.specs.Prelude.{◌≡◌};
ghost use Rattle.pst_cli_serving.specs.Serving.{status_of};

use pst_cli_scripts::Stop;
use pst_cli_words::Status;

/// How a call ends that stopped: each cause has a status of its own.
pub fn status_of(stop: Stop) -> Status
    ensures { result ≡ status_of stop }
{
    match stop {
        Stop::Read => Status::ReadFault,
        Stop::Write => Status::WriteFault,
        Stop::TooLong => Status::TooLong,
        Stop::Memory => Status::Memory,
    }
}
