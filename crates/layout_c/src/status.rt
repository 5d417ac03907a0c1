// What a call answers: one number for each way in which it ends.
ghost use Rattle.std.specs.Prelude.{◌≡◌, slice_get};
ghost use Rattle.std.specs.Option.{option_map};
ghost use Rattle.layout_c.specs.Status.{status_code, status_names};

use layout_cli::Status;

/// No reply is a refusal.
pub const DONE: u8 = 0;

/// A reply is a refusal.
pub const REFUSED: u8 = 1;

/// There is no such thing: no session, view, attribute, fraction or words.
pub const NONE: u8 = 2;

/// Reading failed.
pub const READ_FAULT: u8 = 3;

/// Writing failed, or there is no room for the whole reply.
pub const WRITE_FAULT: u8 = 4;

/// Memory was wanting.
pub const OUT_OF_MEMORY: u8 = 5;

/// The input is past its limit.
pub const TOO_LONG: u8 = 6;

/// The version of the library: 10000 * major + 100 * minor + patch, as LAYOUT_VERSION in `layout.h`.
pub const VERSION: u32 = 200;

/// What a status is called.
pub(crate) fn name_of_status(status: u8) -> Option<&'static str>
    ensures { option_map (λ name. name.now) result ≡ slice_get status_names status }
{
    let names = [
        "done",
        "refused",
        "none",
        "read fault",
        "no room",
        "out of memory",
        "too long",
    ];
    names.get(usize::from(status)).copied()
}

/// The number for how a run ended.
pub(crate) fn code_of(status: Status) -> u8
    ensures { result ≡ status_code status }
{
    match status {
        Status::Done => DONE,
        Status::Refused => REFUSED,
        Status::Usage => NONE,
        Status::ReadFault => READ_FAULT,
        Status::WriteFault => WRITE_FAULT,
        Status::OutOfMemory => OUT_OF_MEMORY,
        Status::TooLong => TOO_LONG,
    }
}
