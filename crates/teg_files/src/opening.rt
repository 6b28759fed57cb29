//! What a file opens: a value that the request goes on with, or a refusal.
ghost use Rattle.std.specs.Prelude.{IfSome};
ghost use Rattle.teg_files.specs.CallMeanings.{RefusesWith, opening_of};
ghost use Rattle.teg_files.specs.Openings.{OpensUnread};

use crate::status::Status;
use std::alloc::Global;
use teg_net::OutOfMemory;
use teg_outside::ShelfFault;
use teg_report::{Answer, Which, report};

/// What a file says, or the status and the text of its refusal.
#[derive(Drop)]
pub enum Opened<T: Drop> {
    Accepted(T),
    Refused(Status, Vec<u8>),
    /// No memory was found.
    Lost,
}

/// A refusal, where its text found memory.
pub fn refused<T: Drop>(status: Status, text: Result<Vec<u8>, OutOfMemory>) -> Opened<T>
    ensures { RefusesWith status text (opening_of result) }
{
    match text {
        Ok(text) => Opened::Refused(status, text),
        Err(_) => Opened::Lost,
    }
}

/// The refusal of a file of which no bytes came.
pub fn unread<T: Drop>(alloc: Global, file: Which, fault: ShelfFault) -> Opened<T>
    ensures { IfSome (opening_of result) (OpensUnread file fault) }
{
    match fault {
        ShelfFault::TooLarge => {
            refused(
                Status::Text,
                report(alloc, None, &Answer::TooLarge { file }),
            )
        }
        ShelfFault::Failed => {
            refused(
                Status::ReadFault,
                report(alloc, None, &Answer::Fault { file }),
            )
        }
        ShelfFault::OutOfMemory => Opened::Lost,
    }
}
