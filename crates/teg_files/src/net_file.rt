//! The net file: a live net, or why there is none.
ghost use Rattle.std.specs.Prelude.{◌≡◌, IfSome};
ghost use Rattle.teg_outside.specs.Shelves.{replied};
ghost use Rattle.teg_reader.specs.Documents.{document};
ghost use Rattle.teg_reader.specs.PassWalks.{is_memory};
ghost use Rattle.teg_files.specs.CallMeanings.{opening_of};
ghost use Rattle.teg_files.specs.Openings.{OpensNet, OpensDocument, OpensNetLists, read_status};
ghost use Rattle.teg_files.specs.Reads.{OpenedBy};

use crate::fetching::fetch;
use crate::opening::{Opened, refused, unread};
use crate::status::Status;
use std::alloc::Global;
use teg_check::{CheckRefusal, LiveNet, NotHeld};
use teg_net::Net;
use teg_outside::{Shelf, ShelfFault};
use teg_reader::{ReadRefusal, read_net};
use teg_report::{Answer, Which, report};

// A live net, or the refusal of one that has a circuit without tokens.
fn open_live(alloc: Global, net: Net) -> Opened<LiveNet>
    ensures { IfSome (opening_of result) (OpensNetLists net) }
{
    match LiveNet::new(alloc, net) {
        Ok(net) => Opened::Accepted(net),
        Err(NotHeld { net, refusal }) => match refusal {
            CheckRefusal::TokenFree { circuit } => {
                let answer = Answer::TokenFree { circuit: &circuit };
                refused(Status::Net, report(alloc, Some(&net), &answer))
            }
            CheckRefusal::OutOfMemory => Opened::Lost,
        },
    }
}

// The status of a file that says no net.
fn read_status(refusal: &ReadRefusal) -> Status
    ensures { result ≡ read_status refusal.now }
{
    match refusal {
        ReadRefusal::NotToml => Status::Text,
        _ => Status::Net,
    }
}

// Whether no memory was found.
fn is_memory(refusal: &ReadRefusal) -> bool
    ensures { result ≡ is_memory refusal.now }
{
    matches!(refusal, ReadRefusal::OutOfMemory)
}

// The live net that the bytes of a file say, or their refusal.
fn open_document(alloc: Global, bytes: &[u8]) -> Opened<LiveNet>
    ensures { IfSome (opening_of result) (OpensDocument (document bytes.now)) }
{
    match read_net(alloc, bytes) {
        Ok(net) => open_live(alloc, net),
        Err(refusal) => {
            if is_memory(&refusal) {
                Opened::Lost
            } else {
                let answer = Answer::Read { refusal: &refusal };
                refused(read_status(&refusal), report(alloc, None, &answer))
            }
        }
    }
}

// The live net of the file that was read, or its refusal.
fn judge_net(alloc: Global, reply: Result<Vec<u8>, ShelfFault>) -> Opened<LiveNet>
    ensures { IfSome (opening_of result) (OpensNet (replied reply)) }
{
    match reply {
        Ok(bytes) => open_document(alloc, &bytes),
        Err(fault) => unread(alloc, Which::Net, fault),
    }
}

/// The live net in the file of that name, or the refusal of that file.
pub fn open_net<S: Shelf>(alloc: Global, name: &str, shelf: &mut S) -> Opened<LiveNet>
    ensures { OpenedBy OpensNet name.now (S.state shelf.old) (S.state shelf.new)
        (opening_of result) }
{
    let reply = fetch(alloc, name, shelf);
    judge_net(alloc, reply)
}
