//! Why an entry is not added to a net.
use teg_net::NetFault;
use thiserror::Error;

/// Why a builder does not add an entry. It is then as it was before.
#[derive(Clone, Copy, Debug, Drop, PartialEq, Eq, Error)]
pub enum BuildRefusal {
    /// The text is no name: [`teg_net::Name`] tells which texts are.
    #[error("the text is no name")]
    BadName,
    /// With the entry behind the others the lists would be no net: the first rule that they would
    /// break, and where, as [`teg_net::Net::checked`] would tell it.
    #[error("{fault}")]
    Breaks {
        /// The rule, and the number of the entry that breaks it.
        fault: NetFault,
    },
    /// No memory was found.
    #[error("out of memory")]
    OutOfMemory,
}
