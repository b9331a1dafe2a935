// Why a capture is refused.
ghost use Rattle.std.specs.Prelude.{◌≡◌};

use ibos_kinds::Memory;
use thiserror::Error;

/// A fault of a capture.
#[derive(Clone, Copy, Debug, PartialEq, Eq, Error)]
pub enum CapFault {
    /// The first four bytes are no magic number of pcap, in neither byte order.
    #[error("the file does not begin as a packet capture")]
    Magic,
    /// The frames are of another kind of link than Ethernet.
    #[error("the link type is not 1")]
    Link,
    /// The format has another version.
    #[error("the version is not 2.4")]
    Version,
    /// The bytes end within the header or within an entry.
    #[error("the header or the entry is cut off")]
    Cut,
    /// An entry has more than 262,144 captured bytes.
    #[error("the captured length is more than 262,144 bytes")]
    Long,
    /// The file has more than 67,108,864 bytes.
    #[error("the file has more than 67,108,864 bytes")]
    TooLong,
}

impl CapFault {
    ghost use Rattle.ibos_capture.specs.Faults.{number_of, name_of};

    /// The fault's number, as a refusal prints it.
    pub fn number(self) -> u8
        ensures { result ≡ number_of self }
    {
        match self {
            CapFault::Magic => 1,
            CapFault::Link => 2,
            CapFault::Version => 3,
            CapFault::Cut => 4,
            CapFault::Long => 5,
            CapFault::TooLong => 6,
        }
    }

    /// The fault's name, as a refusal prints it.
    pub fn name(self) -> &'static str
        ensures { result.now ≡ name_of self }
    {
        match self {
            CapFault::Magic => "Magic",
            CapFault::Link => "Link",
            CapFault::Version => "Version",
            CapFault::Cut => "Cut",
            CapFault::Long => "Long",
            CapFault::TooLong => "TooLong",
        }
    }
}

/// Why no capture was read: its first fault and where that is, or out of memory. Entries count
/// from 1, and the header is entry 0.
#[derive(Clone, Copy, Debug, PartialEq, Eq, Error)]
pub enum CaptureFault {
    #[error("entry {entry}: {fault}")]
    At { entry: u32, fault: CapFault },
    #[error("out of memory")]
    Memory,
}

impl From<Memory> for CaptureFault {
    ghost use Rattle.ibos_capture.specs.declared.fault.CaptureFault.TheVariants.{Memory};

    ghost from_gives = { λ _ e. e ≡ Memory };

    fn from(_: Memory) -> Self {
        CaptureFault::Memory
    }
}
