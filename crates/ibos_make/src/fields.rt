// Where the fields of the headers stand, and how long the headers are without options.

// Ethernet (IEEE 802.3, 3.1.1), with a type in place of a length (3.2.6).
pub mod ethernet {
    use std::ops::Range;

    pub const DESTINATION: Range<usize> = 0..6;

    pub const SOURCE: Range<usize> = 6..12;

    pub const TYPE: Range<usize> = 12..14;

    pub const HEADER_LEN: usize = 14;
}

// IPv4 (RFC 791, 3.1).
pub mod ipv4 {
    use std::ops::Range;

    pub const VERSION_IHL: usize = 0;

    pub const TOTAL_LENGTH: Range<usize> = 2..4;

    pub const FLAGS_FRAGMENT_OFFSET: Range<usize> = 6..8;

    pub const TIME_TO_LIVE: usize = 8;

    pub const PROTOCOL: usize = 9;

    pub const CHECKSUM: Range<usize> = 10..12;

    pub const SOURCE_ADDRESS: Range<usize> = 12..16;

    pub const DESTINATION_ADDRESS: Range<usize> = 16..20;

    pub const HEADER_LEN: usize = 20;
}

// TCP (RFC 9293, 3.1).
pub mod tcp {
    use std::ops::Range;

    pub const SOURCE_PORT: Range<usize> = 0..2;

    pub const DESTINATION_PORT: Range<usize> = 2..4;

    pub const SEQUENCE_NUMBER: Range<usize> = 4..8;

    pub const ACKNOWLEDGEMENT_NUMBER: Range<usize> = 8..12;

    pub const DATA_OFFSET: usize = 12;

    pub const FLAGS: usize = 13;

    pub const WINDOW: Range<usize> = 14..16;

    pub const CHECKSUM: Range<usize> = 16..18;

    pub const HEADER_LEN: usize = 20;
}

// UDP (RFC 768).
pub mod udp {
    use std::ops::Range;

    pub const SOURCE_PORT: Range<usize> = 0..2;

    pub const DESTINATION_PORT: Range<usize> = 2..4;

    pub const LENGTH: Range<usize> = 4..6;

    pub const CHECKSUM: Range<usize> = 6..8;

    pub const HEADER_LEN: usize = 8;
}
