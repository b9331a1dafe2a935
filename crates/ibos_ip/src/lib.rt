//! The view of an IPv4 datagram: its header's fields, read where they stand.
#![tactic(auto)]

mod view;

pub use view::IpView;

#[cfg(test)]
mod tests;
