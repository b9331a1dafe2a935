//! The kernel: one call makes one act.
#![tactic(auto)]

mod chrome;
mod cookies;
mod damage;
mod halves;
mod input;
mod instances;
mod kernel;
mod parts;
mod screens;
mod storage;
mod tabs;

pub use kernel::Kernel;
