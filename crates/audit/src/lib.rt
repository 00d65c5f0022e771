// The audit of a volume: the walk with its claim area, the bitmap, and the report.
#![tactic(auto)]

pub mod audit;
mod bitmap;
mod claims;
mod directories;
mod files;
mod top;
